//! Values.
ghost use Rattle.std.specs.Prelude.{◌≡◌, IfOk};
ghost use Rattle.oc_tree.specs.Samples.{union};
ghost use Rattle.oc_meaning.specs.Store.{plain};

use crate::samples::Samples;
use oc_tree::said::TrapKind;
use std::alloc::{AllocError, Global};
use std::marker::Model;

/// A number, and the samples on which it depends.
#[derive(Drop)]
pub struct Value {
    number: i32,
    samples: Samples,
}

impl Model for Value {
    ghost Value = { Rattle.oc_meaning.specs.Store.Value };

    ghost view = { λ a. record { num = a.number; samples = a.samples } };
}

/// A value, or the kind of the trap.
#[derive(Drop)]
pub enum Got {
    /// It has this value.
    Value { value: Value },
    /// Its evaluation traps.
    Traps { kind: TrapKind },
}

impl Value {
    /// A number with these samples.
    pub fn new(number: i32, samples: Samples) -> Value
        ensures { result ≡ record { num = number; samples = samples } }
    {
        Value { number, samples }
    }

    /// A value that depends on no sample.
    pub fn plain(alloc: Global, number: i32) -> Value
        ensures { result ≡ plain number }
    {
        Value {
            number,
            samples: Samples::none(alloc),
        }
    }

    /// Its number.
    pub fn number(&self) -> i32
        ensures { result ≡ self.now.num }
    {
        self.number
    }

    /// The samples on which it depends.
    pub fn samples(&self) -> &Samples
        ensures { result.now ≡ self.now.samples }
    {
        &self.samples
    }

    /// Just its samples.
    pub fn into_samples(self) -> Samples
        ensures { result ≡ self.samples }
    {
        self.samples
    }

    /// A value that depends on these samples too.
    pub fn depend_on(self, samples: &Samples) -> Result<Value, AllocError>
        ensures { IfOk result (λ v. v
            ≡ record { num = self.num; samples = union samples.now self.samples }) }
    {
        Ok(Value {
            number: self.number,
            samples: samples.union(self.samples)?,
        })
    }
}
