//! What variables hold.
ghost use Rattle.std.specs.Prelude.{◌≡◌, ◌<◌, pos, length, slice_index_or, slice_set, IfOk, IfSome, OnErr, OnOk};
ghost use Rattle.oc_meaning.specs.Store.{holding, replaced, value_in, with_element};
ghost use Rattle.oc_meaning.specs.Exec.{array_of};
ghost use Rattle.oc_meaning.specs.Eval.{read_element, element_of};
ghost use Rattle.oc_interpreter.specs.Seen.{got_view};

use crate::samples::Samples;
use crate::value::{Got, Value};
use oc_tree::said::TrapKind;
use std::alloc::{AllocError, Global};
use std::marker::Model;

/// The words of an array, or the one word of a scalar, and one set of samples.
#[derive(Drop)]
pub struct Held {
    words: Vec<i32>,
    samples: Samples,
}

impl Model for Held {
    ghost Value = { Rattle.oc_meaning.specs.Store.Held };

    ghost view = { λ a. record { words = a.words.items; samples = a.samples } };
}

impl Held {
    /// A variable that holds just this value.
    pub fn holding(alloc: Global, value: Value) -> Result<Held, AllocError>
        ensures { IfOk result (λ h. h ≡ holding value) }
    {
        let mut words = Vec::new(alloc);
        words.push(value.number())?;
        Ok(Held {
            words,
            samples: value.into_samples(),
        })
    }

    /// An array of so many words with this value.
    pub fn array(alloc: Global, initial: i32, words: u32) -> Result<Held, AllocError>
        ensures { IfOk result (λ h. h ≡ array_of initial words) }
    {
        Ok(Held {
            words: vec![in alloc; initial; words as usize]?,
            samples: Samples::none(alloc),
        })
    }

    /// The value of a scalar.
    pub fn value(&self) -> Result<Value, AllocError>
        ensures { IfOk result (λ v. v ≡ value_in self.now) }
    {
        Ok(Value::new(first(&self.words), self.samples.copy()?))
    }

    /// Writes a scalar.
    pub fn replace(&mut self, value: Value)
        ensures { self.new ≡ replaced self.old value }
    {
        write_word(&mut self.words, 0, value.number());
        self.samples = value.into_samples();
    }

    /// Writes an element: the array's samples only grow, by these.
    pub fn write(&mut self, index: usize, word: i32, samples: Samples) -> Result<(), AllocError>
        ensures step { OnOk result (self.new ≡ with_element self.old index word samples) }
        ensures kept { OnErr result (self.new ≡ self.old) }
    {
        let all = self.samples.union(samples)?;
        write_word(&mut self.words, index, word);
        self.samples = all;
        Ok(())
    }

    /// All its words.
    pub fn words(&self) -> &[i32]
        ensures { result.now ≡ self.now.words }
    {
        &self.words
    }

    /// The samples on which it depends.
    pub fn samples(&self) -> &Samples
        ensures { result.now ≡ self.now.samples }
    {
        &self.samples
    }

    /// The element that an index names, which depends on what the array and the index depend on.
    pub fn element(&self, index: Value) -> Result<Got, AllocError>
        ensures { IfOk result
            (λ g. got_view g
            ≡ read_element self.now (element_of (length self.now.words) index.num) index.samples) }
    {
        let Some(at) = element_of(self.words.len(), index.number()) else {
            return Ok(Got::Traps {
                kind: TrapKind::Index,
            });
        };
        let samples = self.samples.union(index.into_samples())?;
        Ok(Got::Value {
            value: Value::new(self.words[at], samples),
        })
    }
}

/// Which of so many elements a number names.
pub fn element_of(count: usize, number: i32) -> Option<usize>
    ensures value { result ≡ element_of count number }
    ensures within { IfSome result (λ i. i < count) }
{
    let index = usize::try_from(number).ok()?;
    (index < count).then_some(index)
}

/// The first word, or 0 where there is none.
fn first(words: &[i32]) -> i32
    ensures { result ≡ slice_index_or words.now 0 (pos 0) }
{
    words.first().copied().unwrap_or(0)
}

/// Writes the word at a place, where there is one.
fn write_word(words: &mut Vec<i32>, at: usize, word: i32)
    ensures { words.new.items ≡ slice_set words.old.items at word }
{
    if at < words.len() {
        words[at] = word;
    }
}
