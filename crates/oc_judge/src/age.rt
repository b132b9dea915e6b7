//! Ages of samples, and values.
ghost use Rattle.std.specs.Prelude.{◌≡◌};
ghost use Rattle.oc_steps.specs.Ages.{join_ages};
ghost use Rattle.oc_judge.specs.Values.{age_view, value_view};
ghost use Rattle.oc_meaning.specs.Store.{plain};

use oc_tree::said::TrapKind;

/// What a set of samples amounts to: none, samples behind the same number of outages, or others.
#[derive(Clone, Copy)]
pub enum Age {
    /// It depends on no sample.
    Never,
    /// All its samples were taken behind so many outages.
    Once { outages: u64 },
    /// An outage stands between two of its samples.
    Mixed,
}

impl Age {
    /// The age of two sets together.
    pub fn join(self, other: Age) -> Age
        ensures { age_view result ≡ join_ages (age_view self) (age_view other) }
    {
        match self {
            Age::Never => other,
            Age::Once { outages: a } => match other {
                Age::Never => self,
                Age::Once { outages: b } => { if a == b { self } else { Age::Mixed } }
                Age::Mixed => Age::Mixed,
            },
            Age::Mixed => Age::Mixed,
        }
    }
}

/// A number, and the age of the samples on which it depends.
#[derive(Clone, Copy)]
pub struct Value {
    pub number: i32,
    pub age: Age,
}

impl Value {
    /// A value that depends on no sample.
    pub fn plain(number: i32) -> Value
        ensures { value_view result ≡ plain number }
    {
        Value {
            number,
            age: Age::Never,
        }
    }
}

/// A value, or the kind of the trap.
#[derive(Clone, Copy)]
pub enum Got {
    /// It has this value.
    Value { value: Value },
    /// Its evaluation traps.
    Traps { kind: TrapKind },
}
