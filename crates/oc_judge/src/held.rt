//! What variables hold.
ghost use Rattle.std.specs.Prelude.{◌≡◌, ◌<◌, pos, length, slice_index_or, slice_set, IfOk, IfSome};
ghost use Rattle.oc_meaning.specs.Store.{holding, replaced, value_in};
ghost use Rattle.oc_meaning.specs.Exec.{array_of};
ghost use Rattle.oc_meaning.specs.Eval.{element_of};
ghost use Rattle.oc_steps.specs.Ages.{join_ages};
ghost use Rattle.oc_steps.specs.Sets.{element_by, with_element_by};
ghost use Rattle.oc_judge.specs.Values.{age_view, got_view, value_view};

use crate::age::{Age, Got, Value};
use oc_tree::said::TrapKind;
use std::alloc::{AllocError, Global};
use std::marker::Model;

/// The words of an array, or the one word of a scalar, and one age.
#[derive(Drop)]
pub struct Held {
    words: Vec<i32>,
    age: Age,
}

impl Model for Held {
    ghost use Rattle.oc_meaning.specs.Store as meant;
    ghost use Rattle.oc_judge.specs.Values.{age_view};

    ghost Value = { meant.Held };

    ghost view = { λ a. record { words = a.words.items; samples = age_view a.age } };
}

impl Held {
    /// A variable that holds just this value.
    pub fn holding(alloc: Global, value: Value) -> Result<Held, AllocError>
        ensures { IfOk result (λ h. h ≡ holding (value_view value)) }
    {
        let mut words = Vec::new(alloc);
        words.push(value.number)?;
        Ok(Held {
            words,
            age: value.age,
        })
    }

    /// An array of so many words with this value.
    pub fn array(alloc: Global, initial: i32, words: u32) -> Result<Held, AllocError>
        ensures { IfOk result (λ h. h ≡ array_of initial words) }
    {
        Ok(Held {
            words: vec![in alloc; initial; words as usize]?,
            age: Age::Never,
        })
    }

    /// The same words, of the same age.
    pub fn copy(&self, alloc: Global) -> Result<Held, AllocError>
        ensures { IfOk result (λ h. h ≡ self.now) }
    {
        Ok(Held {
            words: Vec::from_slice(alloc, &self.words)?,
            age: self.age,
        })
    }

    /// The value of a scalar.
    pub fn value(&self) -> Value
        ensures { value_view result ≡ value_in self.now }
    {
        Value {
            number: first(&self.words),
            age: self.age,
        }
    }

    /// Writes a scalar.
    pub fn replace(&mut self, value: Value)
        ensures { self.new ≡ replaced self.old (value_view value) }
    {
        write_word(&mut self.words, 0, value.number);
        self.age = value.age;
    }

    /// Writes an element: the array's samples only grow, by those of this age.
    pub fn write(&mut self, index: usize, word: i32, age: Age)
        ensures { self.new ≡ with_element_by join_ages self.old index word (age_view age) }
    {
        write_word(&mut self.words, index, word);
        self.age = self.age.join(age);
    }

    /// All its words.
    pub fn words(&self) -> &[i32]
        ensures { result.now ≡ self.now.words }
    {
        &self.words
    }

    /// The age of its samples.
    pub fn age(&self) -> Age
        ensures { age_view result ≡ self.now.samples }
    {
        self.age
    }

    /// The element that an index names, which depends on what the array and the index depend on.
    pub fn element(&self, index: Value) -> Got
        ensures { got_view result
            ≡ element_by join_ages self.now (element_of (length self.now.words) index.number)
            (age_view index.age) }
    {
        match element_of(self.words.len(), index.number) {
            Some(at) => Got::Value {
                value: Value {
                    number: self.words[at],
                    age: self.age.join(index.age),
                },
            },
            None => Got::Traps {
                kind: TrapKind::Index,
            },
        }
    }
}

/// Which of so many elements a number names.
pub fn element_of(count: usize, number: i32) -> Option<usize>
    ensures value { result ≡ element_of count number }
    ensures within { IfSome result (λ i. i < count) }
{
    let index = usize::try_from(number).ok()?;
    (index < count).then_some(index)
}

/// The first word, or 0 where there is none.
fn first(words: &[i32]) -> i32
    ensures { result ≡ slice_index_or words.now 0 (pos 0) }
{
    words.first().copied().unwrap_or(0)
}

/// Writes the word at a place, where there is one.
fn write_word(words: &mut Vec<i32>, at: usize, word: i32)
    ensures { words.new.items ≡ slice_set words.old.items at word }
{
    if at < words.len() {
        words[at] = word;
    }
}
