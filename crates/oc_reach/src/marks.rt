//! Numbers that are marked.
ghost use Rattle.std.specs.Prelude.{◌≡◌, ◌<◌, ◌^◌, ℕ, List, [], true, false, length, OnOk, IfOk};
ghost use Rattle.std.proofs.Math.ListN.{get_or};
ghost use Rattle.oc_reach.specs.Marked.{is_in, add, add_all};

use std::alloc::{AllocError, Global};
use std::marker::Model;

/// Marked numbers below a bound: contracts see the list of them, in the order of marking, and the
/// bound.
#[derive(Drop)]
pub struct Marks {
    seen: Vec<bool>,
    order: Vec<usize>,
}

impl Model for Marks {
    ghost Value = { List ℕ × ℕ };

    ghost view = { λ m. (m.order.items, length m.seen.items) };

    ghost invariant = { λ m. (v : ℕ) → get_or m.seen.items v false ≡ is_in m.order.items v };
}

impl Marks {
    /// No number below `bound` is marked.
    pub fn new(alloc: Global, bound: usize) -> Result<Marks, AllocError>
        ensures { IfOk result (λ m. m ≡ ([], bound)) }
    {
        Ok(Marks {
            seen: vec![in alloc; false; bound]?,
            order: Vec::new(alloc),
        })
    }

    /// Marks the numbers of the tests that pass.
    pub fn of(alloc: Global, tests: &[bool]) -> Result<Marks, AllocError>
        ensures bound { IfOk result (λ m. m.1 ≡ length tests.now) }
        ensures marked { IfOk result (λ m. (v : ℕ) → is_in m.0 v ≡ get_or tests.now v false) }
    {
        let mut marks = Marks::new(alloc, tests.len())?;
        for (i, test) in tests.iter().enumerate() {
            if *test {
                marks.mark(i)?;
            }
        }
        Ok(marks)
    }

    /// How many are marked.
    pub fn len(&self) -> usize
        ensures len { result ≡ length self.now.0 }
        ensures small { result < 2 ^ 63 }
    {
        self.order.len()
    }

    /// The number that was marked as the one at `place`.
    pub fn at(&self, place: usize) -> usize
        requires { place < length self.now.0 }
        ensures { result ≡ get_or self.now.0 place 0 }
    {
        self.order[place]
    }

    /// Whether a number is marked.
    pub fn has(&self, number: usize) -> bool
        requires { number < self.now.1 }
        ensures { result ≡ is_in self.now.0 number }
    {
        self.seen[number]
    }

    /// Marks a number.
    pub fn mark(&mut self, number: usize) -> Result<(), AllocError>
        requires { number < self.old.1 }
        ensures { OnOk result (self.new ≡ (add self.old.0 number, self.old.1)) }
    {
        if !self.seen[number] {
            self.order.push(number)?;
            self.seen[number] = true;
        }
        Ok(())
    }

    /// Marks numbers.
    pub fn mark_all(&mut self, numbers: &[usize]) -> Result<(), AllocError>
        requires { (v : ℕ) → is_in numbers.now v ≡ true → v < self.old.1 }
        ensures { OnOk result (self.new ≡ (add_all self.old.0 numbers.now, self.old.1)) }
    {
        for number in numbers {
            self.mark(*number)?;
        }
        Ok(())
    }
}
