//! The variables of a function by numbers.
ghost use Rattle.std.specs.Prelude.{◌≡◌, ◌<◌, ◌^◌, ℕ, length, replicate, Option, Some, None, cond, nat_eq, OnOk, IfOk, IfSome};
ghost use Rattle.std.specs.Option.{option_or};
ghost use Rattle.std.proofs.Math.ListN.{get_or};
ghost use Rattle.oc_tree.specs.declared.tree.VarId.{VarId};
ghost use Rattle.oc_flow.specs.Variables.{is_among, same_variable};
ghost use Rattle.oc_flow.specs.Known.{Entries, entry_of, number_in, slot};

use oc_tree::tree::VarId;
use std::alloc::{AllocError, Global};
use std::marker::Model;

/// Whether both are the same variable.
pub fn is_same(a: VarId, b: VarId) -> bool
    ensures { result ≡ same_variable a b }
{
    a == b
}

/// Whether a variable is one of these.
pub fn is_among(v: VarId, variables: &[VarId]) -> bool
    ensures { result ≡ is_among v variables.now }
{
    variables.iter().any(|w| is_same(v, *w))
}

/// Different variables have different slots.
fn slot(v: VarId) -> usize
    ensures slot { result ≡ slot v }
    ensures small { result < 2 ^ 34 }
{
    match v {
        VarId::Nv { index } => 3 * index as usize + 1,
        VarId::Param { index } => 3 * index as usize + 2,
        VarId::Declared { stmt } => 3 * stmt as usize + 3,
        VarId::Returned => 0,
    }
}

/// A number as a `u32`; a list that is too long for that counts as one that there is no memory for.
fn short(number: usize) -> Result<u32, AllocError>
    ensures { IfOk result (λ n. n ≡ number) }
{
    match u32::try_from(number) {
        Ok(number) => Ok(number),
        Err(_) => Err(AllocError),
    }
}

/// A number above the slots of variables.
fn room_for(variables: &[VarId]) -> usize
    ensures { (i : ℕ) (v : VarId) → i < length variables.now
        → slot (get_or variables.now i v) < result }
{
    let mut room = 0;
    for v in variables {
        room = room.max(slot(*v) + 1);
    }
    room
}

/// The number at each slot, where there is one.
#[derive(Drop)]
struct Numbers {
    places: Vec<Option<u32>>,
}

impl Model for Numbers {
    ghost Value = { Entries };

    ghost view = { λ s. s.places.items };
}

impl Numbers {
    /// No number yet, with room for so many slots.
    fn new(alloc: Global, room: usize) -> Result<Numbers, AllocError>
        ensures { IfOk result (λ n. n ≡ replicate room None) }
    {
        let places = vec![in alloc; None; room]?;
        Ok(Numbers { places })
    }

    /// The number at a slot, where there is one.
    fn get(&self, slot: usize) -> Option<usize>
        ensures { result ≡ entry_of self.now slot }
    {
        if slot >= self.places.len() {
            return None;
        }
        match self.places[slot] {
            Some(number) => Some(number as usize),
            None => None,
        }
    }

    /// Keeps a number at a slot that there is room for.
    fn put(&mut self, slot: usize, number: u32)
        requires { slot < length self.old }
        ensures room { length self.new ≡ length self.old }
        ensures entry { (x : ℕ)
            → entry_of self.new x ≡ cond (nat_eq x slot) (Some number) (entry_of self.old x) }
    {
        self.places[slot] = Some(number);
    }

    /// Adds a slot, unless it is there.
    fn add_first(&mut self, slot: usize, number: usize) -> Result<(), AllocError>
        requires { slot < length self.old }
        ensures room { length self.new ≡ length self.old }
        ensures entry { OnOk result ((x : ℕ) (rest : Option ℕ)
            → option_or (entry_of self.new x) rest
            ≡ option_or (entry_of self.old x) (cond (nat_eq x slot) (Some number) rest)) }
    {
        match self.get(slot) {
            Some(_) => Ok(()),
            None => {
                let number = short(number)?;
                self.put(slot, number);
                Ok(())
            }
        }
    }
}

/// The numbers of these variables by their slots, in their order; of several that are the same that
/// of the first. Err is want of memory.
fn numbers_of(alloc: Global, variables: &[VarId]) -> Result<Numbers, AllocError>
    ensures { IfOk result (λ m. (v : VarId) → entry_of m (slot v) ≡ number_in variables.now v) }
{
    let mut numbers = Numbers::new(alloc, room_for(variables))?;
    for (i, v) in variables.iter().enumerate() {
        numbers.add_first(slot(*v), i)?;
    }
    Ok(numbers)
}

/// A list of variables by their places, which contracts see as the list.
#[derive(Drop)]
pub struct Numbering {
    variables: Vec<VarId>,
    numbers: Numbers,
}

impl Model for Numbering {
    ghost use Rattle.std.specs.Prelude.{◌≡◌, List};
    ghost use Rattle.oc_tree.specs.declared.tree.VarId.{VarId};
    ghost use Rattle.oc_flow.specs.Known.{entry_of, number_in, slot};

    ghost Value = { List VarId };

    ghost view = { λ n. n.variables.items };

    ghost invariant = { λ n. (v : VarId) → entry_of n.numbers (slot v)
        ≡ number_in n.variables.items v };
}

impl Numbering {
    /// These variables, numbered in their order.
    pub fn new(alloc: Global, variables: Vec<VarId>) -> Result<Numbering, AllocError>
        ensures { IfOk result (λ n. n ≡ variables.items) }
    {
        let numbers = numbers_of(alloc, variables.as_slice())?;
        Ok(Numbering { variables, numbers })
    }

    /// The variables in the order of their numbers.
    pub fn variables(&self) -> &[VarId]
        ensures { result.now ≡ self.now }
    {
        // For the proof alone: the view or the invariant speaks of this field.
        let _numbers = &self.numbers;
        self.variables.as_slice()
    }

    /// The number of a variable; none where it is not in the list.
    pub fn number(&self, v: VarId) -> Option<usize>
        ensures number { result ≡ number_in self.now v }
        ensures below { IfSome result (λ i. i < length self.now) }
    {
        // For the proof alone: the view or the invariant speaks of this field.
        let _variables = &self.variables;
        self.numbers.get(slot(v))
    }
}
