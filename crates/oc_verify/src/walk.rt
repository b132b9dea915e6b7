//! The walk through the code of one function.
ghost use Rattle.std.specs.Prelude.{
  ◌≡◌,
  ◌≢◌,
  ◌≤◌,
  ◌<◌,
  ◌+◌,
  ◌*◌,
  ◌++◌,
  ℕ,
  None,
  Some,
  false,
  true,
  slice_get,
  [],
  ◌∷◌,
  length,
  map,
  reverse,
  IfErr,
  OnOk,
};
ghost use Rattle.oc_isa.specs.declared.instr.Placed.{Placed};
ghost use Rattle.oc_verify.specs.Blames.{BlamesIn, fault_at};
ghost use Rattle.oc_verify.specs.Facts.{IsNamed, crowds, scene_kinds};
ghost use Rattle.oc_verify.specs.Own.{own_list};
ghost use Rattle.oc_verify.specs.Rules.{code_at, names_exist, own_slots, successors};
ghost use Rattle.oc_verify.specs.Tables.{AreCells, KeepsOthers, blanks};
ghost use Rattle.oc_verify.specs.Walks.{IsWalkOf, table_marks};
ghost use Rattle.oc_verify.specs.Told.{AreIn, kind_of, pair_of};
ghost use Rattle.oc_verify.specs.declared.fault.VerifyError.TheVariants as errors;

use crate::facts::Facts;
use crate::fault::{Fault, VerifyError};
use crate::judge::judge;
use crate::slots::Slots;
use crate::stacks::Stacks;
use oc_io::Memory;
use oc_isa::instr::Instr;
use std::alloc::Global;
use std::marker::Model;

/// The kinds and the open regions at each address that was looked at, by numbers of stacks.
#[derive(Drop)]
pub struct Table {
    pub tops: Stacks,
    pub regions: Stacks,
    pub cells: Vec<Option<(u32, u32)>>,
}

impl Table {
    /// Whether two pairs of stacks are the same.
    fn is_same(&self, left: (u32, u32), right: (u32, u32)) -> bool
        requires left { AreIn self.now.tops self.now.regions left }
        requires right { AreIn self.now.tops self.now.regions right }
        ensures same { result ≡ true → left ≡ right }
        ensures differ { result ≡ false
            → pair_of self.now.tops self.now.regions left
            ≢ pair_of self.now.tops self.now.regions right }
    {
        self.tops.is_same(left.0, right.0) && self.regions.is_same(left.1, right.1)
    }
}

/// An address that is still to be looked at.
type Todo = (u32, (u32, u32));

impl From<Memory> for VerifyError {
    ghost from_gives = { λ _ e. e ≡ errors.Memory };

    fn from(_: Memory) -> VerifyError {
        VerifyError::Memory
    }
}

/// Adds an address that is still to be looked at, with this pair.
fn push(todo: &mut Vec<Todo>, at: u32, pair: (u32, u32)) -> Result<(), Memory>
    ensures { OnOk result (todo.new.items ≡ todo.old.items ++ (at, pair) ∷ []) }
{
    if todo.push((at, pair)).is_err() {
        return Err(Memory);
    }
    Ok(())
}

/// A fault at an address.
fn fault_at(at: u32, fault: Fault) -> VerifyError
    ensures { result ≡ fault_at at fault }
{
    match fault {
        Fault::Broken { rule } => VerifyError::Refused { at, rule },
        Fault::Memory => VerifyError::Memory,
    }
}

/// Where an instruction goes on, with this pair.
fn go_on(todo: &mut Vec<Todo>, instr: Instr, at: u32, pair: (u32, u32)) -> Result<(), Memory>
    requires { at < 2147483648 }
    ensures { OnOk result (todo.new.items
        ≡ todo.old.items ++ reverse (map (λ b. (b, pair)) (successors instr at))) }
{
    match instr {
        Instr::Jump { t } => push(todo, t, pair),
        Instr::Jfalse { t } => {
            push(todo, at + 1, pair)?;
            push(todo, t, pair)
        }
        Instr::Ret { .. } | Instr::Retv { .. } | Instr::Halt => Ok(()),
        _ => push(todo, at + 1, pair),
    }
}

/// The walk through the code of a function that has these slots.
#[derive(Drop)]
pub struct Walk<'a, 'i, 's> {
    facts: &'a Facts<'i>,
    function: usize,
    slots: &'a Slots<'s>,
}

impl<'a, 'i, 's> Model for Walk<'a, 'i, 's> {
    ghost use Rattle.std.specs.Prelude.{◌≡◌, ◌<◌, length, map};
    ghost use Rattle.oc_verify.specs.Facts.{IsNamed, Scene};
    ghost use Rattle.oc_verify.specs.Own.{own_list};
    ghost use Rattle.oc_verify.specs.Rules.{own_slots};
    ghost use Rattle.oc_verify.specs.Told.{AreIn, kind_of, pair_of};

    ghost Value = { Scene };

    ghost view = { λ w. record {
      image = w.facts.now;
      function = w.function;
      codes = w.slots.now.codes;
    } };

    ghost invariant = { λ w. (w.function < length w.facts.now.functions)
        × (own_list w.slots.now
        ≡ own_slots w.facts.now w.function (map kind_of w.slots.now.codes))
        × IsNamed w.facts.now w.function };
}

impl<'a, 'i, 's> Walk<'a, 'i, 's> {
    /// The walk through the code of this function.
    pub fn new(facts: &'a Facts<'i>, function: usize, slots: &'a Slots<'s>) -> Walk<'a, 'i, 's>
        requires function { function < length facts.now.functions }
        requires slots { own_list slots.now ≡ own_slots facts.now function
            (map kind_of slots.now.codes) }
        requires named { IsNamed facts.now function }
        ensures { result
            ≡ record { image = facts.now; function = function; codes = slots.now.codes } }
    {
        Walk {
            facts,
            function,
            slots,
        }
    }

    /// Whether a call has more arguments than the stack of the machine has words.
    fn is_crowded(&self, instr: Instr) -> bool
        requires { names_exist self.now.image self.now.function instr ≡ true }
        ensures { result ≡ crowds self.now.image instr }
    {
        match instr {
            Instr::Call { f } => self.facts.params(f as usize) > self.facts.image().stack,
            _ => false,
        }
    }

    /// Looks at an address for the first time.
    fn look(
        &self,
        table: &mut Table,
        todo: &mut Vec<Todo>,
        at: u32,
        pair: (u32, u32),
    ) -> Result<(), VerifyError>
        requires walk { IsWalkOf self.now table.old (todo.old.items ++ (at, pair) ∷ []) }
        requires blank { slice_get table.old.cells.items at ≡ Some None }
        requires inside { (x : Placed) × (code_at self.now.image self.now.function at ≡ Some x) }
        ensures walk { OnOk result (IsWalkOf self.now table.new todo.new.items) }
        ensures others { OnOk result (KeepsOthers self.now.image self.now.function
            (table_marks table.old) (table_marks table.new)) }
        ensures less { OnOk result (2 * blanks table.new.cells.items + length todo.new.items
            ≤ 2 * blanks table.old.cells.items + length todo.old.items) }
        ensures blames { IfErr result
            (BlamesIn self.now.image self.now.function (scene_kinds self.now)) }
    {
        let instr = self.facts.image().code[at as usize].instr;
        match judge(
            &mut table.tops,
            &mut table.regions,
            self.facts,
            self.slots,
            self.function,
            instr,
            pair,
        ) {
            Ok(after) => {
                if self.is_crowded(instr) {
                    return Err(VerifyError::Refused { at: 0, rule: 11 });
                }
                table.cells[at as usize] = Some(pair);
                go_on(todo, instr, at, after)?;
                Ok(())
            }
            Err(fault) => Err(fault_at(at, fault)),
        }
    }

    /// Looks at an address, which must be in the function's code, and must have the same pair
    /// each time.
    fn visit(
        &self,
        table: &mut Table,
        todo: &mut Vec<Todo>,
        at: u32,
        pair: (u32, u32),
    ) -> Result<(), VerifyError>
        requires { IsWalkOf self.now table.old (todo.old.items ++ (at, pair) ∷ []) }
        ensures walk { OnOk result (IsWalkOf self.now table.new todo.new.items) }
        ensures others { OnOk result (KeepsOthers self.now.image self.now.function
            (table_marks table.old) (table_marks table.new)) }
        ensures less { OnOk result (2 * blanks table.new.cells.items + length todo.new.items
            ≤ 2 * blanks table.old.cells.items + length todo.old.items) }
        ensures blames { IfErr result
            (BlamesIn self.now.image self.now.function (scene_kinds self.now)) }
    {
        let (entry, end) = self.facts.stretch(self.function);
        if (at as usize) < entry || end <= at as usize {
            return Err(VerifyError::Refused { at, rule: 2 });
        }
        match table.cells[at as usize] {
            Some(old) => {
                if table.is_same(old, pair) {
                    Ok(())
                } else {
                    Err(VerifyError::Refused { at, rule: 10 })
                }
            }
            None => self.look(table, todo, at, pair),
        }
    }

    /// Looks at all that the function reaches from its entry.
    pub fn run(&self, alloc: Global, table: &mut Table) -> Result<(), VerifyError>
        requires sized { length table.old.cells.items ≡ length self.now.image.code }
        requires cells { AreCells table.old.tops table.old.regions table.old.cells.items }
        requires blank { (a : ℕ) (x : Placed)
            → code_at self.now.image self.now.function a ≡ Some x
            → table_marks table.old a ≡ None }
        ensures walk { OnOk result (IsWalkOf self.now table.new []) }
        ensures others { OnOk result (KeepsOthers self.now.image self.now.function
            (table_marks table.old) (table_marks table.new)) }
        ensures blames { IfErr result
            (BlamesIn self.now.image self.now.function (scene_kinds self.now)) }
    {
        let entry = self.facts.image().functions[self.function].entry;
        let mut todo = Vec::new(alloc);
        push(&mut todo, entry, (0, 0))?;
        while let Some((at, pair)) = todo.pop() {
            self.visit(table, &mut todo, at, pair)?;
        }
        Ok(())
    }
}
