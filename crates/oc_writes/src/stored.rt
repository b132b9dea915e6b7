//! The nonvolatile variables of a program, and which functions assign them.
ghost use Rattle.std.specs.Prelude.{◌≡◌, ◌<◌, ◌+◌, ◌++◌, ℕ, map, length, option_map, OnOk, IfOk, IfSome};
ghost use Rattle.oc_tree.specs.Assigned.{reaches_assign};
ghost use Rattle.oc_tree.specs.View.{function_view, program_view};
ghost use Rattle.oc_effects.specs.View.{called_view};
ghost use Rattle.oc_reach.specs.Marked.{is_in};
ghost use Rattle.oc_writes.specs.Targets.{reaches};
ghost use Rattle.oc_writes.specs.Seen.{stored_from};

use crate::numbers::behind;
use oc_effects::effect::Called;
use oc_reach::assigned::Assigned;
use oc_reach::marks::Marks;
use oc_tree::name::Name;
use oc_tree::tree::{NvDecl, Program};
use std::alloc::{AllocError, Global};
use std::marker::Model;

/// A nonvolatile variable of a program: its number, its first word, its words and its name. The
/// functions that assign it, directly or through others, are at hand where they were asked for at
/// first, else each question works them out.
#[derive(Drop)]
pub struct Stored<'p, 'a> {
    program: &'p Program,
    pub index: u32,
    pub base: u32,
    pub words: u32,
    name: &'p Name,
    assigned: &'a Assigned<'p>,
    assigning: Option<Marks>,
}

impl<'p, 'a> Model for Stored<'p, 'a> {
    ghost use Rattle.std.specs.Prelude.{◌≡◌, ℕ, map, length, IfSome};
    ghost use Rattle.std.specs.Coded.{codes};
    ghost use Rattle.oc_tree.specs.Stored.{block_code};
    ghost use Rattle.oc_tree.specs.View.{function_view, program_view};
    ghost use Rattle.oc_tree.specs.Assigned.{reaches_assign};
    ghost use Rattle.oc_reach.specs.Marked.{is_in};
    ghost use Rattle.oc_writes.specs.Seen.{TStored};

    ghost Value = { TStored };

    ghost coded = { Prim.hlevel (codes, block_code (Prim.hlevel codes)) };

    ghost view = { λ s. record {
      program = program_view s.program.now;
      index = s.index;
      base = s.base;
      words = s.words;
      name = s.name.now;
    } };

    ghost invariant = { λ s. (s.assigned.now ≡ s.program.now.functions.items)
        × IfSome s.assigning (λ m. (m.1 ≡ length s.program.now.functions.items)
        × ((u : ℕ) → is_in m.0 u
        ≡ reaches_assign (map function_view s.program.now.functions.items) s.name.now u)) };
}

impl<'p, 'a> Stored<'p, 'a> {
    /// Whether a function assigns the variable, or one that it calls, directly or through others.
    fn is_assigned_in(&self, alloc: Global, function: usize) -> Result<bool, AllocError>
        requires { function < length self.now.program.functions }
        ensures { IfOk result
            (λ b. b ≡ reaches_assign self.now.program.functions self.now.name function) }
    {
        // For the proof alone: the view or the invariant speaks of this field.
        let _program = self.program;
        match &self.assigning {
            Some(assigning) => Ok(assigning.has(function)),
            None => {
                let assigning = self.assigned.assigning(alloc, self.name)?;
                Ok(assigning.has(function))
            }
        }
    }

    /// Whether the function that is called assigns the variable, or one that it calls, directly or
    /// through others.
    pub fn is_assigned_by(&self, alloc: Global, call: &Option<Called>) -> Result<bool, AllocError>
        ensures { IfOk result
            (λ b. b ≡ reaches self.now.program (option_map called_view call.now) self.now.name) }
    {
        // For the proof alone: the view or the invariant speaks of this field.
        let _name = self.name;
        match call {
            Some(called) => {
                let function = called.function as usize;
                if function < self.program.functions.len() {
                    let reaches = self.is_assigned_in(alloc, function)?;
                    Ok(reaches)
                } else {
                    Ok(false)
                }
            }
            None => Ok(false),
        }
    }
}

/// The functions that assign a variable, where they are asked for.
fn assigning_if(
    alloc: Global,
    assigned: &Assigned,
    name: &Name,
    asked: bool,
) -> Result<Option<Marks>, AllocError>
    ensures { IfOk result (λ o. IfSome o (λ m. (m.1 ≡ length assigned.now)
        × ((u : ℕ) → is_in m.0 u ≡ reaches_assign (map function_view assigned.now) name.now u))) }
{
    if asked {
        let assigning = assigned.assigning(alloc, name)?;
        Ok(Some(assigning))
    } else {
        Ok(None)
    }
}

/// Adds the variables of these names and declarations, the first of which has this number and
/// begins at this word.
fn add_stored<'p, 'a>(
    alloc: Global,
    program: &'p Program,
    assigned: &'a Assigned<'p>,
    asked: bool,
    index: u32,
    base: u32,
    names: &'p [Name],
    nv: &[NvDecl],
    stored: &mut Vec<Stored<'p, 'a>>,
) -> Result<(), AllocError>
    requires { assigned.now ≡ program.now.functions.items }
    ensures { OnOk result
        (stored.new.items ≡ stored.old.items
        ++ stored_from (program_view program.now) index base names.now nv.now) }
{
    match names.split_first() {
        None => Ok(()),
        Some((name, names)) => match nv.split_first() {
            None => Ok(()),
            Some((first, nv)) => {
                let assigning = assigning_if(alloc, assigned, name, asked)?;
                stored.push(Stored {
                    program,
                    index,
                    base,
                    words: first.words,
                    name,
                    assigned,
                    assigning,
                })?;
                let next = behind(index, 1)?;
                let end = behind(base, first.words)?;
                add_stored(
                    alloc, program, assigned, asked, next, end, names, nv, stored,
                )?;
                Ok(())
            }
        },
    }
}

/// The nonvolatile variables of a program; which functions assign them is worked out at once if it
/// is asked for.
pub fn all_stored<'p, 'a>(
    alloc: Global,
    program: &'p Program,
    assigned: &'a Assigned<'p>,
    asked: bool,
) -> Result<Vec<Stored<'p, 'a>>, AllocError>
    requires { assigned.now ≡ program.now.functions.items }
    ensures { IfOk result
        (λ s. s.items
        ≡ stored_from (program_view program.now) 0 0 (program_view program.now).names.nvs
        (program_view program.now).nv) }
{
    let mut stored = Vec::new(alloc);
    let names = program.names.nvs.as_slice();
    let nv = program.nv.as_slice();
    add_stored(
        alloc,
        program,
        assigned,
        asked,
        0,
        0,
        names,
        nv,
        &mut stored,
    )?;
    Ok(stored)
}
