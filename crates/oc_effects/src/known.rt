//! What is known of a program at all statements.
ghost use Rattle.std.specs.Prelude.{◌≡◌, ◌<◌, ◌^◌, length, IfOk, IfSome};
ghost use Rattle.oc_tree.specs.View.{program_view};
ghost use Rattle.oc_tree.specs.Calls.{function_place};
ghost use Rattle.oc_tree.specs.Places.{nv_variable};
ghost use Rattle.oc_effects.specs.Effects.{params_at};

use oc_names::table::{Table, function_table};
use oc_tree::name::Name;
use oc_tree::tree::{Param, Program, VarId};
use std::alloc::{AllocError, Global};
use std::marker::Model;

/// The places of names.
fn name_table<'a>(alloc: Global, names: &'a [Name]) -> Result<Table<'a>, AllocError>
    ensures { IfOk result (λ t. t ≡ names.now) }
{
    let mut refs = Vec::new(alloc);
    for name in names {
        refs.push(name)?;
    }
    Table::new(alloc, refs)
}

/// A program, with its functions and its nonvolatile variables by their names. Contracts see it as
/// the program.
#[derive(Drop)]
pub struct Known<'a> {
    program: &'a Program,
    functions: Table<'a>,
    nvs: Table<'a>,
}

impl<'a> Model for Known<'a> {
    ghost use Rattle.std.specs.Prelude.{◌≡◌, ◌<◌, ◌^◌, length};
    ghost use Rattle.std.specs.Coded.{codes};
    ghost use Rattle.oc_tree.specs.Stored.{block_code};
    ghost use Rattle.oc_tree.specs.Tree.{TProgram};
    ghost use Rattle.oc_tree.specs.View.{program_view};
    ghost use Rattle.oc_effects.specs.Known.{KnownTables};

    ghost Value = { TProgram };

    ghost coded = { Prim.hlevel (codes, block_code (Prim.hlevel codes)) };

    ghost view = { λ k. program_view k.program.now };

    ghost invariant = { λ k. KnownTables (program_view k.program.now) k.functions k.nvs };
}

impl<'a> Known<'a> {
    /// The tables of a program.
    pub fn new(alloc: Global, program: &'a Program) -> Result<Known<'a>, AllocError>
        requires functions { length (program_view program.now).functions < 2 ^ 32 }
        requires nvs { length (program_view program.now).names.nvs < 2 ^ 32 }
        ensures { IfOk result (λ k. k ≡ program_view program.now) }
    {
        let functions = function_table(alloc, program.functions.as_slice())?;
        let nvs = name_table(alloc, program.names.nvs.as_slice())?;
        Ok(Known {
            program,
            functions,
            nvs,
        })
    }

    /// The nonvolatile variable of a name.
    pub fn nv(&self, name: &Name) -> Option<VarId>
        ensures { result ≡ nv_variable self.now name.now }
    {
        // For the proof alone: the view or the invariant speaks of this field.
        let _program = self.program;
        let place = self.nvs.place(name)?;
        Some(VarId::Nv {
            index: place as u32,
        })
    }

    /// The place of the function of a name.
    pub fn function(&self, name: &Name) -> Option<u32>
        ensures place { result ≡ function_place self.now.functions name.now }
        ensures below { IfSome result (λ f. f < length self.now.functions) }
    {
        // For the proof alone: the view or the invariant speaks of this field.
        let _program = self.program;
        let place = self.functions.place(name)?;
        Some(place as u32)
    }

    /// The parameters of the function at a place.
    pub fn params(&self, function: u32) -> &'a [Param]
        requires { function < length self.now.functions }
        ensures { result.now ≡ params_at self.now function }
    {
        // For the proof alone: the view or the invariant speaks of this field.
        let _functions = &self.functions;
        let called = &self.program.functions[function as usize];
        called.params.as_slice()
    }
}
