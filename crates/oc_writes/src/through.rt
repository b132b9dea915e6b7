//! Which parameters are assigned through, and what statements assign by passing references.
ghost use Rattle.std.specs.Prelude.{◌≡◌, ◌<◌, ◌^◌, map, option_map, IfOk};
ghost use Rattle.oc_tree.specs.View.{program_view};
ghost use Rattle.oc_tree.specs.Assigned.{first_param, param_assigned};
ghost use Rattle.oc_effects.specs.View.{called_view, effect_view, passed_view};
ghost use Rattle.oc_writes.specs.Targets.{assigns, call_assigns, lends};

use oc_effects::effect::{Called, Effect, Passed};
use oc_flow::known::is_variable_of;
use oc_reach::assigned::assigned_params;
use oc_reach::calls::Calls;
use oc_reach::marks::Marks;
use oc_reach::params::Params;
use oc_tree::tree::{Program, VarId};
use std::alloc::{AllocError, Global};
use std::marker::Model;

/// A program, which contracts see as it is, with the parameters that are assigned through.
#[derive(Drop)]
pub struct Through<'a> {
    program: &'a Program,
    params: Params<'a>,
    marks: Marks,
}

impl<'a> Model for Through<'a> {
    ghost use Rattle.std.specs.Prelude.{◌≡◌, ℕ, map};
    ghost use Rattle.std.specs.Coded.{codes};
    ghost use Rattle.oc_tree.specs.Stored.{block_code};
    ghost use Rattle.oc_tree.specs.Tree.{TProgram};
    ghost use Rattle.oc_tree.specs.View.{function_view, program_view};
    ghost use Rattle.oc_tree.specs.Assigned.{param_assigned, param_count};
    ghost use Rattle.oc_reach.specs.Marked.{is_in};

    ghost Value = { TProgram };

    ghost coded = { Prim.hlevel (codes, block_code (Prim.hlevel codes)) };

    ghost view = { λ t. program_view t.program.now };

    ghost invariant = { λ t. (t.params ≡ t.program.now.functions.items)
        × (t.marks.1 ≡ param_count (map function_view t.program.now.functions.items))
        × ((n : ℕ) → is_in t.marks.0 n
        ≡ param_assigned (map function_view t.program.now.functions.items) n) };
}

impl<'a> Through<'a> {
    /// What is assigned through the parameters of a program whose calls are these.
    pub fn new(
        alloc: Global,
        calls: &Calls,
        program: &'a Program,
    ) -> Result<Through<'a>, AllocError>
        requires { calls.now ≡ program.now.functions.items }
        ensures { IfOk result (λ t. t ≡ program_view program.now) }
    {
        let functions = program.functions.as_slice();
        let params = Params::new(alloc, functions)?;
        let marks = assigned_params(alloc, calls, &params, functions)?;
        Ok(Through {
            program,
            params,
            marks,
        })
    }

    /// Whether the parameter of a number is assigned through.
    fn has(&self, number: usize) -> bool
        ensures { result ≡ param_assigned self.now.functions number }
    {
        // For the proof alone: the view or the invariant speaks of this field.
        let _program = self.program;
        number < self.params.count() && self.marks.has(number)
    }

    /// The number of a function's first parameter.
    fn first(&self, function: usize) -> usize
        ensures first { result ≡ first_param self.now.functions function }
        ensures small { result < 2 ^ 63 }
    {
        if function < self.program.functions.len() {
            self.params.first(function)
        } else {
            0
        }
    }

    /// Whether arguments, the first of which has this number among all parameters, lend the variable
    /// to a parameter that is assigned through.
    fn lends(&self, first: usize, args: &[Passed], var: VarId) -> bool
        requires { first < 2 ^ 63 }
        ensures { result ≡ lends self.now first (map passed_view args.now) var }
    {
        for (i, arg) in args.iter().enumerate() {
            if is_variable_of(arg.lent, var) && self.has(first + i) {
                return true;
            }
        }
        false
    }

    /// Whether a call, if there is one, lends the variable to a parameter that the called function
    /// assigns through, itself or by what it calls.
    fn call_assigns(&self, call: &Option<Called>, var: VarId) -> bool
        ensures { result ≡ call_assigns self.now (option_map called_view call.now) var }
    {
        match call {
            Some(called) => {
                let first = self.first(called.function as usize);
                self.lends(first, called.args.as_slice(), var)
            }
            None => false,
        }
    }

    /// Whether a statement assigns the variable, or lends it to a function that assigns it.
    pub fn assigns(&self, effect: &Effect, var: VarId) -> bool
        ensures { result ≡ assigns self.now var (effect_view effect.now) }
    {
        is_variable_of(effect.target, var) || self.call_assigns(&effect.call, var)
    }
}
