//! Which functions assign a nonvolatile variable, themselves or through references that they pass.
ghost use Rattle.std.specs.Prelude.{◌≡◌, ◌<◌, ℕ, [], Some, List, map, length, IfOk};
ghost use Rattle.std.specs.List.{list_any};
ghost use Rattle.oc_tree.specs.View.{arg_view, args_view, call_view, function_view, kind_view};
ghost use Rattle.oc_tree.specs.declared.tree.Function.{Function};
ghost use Rattle.oc_tree.specs.Assigned.{arg_assigns, args_assign, call_assigns, function_assigns, is_target, own_assigns, param_assigned, param_count, pass_links, reaches_assign, writes_from};
ghost use Rattle.oc_reach.specs.Marked.{is_in, add_all};
ghost use Rattle.oc_reach.specs.Views.{calls_seen, kinds_seen};

use crate::calls::{Calls, has_param};
use crate::marks::Marks;
use crate::params::Params;
use crate::parts::{function_kinds, own_calls};
use crate::passes::{pass_links, writes_of};
use crate::reach::Reach;
use oc_tree::name::Name;
use oc_tree::tree::{Arg, Call, Function, StmtKind};
use std::alloc::{AllocError, Global};
use std::marker::Model;

/// Which parameters are passed on to which by these functions, whose calls and parameters are at
/// hand. Err is want of memory.
fn pass_reach(
    alloc: Global,
    calls: &Calls,
    params: &Params,
    functions: &[Function],
) -> Result<Reach, AllocError>
    requires calls { calls.now ≡ params.now }
    requires params { functions.now ≡ params.now }
    ensures { IfOk result
        (λ r. r
        ≡ (
          pass_links (map function_view functions.now),
          param_count
              (map function_view functions.now),
        )) }
{
    let links = pass_links(alloc, calls, params, functions)?;
    let count = params.count();
    Reach::new(alloc, count, links)
}

/// Marks the parameters that functions write through themselves. Err is want of memory.
fn written_params(
    alloc: Global,
    params: &Params,
    functions: &[Function],
) -> Result<Marks, AllocError>
    requires params { functions.now ≡ params.now }
    ensures bound { IfOk result (λ m. m.1 ≡ param_count (map function_view functions.now)) }
    ensures marks { IfOk result
        (λ m. m.0 ≡ add_all []
        (writes_from (map function_view functions.now) 0 (map function_view functions.now))) }
{
    let writes = writes_of(alloc, params, functions)?;
    let count = params.count();
    let mut marks = Marks::new(alloc, count)?;
    marks.mark_all(writes.as_slice())?;
    Ok(marks)
}

/// Marks the parameters that are assigned through, themselves or by functions that they are passed to.
pub fn assigned_params(
    alloc: Global,
    calls: &Calls,
    params: &Params,
    functions: &[Function],
) -> Result<Marks, AllocError>
    requires calls { calls.now ≡ params.now }
    requires params { functions.now ≡ params.now }
    ensures bound { IfOk result (λ m. m.1 ≡ param_count (map function_view functions.now)) }
    ensures marked { IfOk result (λ m. (n : ℕ)
        → is_in m.0 n ≡ param_assigned (map function_view functions.now) n) }
{
    let reach = pass_reach(alloc, calls, params, functions)?;
    let marks = written_params(alloc, params, functions)?;
    let back = reach.mark_back(marks)?;
    Ok(back)
}

/// Whether a statement assigns the variable of this name, or an element of it; not so through a
/// reference.
fn is_target(kind: &StmtKind, name: &Name) -> bool
    ensures { result ≡ is_target name.now (kind_view kind.now) }
{
    match kind {
        StmtKind::Assign { name: other, .. } | StmtKind::AssignIndex { name: other, .. } => name.is(
            other,
        ),
        _ => false,
    }
}

/// The functions of a program, which contracts see as their list, with what they assign.
#[derive(Drop)]
pub struct Assigned<'a> {
    calls: Calls<'a>,
    params: Params<'a>,
    functions: &'a [Function],
    marks: Marks,
}

impl<'a> Model for Assigned<'a> {
    ghost use Rattle.std.specs.Prelude.{◌≡◌, ℕ, List, map};
    ghost use Rattle.std.specs.Coded.{codes};
    ghost use Rattle.oc_tree.specs.View.{function_view};
    ghost use Rattle.oc_tree.specs.contracts.tree.Block as blocks;
    ghost use Rattle.oc_tree.specs.declared.tree.Function.{Function};
    ghost use Rattle.oc_tree.specs.Assigned.{param_assigned, param_count};
    ghost use Rattle.oc_reach.specs.Marked.{is_in};

    ghost Value = { List Function };

    ghost coded = { Prim.hlevel (codes, blocks.the_row.coded) };

    ghost view = { λ a. a.functions.now };

    ghost invariant = { λ a. (a.calls ≡ a.functions.now) × (a.params ≡ a.functions.now)
        × (a.marks.1 ≡ param_count (map function_view a.functions.now))
        × ((n : ℕ) → is_in a.marks.0 n ≡ param_assigned (map function_view a.functions.now) n) };
}

impl<'a> Assigned<'a> {
    /// Finds the parameters that these functions assign through. Err is want of memory.
    pub fn new(alloc: Global, functions: &'a [Function]) -> Result<Assigned<'a>, AllocError>
        ensures { IfOk result (λ a. a ≡ functions.now) }
    {
        let params = Params::new(alloc, functions)?;
        let calls = Calls::new(alloc, functions)?;
        let marks = assigned_params(alloc, &calls, &params, functions)?;
        Ok(Assigned {
            calls,
            params,
            functions,
            marks,
        })
    }

    /// The functions with their calls.
    pub fn calls(&self) -> &Calls<'a>
        ensures { result.now ≡ self.now }
    {
        &self.calls
    }

    /// Whether the argument at a place lends this variable to a parameter that the called function
    /// assigns through, itself or by functions that it passes it to.
    fn arg_assigns(&self, name: &Name, callee: usize, place: usize, arg: &Arg) -> bool
        requires { callee < length self.now }
        ensures { result ≡ arg_assigns (map function_view self.now) name.now callee place
            (arg_view arg.now) }
    {
        match arg {
            Arg::Mutable { name: other } => {
                name.is(other)
                    && match self.params.mutable(callee, place) {
                        Some(number) => self.marks.has(number),
                        None => false,
                    }
            }
            Arg::Value { .. } | Arg::Shared { .. } => false,
        }
    }

    /// Whether an argument lends this variable to a parameter that the called function assigns
    /// through.
    fn args_assign(&self, name: &Name, callee: usize, args: &[Arg]) -> bool
        requires { callee < length self.now }
        ensures { result ≡ args_assign (map function_view self.now) name.now callee 0
            (args_view args.now) }
    {
        for (place, arg) in args.iter().enumerate() {
            if self.arg_assigns(name, callee, place, arg) {
                return true;
            }
        }
        false
    }

    /// Whether a call assigns this variable through an argument; not so where there is no such
    /// function.
    fn call_assigns(&self, name: &Name, call: &Call) -> bool
        ensures { result ≡ call_assigns (map function_view self.now) name.now (call_view call.now) }
    {
        match self.calls.place(&call.function) {
            Some(callee) => self.args_assign(name, callee, call.args.as_slice()),
            None => false,
        }
    }

    /// Whether one of these calls assigns this variable through an argument.
    fn some_assigns(&self, name: &Name, calls: &[&Call]) -> bool
        ensures { result
            ≡ list_any (call_assigns (map function_view self.now) name.now) (calls_seen calls.now) }
    {
        for call in calls {
            if self.call_assigns(name, *call) {
                return true;
            }
        }
        false
    }

    /// Whether a statement itself assigns this variable, as its target or through an argument of a
    /// call in it. Err is want of memory.
    fn own_assigns(&self, alloc: Global, name: &Name, kind: &StmtKind) -> Result<bool, AllocError>
        ensures { IfOk result
            (λ b. b ≡ own_assigns (map function_view self.now) name.now (kind_view kind.now)) }
    {
        if is_target(kind, name) {
            return Ok(true);
        }
        let mut calls = Vec::new(alloc);
        own_calls(kind, &mut calls)?;
        Ok(self.some_assigns(name, calls.as_slice()))
    }

    /// Whether one of these statements itself assigns this variable. Err is want of memory.
    fn kinds_assign(
        &self,
        alloc: Global,
        name: &Name,
        kinds: &[&StmtKind],
    ) -> Result<bool, AllocError>
        ensures { IfOk result
            (λ b. b
            ≡ list_any (own_assigns (map function_view self.now) name.now) (kinds_seen kinds.now)) }
    {
        for kind in kinds {
            if self.own_assigns(alloc, name, *kind)? {
                return Ok(true);
            }
        }
        Ok(false)
    }

    /// Whether a statement of a function assigns this nonvolatile variable where nothing hides it,
    /// also through an argument of a call. Err is want of memory.
    fn function_assigns(
        &self,
        alloc: Global,
        name: &Name,
        function: &Function,
    ) -> Result<bool, AllocError>
        ensures { IfOk result
            (λ b. b
            ≡ function_assigns (map function_view self.now) name.now (function_view function.now)) }
    {
        if has_param(function.params.as_slice(), name) {
            return Ok(false);
        }
        let kinds = function_kinds(alloc, function, Some(name))?;
        self.kinds_assign(alloc, name, kinds.as_slice())
    }

    /// Of each function, whether its own statements assign this nonvolatile variable. Err is want
    /// of memory.
    fn tests(
        &self,
        alloc: Global,
        name: &Name,
        functions: &[Function],
    ) -> Result<Vec<bool>, AllocError>
        ensures { IfOk result
            (λ t. t.items
            ≡ map (function_assigns (map function_view self.now) name.now)
            (map function_view functions.now)) }
    {
        let mut tests = Vec::new(alloc);
        for function in functions {
            let test = self.function_assigns(alloc, name, function)?;
            tests.push(test)?;
        }
        Ok(tests)
    }

    /// Marks the functions that assign a nonvolatile variable, and those that call one, directly or
    /// through others.
    pub fn assigning(&self, alloc: Global, name: &Name) -> Result<Marks, AllocError>
        ensures bound { IfOk result (λ m. m.1 ≡ length self.now) }
        ensures marked { IfOk result (λ m. (u : ℕ)
            → is_in m.0 u ≡ reaches_assign (map function_view self.now) name.now u) }
    {
        let tests = self.tests(alloc, name, self.functions)?;
        self.calls.back_from(alloc, tests.as_slice())
    }
}
