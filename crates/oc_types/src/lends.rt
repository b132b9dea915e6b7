//! What statements assign, by name or by what their calls lend.
ghost use Rattle.std.specs.Prelude.{◌≡◌, ◌<◌, ◌++◌, map, length, option_to_list, OnOk, IfOk};
ghost use Rattle.std.specs.List.{flat_map};
ghost use Rattle.oc_tree.specs.View.{arg_view, args_view, call_view, function_view, kind_view};
ghost use Rattle.oc_tree.specs.Names.{names_seen};
ghost use Rattle.oc_names.specs.Seen.{name_seen};
ghost use Rattle.oc_reach.specs.Views.{calls_seen};
ghost use Rattle.oc_types.specs.Shown.{arg_assigned, args_assigned, assigned_names, call_assigned, target_name};

use oc_reach::assigned::assigned_params;
use oc_reach::calls::Calls;
use oc_reach::marks::Marks;
use oc_reach::params::Params;
use oc_reach::parts::own_calls;
use oc_tree::name::Name;
use oc_tree::tree::{Arg, Call, Function, StmtKind};
use std::alloc::{AllocError, Global};
use std::marker::Model;

/// The functions of a program, which contracts see as their list, with the parameters that are
/// assigned through.
pub struct Lends<'a> {
    functions: &'a [Function],
    calls: Calls<'a>,
    params: Params<'a>,
    marks: Marks,
}

// Written out, as that of `TopLevel`.
impl Drop for Lends<'_> {
    fn drop(self) {
        let Lends {
            functions: _,
            calls,
            params,
            marks,
        } = self;
        drop(calls);
        drop(params);
        drop(marks);
    }
}

impl<'a> Model for Lends<'a> {
    ghost use Rattle.std.specs.Prelude.{◌≡◌, ℕ, List, map};
    ghost use Rattle.std.specs.Coded.{codes};
    ghost use Rattle.oc_tree.specs.View.{function_view};
    ghost use Rattle.oc_tree.specs.contracts.tree.Block as b;
    ghost use Rattle.oc_tree.specs.declared.tree.Function.{Function};
    ghost use Rattle.oc_tree.specs.Assigned.{param_assigned, param_count};
    ghost use Rattle.oc_reach.specs.Marked.{is_in};

    ghost Value = { List Function };

    ghost coded = { Prim.hlevel (codes, b.the_row.coded) };

    ghost view = { λ a. a.functions.now };

    ghost invariant = { λ a. (a.calls ≡ a.functions.now) × (a.params ≡ a.functions.now)
        × (a.marks.1 ≡ param_count (map function_view a.functions.now))
        × ((n : ℕ) → is_in a.marks.0 n ≡ param_assigned (map function_view a.functions.now) n) };
}

/// The name of the variable that a statement assigns, whole or in part.
fn target_name(kind: &StmtKind) -> Option<&Name>
    ensures { name_seen result ≡ target_name (kind_view kind.now) }
{
    match kind {
        StmtKind::Assign { name, .. } | StmtKind::AssignIndex { name, .. } => Some(name),
        _ => None,
    }
}

impl<'a> Lends<'a> {
    /// Finds the parameters that these functions assign through. Err is want of memory.
    pub fn new(alloc: Global, functions: &'a [Function]) -> Result<Lends<'a>, AllocError>
        ensures { IfOk result (λ a. a ≡ functions.now) }
    {
        let params = Params::new(alloc, functions)?;
        let calls = Calls::new(alloc, functions)?;
        let marks = assigned_params(alloc, &calls, &params, functions)?;
        Ok(Lends {
            functions,
            calls,
            params,
            marks,
        })
    }

    /// The functions with their calls.
    pub fn calls(&self) -> &Calls<'a>
        ensures { result.now ≡ self.now }
    {
        &self.calls
    }

    /// The name that the argument at a place lends to a parameter of the called function that is
    /// assigned through.
    fn arg_assigned<'b>(&self, callee: usize, place: usize, arg: &'b Arg) -> Option<&'b Name>
        requires { callee < length self.now }
        ensures { name_seen result
            ≡ arg_assigned (map function_view self.now) callee place (arg_view arg.now) }
    {
        match arg {
            Arg::Mutable { name } => match self.params.mutable(callee, place) {
                Some(number) => if self.marks.has(number) {
                    Some(name)
                } else {
                    None
                },
                None => None,
            },
            Arg::Value { .. } | Arg::Shared { .. } => None,
        }
    }

    /// Adds the names that arguments lend so. Err is want of memory.
    fn add_args<'b>(
        &self,
        callee: usize,
        args: &'b [Arg],
        names: &mut Vec<&'b Name>,
    ) -> Result<(), AllocError>
        requires { callee < length self.now }
        ensures { OnOk result
            (names_seen names.new.items ≡ names_seen names.old.items
            ++ args_assigned (map function_view self.now) callee 0 (args_view args.now)) }
    {
        for (place, arg) in args.iter().enumerate() {
            if let Some(name) = self.arg_assigned(callee, place, arg) {
                names.push(name)?;
            }
        }
        Ok(())
    }

    /// Adds the names that a call lends so; none where there is no such function. Err is want of
    /// memory.
    fn add_call<'b>(&self, call: &'b Call, names: &mut Vec<&'b Name>) -> Result<(), AllocError>
        ensures { OnOk result
            (names_seen names.new.items ≡ names_seen names.old.items
            ++ call_assigned (map function_view self.now) (call_view call.now)) }
    {
        match self.calls.place(&call.function) {
            Some(callee) => self.add_args(callee, call.args.as_slice(), names),
            None => Ok(()),
        }
    }

    /// Adds the names that these calls lend so. Err is want of memory.
    fn add_calls<'b>(&self, calls: &[&'b Call], names: &mut Vec<&'b Name>) -> Result<(), AllocError>
        ensures { OnOk result
            (names_seen names.new.items ≡ names_seen names.old.items
            ++ flat_map (call_assigned (map function_view self.now)) (calls_seen calls.now)) }
    {
        for call in calls {
            self.add_call(*call, names)?;
        }
        Ok(())
    }

    /// The variables that a statement itself assigns, by their names or through its calls. Err is
    /// want of memory.
    pub fn assigned_names<'b>(
        &self,
        alloc: Global,
        kind: &'b StmtKind,
    ) -> Result<Vec<&'b Name>, AllocError>
        ensures { IfOk result (λ n.
            names_seen n.items
            ≡ assigned_names (map function_view self.now) (kind_view kind.now)) }
    {
        let mut calls = Vec::new(alloc);
        own_calls(kind, &mut calls)?;
        let mut names = Vec::new(alloc);
        if let Some(name) = target_name(kind) {
            names.push(name)?;
        }
        self.add_calls(calls.as_slice(), &mut names)?;
        Ok(names)
    }
}
