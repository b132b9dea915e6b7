//! Which functions call which.
ghost use Rattle.std.specs.Prelude.{◌≡◌, ◌<◌, ◌++◌, ℕ, List, false, Some, map, length, OnOk, IfOk, IfSome};
ghost use Rattle.std.proofs.Math.ListN.{get_or};
ghost use Rattle.oc_tree.specs.declared.tree.Function.{Function};
ghost use Rattle.oc_tree.specs.View.{function_view};
ghost use Rattle.oc_tree.specs.declared.tree.Param.{Param};
ghost use Rattle.oc_tree.specs.Reach.{reaches, reaches_some};
ghost use Rattle.oc_tree.specs.Calls.{call_links, called_places, function_names, function_place, has_param, links_from};
ghost use Rattle.oc_reach.specs.Marked.{is_in};
ghost use Rattle.oc_reach.specs.Views.{calls_seen};

use crate::marks::Marks;
use crate::parts::body_calls;
use crate::reach::Reach;
use oc_names::table::{Table, function_table};
use oc_tree::name::Name;
use oc_tree::tree::{Call, Function, Param};
use std::alloc::{AllocError, Global};
use std::marker::Model;

/// Adds a link to each function that the calls name.
fn add_links(
    table: &Table,
    caller: usize,
    calls: &[&Call],
    links: &mut Vec<(usize, usize)>,
) -> Result<(), AllocError>
    ensures { OnOk result
        (links.new.items ≡ links.old.items
        ++ map (λ v. (caller, v)) (called_places table.now (calls_seen calls.now))) }
{
    for call in calls {
        if let Some(callee) = table.place(&call.function) {
            links.push((caller, callee))?;
        }
    }
    Ok(())
}

/// A link from each function, by its place, to each function that it calls. Err is want of memory.
fn call_links(
    alloc: Global,
    functions: &[Function],
    table: &Table,
) -> Result<Vec<(usize, usize)>, AllocError>
    ensures { IfOk result
        (λ l. l.items ≡ links_from table.now 0 (map function_view functions.now)) }
{
    let mut links = Vec::new(alloc);
    for (i, function) in functions.iter().enumerate() {
        let calls = body_calls(alloc, function)?;
        add_links(table, i, calls.as_slice(), &mut links)?;
    }
    Ok(links)
}

/// Which functions lead to which, by their places. Err is want of memory.
fn call_reach(alloc: Global, functions: &[Function], table: &Table) -> Result<Reach, AllocError>
    requires { table.now ≡ function_names (map function_view functions.now) }
    ensures { IfOk result
        (λ r. r ≡ (call_links (map function_view functions.now), length functions.now)) }
{
    let links = call_links(alloc, functions, table)?;
    Reach::new(alloc, functions.len(), links)
}

/// Whether a parameter has this name.
pub fn has_param(params: &[Param], name: &Name) -> bool
    ensures { result ≡ has_param name.now params.now }
{
    for param in params {
        if name.is(&param.name) {
            return true;
        }
    }
    false
}

/// The functions of a program, which contracts see as their list, with their calls.
#[derive(Drop)]
pub struct Calls<'a> {
    functions: &'a [Function],
    table: Table<'a>,
    reach: Reach,
}

impl<'a> Model for Calls<'a> {
    ghost use Rattle.std.specs.Prelude.{◌≡◌, List, map, length};
    ghost use Rattle.oc_tree.specs.View.{function_view};
    ghost use Rattle.oc_tree.specs.contracts.tree.Block as blocks;
    ghost use Rattle.oc_tree.specs.declared.tree.Function.{Function};
    ghost use Rattle.oc_tree.specs.Calls.{call_links, function_names};
    ghost use Rattle.std.specs.Coded.{codes};

    ghost Value = { List Function };

    ghost coded = { Prim.hlevel (codes, blocks.the_row.coded) };

    ghost view = { λ c. c.functions.now };

    ghost invariant = { λ c. (c.table ≡ function_names (map function_view c.functions.now))
        × (c.reach ≡ (call_links (map function_view c.functions.now), length c.functions.now)) };
}

impl<'a> Calls<'a> {
    /// Finds which of these functions call which. Err is want of memory.
    pub fn new(alloc: Global, functions: &'a [Function]) -> Result<Calls<'a>, AllocError>
        ensures { IfOk result (λ c. c ≡ functions.now) }
    {
        let table = function_table(alloc, functions)?;
        let reach = call_reach(alloc, functions, &table)?;
        Ok(Calls {
            functions,
            table,
            reach,
        })
    }

    /// The function that a name stands for.
    pub fn place(&self, name: &Name) -> Option<usize>
        ensures place { result ≡ function_place (map function_view self.now) name.now }
        ensures below { IfSome result (λ i. i < length self.now) }
    {
        self.table.place(name)
    }

    /// Marks a function, and those that call it, directly or through others.
    pub fn callers(&self, alloc: Global, function: usize) -> Result<Marks, AllocError>
        requires { function < length self.now }
        ensures bound { IfOk result (λ m. m.1 ≡ length self.now) }
        ensures marked { IfOk result (λ m. (u : ℕ)
            → is_in m.0 u
            ≡ reaches (call_links (map function_view self.now)) (length self.now) u function) }
    {
        let mut marks = Marks::new(alloc, self.functions.len())?;
        marks.mark(function)?;
        let back = self.reach.mark_back(marks)?;
        Ok(back)
    }

    /// Marks the functions whose tests pass, and those that call one, directly or through others.
    pub fn back_from(&self, alloc: Global, tests: &[bool]) -> Result<Marks, AllocError>
        requires { length tests.now ≡ length self.now }
        ensures bound { IfOk result (λ m. m.1 ≡ length self.now) }
        ensures marked { IfOk result (λ m. (u : ℕ)
            → is_in m.0 u
            ≡ reaches_some (call_links (map function_view self.now)) (length self.now)
            (λ v. get_or tests.now v false) u) }
    {
        self.reach.back_from(alloc, tests)
    }
}
