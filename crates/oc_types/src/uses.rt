//! Which functions name or assign a variable, by tables of what each shows.
ghost use Rattle.std.specs.Prelude.{◌≡◌, ◌++◌, ◌∷◌, ℕ, [], is_some, length, map, OnOk, IfOk};
ghost use Rattle.oc_tree.specs.View.{function_view};
ghost use Rattle.oc_tree.specs.Calls.{function_mentions, place, reaches_mention};
ghost use Rattle.oc_tree.specs.Assigned.{function_assigns, reaches_assign};
ghost use Rattle.oc_reach.specs.Marked.{is_in};
ghost use Rattle.oc_types.specs.Shown.{all_names, assigned_names, function_shown};

use crate::lends::Lends;
use crate::shown::{Shown, shown_of};
use oc_names::table::Table;
use oc_reach::calls::Calls;
use oc_reach::marks::Marks;
use oc_tree::name::Name;
use oc_tree::tree::Function;
use std::alloc::{AllocError, Global};
use std::marker::Model;

/// The functions of a program, which contracts see as their list, with a table of each of what it
/// names and one of what it assigns, where no variable of its own hides it.
pub struct Uses<'a> {
    functions: &'a [Function],
    lends: Lends<'a>,
    named: Vec<Table<'a>>,
    assigned: Vec<Table<'a>>,
}

// Written out, as that of `TopLevel`.
impl Drop for Uses<'_> {
    fn drop(self) {
        let Uses {
            functions: _,
            lends,
            named,
            assigned,
        } = self;
        drop(lends);
        drop(named);
        drop(assigned);
    }
}

impl<'a> Model for Uses<'a> {
    ghost use Rattle.std.specs.Prelude.{◌≡◌, List, map};
    ghost use Rattle.std.specs.Coded.{codes};
    ghost use Rattle.oc_tree.specs.View.{function_view};
    ghost use Rattle.oc_tree.specs.contracts.tree.Block as b;
    ghost use Rattle.oc_tree.specs.declared.tree.Function.{Function};
    ghost use Rattle.oc_types.specs.Shown.{all_names, assigned_names, function_shown};

    ghost Value = { List Function };

    ghost coded = { Prim.hlevel (codes, b.the_row.coded) };

    ghost view = { λ u. u.functions.now };

    ghost invariant = { λ u. (u.lends ≡ u.functions.now)
        × (u.named.items
        ≡ map (function_shown all_names) (map function_view u.functions.now))
        × (u.assigned.items
        ≡ map (function_shown (assigned_names (map function_view u.functions.now)))
        (map function_view u.functions.now)) };
}

/// Adds the tables of what a function shows. Err is want of memory.
fn add_function<'a>(
    alloc: Global,
    lends: &Lends<'a>,
    function: &'a Function,
    named: &mut Vec<Table<'a>>,
    assigned: &mut Vec<Table<'a>>,
) -> Result<(), AllocError>
    ensures named { OnOk result
        (named.new.items ≡ named.old.items
        ++ function_shown all_names (function_view function.now) ∷ []) }
    ensures assigned { OnOk result
        (assigned.new.items ≡ assigned.old.items
        ++ function_shown (assigned_names (map function_view lends.now))
        (function_view function.now) ∷ []) }
{
    let Shown {
        named: names,
        assigned: targets,
    } = shown_of(alloc, lends, function)?;
    named.push(Table::new(alloc, names)?)?;
    assigned.push(Table::new(alloc, targets)?)?;
    Ok(())
}

/// Adds the tables of what these functions show. Err is want of memory.
fn add_functions<'a>(
    alloc: Global,
    lends: &Lends<'a>,
    functions: &'a [Function],
    named: &mut Vec<Table<'a>>,
    assigned: &mut Vec<Table<'a>>,
) -> Result<(), AllocError>
    ensures named { OnOk result
        (named.new.items ≡ named.old.items
        ++ map (function_shown all_names) (map function_view functions.now)) }
    ensures assigned { OnOk result
        (assigned.new.items ≡ assigned.old.items
        ++ map (function_shown (assigned_names (map function_view lends.now)))
        (map function_view functions.now)) }
{
    for function in functions {
        add_function(alloc, lends, function, named, assigned)?;
    }
    Ok(())
}

/// Of each of these tables, whether it has the name. Err is want of memory.
fn tests_of(alloc: Global, tables: &[Table], name: &Name) -> Result<Vec<bool>, AllocError>
    ensures { IfOk result
        (λ t. t.items ≡ map (λ names. is_some (place names name.now)) tables.now) }
{
    let mut tests = Vec::new(alloc);
    for table in tables {
        tests.push(table.place(name).is_some())?;
    }
    Ok(tests)
}

impl<'a> Uses<'a> {
    /// Makes the tables of these functions. Err is want of memory.
    pub fn new(alloc: Global, functions: &'a [Function]) -> Result<Uses<'a>, AllocError>
        ensures { IfOk result (λ u. u ≡ functions.now) }
    {
        let lends = Lends::new(alloc, functions)?;
        let mut named = Vec::new(alloc);
        let mut assigned = Vec::new(alloc);
        add_functions(alloc, &lends, functions, &mut named, &mut assigned)?;
        Ok(Uses {
            functions,
            lends,
            named,
            assigned,
        })
    }

    /// The functions with their calls.
    fn calls(&self) -> &Calls<'a>
        ensures { result.now ≡ self.now }
    {
        self.lends.calls()
    }

    /// Of each function, whether it names this nonvolatile variable. Err is want of memory.
    fn mention_tests(&self, alloc: Global, name: &Name) -> Result<Vec<bool>, AllocError>
        ensures { IfOk result
            (λ t. t.items ≡ map (function_mentions name.now) (map function_view self.now)) }
    {
        let tests = tests_of(alloc, self.named.as_slice(), name)?;
        Ok(tests)
    }

    /// Of each function, whether its own statements assign this nonvolatile variable. Err is want
    /// of memory.
    fn assign_tests(&self, alloc: Global, name: &Name) -> Result<Vec<bool>, AllocError>
        ensures { IfOk result
            (λ t. t.items
            ≡ map (function_assigns (map function_view self.now) name.now)
            (map function_view self.now)) }
    {
        let tests = tests_of(alloc, self.assigned.as_slice(), name)?;
        Ok(tests)
    }

    /// Marks the functions that name a nonvolatile variable, and those that call one, directly or
    /// through others. Err is want of memory.
    pub fn mentioning(&self, alloc: Global, name: &Name) -> Result<Marks, AllocError>
        ensures bound { IfOk result (λ m. m.1 ≡ length self.now) }
        ensures marked { IfOk result
            (λ m. (u : ℕ) → is_in m.0 u ≡ reaches_mention (map function_view self.now) name.now u) }
    {
        let tests = self.mention_tests(alloc, name)?;
        self.calls().back_from(alloc, tests.as_slice())
    }

    /// Marks the functions that assign a nonvolatile variable, and those that call one, directly or
    /// through others. Err is want of memory.
    pub fn assigning(&self, alloc: Global, name: &Name) -> Result<Marks, AllocError>
        ensures bound { IfOk result (λ m. m.1 ≡ length self.now) }
        ensures marked { IfOk result (λ m. (u : ℕ)
            → is_in m.0 u ≡ reaches_assign (map function_view self.now) name.now u) }
    {
        let tests = self.assign_tests(alloc, name)?;
        self.calls().back_from(alloc, tests.as_slice())
    }
}
