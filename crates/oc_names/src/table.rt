//! Names by their places in a list.
ghost use Rattle.std.specs.Prelude.{◌≡◌, ◌<◌, ◌++◌, List, ℕ, [], ◌∷◌, codes, map, length, Option, None, Some, cond, OnOk, IfOk, IfSome};
ghost use Rattle.std.specs.Option.{option_or};
ghost use Rattle.std.specs.Str.{bytes_eq};
ghost use Rattle.oc_tree.specs.Names.{Text, names_seen};
ghost use Rattle.oc_tree.specs.View.{function_view};
ghost use Rattle.oc_tree.specs.declared.tree.Param.{Param};
ghost use Rattle.oc_tree.specs.Calls.{place, function_names, function_place};
ghost use Rattle.oc_tree.specs.Weight.{result_at};
ghost use Rattle.oc_names.specs.Entries.{Entries, number_in};

use indexmap::IndexMap;
use oc_tree::name::Name;
use oc_tree::tree::{Function, Param};
use std::alloc::{AllocError, Global};
use std::marker::Model;

// Names with numbers, each name once.
#[derive(Drop)]
struct Numbers<'a> {
    entries: IndexMap<&'a [u8], usize>,
}

impl<'a> Model for Numbers<'a> {
    ghost Value = { Entries };

    ghost view = { λ s. map (λ e. (e.0.now, e.1)) s.entries.entries };
}

impl<'a> Numbers<'a> {
    /// No names.
    fn new(alloc: Global) -> Numbers<'a>
        ensures { result ≡ [] }
    {
        Numbers {
            entries: IndexMap::new(alloc),
        }
    }

    /// The number of a name, where it is there.
    fn get(&self, name: &Name) -> Option<usize>
        ensures { result ≡ number_in self.now name.now }
    {
        let found = self.entries.get(&name.bytes());
        match found {
            Some(v) => Some(*v),
            None => None,
        }
    }

    /// Adds a name that isn't there, with its number. Err is want of memory.
    fn add(&mut self, name: &'a Name, number: usize) -> Result<(), AllocError>
        requires { number_in self.old name.now ≡ None }
        ensures { OnOk result (self.new ≡ self.old ++ (name.now, number) ∷ []) }
    {
        self.entries.insert(name.bytes(), number)?;
        Ok(())
    }

    /// Adds a name, unless it is there.
    fn add_first(&mut self, name: &'a Name, number: usize) -> Result<(), AllocError>
        ensures { OnOk result ((x : List ℕ) (rest : Option ℕ)
            → option_or (number_in self.new x) rest
            ≡ option_or (number_in self.old x) (cond (bytes_eq x name.now) (Some number) rest)) }
    {
        match self.get(name) {
            Some(_) => Ok(()),
            None => {
                self.add(name, number)?;
                Ok(())
            }
        }
    }
}

/// The names with their places, of several that are the same that of the first. Err is want of
/// memory.
fn numbers_of<'a>(alloc: Global, names: &[&'a Name]) -> Result<Numbers<'a>, AllocError>
    ensures { IfOk result (λ m. (x : List ℕ) → number_in m x ≡ place (names_seen names.now) x) }
{
    let mut numbers = Numbers::new(alloc);
    for (i, name) in names.iter().enumerate() {
        numbers.add_first(*name, i)?;
    }
    Ok(numbers)
}

/// A list of names by their places, which contracts see as the list.
#[derive(Drop)]
pub struct Table<'a> {
    names: Vec<&'a Name>,
    numbers: Numbers<'a>,
}

impl<'a> Model for Table<'a> {
    ghost Value = { List Text };

    ghost view = { λ t. names_seen t.names.items };

    ghost invariant = { λ t. (x : List ℕ) → number_in t.numbers x
        ≡ place (names_seen t.names.items) x };
}

impl<'a> Table<'a> {
    /// Keeps the place of each name, of several that are the same that of the first. Err is want of
    /// memory.
    pub fn new(alloc: Global, names: Vec<&'a Name>) -> Result<Table<'a>, AllocError>
        ensures { IfOk result (λ t. t ≡ names_seen names.entry.items) }
    {
        let numbers = numbers_of(alloc, names.as_slice())?;
        Ok(Table { names, numbers })
    }

    /// The place of the first name that is the same.
    pub fn place(&self, name: &Name) -> Option<usize>
        ensures place { result ≡ place self.now name.now }
        ensures below { IfSome result (λ i. i < length self.now) }
    {
        self.numbers.get(name)
    }
}

/// The functions by their names.
pub fn function_table<'a>(alloc: Global, functions: &'a [Function]) -> Result<Table<'a>, AllocError>
    ensures { IfOk result (λ t. t ≡ function_names (map function_view functions.now)) }
{
    let mut names = Vec::new(alloc);
    for function in functions {
        names.push(&function.name)?;
    }
    Table::new(alloc, names)
}

/// The parameters by their names.
pub fn param_table<'a>(alloc: Global, params: &'a [Param]) -> Result<Table<'a>, AllocError>
    ensures { IfOk result (λ t. t ≡ map (λ p. p.name) params.now) }
{
    let mut names = Vec::new(alloc);
    for param in params {
        names.push(&param.name)?;
    }
    Table::new(alloc, names)
}

/// The place of `main`.
pub fn main_place(functions: &[Function]) -> Option<usize>
    ensures { result ≡ function_place (map function_view functions.now) (codes "main") }
{
    for (i, function) in functions.iter().enumerate() {
        if function.name.is_main() {
            return Some(i);
        }
    }
    None
}

/// Whether the function at a place has a result.
pub fn result_at(functions: &[Function], place: Option<usize>) -> bool
    ensures { result ≡ result_at (map function_view functions.now) place }
{
    match place {
        Some(place) => {
            if place < functions.len() {
                functions[place].result.is_some()
            } else {
                false
            }
        }
        None => false,
    }
}
