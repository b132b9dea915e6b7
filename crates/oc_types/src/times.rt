//! Which names stand once in a list of names.
ghost use Rattle.std.specs.Prelude.{◌≡◌, ◌==◌, List, ℕ, Bool, [], ◌∷◌, None, count_by, map, OnOk, IfOk};
ghost use Rattle.std.specs.List.{list_all};
ghost use Rattle.std.specs.Str.{bytes_eq};
ghost use Rattle.oc_tree.specs.Names.{Text, named_in, names_seen};
ghost use Rattle.oc_types.specs.Times.{is_first, once_more, singly, times_on};

use indexmap::IndexMap;
use oc_tree::name::Name;
use std::alloc::{AllocError, Global};
use std::marker::Model;

/// Whether one more is the first of its kind.
fn is_first(times: Option<bool>) -> bool
    ensures { result ≡ is_first times }
{
    match times {
        None => true,
        Some(_) => false,
    }
}

/// Names, each with whether it stood once so far.
struct Singles<'a> {
    entries: IndexMap<&'a [u8], bool>,
}

// Written out, as that of `TopLevel`.
impl Drop for Singles<'_> {
    fn drop(self) {
        let Singles { entries } = self;
        drop(entries);
    }
}

impl<'a> Model for Singles<'a> {
    ghost Value = { List (Text × Bool) };

    ghost view = { λ s. map (λ e. (e.0.now, e.1)) s.entries.entries };
}

impl<'a> Singles<'a> {
    /// No names.
    fn new(alloc: Global) -> Singles<'a>
        ensures { result ≡ [] }
    {
        Singles {
            entries: IndexMap::new(alloc),
        }
    }

    /// Whether a name stood once, where it stood there.
    fn get(&self, name: &Name) -> Option<bool>
        ensures { result ≡ named_in self.now name.now }
    {
        let found = self.entries.get(&name.bytes());
        match found {
            Some(single) => Some(*single),
            None => None,
        }
    }

    /// Adds a name. Err is want of memory.
    fn add(&mut self, name: &'a Name) -> Result<(), AllocError>
        ensures { OnOk result ((x : List ℕ)
            → named_in self.new x ≡ once_more (bytes_eq x name.now) (named_in self.old x)) }
    {
        let first = is_first(self.get(name));
        self.entries.insert(name.bytes(), first)?;
        Ok(())
    }
}

/// A list of names, which contracts see as it is, with whether each stands there once.
pub struct Times<'a> {
    names: Vec<&'a Name>,
    singles: Singles<'a>,
}

// Written out, as that of `TopLevel`.
impl Drop for Times<'_> {
    fn drop(self) {
        let Times { names, singles } = self;
        drop(names);
        drop(singles);
    }
}

impl<'a> Model for Times<'a> {
    ghost Value = { List Text };

    ghost view = { λ t. names_seen t.names.items };

    ghost invariant = { λ t. (x : List ℕ) → named_in t.singles x
        ≡ singly (count_by (bytes_eq x) (names_seen t.names.items)) };
}

/// Each of these names, with whether it stands there once. Err is want of memory.
fn singles_of<'a>(alloc: Global, names: &[&'a Name]) -> Result<Singles<'a>, AllocError>
    ensures { IfOk result
        (λ s. (x : List ℕ) → named_in s x ≡ times_on x None (names_seen names.now)) }
{
    let mut singles = Singles::new(alloc);
    for name in names {
        singles.add(*name)?;
    }
    Ok(singles)
}

impl<'a> Times<'a> {
    /// Counts the names of a list. Err is want of memory.
    pub fn new(alloc: Global, names: Vec<&'a Name>) -> Result<Times<'a>, AllocError>
        ensures { IfOk result (λ t. t ≡ names_seen names.entry.items) }
    {
        let singles = singles_of(alloc, names.as_slice())?;
        Ok(Times { names, singles })
    }

    /// The names.
    pub fn names(&self) -> &[&'a Name]
        ensures { names_seen result.now ≡ self.now }
    {
        self.names.as_slice()
    }

    /// Whether a name stands there once.
    fn is_single(&self, name: &Name) -> bool
        ensures { result ≡ (count_by (bytes_eq name.now) self.now == 1) }
    {
        match self.singles.get(name) {
            Some(single) => single,
            None => false,
        }
    }

    /// Whether each of these names stands there once.
    pub fn are_single(&self, names: &[&Name]) -> bool
        ensures { result
            ≡ list_all (λ x. count_by (bytes_eq x) self.now == 1) (names_seen names.now) }
    {
        for name in names {
            if !self.is_single(*name) {
                return false;
            }
        }
        true
    }
}
