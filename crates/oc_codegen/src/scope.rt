//! Where the code finds the variables that are visible.
ghost use Rattle.std.specs.Prelude.{◌≡◌, ◌≤◌, ◌-◌, ◌∷◌, ◌&&◌, if◌then◌else◌, [], false, length, drop, nat_eq, not, OnOk};
ghost use Rattle.oc_tree.specs.Names.{Text};
ghost use Rattle.oc_code.specs.Scope.{named, slot_of, words_of, is_fresh_in};
ghost use Rattle.oc_codegen.specs.Slots.{slot_view, named_view, found_view};

use indexmap::IndexMap;
use oc_tree::name::Name;
use std::alloc::{AllocError, Global};
use std::marker::Model;

/// The first slot of a variable of the frame; the slot with the address of one that was passed by
/// reference; the first nonvolatile word of a variable; and what a name has that isn't visible.
#[derive(Clone, Copy)]
pub enum Slot {
    InFrame { s: u32 },
    ByAddress { s: u32 },
    InNv { a: u32 },
    Nowhere,
}

/// Where a variable is, how many words it has, whether a statement may write it, and whether it is
/// annotated `Fresh`.
#[derive(Clone, Copy)]
pub struct Variable {
    pub slot: Slot,
    pub words: u32,
    pub writable: bool,
    pub fresh: bool,
}

/// A variable with its name.
#[derive(Clone, Copy)]
pub struct Binding<'a> {
    pub name: &'a [u8],
    pub variable: Variable,
}

/// The visible variables, which contracts see as a list, newest first.
pub struct Scope<'a> {
    bindings: Vec<Binding<'a>>,
    /// For a name, a place behind which no variable has it. It may lie past the last one.
    places: IndexMap<&'a [u8], usize>,
    /// None of so many of the oldest variables is annotated `Fresh`.
    plain: usize,
}

// Written out, so that it is one call wherever a scope goes.
impl Drop for Scope<'_> {
    fn drop(self) {
        let Scope {
            bindings,
            places,
            plain: _,
        } = self;
        drop(bindings);
        drop(places);
    }
}

impl<'a> Model for Scope<'a> {
    ghost use Rattle.std.specs.Prelude.{List};
    ghost use Rattle.oc_code.specs.Scope.{Named};
    ghost use Rattle.oc_codegen.specs.Slots.{visible};
    ghost use Rattle.oc_codegen.specs.Last.{AreLast, ArePlain};

    ghost Value = { List Named };

    ghost view = { λ s. visible s.bindings.items };

    ghost invariant = { λ s. AreLast s.bindings.items s.places.entries
        × ArePlain s.plain s.bindings.items };
}

/// Of how many of the oldest variables none is fresh, with one more at a place: of all, if it isn't
/// and none before it is.
fn plain_with(plain: usize, place: usize, fresh: bool, all: usize) -> usize
    ensures { result ≡ (if nat_eq plain place && not fresh then all else plain) }
{
    if plain == place && !fresh { all } else { plain }
}

impl<'a> Scope<'a> {
    /// No variable is visible. It takes no memory.
    pub fn new(alloc: Global) -> Scope<'a>
        ensures { result ≡ [] }
    {
        Scope {
            bindings: Vec::new(alloc),
            places: IndexMap::new(alloc),
            plain: 0,
        }
    }

    /// How many variables are visible.
    pub fn len(&self) -> usize
        ensures { result ≡ length self.now }
    {
        self.bindings.len()
    }

    /// One more variable, which hides others of its name.
    pub fn declare(&mut self, name: &'a Name, variable: Variable) -> Result<(), AllocError>
        ensures { OnOk result (self.new ≡ named_view name.now variable ∷ self.old) }
    {
        let place = self.bindings.len();
        self.places.insert(name.bytes(), place)?;
        self.bindings.push(Binding {
            name: name.bytes(),
            variable,
        })?;
        self.plain = plain_with(self.plain, place, variable.fresh, self.bindings.len());
        Ok(())
    }

    /// Leaves the oldest `len` variables.
    pub fn truncate(&mut self, len: usize)
        ensures { self.new ≡ drop (length self.old - len) self.old }
    {
        self.bindings.truncate(len);
        self.plain = self.plain.min(len);
    }

    /// Whether a variable may be annotated `Fresh`.
    pub fn has_fresh(&self) -> bool
        ensures { result ≡ false → (x : Text) → is_fresh_in self.now x ≡ false }
    {
        self.plain < self.bindings.len()
    }

    /// How many of the oldest variables there are to be gone through for the newest one of a name.
    fn reach(&self, name: &Name) -> usize
        ensures within { result ≤ length self.now }
        ensures same { named (drop (length self.now - result) self.now) name.now
            ≡ named self.now name.now }
    {
        let count = self.bindings.len();
        let found = self.places.get(&name.bytes());
        match found {
            Some(place) => { if *place < count { *place + 1 } else { count } }
            None => count,
        }
    }

    /// The newest variable of a name.
    fn find(&self, name: &Name) -> Option<Variable>
        ensures slot { (found_view name.now result).slot ≡ slot_of self.now name.now }
        ensures words { (found_view name.now result).words ≡ words_of self.now name.now }
        ensures fresh { (found_view name.now result).fresh ≡ is_fresh_in self.now name.now }
    {
        let mut i = self.reach(name);
        while i > 0 {
            i -= 1;
            let binding = self.bindings[i];
            if name.bytes() == binding.name {
                return Some(binding.variable);
            }
        }
        None
    }

    /// Where the variable of a name is.
    pub fn slot(&self, name: &Name) -> Slot
        ensures { slot_view result ≡ slot_of self.now name.now }
    {
        match self.find(name) {
            Some(variable) => variable.slot,
            None => Slot::Nowhere,
        }
    }

    /// How many words the variable of a name has.
    pub fn words(&self, name: &Name) -> u32
        ensures { result ≡ words_of self.now name.now }
    {
        match self.find(name) {
            Some(variable) => variable.words,
            None => 0,
        }
    }

    /// Whether the variable of a name is annotated `Fresh`.
    pub fn is_fresh(&self, name: &Name) -> bool
        ensures { result ≡ is_fresh_in self.now name.now }
    {
        match self.find(name) {
            Some(variable) => variable.fresh,
            None => false,
        }
    }
}
