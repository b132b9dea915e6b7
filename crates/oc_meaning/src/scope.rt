//! The visible variables.
ghost use Rattle.std.specs.Prelude.{◌≡◌, ◌-◌, [], ◌∷◌, drop, find, length, option_map, reverse, IfOk, OnOk};
ghost use Rattle.std.specs.Str.{bytes_eq};
ghost use Rattle.oc_meaning.specs.Run.{nv_env};
ghost use Rattle.oc_meaning.specs.Store.{binding_of, place_of};
ghost use Rattle.oc_meaning.specs.Uses.{is_fresh};
ghost use Rattle.oc_meaning.specs.Places.{place_view};
ghost use Rattle.oc_meaning.specs.Scopes.{found};

use crate::place::Place;
use oc_tree::name::Name;
use std::alloc::{AllocError, Global};
use std::marker::Model;

/// A visible variable. A reference's place is that of the variable that was passed; `fresh` says that
/// it is annotated so.
#[derive(Clone, Copy)]
pub struct Binding<'a> {
    pub name: &'a Name,
    pub place: Place,
    pub reference: bool,
    pub fresh: bool,
}

/// The visible variables, which contracts see newest first.
#[derive(Drop)]
pub struct Scope<'a> {
    bindings: Vec<Binding<'a>>,
}

impl<'a> Model for Scope<'a> {
    ghost use Rattle.std.specs.Prelude.{List};
    ghost use Rattle.oc_meaning.specs.Store as meant;
    ghost use Rattle.oc_meaning.specs.Scopes.{visible};

    ghost Value = { List meant.Binding };

    ghost view = { λ s. visible s.bindings.items };
}

impl<'a> Scope<'a> {
    /// No variable is visible.
    pub fn new(alloc: Global) -> Scope<'a>
        ensures { result ≡ [] }
    {
        Scope {
            bindings: Vec::new(alloc),
        }
    }

    /// The same variables. There is room for one more, for which most copies are made.
    pub fn copy(&self, alloc: Global) -> Result<Scope<'a>, AllocError>
        ensures { IfOk result (λ s. s ≡ self.now) }
    {
        let mut bindings = Vec::with_capacity(alloc, self.bindings.len().saturating_add(1))?;
        bindings.extend_from_slice(&self.bindings)?;
        Ok(Scope { bindings })
    }

    /// How many variables are visible, with those that others hide.
    pub fn len(&self) -> usize
        ensures { result ≡ length self.now }
    {
        self.bindings.len()
    }

    /// One more variable.
    pub fn push(&mut self, binding: Binding<'a>) -> Result<(), AllocError>
        ensures { OnOk result
            (self.new ≡ record {
              name = binding.entry.name.now;
              place = place_view binding.entry.place;
              reference =
                  binding.entry.reference;
              fresh = binding.entry.fresh;
            } ∷ self.old) }
    {
        self.bindings.push(binding)?;
        Ok(())
    }

    /// Leaves the oldest `len` variables.
    pub fn truncate(&mut self, len: usize)
        ensures { self.new ≡ drop (length self.old - len) self.old }
    {
        self.bindings.truncate(len);
    }

    /// The variable of a name.
    fn binding(&self, name: &Name) -> Option<&Binding<'a>>
        ensures { found name.now (option_map (λ b. b.now) result) ≡ binding_of self.now name.now }
    {
        newest(&self.bindings, name)
    }

    /// The place of a name.
    pub fn place(&self, name: &Name) -> Place
        ensures { place_view result ≡ place_of self.now name.now }
    {
        match self.binding(name) {
            Some(binding) => binding.place,
            None => Place::Nowhere,
        }
    }

    /// Whether a name stands for a reference.
    pub fn is_reference(&self, name: &Name) -> bool
        ensures { result ≡ (binding_of self.now name.now).reference }
    {
        match self.binding(name) {
            Some(binding) => binding.reference,
            None => false,
        }
    }

    /// Whether a name stands for a variable that is annotated `Fresh`.
    pub fn is_fresh(&self, name: &Name) -> bool
        ensures { result ≡ is_fresh self.now name.now }
    {
        match self.binding(name) {
            Some(binding) => binding.fresh,
            None => false,
        }
    }
}

/// The last variable of a name.
fn newest<'a, 'b>(bindings: &'b [Binding<'a>], name: &Name) -> Option<&'b Binding<'a>>
    ensures { option_map (λ b. b.now) result
        ≡ find (λ b. bytes_eq name.now b.name.now) (reverse bindings.now) }
{
    bindings.iter().rev().find(|binding| name.is(binding.name))
}

/// The nonvolatile variables, of which the first is found first.
pub fn nonvolatile<'a>(alloc: Global, names: &'a [Name]) -> Result<Scope<'a>, AllocError>
    ensures { IfOk result (λ s. s ≡ nv_env 0 names.now) }
{
    let mut scope = Scope::new(alloc);
    let mut index = names.len();
    while index > 0 {
        index -= 1;
        scope.push(Binding {
            name: &names[index],
            place: Place::Global { index },
            reference: false,
            fresh: false,
        })?;
    }
    Ok(scope)
}
