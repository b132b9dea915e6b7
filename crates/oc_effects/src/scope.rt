//! The visible variables of a function.
ghost use Rattle.std.specs.Prelude.{◌≡◌, ◌++◌, ◌∷◌, [], take, length, true, OnOk};
ghost use Rattle.std.specs.Str.{bytes_eq};
ghost use Rattle.oc_tree.specs.Places.{find_variable};

use oc_tree::name::Name;
use oc_tree::tree::VarId;
use std::alloc::{AllocError, Global};
use std::marker::Model;

/// A variable with its name.
#[derive(Clone, Copy)]
pub struct Binding<'a> {
    name: &'a [u8],
    variable: VarId,
}

/// The visible variables, in the order of their declarations.
#[derive(Drop)]
pub struct Scope<'a> {
    bindings: Vec<Binding<'a>>,
}

impl<'a> Model for Scope<'a> {
    ghost use Rattle.std.specs.Prelude.{List, map};
    ghost use Rattle.oc_tree.specs.Names.{Text};
    ghost use Rattle.oc_tree.specs.declared.tree.VarId.{VarId};

    ghost Value = { List (Text × VarId) };

    ghost view = { λ s. map (λ b. (b.name.now, b.variable)) s.bindings.items };
}

/// Whether names end with the same byte, as the same names do.
fn ends_alike(name: &[u8], other: &[u8]) -> bool
    ensures { name.now ≡ other.now → result ≡ true }
{
    match (name.last(), other.last()) {
        (Some(end), Some(other_end)) => *end == *other_end,
        _ => true,
    }
}

/// Whether two names are the same. Most that differ have another length or another last byte, which
/// are looked at first.
fn is_same_name(name: &[u8], other: &[u8]) -> bool
    ensures { result ≡ bytes_eq name.now other.now }
{
    name.len() == other.len() && ends_alike(name, other) && name == other
}

impl<'a> Scope<'a> {
    /// One without variables.
    pub fn new(alloc: Global) -> Scope<'a>
        ensures { result ≡ [] }
    {
        Scope {
            bindings: Vec::new(alloc),
        }
    }

    /// How many variables are visible.
    pub fn len(&self) -> usize
        ensures { result ≡ length self.now }
    {
        self.bindings.len()
    }

    /// One more variable.
    pub fn declare(&mut self, name: &'a Name, variable: VarId) -> Result<(), AllocError>
        ensures { OnOk result (self.new ≡ self.old ++ (name.now, variable) ∷ []) }
    {
        self.bindings.push(Binding {
            name: name.bytes(),
            variable,
        })?;
        Ok(())
    }

    /// Leaves the first `len` variables.
    pub fn truncate(&mut self, len: usize)
        ensures { self.new ≡ take len self.old }
    {
        self.bindings.truncate(len);
    }

    /// The variable of a name.
    pub fn find(&self, name: &Name) -> Option<VarId>
        ensures { result ≡ find_variable self.now name.now }
    {
        for binding in &self.bindings {
            if is_same_name(name.bytes(), binding.name) {
                return Some(binding.variable);
            }
        }
        None
    }
}
