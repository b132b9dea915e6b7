//! The variables in scope.
ghost use Rattle.oc_tree.specs.declared.scope.Var.{Var};
ghost use Rattle.std.specs.Prelude.{◌≡◌, ◌++◌, List, ℕ, [], ◌∷◌, map, take, length, None, OnOk};
ghost use Rattle.oc_tree.specs.Scope.{Scope as Variables, variable_in};

use indexmap::IndexMap;
use oc_tree::name::Name;
use oc_tree::scope::Var;
use std::alloc::{AllocError, Global};
use std::marker::Model;

/// The visible variables of a function, in the order of their declarations.
pub struct Scope<'a> {
    variables: IndexMap<&'a [u8], Var>,
}

// Written out, as that of `TopLevel`.
impl Drop for Scope<'_> {
    fn drop(self) {
        let Scope { variables } = self;
        drop(variables);
    }
}

impl<'a> Model for Scope<'a> {
    ghost Value = { List (List ℕ × Var) };

    ghost view = { λ s. map (λ e. (e.0.now, e.1)) s.variables.entries };
}

impl<'a> Scope<'a> {
    /// No variable.
    pub fn new(alloc: Global) -> Scope<'a>
        ensures { result ≡ [] }
    {
        Scope {
            variables: IndexMap::new(alloc),
        }
    }

    /// How many variables there are.
    pub fn len(&self) -> usize
        ensures { result ≡ length self.now }
    {
        self.variables.len()
    }

    /// The variable of a name.
    pub fn get(&self, name: &Name) -> Option<Var>
        ensures { result ≡ variable_in self.now name.now }
    {
        let found = self.variables.get(&name.bytes());
        match found {
            Some(variable) => Some(*variable),
            None => None,
        }
    }

    /// Adds a variable, whose name no other has.
    pub fn declare(&mut self, name: &'a Name, variable: Var) -> Result<(), AllocError>
        requires { variable_in self.old name.now ≡ None }
        ensures { OnOk result (self.new ≡ self.old ++ (name.now, variable) ∷ []) }
    {
        self.variables.insert(name.bytes(), variable)?;
        Ok(())
    }

    /// Leaves the first `len` variables.
    pub fn truncate(&mut self, len: usize)
        ensures { self.new ≡ take len self.old }
    {
        self.variables.truncate(len);
    }
}
