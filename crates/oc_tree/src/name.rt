//! Names.
ghost use Rattle.std.specs.Prelude.{◌≡◌, IfOk};
ghost use Rattle.std.specs.Str.{bytes_eq};
ghost use Rattle.oc_tree.specs.Names.{names_view};
ghost use Rattle.oc_tree.specs.Rules.{is_main};

use std::alloc::{AllocError, Global};
use std::marker::Model;

/// A name, which contracts see as its bytes.
#[derive(Drop)]
pub struct Name {
    bytes: Vec<u8>,
}

impl Model for Name {
    ghost use Rattle.std.specs.Prelude.{List, ℕ};

    ghost Value = { List ℕ };

    ghost view = { λ a. a.bytes.items };
}

impl Name {
    /// A name of these bytes, whatever they are.
    pub fn new(bytes: Vec<u8>) -> Name
        ensures { result ≡ bytes.items }
    {
        Name { bytes }
    }

    /// The bytes of the name.
    pub fn bytes(&self) -> &[u8]
        ensures { result.now ≡ self.now }
    {
        self.bytes.as_slice()
    }

    /// A copy of the name.
    #[inline(never)]
    pub fn try_clone(&self, alloc: Global) -> Result<Name, AllocError>
        ensures { IfOk result (λ n. n ≡ self.now) }
    {
        let bytes = Vec::from_slice(alloc, self.bytes())?;
        Ok(Name::new(bytes))
    }

    /// Whether both are the same name.
    pub fn is(&self, other: &Name) -> bool
        ensures { result ≡ bytes_eq self.now other.now }
    {
        self.bytes.as_slice() == other.bytes.as_slice()
    }

    /// Whether it is `main`.
    pub fn is_main(&self) -> bool
        ensures { result ≡ is_main self.now }
    {
        self.bytes.as_slice() == b"main".as_slice()
    }
}

/// The names of a program's sensors, ports and nonvolatile variables, each kind in the order of
/// its declarations.
#[derive(Drop)]
pub struct Names {
    pub sensors: Vec<Name>,
    pub ports: Vec<Name>,
    pub nvs: Vec<Name>,
}

/// A copy of a list of names. Err is want of memory.
fn clone_all(alloc: Global, names: &[Name]) -> Result<Vec<Name>, AllocError>
    ensures { IfOk result (λ n. n.items ≡ names.now) }
{
    let mut copies = Vec::new(alloc);
    for name in names {
        let copy = name.try_clone(alloc)?;
        copies.push(copy)?;
    }
    Ok(copies)
}

impl Names {
    /// A copy of all names.
    pub fn try_clone(&self, alloc: Global) -> Result<Names, AllocError>
        ensures { IfOk result (λ n. names_view n ≡ names_view self.now) }
    {
        let sensors = clone_all(alloc, self.sensors.as_slice())?;
        let ports = clone_all(alloc, self.ports.as_slice())?;
        let nvs = clone_all(alloc, self.nvs.as_slice())?;
        Ok(Names {
            sensors,
            ports,
            nvs,
        })
    }
}
