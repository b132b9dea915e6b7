//! Code as it is written.
ghost use Rattle.std.specs.Prelude.{◌≡◌, ◌<◌, ◌++◌, [], length, slice_set, OnOk, IfOk};
ghost use Rattle.oc_isa.specs.declared.instr.Instr.TheVariants.{Jfalse};
ghost use Rattle.oc_code.specs.Forms.{placed, one};

use oc_isa::instr::{Instr, Placed};
use std::alloc::{AllocError, Global};
use std::marker::Model;

/// Instructions, which contracts see as their list. There is room for 2,147,483,647 of them, so
/// that each address is a `u32`.
#[derive(Drop)]
pub struct Buffer {
    placed: Vec<Placed>,
}

impl Model for Buffer {
    ghost use Rattle.std.specs.Prelude.{◌<◌, List, length};
    ghost use Rattle.oc_isa.specs.declared.instr.Placed.{Placed};

    ghost Value = { List Placed };

    ghost view = { λ b. b.placed.items };

    ghost invariant = { λ b. length b.placed.items < 2147483648 };
}

impl Buffer {
    /// No instructions yet. It takes no memory.
    pub fn new(alloc: Global) -> Buffer
        ensures { result ≡ [] }
    {
        Buffer {
            placed: Vec::new(alloc),
        }
    }

    /// The address of the next instruction.
    pub fn address(&self) -> u32
        ensures address { result ≡ length self.now }
        ensures small { result < 2147483648 }
    {
        self.placed.len() as u32
    }

    /// One more instruction of the statement `site`.
    pub fn put(&mut self, site: u32, instr: Instr) -> Result<(), AllocError>
        requires { length self.old < 2147483647 }
        ensures { OnOk result (self.new ≡ self.old ++ one site instr) }
    {
        self.placed.push(Placed { instr, site })?;
        Ok(())
    }

    /// Another instruction in the place of one that is there.
    pub fn set(&mut self, address: u32, site: u32, instr: Instr)
        requires { address < length self.old }
        ensures { self.new ≡ slice_set self.old address (placed site instr) }
    {
        self.placed[address as usize] = Placed { instr, site };
    }

    /// A jump on zero whose end isn't known yet, by its address.
    pub fn open(&mut self, site: u32) -> Result<u32, AllocError>
        requires { length self.old < 2147483647 }
        ensures code { OnOk result (self.new ≡ self.old ++ one site (Jfalse 0)) }
        ensures address { IfOk result (λ a. a ≡ length self.old) }
    {
        let address = self.address();
        self.put(site, Instr::Jfalse { t: 0 })?;
        Ok(address)
    }

    /// The instructions.
    pub fn into_code(self) -> Vec<Placed>
        ensures { result.items ≡ self }
    {
        self.placed
    }
}
