//! The nonvolatile words, which an outage leaves as they are.
#![tactic(auto)]

ghost use Rattle.std.specs.Prelude.{◌≡◌, ◌<◌, pos, List, length, slice_index_or, slice_set, IfOk};

use oc_io::Memory;
use std::alloc::Global;
use std::marker::Model;

/// The nonvolatile words. A contract sees the list of them.
#[derive(Drop)]
pub struct Nvm {
    words: Vec<i32>,
}

impl Model for Nvm {
    ghost use Rattle.std.specs.Prelude.{ℤ, List};

    ghost Value = { List ℤ };

    ghost view = { λ a. a.words.items };
}

impl Nvm {
    /// Words that begin as these. It answers `Memory` where there is none.
    pub fn new(alloc: Global, initial: &[i32]) -> Result<Nvm, Memory>
        ensures { IfOk result (λ nvm. nvm ≡ initial.now) }
    {
        match Vec::from_slice(alloc, initial) {
            Ok(words) => Ok(Nvm { words }),
            Err(_) => Err(Memory),
        }
    }

    /// How many words there are.
    pub fn len(&self) -> usize
        ensures { result ≡ length self.now }
    {
        self.words.len()
    }

    /// The word at an address.
    pub fn read(&self, addr: u32) -> i32
        requires { addr < length self.now }
        ensures { result ≡ slice_index_or self.now addr (pos 0) }
    {
        self.words[addr as usize]
    }

    /// Puts a word at an address, and leaves the others as they are.
    pub fn write(&mut self, addr: u32, word: i32)
        requires { addr < length self.old }
        ensures { self.new ≡ slice_set self.old addr word }
    {
        self.words[addr as usize] = word;
    }

    /// All the words, in the order of their addresses.
    pub fn words(&self) -> &[i32]
        ensures { result.now ≡ self.now }
    {
        &self.words
    }
}
