//! The log with its marks.
ghost use Rattle.std.specs.Prelude.{◌≡◌, ℕ, ◌+◌, ◌-◌, ◌<◌, ◌≤◌, false, [], ◌∷◌, ◌++◌, length, IfOk, nat_lt, slice_index_or, All};
ghost use Rattle.oc_undo.specs.Undo.{has_entry, left, undo_one, after_one};

use crate::Entry;
use oc_io::Memory;
use oc_nvm::Nvm;
use std::alloc::Global;
use std::marker::Model;

/// The old words of the nonvolatile words that were written, the oldest first. Each address has at
/// most one entry. A rollback puts them back one by one, from the last to the first.
///
/// A contract sees the entries, how many were put back since the last restart, and the number of
/// nonvolatile words. Only `new` takes memory.
#[derive(Drop)]
pub struct UndoLog {
    entries: Vec<Entry>,
    marks: Vec<bool>,
    back: usize,
}

impl Model for UndoLog {
    ghost use Rattle.std.specs.Prelude.{◌≤◌, length, vec_capacity};
    ghost use Rattle.oc_undo.specs.Undo.{Log, IsMarked};

    ghost Value = { Log };

    ghost view = { λ a. record {
      entries = a.entries.items;
      back = a.back;
      words = length a.marks.items;
    } };

    ghost invariant = { λ a. IsMarked a.entries.items a.marks.items
        × (length a.marks.items ≤ vec_capacity a.entries) × (a.back ≤ length a.entries.items) };
}

/// Takes away the marks of these entries, where there are no others.
fn unmark(entries: &[Entry], marks: &mut [bool])
    requires inside { All (λ e. e.addr < length marks.old) entries.now }
    requires told { (a : ℕ) → a < length marks.old
        → slice_index_or marks.old a false ≡ has_entry entries.now a }
    ensures { (a : ℕ) → slice_index_or marks.new a false ≡ false }
{
    for entry in entries {
        marks[entry.addr as usize] = false;
    }
}

impl UndoLog {
    /// An empty log of so many nonvolatile words. It answers `Memory` where there is none.
    pub fn new(alloc: Global, words: usize) -> Result<UndoLog, Memory>
        ensures { IfOk result (λ log. log ≡ record { entries = []; back = 0; words = words }) }
    {
        let Ok(entries) = Vec::with_capacity(alloc, words) else {
            return Err(Memory);
        };
        match vec![in alloc; false; words] {
            Ok(marks) => Ok(UndoLog {
                entries,
                marks,
                back: 0,
            }),
            Err(_) => Err(Memory),
        }
    }

    /// How many entries there are.
    pub fn len(&self) -> usize
        ensures value { result ≡ length self.now.entries }
        ensures within { length self.now.entries ≤ self.now.words }
        ensures back { self.now.back ≤ length self.now.entries }
    {
        self.entries.len()
    }

    /// Of how many nonvolatile words the log is.
    pub fn words(&self) -> usize
        ensures value { result ≡ self.now.words }
        ensures inside { All (λ e. e.addr < self.now.words) self.now.entries }
    {
        self.marks.len()
    }

    /// The entries, the oldest first.
    pub fn entries(&self) -> &[Entry]
        ensures { result.now ≡ self.now.entries }
    {
        &self.entries
    }

    /// Whether an address has an entry. It doesn't walk the log.
    pub fn marked(&self, addr: u32) -> bool
        ensures { result ≡ has_entry self.now.entries addr }
    {
        let at = addr as usize;
        at < self.marks.len() && self.marks[at]
    }

    /// Notes the old word of an address that has no entry. The next rollback begins at this entry.
    pub fn note(&mut self, addr: u32, old: i32)
        requires within { addr < self.old.words }
        requires unmarked { has_entry self.old.entries addr ≡ false }
        ensures { self.new ≡ record self.old
            { entries = self.old.entries ++ record { addr = addr; old = old } ∷ []; back = 0 } }
    {
        self.restart();
        // `new` took room for an entry of each word, so this wants no memory
        let _ = self.entries.push(Entry { addr, old });
        self.marks[addr as usize] = true;
    }

    /// Puts back the next entry, which is the last that wasn't put back since the last restart. It
    /// answers false exactly where all were, and then changes nothing.
    pub fn undo_one(&mut self, nvm: &mut Nvm) -> bool
        requires { All (λ e. e.addr < length nvm.old) self.old.entries }
        ensures more { result ≡ nat_lt self.old.back (length self.old.entries) }
        ensures words { nvm.new ≡ undo_one self.old.entries (left self.old) nvm.old }
        ensures log { self.new ≡ after_one self.old (left self.old) }
    {
        if self.entries.len() <= self.back {
            return false;
        }
        let entry = self.entries[self.entries.len() - self.back - 1];
        nvm.write(entry.addr, entry.old);
        self.back += 1;
        true
    }

    /// Begins the rollback anew.
    pub fn restart(&mut self)
        ensures { self.new ≡ record self.old { back = 0 } }
    {
        self.back = 0;
    }

    /// Takes away all entries. It takes time by their number.
    pub fn clear(&mut self)
        ensures { self.new ≡ record self.old { entries = []; back = 0 } }
    {
        self.restart();
        unmark(&self.entries, &mut self.marks);
        self.entries.clear();
    }
}
