//! The area where registers and the stack are saved, with its one state word.
#![tactic(auto)]

ghost use Rattle.std.specs.Prelude.{◌≡◌, ◌+◌, ◌<◌, ◌≤◌, pos, length, replicate, slice_index_or, slice_set, IfOk, ◌^◌};
ghost use Rattle.oc_ckpt.specs.Saving.{saved_words, save_all};

use oc_io::Memory;
use std::alloc::Global;
use std::marker::Model;

/// What the words of the area are good for. One call changes it, in one step.
#[derive(Clone, Copy)]
pub enum AreaState {
    /// Nothing was ever saved.
    Fresh,
    /// The words aren't to be restored.
    Open,
    /// A low-power checkpoint is complete.
    Sealed,
    /// The words are those at the start of a region that is under way.
    Armed,
}

/// The area. A contract sees its words and its state.
#[derive(Drop)]
pub struct Area {
    words: Vec<i32>,
    state: AreaState,
}

impl Model for Area {
    ghost use Rattle.oc_ckpt.specs.Saving.{Held};

    ghost Value = { Held };

    ghost view = { λ a. record { words = a.words.items; state = a.state } };
}

/// The words before those of the stack: the program counter, the frame's place and the stack's
/// length.
const HEAD: usize = 3;

impl Area {
    /// An area of so many words, all 0, where nothing was ever saved. It answers `Memory` where
    /// there is none.
    pub fn new(alloc: Global, words: usize) -> Result<Area, Memory>
        ensures { IfOk result (λ area. area
            ≡ record { words = replicate words (pos 0); state = AreaState.Fresh }) }
    {
        match vec![in alloc; 0; words] {
            Ok(words) => Ok(Area {
                words,
                state: AreaState::Fresh,
            }),
            Err(_) => Err(Memory),
        }
    }

    /// How many words there are.
    pub fn len(&self) -> usize
        ensures { result ≡ length self.now.words }
    {
        self.words.len()
    }

    /// What the words are good for.
    pub fn state(&self) -> AreaState
        ensures { result ≡ self.now.state }
    {
        self.state
    }

    /// The word at a place.
    pub fn word(&self, at: usize) -> i32
        requires { at < length self.now.words }
        ensures { result ≡ slice_index_or self.now.words at (pos 0) }
    {
        self.words[at]
    }

    /// Puts a word at a place, and leaves the others and the state as they are.
    pub fn put_word(&mut self, at: usize, word: i32)
        requires { at < length self.old.words }
        ensures { self.new ≡ record self.old { words = slice_set self.old.words at word } }
    {
        self.words[at] = word;
    }

    /// Writes the state word alone.
    pub fn seal(&mut self, s: AreaState)
        ensures { self.new ≡ record self.old { state = s } }
    {
        self.state = s;
    }

    /// Saves the program counter, the frame's place and the stack, from the first word on, and ends
    /// `Sealed`. The words past them stay.
    pub fn save_all(&mut self, pc: i32, fp: i32, stack: &[i32])
        requires short { length stack.now < 2 ^ 31 }
        requires room { length stack.now + HEAD ≤ length self.old.words }
        ensures value { self.new
            ≡ record {
              words = save_all (saved_words pc fp stack.now) self.old.words;
              state =
                  AreaState.Sealed;
            } }
        ensures size { length self.new.words ≡ length self.old.words }
    {
        self.words[0] = pc;
        self.words[1] = fp;
        self.words[2] = stack.len() as i32;
        self.words[HEAD..HEAD + stack.len()].copy_from_slice(stack);
        self.state = AreaState::Sealed;
    }
}
