//! The machine, and what it lends.
ghost use Rattle.std.specs.Prelude.{◌≡◌, ◌≤◌, ◌<◌, ◌+◌, ◌^◌, ◌++◌, All, replicate, vec_len, sum_by, IfOk, OnOk, FitsSigned};
ghost use Rattle.std.specs.Int.{w32};
ghost use Rattle.oc_tree.specs.Sizes.{word_limit};
ghost use Rattle.oc_isa.specs.Image as images;
ghost use Rattle.oc_isa.specs.Image.{main_of, entry_of, frame_of};
ghost use Rattle.oc_isa.specs.Table.{device_of};
ghost use Rattle.oc_isa.specs.Run.{IsSound};
ghost use Rattle.oc_isa.specs.Power.{first_state};

use crate::prepared::{Row, prepare};
use crate::stack::Stack;
use oc_ckpt::Area;
use oc_io::Memory;
use oc_isa::image::{Image, ImageFunction, ImageNv};
use oc_isa::phase::Phase;
use oc_nvm::Nvm;
use oc_undo::log::UndoLog;
use std::alloc::Global;
use std::marker::Model;

/// A machine that runs one image once. An outage clears its registers and stack, and keeps its
/// nonvolatile words, the undo log and the area. Only `load` takes memory.
#[derive(Drop)]
pub struct Machine {
    pub(crate) image: Image,
    pub(crate) rows: Vec<Row>,
    pub(crate) entry: u32,
    pub(crate) frame: u32,
    pub(crate) phase: Phase,
    pub(crate) pc: u32,
    pub(crate) fp: u32,
    pub(crate) depth: u64,
    pub(crate) stack: Stack,
    pub(crate) nvm: Nvm,
    pub(crate) log: UndoLog,
    pub(crate) area: Area,
}

impl Model for Machine {
    ghost use Rattle.oc_machine.specs.Kept.{Running, IsKept};

    ghost Value = { Running };

    ghost view = { λ m. record {
      parts = m.image;
      state = record {
        phase = m.phase;
        pc = m.pc;
        fp = m.fp;
        depth = m.depth;
        stack = m.stack.words;
        nv = m.nvm;
        log = m.log.entries;
        area = m.area.state;
        words = m.area.words;
      };
    } };

    ghost invariant = { λ m. IsKept m.image m.rows.items m.entry m.frame m.phase m.pc m.fp m.stack
        m.nvm m.log m.area };
}

/// Where `main` begins, and how many words its frame has.
#[derive(Clone, Copy)]
struct Start {
    entry: u32,
    frame: u32,
}

/// Where the first function named `main` begins and the words of its frame, or zeros where there is
/// none.
fn find_main(functions: &[ImageFunction]) -> Start
    ensures entry { result.entry ≡ entry_of (main_of functions.now) }
    ensures frame { result.frame ≡ frame_of (main_of functions.now) }
{
    for function in functions {
        if function.name.is_main() {
            return Start {
                entry: function.entry,
                frame: function.frame,
            };
        }
    }
    Start { entry: 0, frame: 0 }
}

/// The values of the nonvolatile words at first.
fn initial_words(alloc: Global, nv: &[ImageNv]) -> Result<Vec<i32>, Memory>
    requires { sum_by (λ v. v.words) nv.now ≤ word_limit }
    ensures words { IfOk result (λ words. words.items ≡ images.initial_words nv.now) }
    ensures fit { IfOk result (λ words. All (FitsSigned w32) words.items) }
{
    let mut words = Vec::new(alloc);
    for variable in nv {
        append(&mut words, variable.words as usize, variable.initial)?;
    }
    Ok(words)
}

/// Appends a word so many times. It answers `Memory` where there is none.
fn append(words: &mut Vec<i32>, count: usize, word: i32) -> Result<(), Memory>
    requires { vec_len words.old + count < 2 ^ 62 }
    ensures words { OnOk result (words.new.items ≡ words.old.items ++ replicate count word) }
    ensures fit { OnOk result
        (All (FitsSigned w32) words.old.items → All (FitsSigned w32) words.new.items) }
{
    match words.resize(words.len() + count, word) {
        Ok(()) => Ok(()),
        Err(_) => Err(Memory),
    }
}

impl Machine {
    /// A machine for an image, before its first period. It answers `Memory` where there is none.
    pub fn load(alloc: Global, image: Image) -> Result<Machine, Memory>
        requires { IsSound (device_of image) }
        ensures { IfOk result (λ m. m
            ≡ record { parts = image; state = first_state (device_of image) }) }
    {
        let raw = image.raw();
        let room = raw.stack as usize;
        let start = find_main(&raw.functions);
        let rows = prepare(alloc, &raw.code)?;
        let words = initial_words(alloc, &raw.nv)?;
        let stack = Stack::new(alloc, room)?;
        let nvm = Nvm::new(alloc, &words)?;
        let log = UndoLog::new(alloc, words.len())?;
        let area = Area::new(alloc, 3 + room)?;
        Ok(Machine {
            image,
            rows,
            entry: start.entry,
            frame: start.frame,
            phase: Phase::Waking,
            pc: 0,
            fp: 0,
            depth: 0,
            stack,
            nvm,
            log,
            area,
        })
    }

    /// The image that it runs.
    pub fn image(&self) -> &Image
        ensures { result.now ≡ self.now.parts }
    {
        &self.image
    }

    /// The area, where registers and the stack are saved.
    pub fn area(&self) -> &Area
        ensures { result.now ≡ record
            { words = self.now.state.words; state = self.now.state.area } }
    {
        &self.area
    }

    /// The nonvolatile words.
    pub fn nv_words(&self) -> &[i32]
        ensures words { result.now ≡ self.now.state.nv }
        ensures fit { All (FitsSigned w32) self.now.state.nv }
    {
        self.nvm.words()
    }

    /// The undo log.
    pub fn undo_log(&self) -> &UndoLog
        ensures { result.now.entries ≡ self.now.state.log }
    {
        &self.log
    }
}
