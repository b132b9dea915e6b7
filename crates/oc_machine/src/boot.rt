//! Boot: reading the area's state, putting old words back, restoring, resuming.
ghost use Rattle.std.specs.Prelude.{◌≡◌, ◌+◌, ◌<◌, ◌^◌};
ghost use Rattle.oc_isa.specs.Power;
ghost use Rattle.oc_machine.specs.Acting.{IsNamedSaid};
ghost use Rattle.oc_isa.specs.Table;
ghost use Rattle.oc_isa.specs.Table.{device_of};

use crate::machine::Machine;
use crate::stack::Stack;
use oc_ckpt::AreaState;
use oc_isa::image::Image;
use oc_isa::instr::Instr;
use oc_isa::phase::Phase;
use oc_tree::said::Said;

/// What boot does where so many entries are still to be put back.
fn undo_phase(left: usize) -> Phase
    ensures { result ≡ Power.undo_phase left }
{
    if left == 0 {
        Phase::Restoring { done: 0 }
    } else {
        Phase::Undoing { next: left - 1 }
    }
}

/// The region whose `enter` stands before an address.
pub(crate) fn region_before(image: &Image, pc: u32) -> u32
    ensures { result ≡ (device_of image.now).region pc }
{
    let at = (pc as usize).saturating_sub(1);
    match image.raw().code.get(at) {
        Some(placed) => region_of(placed.instr),
        None => 0,
    }
}

/// The region that an `enter` begins, and 0 for any other instruction.
fn region_of(instr: Instr) -> u32
    ensures { result ≡ Table.region_of instr }
{
    match instr {
        Instr::Enter { r } => r,
        _ => 0,
    }
}

/// A saved word as an address.
pub(crate) fn number_of(word: i32) -> u32
    ensures value { result ≡ Power.number_of word }
    ensures low { result < 2 ^ 31 }
{
    if word < 0 { 0 } else { word as u32 }
}

/// Restores a saved word: the first three are no words of the stack.
fn restore_word(stack: &mut Stack, done: usize, word: i32)
    ensures { stack.new ≡ record {
      words = Power.restored_stack stack.old.room done word stack.old.words;
      room =
          stack.old.room;
    } }
{
    if done < 3 {
        stack.truncate(0);
    } else if stack.len() < stack.room() {
        stack.push(word);
    }
}

impl Machine {
    /// The first step of a boot.
    pub(crate) fn wake(&mut self) -> Option<Said>
        ensures state { self.new
            ≡ record {
              parts = self.old.parts;
              state =
                  (Power.wake (device_of self.old.parts) self.old.state.area self.old.state).state;
            } }
        ensures said { result
            ≡ (Power.wake (device_of self.old.parts) self.old.state.area self.old.state).said }
        ensures named { IsNamedSaid self.old.parts.names result }
    {
        match self.area.state() {
            AreaState::Fresh => self.start(),
            AreaState::Open => {}
            AreaState::Sealed => {
                self.phase = Phase::Restoring { done: 0 };
            }
            AreaState::Armed => {
                self.log.restart();
                self.phase = undo_phase(self.log.len());
            }
        }
        None
    }

    /// The run begins, at the entry of `main`.
    fn start(&mut self)
        ensures { self.new ≡ record {
          parts = self.old.parts;
          state = Power.in_area
              (Power.running self.old.state (device_of self.old.parts).start 0) AreaState.Open;
        } }
    {
        self.stack.truncate(0);
        self.stack.push_zeros(self.frame as usize);
        self.phase = Phase::Running;
        self.pc = self.entry;
        self.fp = 0;
        self.depth = 0;
        self.area.seal(AreaState::Open);
    }

    /// Puts an entry of the undo log back.
    pub(crate) fn undo_step(&mut self, next: usize) -> Option<Said>
        requires { self.old.state.phase ≡ Phase.Undoing next }
        ensures state { self.new
            ≡ record {
              parts = self.old.parts;
              state = (Power.undo_step next self.old.state).state;
            } }
        ensures said { result ≡ (Power.undo_step next self.old.state).said }
        ensures named { IsNamedSaid self.old.parts.names result }
    {
        let fits = self.log.words() <= self.nvm.len();
        prove!(fits);
        self.log.undo_one(&mut self.nvm);
        self.phase = undo_phase(next);
        None
    }

    /// Restores a saved word, or resumes where all are restored.
    pub(crate) fn restore(&mut self, done: usize) -> Option<Said>
        ensures state { self.new
            ≡ record {
              parts = self.old.parts;
              state =
                  (Power.restore (device_of self.old.parts) done self.old.state).state;
            } }
        ensures said { result
            ≡ (Power.restore (device_of self.old.parts) done self.old.state).said }
        ensures named { IsNamedSaid self.old.parts.names result }
    {
        let held = 3 + number_of(self.saved(2)) as usize;
        if done < held {
            self.restore_one(done);
            None
        } else {
            self.resume()
        }
    }

    /// Restores the saved word behind the first `done`: the program counter, the frame, how many
    /// words the stack has, or one of these.
    fn restore_one(&mut self, done: usize)
        requires { done < 2 ^ 32 }
        ensures { self.new ≡ record {
          parts = self.old.parts;
          state =
              (Power.restore_one (device_of self.old.parts) done self.old.state).state;
        } }
    {
        let word = self.saved(done);
        match done {
            0 => self.pc = number_of(word),
            1 => self.fp = number_of(word),
            _ => {}
        }
        restore_word(&mut self.stack, done, word);
        self.phase = Phase::Restoring { done: done + 1 };
    }

    /// A word of the area, 0 past its end.
    pub(crate) fn saved(&self, at: usize) -> i32
        ensures { result ≡ Power.word_of self.now.state.words at }
    {
        if at < self.area.len() {
            self.area.word(at)
        } else {
            0
        }
    }

    /// The last step of a boot.
    fn resume(&mut self) -> Option<Said>
        ensures state { self.new
            ≡ record {
              parts = self.old.parts;
              state = (Power.resume (device_of self.old.parts) self.old.state.area
                  self.old.state).state;
            } }
        ensures said { result
            ≡ (Power.resume (device_of self.old.parts) self.old.state.area self.old.state).said }
        ensures named { IsNamedSaid self.old.parts.names result }
    {
        match self.area.state() {
            AreaState::Fresh => None,
            AreaState::Open => None,
            AreaState::Sealed => {
                self.phase = Phase::Running;
                self.depth = 0;
                self.area.seal(AreaState::Open);
                None
            }
            AreaState::Armed => {
                self.phase = Phase::Running;
                self.depth = 1;
                Some(Said::Entered {
                    region: region_before(&self.image, self.pc),
                })
            }
        }
    }
}
