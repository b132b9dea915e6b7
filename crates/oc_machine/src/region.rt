//! Regions: entering one, and committing.
ghost use Rattle.std.specs.Prelude.{◌≡◌, ◌+◌, ◌<◌, ◌^◌, length, slice_get};
ghost use Rattle.oc_isa.specs.Power;
ghost use Rattle.oc_isa.specs.Table.{device_of};
ghost use Rattle.oc_machine.specs.Acting.{IsNamedSaid, enter_in, regs_at};

use crate::machine::Machine;
use oc_ckpt::AreaState;
use oc_isa::instr::{Instr, Placed};
use oc_isa::phase::Phase;
use oc_tree::said::Said;

impl Machine {
    /// A word that an `enter` saves, which leads to the address `to`.
    fn word_to_save(&self, to: u32, at: usize) -> i32
        requires to { to < 2 ^ 31 }
        requires at { at < 3 + length self.now.state.stack }
        ensures { result
            ≡ Power.word_of (Power.words_of (regs_at to self.now.state.fp self.now.state.stack))
            at }
    {
        match at {
            0 => to as i32,
            1 => self.fp as i32,
            2 => self.stack.as_slice().len() as i32,
            _ => self.stack.as_slice()[at - 3],
        }
    }

    /// One step of an outermost `enter`, which leads to the address `to`: a word is saved, or it arms.
    pub(crate) fn enter(&mut self, done: usize, region: u32, to: u32) -> Option<Said>
        requires { to < 2 ^ 31 }
        ensures state { self.new ≡ record {
          parts = self.old.parts;
          state =
              (Power.enter done region (regs_at to self.old.state.fp self.old.state.stack)
              self.old.state).state;
        } }
        ensures said { result
            ≡ (Power.enter done region (regs_at to self.old.state.fp self.old.state.stack)
            self.old.state).said }
        ensures named { IsNamedSaid self.old.parts.names result }
    {
        if done < 3 + self.stack.len() {
            let word = self.word_to_save(to, done);
            self.area.put_word(done, word);
            self.phase = Phase::Entering { done: done + 1 };
            None
        } else {
            self.area.seal(AreaState::Armed);
            self.phase = Phase::Running;
            self.pc = to;
            self.depth = 1;
            Some(Said::Entered { region })
        }
    }

    /// The instruction `enter`, which leads to the address `to`.
    pub(crate) fn enters(&mut self, region: u32, to: u32) -> Option<Said>
        requires depth { self.old.state.depth < 2 ^ 63 }
        requires to { to < 2 ^ 31 }
        ensures state { self.new
            ≡ record {
              parts = self.old.parts;
              state =
                  (Power.enters self.old.state.depth region
                  (regs_at to self.old.state.fp self.old.state.stack) self.old.state).state;
            } }
        ensures said { result
            ≡ (Power.enters self.old.state.depth region
            (regs_at to self.old.state.fp self.old.state.stack) self.old.state).said }
        ensures named { IsNamedSaid self.old.parts.names result }
    {
        if self.depth == 0 {
            self.enter(0, region, to)
        } else {
            self.phase = Phase::Running;
            self.pc = to;
            self.depth += 1;
            None
        }
    }

    /// The instruction `commit`, which leads to the address `to`.
    pub(crate) fn commits(&mut self, region: u32, to: u32) -> Option<Said>
        requires { to < 2 ^ 31 }
        ensures state { self.new
            ≡ record {
              parts = self.old.parts;
              state =
                  (Power.commits self.old.state.depth region
                  (regs_at to self.old.state.fp self.old.state.stack) self.old.state).state;
            } }
        ensures said { result
            ≡ (Power.commits self.old.state.depth region
            (regs_at to self.old.state.fp self.old.state.stack) self.old.state).said }
        ensures named { IsNamedSaid self.old.parts.names result }
    {
        match self.depth {
            0 => None,
            1 => {
                self.phase = Phase::Running;
                self.pc = to;
                self.depth = 0;
                self.log.clear();
                self.area.seal(AreaState::Open);
                Some(Said::Committed { region })
            }
            _ => {
                self.phase = Phase::Running;
                self.pc = to;
                self.depth -= 1;
                None
            }
        }
    }

    /// Goes on with an `enter` that is under way.
    pub(crate) fn enter_on(&mut self, done: usize) -> Option<Said>
        ensures state { self.new
            ≡ record {
              parts = self.old.parts;
              state =
                  (Power.enter_on done (Power.next_at (device_of self.old.parts) self.old.state)
                  self.old.state).state;
            } }
        ensures said { result
            ≡ (Power.enter_on done (Power.next_at (device_of self.old.parts) self.old.state)
            self.old.state).said }
        ensures named { IsNamedSaid self.old.parts.names result }
    {
        match enter_at(&self.image.raw().code, self.pc) {
            Some(region) => self.enter(done, region, self.pc + 1),
            None => None,
        }
    }
}

/// The region of the `enter` at an address, if there is one.
fn enter_at(code: &[Placed], pc: u32) -> Option<u32>
    ensures { result ≡ enter_in (slice_get code.now pc) }
{
    match code.get(pc as usize) {
        Some(
            Placed {
                instr: Instr::Enter { r },
                ..
            },
        ) => Some(*r),
        _ => None,
    }
}
