//! Executing an instruction.
ghost use Rattle.std.specs.Prelude.{◌≡◌, ◌+◌, ◌<◌, ◌≤◌, ◌^◌, ℕ, ℤ, length, drop, Some, None, IfSome, slice_get, slice_set, false, if◌then◌else◌, ◌∷◌, ◌++◌, []};
ghost use Rattle.oc_sensors.specs.History.{history};
ghost use Rattle.oc_isa.specs.Image.{Exists};
ghost use Rattle.oc_undo.specs.Undo.{has_entry};
ghost use Rattle.oc_isa.specs.Power;
ghost use Rattle.oc_isa.specs.Table;
ghost use Rattle.oc_machine.specs.Arms;
ghost use Rattle.oc_isa.specs.Table.{device_of};
ghost use Rattle.oc_machine.specs.Acting.{IsNamedSaid, IsSampled, may_store, regs_at, write_at, writing};

use crate::act::{Outcome, act};
use crate::machine::Machine;
use crate::quiet::{NV_BASE, address};
use oc_isa::image::Image;
use oc_isa::instr::{Instr, Placed};
use oc_isa::phase::Phase;
use oc_sensors::sensors::Sensors;
use oc_tree::said::{Said, Shown};

/// The instruction at an address.
fn fetch(image: &Image, pc: u32) -> Option<Placed>
    ensures found { result ≡ slice_get image.now.code pc }
    ensures exists { IfSome result (λ p. Exists image.now p.instr) }
    ensures low { IfSome result (λ _. pc + 1 < 2 ^ 31) }
{
    match image.raw().code.get(pc as usize) {
        Some(placed) => Some(*placed),
        None => None,
    }
}

/// What an instruction shows, as what its step says.
fn said_of(shown: Option<Shown>) -> Option<Said>
    ensures { result ≡ Power.shown_of shown }
{
    match shown {
        Some(what) => Some(Said::Showed { what }),
        None => None,
    }
}

impl Machine {
    /// Whether an address is logged before it is written: in a region, where it has no entry.
    fn must_log(&self, addr: u32) -> bool
        ensures logged { (word : ℤ)
            → Power.to_log self.now.state.depth (Some (write_at addr word)) self.now.state.log
            ≡ (if result then Some addr else None) }
        ensures new { has_entry self.now.state.log addr
            ≡ (if result then false else has_entry self.now.state.log addr) }
    {
        if self.depth == 0 {
            false
        } else {
            !self.log.marked(addr)
        }
    }

    /// Writes a nonvolatile word and drops so many operands, or only logs the word that stands there.
    fn write(&mut self, addr: u32, word: i32, operands: usize) -> Option<Said>
        requires addr { addr < length self.old.state.nv }
        requires pc { self.old.state.pc + 1 < 2 ^ 31 }
        requires operands { operands ≤ length self.old.state.stack }
        requires running { self.old.state.phase ≡ Phase.Running }
        ensures state { self.new ≡ record {
          parts = self.old.parts;
          state =
              (writing addr word
              (regs_at (self.old.state.pc + 1) self.old.state.fp
              (drop operands self.old.state.stack))
              self.old.state).state;
        } }
        ensures said { result
            ≡ (writing addr word
            (regs_at (self.old.state.pc + 1) self.old.state.fp (drop operands self.old.state.stack))
            self.old.state).said }
        ensures named { IsNamedSaid self.old.parts.names result }
    {
        if self.must_log(addr) {
            self.note(addr);
        } else {
            self.store(addr, word, operands);
        }
        None
    }

    /// Logs the word at a nonvolatile address that has no entry yet. The instruction stays to be
    /// done.
    fn note(&mut self, addr: u32)
        requires addr { addr < length self.old.state.nv }
        requires new { has_entry self.old.state.log addr ≡ false }
        requires running { self.old.state.phase ≡ Phase.Running }
        ensures { self.new ≡ record {
          parts = self.old.parts;
          state = record self.old.state
              { log = self.old.state.log ++ Power.entry_at self.old.state.nv addr ∷ [] };
        } }
    {
        let old = self.nvm.read(addr);
        self.log.note(addr, old);
    }

    /// Writes a word to a nonvolatile address, drops so many operands, and goes on at the next
    /// instruction.
    fn store(&mut self, addr: u32, word: i32, operands: usize)
        requires addr { addr < length self.old.state.nv }
        requires pc { self.old.state.pc + 1 < 2 ^ 31 }
        requires operands { operands ≤ length self.old.state.stack }
        ensures { self.new ≡ record {
          parts = self.old.parts;
          state = record
              (Power.running self.old.state
              (regs_at (self.old.state.pc + 1) self.old.state.fp
              (drop operands self.old.state.stack))
              self.old.state.depth) { nv = slice_set self.old.state.nv addr word };
        } }
    {
        self.stack.drop_top(operands);
        self.nvm.write(addr, word);
        self.phase = Phase::Running;
        self.pc += 1;
    }

    /// The instruction `nstore`.
    fn nstore(&mut self, a: u32) -> Option<Said>
        requires pc { self.old.state.pc + 1 < 2 ^ 31 }
        requires running { self.old.state.phase ≡ Phase.Running }
        ensures state { (sample : ℕ → ℤ)
            → self.new ≡ record {
              parts = self.old.parts;
              state =
                  (Power.run_next sample
                  (Arms.nstores (self.old.state.pc + 1) self.old.state.fp self.old.state.stack
                  self.old.state.nv a) self.old.state).state;
            } }
        ensures said { (sample : ℕ → ℤ)
            → result ≡ (Power.run_next sample
            (Arms.nstores (self.old.state.pc + 1) self.old.state.fp self.old.state.stack
            self.old.state.nv a) self.old.state).said }
        ensures named { IsNamedSaid self.old.parts.names result }
    {
        match self.stack.top(self.fp as usize) {
            Some(word) => {
                if (a as usize) < self.nvm.len() {
                    self.write(a, word, 1)
                } else {
                    None
                }
            }
            None => None,
        }
    }

    /// The instruction `put`.
    fn put(&mut self) -> Option<Said>
        requires pc { self.old.state.pc + 1 < 2 ^ 31 }
        requires running { self.old.state.phase ≡ Phase.Running }
        ensures state { (sample : ℕ → ℤ)
            → self.new ≡ record {
              parts = self.old.parts;
              state =
                  (Power.run_next sample
                  (Arms.puts (self.old.state.pc + 1) self.old.state.fp self.old.state.stack
                  self.old.state.nv) self.old.state).state;
            } }
        ensures said { (sample : ℕ → ℤ)
            → result ≡ (Power.run_next sample
            (Arms.puts (self.old.state.pc + 1) self.old.state.fp self.old.state.stack
            self.old.state.nv) self.old.state).said }
        ensures named { IsNamedSaid self.old.parts.names result }
    {
        match self.stack.top_two(self.fp as usize) {
            Some((base, word)) => match address(base) {
                Some(a) => self.put_at(a, word),
                None => None,
            },
            None => None,
        }
    }

    /// Writes a word at an address, in the place of two operands.
    fn put_at(&mut self, a: u32, word: i32) -> Option<Said>
        requires pc { self.old.state.pc + 1 < 2 ^ 31 }
        requires running { self.old.state.phase ≡ Phase.Running }
        requires operands { 2 ≤ length self.old.state.stack }
        ensures state { (sample : ℕ → ℤ)
            → self.new ≡ record {
              parts = self.old.parts;
              state =
                  (Power.run_next sample
                  (Table.puts_at (self.old.state.pc + 1) self.old.state.fp self.old.state.stack
                  (drop 2 self.old.state.stack) self.old.state.nv a word) self.old.state).state;
            } }
        ensures said { (sample : ℕ → ℤ)
            → result ≡ (Power.run_next sample
            (Table.puts_at (self.old.state.pc + 1) self.old.state.fp self.old.state.stack
            (drop 2 self.old.state.stack) self.old.state.nv a word) self.old.state).said }
        ensures named { IsNamedSaid self.old.parts.names result }
    {
        if a < NV_BASE {
            if (a as usize) < self.stack.len() {
                self.stack.drop_top(2);
                self.stack.set(a as usize, word);
                self.phase = Phase::Running;
                self.pc += 1;
            }
            None
        } else if ((a - NV_BASE) as usize) < self.nvm.len() {
            self.write(a - NV_BASE, word, 2)
        } else {
            None
        }
    }

    /// The instruction at the program counter, at this tick.
    pub(crate) fn run_one(&mut self, h: &mut Sensors, now: u64) -> Option<Said>
        requires running { self.old.state.phase ≡ Phase.Running }
        requires depth { self.old.state.depth < 2 ^ 63 }
        requires sensors { h.old.sensors ≡ length self.old.parts.names.sensors }
        requires later { h.old.now ≤ now }
        ensures state { self.new
            ≡ record {
              parts = self.old.parts;
              state =
                  (Power.run_next (λ sensor. history h.old.rows sensor now)
                  (Power.next_at (device_of self.old.parts) self.old.state) self.old.state).state;
            } }
        ensures said { result
            ≡ (Power.run_next (λ sensor. history h.old.rows sensor now)
            (Power.next_at (device_of self.old.parts) self.old.state) self.old.state).said }
        ensures named { IsNamedSaid self.old.parts.names result }
        ensures sensors { IsSampled h.old h.new now }
    {
        match fetch(&self.image, self.pc) {
            Some(placed) => self.execute(placed, h, now),
            None => None,
        }
    }

    /// Executes an instruction at a tick, and answers what it says. An input reads its sensor at
    /// that tick.
    fn execute(&mut self, placed: Placed, h: &mut Sensors, now: u64) -> Option<Said>
        requires running { self.old.state.phase ≡ Phase.Running }
        requires depth { self.old.state.depth < 2 ^ 63 }
        requires sensors { h.old.sensors ≡ length self.old.parts.names.sensors }
        requires later { h.old.now ≤ now }
        requires exists { Exists self.old.parts placed.instr }
        requires pc { self.old.state.pc + 1 < 2 ^ 31 }
        ensures state { self.new
            ≡ record {
              parts = self.old.parts;
              state =
                  (Power.run_next (λ sensor. history h.old.rows sensor now)
                  (Table.act self.old.parts placed.site placed.instr (Power.regs_of self.old.state)
                  self.old.state.nv) self.old.state).state;
            } }
        ensures said { result
            ≡ (Power.run_next (λ sensor. history h.old.rows sensor now)
            (Table.act self.old.parts placed.site placed.instr (Power.regs_of self.old.state)
            self.old.state.nv) self.old.state).said }
        ensures named { IsNamedSaid self.old.parts.names result }
        ensures sensors { IsSampled h.old h.new now }
    {
        match placed.instr {
            Instr::Nstore { a } => self.nstore(a),
            Instr::Put => self.put(),
            _ => self.execute_other(placed, h, now),
        }
    }

    /// An instruction that isn't one of the two that may write a nonvolatile word.
    fn execute_other(&mut self, placed: Placed, h: &mut Sensors, now: u64) -> Option<Said>
        requires store { may_store placed.instr ≡ false }
        requires running { self.old.state.phase ≡ Phase.Running }
        requires depth { self.old.state.depth < 2 ^ 63 }
        requires sensors { h.old.sensors ≡ length self.old.parts.names.sensors }
        requires later { h.old.now ≤ now }
        requires exists { Exists self.old.parts placed.instr }
        requires pc { self.old.state.pc + 1 < 2 ^ 31 }
        ensures state { self.new
            ≡ record {
              parts = self.old.parts;
              state =
                  (Power.run_next (λ sensor. history h.old.rows sensor now)
                  (Table.act self.old.parts placed.site placed.instr (Power.regs_of self.old.state)
                  self.old.state.nv) self.old.state).state;
            } }
        ensures said { result
            ≡ (Power.run_next (λ sensor. history h.old.rows sensor now)
            (Table.act self.old.parts placed.site placed.instr (Power.regs_of self.old.state)
            self.old.state.nv) self.old.state).said }
        ensures named { IsNamedSaid self.old.parts.names result }
        ensures sensors { IsSampled h.old h.new now }
    {
        let outcome = act(
            self.image.raw(),
            placed,
            self.pc,
            self.fp,
            &mut self.stack,
            &self.nvm,
        );
        match outcome {
            Outcome::Went { pc, fp, shown } => {
                self.pc = pc;
                self.fp = fp;
                said_of(shown)
            }
            Outcome::Sampled { sensor, pc } => {
                let value = h.sample(sensor, now);
                self.stack.push(value);
                self.pc = pc;
                Some(Said::Sensed { sensor, value })
            }
            Outcome::Entering { region, pc } => self.enters(region, pc),
            Outcome::Committing { region, pc } => self.commits(region, pc),
            Outcome::Ended { how } => {
                self.phase = Phase::Over { how };
                Some(Said::Ended { how })
            }
            Outcome::Undefined => None,
        }
    }
}
