//! What a failure of power does.
ghost use Rattle.std.specs.Prelude.{◌≡◌};
ghost use Rattle.oc_isa.specs.Power;
ghost use Rattle.oc_machine.specs.Acting.{IsNamedSaid};
ghost use Rattle.oc_isa.specs.Table.{device_of};

use crate::boot::{number_of, region_before};
use crate::machine::Machine;
use oc_ckpt::AreaState;
use oc_isa::phase::Phase;
use oc_tree::said::Said;

impl Machine {
    /// The power fails; where it is `cut`, a low-power checkpoint doesn't complete.
    pub(crate) fn fail(&mut self, cut: bool) -> Option<Said>
        ensures state { self.new
            ≡ record {
              parts = self.old.parts;
              state = (Power.fail_in (device_of self.old.parts) cut self.old.state.phase
                  self.old.state).state;
            } }
        ensures said { result
            ≡ (Power.fail_in (device_of self.old.parts) cut self.old.state.phase
            self.old.state).said }
        ensures named { IsNamedSaid self.old.parts.names result }
    {
        match self.phase {
            Phase::Waking | Phase::Undoing { .. } | Phase::Restoring { .. } => {
                self.clear();
                None
            }
            Phase::Running | Phase::Entering { .. } => self.fail_awake(cut),
            Phase::Over { .. } | Phase::Lost => None,
        }
    }

    /// The power fails, and boot is over.
    fn fail_awake(&mut self, cut: bool) -> Option<Said>
        ensures state { self.new
            ≡ record {
              parts = self.old.parts;
              state =
                  (Power.fail_awake (device_of self.old.parts) cut self.old.state).state;
            } }
        ensures said { result
            ≡ (Power.fail_awake (device_of self.old.parts) cut self.old.state).said }
        ensures named { IsNamedSaid self.old.parts.names result }
    {
        match self.area.state() {
            AreaState::Armed => {
                let region = region_before(&self.image, number_of(self.saved(0)));
                self.clear();
                Some(Said::Aborted { region })
            }
            AreaState::Fresh | AreaState::Open | AreaState::Sealed => {
                self.checkpoint(cut);
                None
            }
        }
    }

    /// The low-power checkpoint, outside of regions.
    fn checkpoint(&mut self, cut: bool)
        ensures { self.new ≡ record
            { parts = self.old.parts; state = Power.checkpoint_outside cut self.old.state } }
    {
        if cut {
            self.clear();
            self.phase = Phase::Lost;
        } else {
            self.area
                .save_all(self.pc as i32, self.fp as i32, self.stack.as_slice());
            self.clear();
        }
    }

    /// An outage clears registers and stack.
    fn clear(&mut self)
        ensures { self.new ≡ record
            { parts = self.old.parts; state = Power.cleared self.old.state } }
    {
        self.phase = Phase::Waking;
        self.pc = 0;
        self.fp = 0;
        self.depth = 0;
        self.stack.truncate(0);
    }
}
