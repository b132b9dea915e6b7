//! Bounds of runs under power.
#![tactic(auto)]

ghost use Rattle.std.specs.Prelude.{◌≡◌, ◌≤◌, ℕ, ℤ, List, true};
ghost use Rattle.oc_io.specs.declared.period.Period.{Period};
ghost use Rattle.oc_tree.specs.Word.{is_word};
ghost use Rattle.oc_isa.specs.Next.{Device};
ghost use Rattle.oc_isa.specs.Power.{power_run};
ghost use Rattle.oc_isa.specs.Run.{start_of};
ghost use Rattle.oc_outage.specs.Honest.{IsFit};
ghost use Rattle.oc_bounds.specs.Bounds.{Bounds, IsBounded, Takes};
ghost use Rattle.oc_bounds.specs.Attempts.{AttemptsClose};
ghost use Rattle.oc_bounds.specs.Headway.{AddUp, PeriodsKeep, RunEnds, Suffice, least};

/// A run ends where one more of its first periods than it has instructions are safe, where as many
/// as it has instructions have the least number of steps, or where the first ones have steps enough,
/// for those that it takes or by the numbers that are printed.
pub fn progress()
    ensures { (d : Device) (b : Bounds) (h : ℕ → ℕ → ℤ) (periods : List Period) → IsFit d
        → IsBounded d b → ((sensor tick : ℕ) → is_word (h sensor tick) ≡ true) →
        Suffice d b periods → RunEnds d h periods }
{}

/// An attempt of a region that begins where its period has the steps for it is closed, by its
/// commit or by a trap, before any outage.
pub fn attempts()
    ensures { (d : Device) (b : Bounds) (h : ℕ → ℕ → ℤ) (periods : List Period) → IsFit d
        → IsBounded d b → ((sensor tick : ℕ) → is_word (h sensor tick) ≡ true) →
        AttemptsClose b periods (power_run d h periods).report }
{}

/// A period that has the least number of steps keeps at least one further instruction of the run,
/// whatever the periods before it are, or the run is over behind it. A safe period has that number.
pub fn headway()
    ensures keeps { (d : Device) (b : Bounds) (h : ℕ → ℕ → ℤ) (periods : List Period) → IsFit d
        → IsBounded d b → ((sensor tick : ℕ) → is_word (h sensor tick) ≡ true) →
        PeriodsKeep d b h periods }
    ensures safe { (d : Device) (b : Bounds) → least d b ≤ b.safe }
{}

/// A run ends within its first periods where what they have of steps, from the least number on,
/// adds up to a number that is known to bound the steps of runs without outages.
pub fn enough()
    ensures { (d : Device) (b : Bounds) (h : ℕ → ℕ → ℤ) (periods : List Period) (work : ℕ) →
        IsFit d → IsBounded d b → ((sensor tick : ℕ) → is_word (h sensor tick) ≡ true) →
        Takes d b b.total work (start_of d) → AddUp (least d b) work periods
        → RunEnds d h periods }
{}
