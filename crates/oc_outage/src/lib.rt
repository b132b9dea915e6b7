//! Power may fail after any step, and without its aborted attempts a report says what a run without
//! outages says.
//!
//! Laws over the definitions of runs and reports, whatever the instructions are. A law is a function
//! that does nothing, and its contract says the law.
#![tactic(auto)]

ghost use Rattle.std.specs.Prelude.{◌≡◌, ◌↔◌, ℕ, ℤ, List, [], ◌∷◌, ◌++◌, take, true};
ghost use Rattle.oc_io.specs.declared.period.Period.{Period};
ghost use Rattle.oc_tree.specs.Said.{Told};
ghost use Rattle.oc_tree.specs.Word.{is_word};
ghost use Rattle.oc_tree.specs.declared.said.Ending.{Ending};
ghost use Rattle.oc_tree.specs.declared.said.Said.{Said};
ghost use Rattle.oc_tree.specs.declared.said.Said.TheVariants.{Ended};
ghost use Rattle.oc_isa.specs.declared.phase.Phase.TheVariants.{Over, Lost};
ghost use Rattle.oc_isa.specs.Image.{Parts};
ghost use Rattle.oc_isa.specs.Next.{Device};
ghost use Rattle.oc_isa.specs.Run.{IsSound};
ghost use Rattle.oc_isa.specs.Power.{World, is_over, ticks_on, power_fails, one_period, through, first_world, power_run};
ghost use Rattle.oc_isa.specs.Table.{device_of};
ghost use Rattle.oc_items.specs.Erase.{Tells, erase, kept_samples, marked};
ghost use Rattle.oc_outage.specs.Honest.{IsFit, IsHonest, IsWhole, IsLeft, IsSaidBy, all_on, loses_checkpoint, begun};
ghost use Rattle.oc_outage.specs.Kept.{CountIsKept};
ghost use Rattle.oc_items.specs.Reports.{EndsWith};

/// Every prefix of the report of a run over any periods of power is honest: without its aborted
/// attempts it says what the run without outages says, no outage lies in a region, and each input
/// has the value that its sensor had then. What the run without outages says in the end over the
/// kept samples, the prefix without its aborted attempts tells a front part of, with outages
/// outside of regions alone.
pub fn honest()
    ensures front { (d : Device) (h : ℕ → ℕ → ℤ) (periods : List Period) (q rest : List Told) →
        IsFit d → IsSound d → ((sensor tick : ℕ) → is_word (h sensor tick) ≡ true) →
        q ++ rest ≡ (power_run d h periods).report → IsHonest d h (all_on periods) q }
    ensures tells { (d : Device) (h : ℕ → ℕ → ℤ) (said : List ℤ → List Said) →
        IsFit d → IsSound d → ((sensor tick : ℕ) → is_word (h sensor tick) ≡ true) →
        IsSaidBy d said → (periods : List Period) (q rest : List Told) →
        q ++ rest ≡ (power_run d h periods).report → Tells (said (kept_samples q)) (erase q) }
{}

/// Where a run ends by itself, its report says the whole of the run without outages over the kept
/// samples, and leaves the same nonvolatile words. What is left of such a report ends with that
/// last word, so the run without outages has ended too.
pub fn ended()
    ensures whole { (d : Device) (h : ℕ → ℕ → ℤ) (periods : List Period) (how : Ending) →
        IsFit d → IsSound d → ((sensor tick : ℕ) → is_word (h sensor tick) ≡ true) →
        EndsWith (power_run d h periods).report (Ended how) →
        IsWhole d (all_on periods) (power_run d h periods).report (power_run d h periods).state.nv }
    ensures last { (report : List Told) (how : Ending) → EndsWith report (Ended how) →
        (before : List Said) × (marked report ≡ before ++ Ended how ∷ []) }
{}

/// What is counted as kept is just that. Behind any periods the run without outages over the kept
/// samples has said what is kept of the report after as many instructions as are counted, and
/// stands where the run goes on once power is back; or it has ended with the last of them.
pub fn counts()
    ensures { (d : Device) (h : ℕ → ℕ → ℤ) (periods : List Period) →
        IsFit d → IsSound d → ((sensor tick : ℕ) → is_word (h sensor tick) ≡ true) →
        CountIsKept d h periods }
{}

/// How a run is left, whatever the image: it ended by itself, and how, exactly where that is its
/// report's last item, it lost a checkpoint exactly where some period cuts one, and then its last
/// item is an outage; else the periods were used up, and the last item says so.
pub fn left()
    ensures last { (d : Device) (h : ℕ → ℕ → ℤ) (periods : List Period) →
        IsLeft (power_run d h periods).state.phase (power_run d h periods).report }
    ensures over { (d : Device) (h : ℕ → ℕ → ℤ) (periods : List Period) (how : Ending) →
        ((power_run d h periods).state.phase ≡ Over how) ↔
        EndsWith (power_run d h periods).report (Ended how) }
    ensures lost { (d : Device) (h : ℕ → ℕ → ℤ) (periods : List Period) →
        ((power_run d h periods).state.phase ≡ Lost) ↔
        (loses_checkpoint d h periods (first_world d) ≡ true) }
{}

/// Once a run is over nothing happens any more: no tick, no outage and no further period changes
/// its world. So the periods that it begins make the whole of it.
pub fn stays()
    ensures ticks { (d : Device) (h : ℕ → ℕ → ℤ) (w : World) (n : ℕ) →
        is_over w.state.phase ≡ true → ticks_on d h n w ≡ w }
    ensures fails { (d : Device) (w : World) (p : Period) →
        is_over w.state.phase ≡ true → power_fails d p w ≡ w }
    ensures period { (d : Device) (h : ℕ → ℕ → ℤ) (w : World) (p : Period) →
        is_over w.state.phase ≡ true → one_period d h p w ≡ w }
    ensures rest { (d : Device) (h : ℕ → ℕ → ℤ) (w : World) (periods : List Period) →
        is_over w.state.phase ≡ true → through d h periods w ≡ w }
    ensures begun { (d : Device) (h : ℕ → ℕ → ℤ) (w : World) (periods : List Period) →
        through d h periods w ≡ through d h (take (begun d h periods w) periods) w }
{}

/// In every image an `enter` stands before the address that it leads to.
pub fn fit()
    ensures { (i : Parts) → IsFit (device_of i) }
{}
