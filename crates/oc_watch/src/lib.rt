//! Bounds of the code of a program, from the sums of its tree, and what they say of the run without outages.
#![tactic(auto)]

ghost use Rattle.std.specs.Prelude.{◌≡◌, ◌≤◌, ℕ, ℤ, List};
ghost use Rattle.oc_isa.specs.Next.{Device};
ghost use Rattle.oc_isa.specs.Run.{AreWords, continuous_run};
ghost use Rattle.oc_bounds.specs.Bounds.{Bounds, IsBounded};

/// From its total on, the run without outages of a bounded image says no more.
pub fn settles()
    ensures { (d : Device) (b : Bounds) (xs : List ℤ) (n : ℕ) → IsBounded d b → AreWords xs
        → b.total ≤ n → continuous_run d xs n ≡ continuous_run d xs b.total }
{}
