//! The law of assignments through parameters.
ghost use Rattle.std.specs.Prelude.{◌≡◌, ◌↔◌, ◌+◌, ℕ, true, List};
ghost use Rattle.oc_tree.specs.Tree.{TFunction};
ghost use Rattle.oc_tree.specs.Assigned.{first_param, param_assigned};
ghost use Rattle.oc_reach.specs.Through.{AssignsThrough, IsParam};

/// The test of assignments through parameters decides the relation.
#[tactic(auto, using(crate::proofs::Decided::test_decides))]
pub fn assigned_is_through()
    ensures { (functions : List TFunction) (u j : ℕ) → IsParam functions u j
        → (param_assigned functions (first_param functions u + j) ≡ true)
        ↔ AssignsThrough functions u j }
{}
