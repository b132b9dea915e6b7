//! Laws of the definitions of weights and stacks.
ghost use Rattle.std.specs.Prelude.{◌≡◌, ℕ, false, map};
ghost use Rattle.oc_tree.specs.Tree.{TProgram};
ghost use Rattle.oc_tree.specs.Calls.{calls};
ghost use Rattle.oc_tree.specs.Expansion.{expansion};
ghost use Rattle.oc_tree.specs.Weight.{function_cost, weights};
ghost use Rattle.oc_tree.specs.Stack.{function_stack, stacks};

/// Where no function calls itself, each function's weight is what it costs by the weights of those
/// that it calls.
#[tactic(auto, using(crate::proofs::Levels::program_weights))]
pub fn weights_by_callees()
    ensures { (p : TProgram) → ((u : ℕ) → calls (expansion p).functions u u ≡ false)
        → weights p
        ≡ map (function_cost (expansion p).functions (weights p)) (expansion p).functions }
{}

/// Where no function calls itself, each function's stack is what it needs by the stacks of those
/// that it calls.
#[tactic(auto, using(crate::proofs::Levels::program_stacks))]
pub fn stacks_by_callees()
    ensures { (p : TProgram) → ((u : ℕ) → calls (expansion p).functions u u ≡ false)
        → stacks p
        ≡ map (function_stack (expansion p).functions (stacks p)) (expansion p).functions }
{}
