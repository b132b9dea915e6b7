//! Laws of the expansion.
ghost use Rattle.std.specs.Prelude.{◌≡◌};
ghost use Rattle.oc_tree.specs.Tree.{TProgram};
ghost use Rattle.oc_tree.specs.Form.{Numbered};
ghost use Rattle.oc_tree.specs.Pulls.{program_pulls};
ghost use Rattle.oc_tree.specs.Expansion.{expansion};

/// A program without pulls whose statements and blocks are numbered in source order from 1 is its
/// own expansion.
pub fn plain_is_expanded()
    ensures { (p : TProgram) → program_pulls p ≡ 0 → Numbered p → expansion p ≡ p }
{}
