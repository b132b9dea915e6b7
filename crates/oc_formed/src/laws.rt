//! What holds of the code of every checked program, and of every marked one.
ghost use Rattle.std.specs.Prelude.{◌≤◌, List, [], length};
ghost use Rattle.oc_tree.specs.Tree.{TProgram};
ghost use Rattle.oc_tree.specs.declared.said.Target.{Target};
ghost use Rattle.oc_tree.specs.Checked.{Group, IsChecked};
ghost use Rattle.oc_tree.specs.Marked.{TMarked, IsMarked};
ghost use Rattle.oc_code.specs.Formed.{IsFormed};

/// The code of every checked program is defined.
pub fn checked_is_formed()
    ensures { (p : TProgram) (groups : List Group) → IsChecked p groups → IsFormed p [] [] }
{}

/// With the regions of a marked program it is defined too, where each region has its targets.
pub fn marked_is_formed()
    ensures { (m : TMarked) (targets : List (List Target)) → IsMarked m
        → length m.regions ≤ length targets → IsFormed m.program m.regions targets }
{}
