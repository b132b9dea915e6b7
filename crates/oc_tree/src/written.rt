//! Written programs.
ghost use Rattle.std.specs.Prelude.{◌≡◌};
ghost use Rattle.oc_tree.specs.View.{program_view};
ghost use Rattle.oc_tree.specs.Checked.{IsWritten};

use crate::tree::Program;
use std::marker::Model;

/// A program as it is written, which is in form and breaks no rule.
#[derive(Drop)]
pub struct Written {
    program: Program,
}

impl Model for Written {
    ghost use Rattle.std.specs.Coded.{codes};
    ghost use Rattle.oc_tree.specs.Stored.{block_code};
    ghost use Rattle.oc_tree.specs.Tree.{TProgram};
    ghost use Rattle.oc_tree.specs.View.{program_view};
    ghost use Rattle.oc_tree.specs.Checked.{IsWritten};

    ghost Value = { TProgram };

    ghost coded = { Prim.hlevel (codes, block_code (Prim.hlevel codes)) };

    ghost view = { λ a. program_view a.program };

    ghost invariant = { λ a. IsWritten (program_view a.program) };
}

impl Written {
    /// The written program, which is known to be one.
    pub fn new(program: Program) -> Written
        requires { IsWritten (program_view program) }
        ensures { result ≡ program_view program }
    {
        Written { program }
    }

    /// The program, which is in form and breaks no rule.
    pub fn program(&self) -> &Program
        ensures same { program_view result.now ≡ self.now }
        ensures written { IsWritten self.now }
    {
        &self.program
    }

    /// The program itself, given back.
    pub fn into_program(self) -> Program
        ensures same { program_view result ≡ self }
        ensures written { IsWritten self }
    {
        self.program
    }
}
