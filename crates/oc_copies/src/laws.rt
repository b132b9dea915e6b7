//! The laws.
ghost use Rattle.oc_copies.specs.Copies.{CallsCopy, CallsCopyBack, CopiesTellTheSame, FramesHold};
ghost use Rattle.oc_copies.specs.Stands.{CallsDoCopy, CallsMakeNone, CallsMayPass, FramesStand, MainCopies, OwnRunsMakeNone, StatementsMake};

/// A call does what it would do with variables of its own, which are copied back behind it.
pub fn calls_copy()
    ensures { CallsCopy }
{}

/// What a call that breaks no rule passes may be passed.
pub fn calls_may_pass()
    ensures { CallsMayPass }
{}

/// A function that begins over variables of its own sees them as the rules do.
pub fn frames_stand()
    ensures { FramesStand }
{}

/// So a call that breaks no rule runs the function's body over variables of its own, and copies them
/// back.
pub fn calls_do_copy()
    ensures { CallsDoCopy }
{}

/// A call leaves as many variables as there were.
pub fn calls_make_none()
    ensures { CallsMakeNone }
{}

/// A statement makes its variable alone.
pub fn statements_make()
    ensures { StatementsMake }
{}

/// The law of copies, place by place.
pub fn calls_copy_back()
    ensures { CallsCopyBack }
{}

/// A function's own variables begin with what was passed.
pub fn frames_hold()
    ensures { FramesHold }
{}

/// The run over own variables leaves as many as there were at its start.
pub fn own_runs_make_none()
    ensures { OwnRunsMakeNone }
{}

/// Both tell the same.
pub fn copies_tell_the_same()
    ensures { CopiesTellTheSame }
{}

/// So does the run of a program.
pub fn main_copies()
    ensures { MainCopies }
{}
