//! Laws: a function does nothing, and its contract says the law.
ghost use Rattle.oc_steps.specs.Ages.{SensesAge, StepsAge};
ghost use Rattle.oc_steps.specs.AgesTell.{AgesTell};
ghost use Rattle.oc_steps.specs.Auditing.{FindsRight, HearsRight};
ghost use Rattle.oc_steps.specs.Erasing.{Erases};
ghost use Rattle.oc_steps.specs.Follow.{StepsKeep};
ghost use Rattle.oc_steps.specs.Freshness.{TestsRight};
ghost use Rattle.oc_steps.specs.Hearing.{Hears};
ghost use Rattle.oc_steps.specs.Little.{SaysLittle};
ghost use Rattle.oc_steps.specs.Resting.{RestsRight};
ghost use Rattle.oc_steps.specs.Starting.{StartsRight};
ghost use Rattle.oc_steps.specs.Watching.{AbortsRight, NoneFalls, TellsRight};

/// The first frames are those of the run.
pub fn starts_right()
    ensures { StartsRight }
{}

/// A step keeps what the rest of the run does.
pub fn steps_keep()
    ensures { StepsKeep }
{}

/// A step says one thing at most, and no input.
pub fn says_little()
    ensures { SaysLittle }
{}

/// What steps tell is what the marked run says.
pub fn hears()
    ensures { Hears }
{}

/// A step over ages is the step over samples.
pub fn steps_age()
    ensures steps { StepsAge }
    ensures senses { SensesAge }
{}

/// What an age tells of a set.
pub fn ages_tell()
    ensures { AgesTell }
{}

/// The test of an age is that of the samples.
pub fn tests_right()
    ensures { TestsRight }
{}

/// What one more item does to a report without its aborted attempts.
pub fn erases()
    ensures { Erases }
{}

/// The answer to an `abort` is that of the definition.
pub fn aborts_right()
    ensures { AbortsRight }
{}

/// The answers to `off` and `dark` are those of the definition.
pub fn rests_right()
    ensures { RestsRight }
{}

/// Instances are counted: no tag that a run tells is of an earlier instance than the last one of its
/// set.
pub fn none_falls()
    ensures { NoneFalls }
{}

/// The answer to any other item is that of the definition.
pub fn tells_right()
    ensures { TellsRight }
{}

/// The answer to an item is that of the definition, where all before it is honest.
pub fn hears_right()
    ensures { HearsRight }
{}

/// What an audit finds is so: a report is honest, or breaks at this item.
pub fn finds_right()
    ensures { FindsRight }
{}
