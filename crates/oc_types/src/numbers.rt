//! The numbers of the rules.

/// A name of the top level is declared once.
pub const DECLARED_TWICE: u8 = 1;

/// A parameter, `let` or `for` has a name of its own.
pub const NAME_TAKEN: u8 = 2;

/// What a name stands for is visible, and is what is needed.
pub const NAME_UNKNOWN: u8 = 3;

/// `main` exists, takes nothing, gives nothing and is never called.
pub const MAIN_FUNCTION: u8 = 4;

/// Operands have the types that their operators take.
pub const OPERAND_TYPES: u8 = 5;

/// A right side has the type of its target.
pub const SIDES_DIFFER: u8 = 6;

/// A condition is a truth value.
pub const CONDITION_TYPE: u8 = 7;

/// A call has the arguments that the function takes.
pub const ARGUMENTS_DIFFER: u8 = 8;

/// A call whose value is used has a result.
pub const RESULT_MISSING: u8 = 9;

/// An array has a length that one may have.
pub const ARRAY_LENGTH: u8 = 10;

/// A variable that is assigned may change.
pub const VARIABLE_FIXED: u8 = 11;

/// An array whose element is assigned may change.
pub const ARRAY_FIXED: u8 = 12;

/// What is assigned through a reference may change.
pub const POINTEE_FIXED: u8 = 13;

/// What is lent may be lent so.
pub const LENT_FIXED: u8 = 14;

/// What a call passes by `&mut` is named in no other argument of it.
pub const LENT_TWICE: u8 = 15;

/// A nonvolatile variable is lent only to functions that can't reach it by its name.
pub const NONVOLATILE_EXPOSED: u8 = 16;

/// No parameter is an array by value.
pub const ARRAY_BY_VALUE: u8 = 17;

/// What is annotated was declared directly in the same block.
pub const ANNOTATED_ELSEWHERE: u8 = 18;

/// A function with a result ends with its only `return`.
pub const RETURN_PLACE: u8 = 19;

/// No function calls itself, directly or through others.
pub const CALLED_BACK: u8 = 20;

/// A loop has no more turns than one may have.
pub const MANY_TURNS: u8 = 21;

/// A program has no more of anything than it may have.
pub const LIMIT_PASSED: u8 = 22;

/// No function weighs more than it may.
pub const TOO_HEAVY: u8 = 23;

/// The stack of `main` has no more words than it may have.
pub const TOO_DEEP: u8 = 24;

/// Nothing is pulled where it may be skipped or taken again.
pub const PULL_SKIPPED: u8 = 25;

/// No call changes what its statement reads beside a pull.
pub const PULL_DISTURBED: u8 = 26;
