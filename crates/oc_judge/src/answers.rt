//! Whether two things that were said are the same.
ghost use Rattle.std.specs.Prelude.{◌≡◌};
ghost use Rattle.oc_tree.specs.declared.said.Said.TheVariants.{Committed, Ended, Entered, Showed};
ghost use Rattle.oc_steps.specs.Fold.{are_words, is_kind, is_new, is_said, is_shown};
ghost use Rattle.oc_judge.specs.Values.{age_view};

use crate::age::Age;
use oc_tree::said::{Ending, Said, Shown, TrapKind};

/// Whether both kinds of a trap are the same one.
fn is_kind(kind: TrapKind, other: TrapKind) -> bool
    ensures { result ≡ is_kind kind other }
{
    match kind {
        TrapKind::Zero => match other {
            TrapKind::Zero => true,
            TrapKind::Index => false,
        },
        TrapKind::Index => match other {
            TrapKind::Zero => false,
            TrapKind::Index => true,
        },
    }
}

/// Whether both show the same.
fn is_shown(what: Shown, other: Shown) -> bool
    ensures { result ≡ is_shown what other }
{
    match what {
        Shown::Emitted { port, value } => match other {
            Shown::Emitted {
                port: other_port,
                value: other_value,
            } => port == other_port && value == other_value,
            _ => false,
        },
        Shown::Used { stmt } => match other {
            Shown::Used { stmt: other_stmt } => stmt == other_stmt,
            _ => false,
        },
        Shown::Finished { stmt } => match other {
            Shown::Finished { stmt: other_stmt } => stmt == other_stmt,
            _ => false,
        },
        Shown::Tagged { stmt } => match other {
            Shown::Tagged { stmt: other_stmt } => stmt == other_stmt,
            _ => false,
        },
    }
}

/// Whether it was said that this was shown.
pub fn says_shown(said: Said, what: Shown) -> bool
    ensures { result ≡ is_said said (Showed what) }
{
    match said {
        Said::Showed { what: other } => is_shown(other, what),
        _ => false,
    }
}

/// Whether it was said that this region is entered.
pub fn says_entered(said: Said, region: u32) -> bool
    ensures { result ≡ is_said said (Entered region) }
{
    match said {
        Said::Entered { region: other } => other == region,
        _ => false,
    }
}

/// Whether it was said that this region is committed.
pub fn says_committed(said: Said, region: u32) -> bool
    ensures { result ≡ is_said said (Committed region) }
{
    match said {
        Said::Committed { region: other } => other == region,
        _ => false,
    }
}

/// Whether it was said that the run ends so.
pub fn says_ended(said: Said, how: Ending) -> bool
    ensures { result ≡ is_said said (Ended how) }
{
    match said {
        Said::Ended {
            how: Ending::Halted,
        } => matches!(how, Ending::Halted),
        Said::Ended {
            how: Ending::Trapped { kind, stmt },
        } => match how {
            Ending::Halted => false,
            Ending::Trapped {
                kind: other_kind,
                stmt: other_stmt,
            } => is_kind(kind, other_kind) && stmt == other_stmt,
        },
        _ => false,
    }
}

/// Whether all samples of an age stand behind the last of so many outages.
pub fn is_new(outages: u64, age: Age) -> bool
    ensures { result ≡ is_new outages (age_view age) }
{
    match age {
        Age::Never => true,
        Age::Once { outages: before } => before == outages,
        Age::Mixed => false,
    }
}

/// Whether both are the same words.
#[tactic(auto, using(crate::proofs::Words::other_length))]
pub fn are_words(words: &[i32], others: &[i32]) -> bool
    ensures { result ≡ are_words words.now others.now }
{
    if words.len() != others.len() {
        return false;
    }
    for i in 0..words.len() {
        if words[i] != others[i] {
            return false;
        }
    }
    true
}
