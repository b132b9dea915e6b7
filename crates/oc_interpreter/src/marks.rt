//! The uses that statements tell.
ghost use Rattle.std.specs.Prelude.{◌≡◌, [], unwrap_or, IfOk, OnErr, OnOk};
ghost use Rattle.oc_tree.specs.View.{kind_view};
ghost use Rattle.oc_tree.specs.Samples.{union};
ghost use Rattle.oc_meaning.specs.Uses.{is_fresh, is_use, use_samples};
ghost use Rattle.oc_meaning.specs.Exec.{Went, done, used};
ghost use Rattle.oc_interpreter.specs.Seen.{completion_at};
ghost use Rattle.oc_meaning.specs.Cuts.{Oldest};
ghost use Rattle.oc_interpreter.specs.Runs.{begun, begun_at, ended, ended_at};

use crate::completion::Completion;
use crate::interrupted::Interrupted;
use crate::samples::Samples;
use crate::store::Store;
use crate::uses::find_use;
use oc_meaning::scope::Scope;
use oc_tree::said::{Said, Shown};
use oc_tree::tree::{StmtId, StmtKind};
use std::alloc::{AllocError, Global};

/// Tells the use `n`, where there is one.
fn begin_use(uses: &Option<Samples>, n: StmtId, store: &mut Store) -> Result<(), Interrupted>
    ensures step { OnOk result (store.new ≡ begun uses.now n store.old) }
    ensures cut { OnErr result (Oldest store.new.events (begun uses.now n store.old).events) }
{
    match uses {
        None => Ok(()),
        Some(samples) => {
            let what = Shown::Used { stmt: n };
            store.note(Said::Showed { what }, samples.copy()?)
        }
    }
}

/// Statement `n` ends its use, if it is one.
pub fn end_use(uses: Option<Samples>, n: StmtId, store: &mut Store) -> Result<(), Interrupted>
    ensures step { OnOk result (store.new ≡ ended uses n store.old) }
    ensures cut { OnErr result (Oldest store.new.events (ended uses n store.old).events) }
{
    match uses {
        None => Ok(()),
        Some(samples) => {
            let what = Shown::Finished { stmt: n };
            store.note(Said::Showed { what }, samples)
        }
    }
}

/// What a statement begins before it runs: a `while` begins its uses itself.
pub fn begin(
    kind: &StmtKind,
    uses: &Option<Samples>,
    n: StmtId,
    store: &mut Store,
) -> Result<(), Interrupted>
    ensures step { OnOk result (store.new ≡ begun_at (kind_view kind.now) uses.now n store.old) }
    ensures cut { OnErr result
        (Oldest store.new.events (begun_at (kind_view kind.now) uses.now n store.old).events) }
{
    match kind {
        StmtKind::While { .. } => Ok(()),
        _ => begin_use(uses, n, store),
    }
}

/// What a statement ends that went through: a `while` and a `return` end their uses themselves.
pub fn end(
    kind: &StmtKind,
    uses: Option<Samples>,
    n: StmtId,
    store: &mut Store,
) -> Result<(), Interrupted>
    ensures step { OnOk result (store.new ≡ ended_at (kind_view kind.now) uses n store.old) }
    ensures cut { OnErr result
        (Oldest store.new.events (ended_at (kind_view kind.now) uses n store.old).events) }
{
    match kind {
        StmtKind::While { .. } => Ok(()),
        StmtKind::Return { .. } => Ok(()),
        _ => end_use(uses, n, store),
    }
}

/// Whether a statement is a use.
pub fn is_use(
    alloc: Global,
    scope: &Scope,
    store: &Store,
    kind: &StmtKind,
) -> Result<bool, AllocError>
    ensures { IfOk result (λ b. b ≡ is_use (is_fresh scope.now) (kind_view kind.now)) }
{
    let uses = find_use(alloc, scope, store, kind)?;
    Ok(uses.is_some())
}

/// The samples of a use, or none where there is no use.
fn samples_of(alloc: Global, uses: &Option<Samples>) -> Result<Samples, AllocError>
    ensures { IfOk result (λ s. s ≡ unwrap_or uses.now []) }
{
    match uses {
        None => Ok(Samples::none(alloc)),
        Some(samples) => samples.copy(),
    }
}

/// Begins the use of a turn of the `while` of this kind, and answers its samples with those before.
pub fn begin_turn(
    alloc: Global,
    scope: &Scope,
    n: StmtId,
    kind: &StmtKind,
    before: Samples,
    store: &mut Store,
) -> Result<Samples, Interrupted>
    ensures store { OnOk result
        (store.new ≡ used (is_use (is_fresh scope.now) (kind_view kind.now)) n
        (use_samples scope.now (kind_view kind.now) store.old) store.old) }
    ensures samples { IfOk result
        (λ s. s ≡ union before (use_samples scope.now (kind_view kind.now) store.old)) }
    ensures cut { OnErr result
        (Oldest store.new.events (used (is_use (is_fresh scope.now) (kind_view kind.now)) n
        (use_samples scope.now (kind_view kind.now) store.old) store.old).events) }
{
    let uses = find_use(alloc, scope, store, kind)?;
    let taken = samples_of(alloc, &uses)?;
    let all = before.union(taken)?;
    begin_use(&uses, n, store)?;
    Ok(all)
}

/// Ends the uses of the turns of the `while` `n`, whose samples these are.
pub fn end_turns(
    is_use: bool,
    samples: Samples,
    n: StmtId,
    store: &mut Store,
) -> Result<Completion, Interrupted>
    ensures step { IfOk result
        (λ o. completion_at o store.new ≡ Went (done is_use n samples store.old)) }
    ensures cut { OnErr result (Oldest store.new.events (done is_use n samples store.old).events) }
{
    if !is_use {
        return Ok(Completion::Went);
    }
    end_use(Some(samples), n, store)?;
    Ok(Completion::Went)
}
