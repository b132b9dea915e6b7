//! Statements without statements inside, once their right side is executed.
ghost use Rattle.std.specs.Prelude.{◌≡◌, length, map, IfOk, OnErr};
ghost use Rattle.oc_tree.specs.Tree.{emit, consistent};
ghost use Rattle.oc_tree.specs.View.{expr_view, kind_view};
ghost use Rattle.oc_tree.specs.Regions.{region_view};
ghost use Rattle.oc_meaning.specs.Store.{Value, Store, held_at, holding, made, place_of, put, replaced};
ghost use Rattle.oc_meaning.specs.Eval.{element_of, value_of};
ghost use Rattle.oc_meaning.specs.Uses.{is_fresh, is_use, use_samples};
ghost use Rattle.oc_meaning.specs.Exec.{Outcome, Went, Returned, array_of, closed, done, dropped, element_written, ended_by, leave, sense, number_in, with_result, with_value};
ghost use Rattle.oc_meaning.specs.Exec as runs;
ghost use Rattle.oc_interpreter.specs.Seen.{completion_at};
ghost use Rattle.oc_meaning.specs.Cuts.{Oldest, events_in};
ghost use Rattle.oc_interpreter.specs.Runs.{kind_here, settled};

use crate::completion::{Completion, Stop};
use crate::eval::value_of;
use crate::held::Held;
use crate::interrupted::Interrupted;
use crate::marks::end_use;
use crate::running::Running;
use crate::store::Store;
use crate::uses::find_use;
use crate::value::{Got, Value};
use oc_meaning::homes::set_home;
use oc_meaning::names::number_in;
use oc_meaning::regions::ended_by;
use oc_meaning::scope::Scope;
use oc_tree::name::Name;
use oc_tree::said::{Said, Shown};
use oc_tree::tree::{Expr, StmtId, StmtKind};
use std::alloc::Global;

/// The value of a right side. A call without a result gives 0.
fn settle(alloc: Global, given: Completion) -> Result<Value, Stop>
    ensures { (go : Value → Store → Outcome) (σ : Store)
        → with_result (completion_at given σ) go ≡ settled result go σ }
{
    match given {
        Completion::Went => Ok(Value::plain(alloc, 0)),
        Completion::Returned { value } => Ok(value),
        Completion::Stopped { stop } => Err(stop),
    }
}

/// A value that nothing takes.
pub fn drop_value(given: Completion) -> Completion
    ensures { (σ : Store) → completion_at result σ ≡ dropped (completion_at given σ) }
{
    match given {
        Completion::Went => Completion::Went,
        Completion::Returned { .. } => Completion::Went,
        Completion::Stopped { stop } => Completion::Stopped { stop },
    }
}

/// A `let` of one word.
pub fn make(alloc: Global, given: Completion, store: &mut Store) -> Result<Completion, Interrupted>
    ensures step { IfOk result
        (λ o. completion_at o store.new
        ≡ with_result (completion_at given store.old) (λ v τ. Went (made (holding v) τ))) }
    ensures kept { OnErr result (store.new ≡ store.old) }
{
    match settle(alloc, given) {
        Err(stop) => Ok(Completion::Stopped { stop }),
        Ok(value) => {
            let held = Held::holding(alloc, value)?;
            store.make(held)?;
            Ok(Completion::Went)
        }
    }
}

/// A `let` of an array.
pub fn make_array(
    alloc: Global,
    initial: i32,
    words: u32,
    store: &mut Store,
) -> Result<Completion, Interrupted>
    ensures step { IfOk result
        (λ o. completion_at o store.new ≡ Went (made (array_of initial words) store.old)) }
    ensures kept { OnErr result (store.new ≡ store.old) }
{
    let held = Held::array(alloc, initial, words)?;
    store.make(held)?;
    Ok(Completion::Went)
}

/// An assignment to a scalar, or to what a reference leads to.
pub fn assign(
    alloc: Global,
    scope: &Scope,
    name: &Name,
    given: Completion,
    store: &mut Store,
) -> Result<Completion, Interrupted>
    ensures step { IfOk result
        (λ o. completion_at o store.new
        ≡ with_result (completion_at given store.old)
        (λ v τ. Went
        (put τ (place_of scope.now name.now)
        (replaced (held_at τ (place_of scope.now name.now)) v)))) }
    ensures kept { OnErr result (store.new ≡ store.old) }
{
    match settle(alloc, given) {
        Err(stop) => Ok(Completion::Stopped { stop }),
        Ok(value) => {
            store.assign(scope.place(name), value)?;
            Ok(Completion::Went)
        }
    }
}

/// An assignment to an element by the statement `n`.
pub fn assign_index(
    alloc: Global,
    scope: &Scope,
    n: StmtId,
    name: &Name,
    index: &Expr,
    given: Completion,
    store: &mut Store,
) -> Result<Completion, Interrupted>
    ensures step { IfOk result
        (λ o. completion_at o store.new
        ≡ with_result (completion_at given store.old)
        (λ v τ. with_value (value_of scope.now τ (expr_view index.now)) n τ
        (λ i. element_written (place_of scope.now name.now)
        (element_of (length (held_at τ (place_of scope.now name.now)).words) i.num) i v n τ))) }
    ensures cut { OnErr result
        (Oldest store.new.events (events_in
        (with_result (completion_at given store.old)
        (λ v τ. with_value (value_of scope.now τ (expr_view index.now)) n τ
        (λ i. element_written (place_of scope.now name.now)
        (element_of (length (held_at τ (place_of scope.now name.now)).words) i.num) i v n τ))))) }
{
    match settle(alloc, given) {
        Err(stop) => Ok(Completion::Stopped { stop }),
        Ok(value) => match value_of(alloc, scope, store, index)? {
            Got::Traps { kind } => store.trap(kind, n),
            Got::Value { value: element } => {
                store.assign_element(scope.place(name), element, value, n)
            }
        },
    }
}

/// A right side that is an expression of the statement `n`.
pub fn evaluate(
    alloc: Global,
    scope: &Scope,
    n: StmtId,
    value: &Expr,
    store: &mut Store,
) -> Result<Completion, Interrupted>
    ensures step { IfOk result
        (λ o. completion_at o store.new
        ≡ with_value (value_of scope.now store.old (expr_view value.now)) n store.old
        (λ v. Returned v store.old)) }
    ensures cut { OnErr result
        (Oldest store.new.events
        (events_in (with_value (value_of scope.now store.old (expr_view value.now)) n store.old
        (λ v. Returned v store.old)))) }
{
    match value_of(alloc, scope, store, value)? {
        Got::Traps { kind } => store.trap(kind, n),
        Got::Value { value: found } => Ok(Completion::Returned { value: found }),
    }
}

/// An input.
pub fn sense(run: &Running, sensor: &Name, store: &mut Store) -> Result<Completion, Interrupted>
    ensures step { IfOk result
        (λ o. completion_at o store.new
        ≡ sense (number_in run.now.program.now.names.sensors.items sensor.now) store.old.left
        store.old) }
    ensures cut { OnErr result
        (Oldest store.new.events
        (events_in
        (sense (number_in run.now.program.now.names.sensors.items sensor.now) store.old.left
        store.old))) }
{
    let number = number_in(run.program.names.sensors.as_slice(), sensor)?;
    store.sense(number)
}

/// An output of the statement `n`.
pub fn emit(
    run: &Running,
    scope: &Scope,
    n: StmtId,
    port: &Name,
    value: &Expr,
    store: &mut Store,
) -> Result<Completion, Interrupted>
    ensures step { IfOk result
        (λ o. completion_at o store.new
        ≡ kind_here run.now scope.now n (emit port.now (expr_view value.now)) store.old) }
    ensures cut { OnErr result
        (Oldest store.new.events (events_in
        (kind_here run.now scope.now n (emit port.now (expr_view value.now)) store.old))) }
{
    match value_of(run.alloc, scope, store, value)? {
        Got::Traps { kind } => store.trap(kind, n),
        Got::Value { value: found } => {
            let number = number_in(run.program.names.ports.as_slice(), port)?;
            let what = Shown::Emitted {
                port: number,
                value: found.number(),
            };
            store.note(Said::Showed { what }, found.into_samples())?;
            Ok(Completion::Went)
        }
    }
}

/// An annotation of the consistent set `id` by the statement `n`.
pub fn tag(
    run: &Running,
    scope: &Scope,
    n: StmtId,
    name: &Name,
    id: i32,
    store: &mut Store,
) -> Result<Completion, Interrupted>
    ensures step { IfOk result
        (λ o. completion_at o store.new
        ≡ kind_here run.now scope.now n (consistent name.now id) store.old) }
    ensures cut { OnErr result
        (Oldest store.new.events (events_in
        (kind_here run.now scope.now n (consistent name.now id) store.old))) }
{
    let samples = store.samples(scope.place(name))?;
    let home = set_home(run.body, id)?;
    store.tag(home, n, samples)?;
    Ok(Completion::Went)
}

/// A `return` by the statement `n` of this kind.
pub fn return_value(
    run: &Running,
    scope: &Scope,
    n: StmtId,
    kind: &StmtKind,
    value: &Expr,
    store: &mut Store,
) -> Result<Completion, Interrupted>
    ensures step { IfOk result
        (λ o. completion_at o store.new
        ≡ with_value (value_of scope.now store.old (expr_view value.now)) n store.old
        (λ v. Returned v
        (closed (ended_by (map region_view run.now.regions.now) n)
        (done (is_use (is_fresh scope.now) (kind_view kind.now)) n
        (use_samples scope.now (kind_view kind.now) store.old) store.old)))) }
    ensures cut { OnErr result
        (Oldest store.new.events
        (events_in (with_value (value_of scope.now store.old (expr_view value.now)) n store.old
        (λ v. Returned v
        (closed (ended_by (map region_view run.now.regions.now) n)
        (done (is_use (is_fresh scope.now) (kind_view kind.now)) n
        (use_samples scope.now (kind_view kind.now) store.old) store.old)))))) }
{
    match value_of(run.alloc, scope, store, value)? {
        Got::Traps { kind } => store.trap(kind, n),
        Got::Value { value: found } => {
            let uses = find_use(run.alloc, scope, store, kind)?;
            end_use(uses, n, store)?;
            store.close_region(ended_by(run.regions, n))?;
            Ok(Completion::Returned { value: found })
        }
    }
}

/// Drops the variables that were made since there were so many, unless the run has stopped.
pub fn leave(locals: usize, completion: Completion, store: &mut Store) -> Completion
    ensures { completion_at result store.new ≡ leave locals (completion_at completion store.old) }
{
    match completion {
        Completion::Went => {
            store.leave(locals);
            Completion::Went
        }
        Completion::Returned { value } => {
            store.leave(locals);
            Completion::Returned { value }
        }
        Completion::Stopped { stop } => Completion::Stopped { stop },
    }
}
