//! The statements of a block, each up to the first that it says or wants.
ghost use Rattle.std.specs.Prelude.{◌≡◌, ◌∷◌, false, map, true, IfOk, OnOk};
ghost use Rattle.oc_tree.specs.Regions.{region_view};
ghost use Rattle.oc_tree.specs.Tree.{more};
ghost use Rattle.oc_tree.specs.View.{kind_view, stmt_view, stmts_view};
ghost use Rattle.oc_meaning.specs.Exec.{Went, done, grown, used};
ghost use Rattle.oc_steps.specs.Steps.{Close, Goes, Rest, Work};
ghost use Rattle.oc_judge.specs.Frames.{frames_view, inside_view};
ghost use Rattle.oc_judge.specs.Going.{regions_of, rest_here};
ghost use Rattle.oc_judge.specs.Leading.{LeadsTo};
ghost use Rattle.oc_judge.specs.Statements.{IsPlain, IsQuiet, IsSilent, IsUse, begun_here, end_frames};
ghost use Rattle.oc_judge.specs.Stores.{completion_at};
ghost use Rattle.oc_judge.specs.Values.{age_view};

use crate::age::Age;
use crate::frames::{Frame, Inside, Task, push_frame, push_task};
use crate::going::Going;
use crate::running::Running;
use crate::scopes::grow;
use crate::store::{Completion, Store};
use crate::uses::{Use, begin_use, end_use, use_of};
use crate::work::{work, work_at_once};
use oc_meaning::regions::{begun_by, ended_by};
use oc_meaning::scope::Scope;
use oc_tree::marked::Region;
use oc_tree::tree::{Stmt, StmtId, StmtKind};
use std::alloc::AllocError;
use std::rc::Rc;

/// A statement of a block, what is said of its use, and the statements that follow it.
#[derive(Clone, Copy)]
pub struct Statement<'a> {
    pub inside: Inside<'a>,
    pub id: StmtId,
    pub kind: &'a StmtKind,
    pub found: Use,
    pub rest: &'a [Stmt],
}

/// What comes behind the work of a statement: the end of its use, that of its region, and the
/// statements that follow it, with these variables.
fn push_end<'a>(
    run: &Running<'a>,
    behind: Rc<Scope<'a>>,
    statement: Statement<'a>,
    frames: &mut Vec<Frame<'a>>,
) -> Result<(), AllocError>
    ensures { OnOk result
        (frames_view frames.new.items
        ≡ end_frames run.now statement.entry behind.entry.value (frames_view frames.old.items)) }
{
    push_task(
        behind,
        Task::Behind {
            inside: statement.inside,
            stmt: statement.id,
            is_use: statement.found.ends,
            age: statement.found.age,
            region: ended_by(run.regions, statement.id),
            statements: statement.rest,
        },
        frames,
    )?;
    Ok(())
}

/// The same with those variables that are visible behind a statement which wasn't begun yet.
fn push_behind<'a>(
    run: &Running<'a>,
    scope: &Rc<Scope<'a>>,
    statement: Statement<'a>,
    frames: &mut Vec<Frame<'a>>,
    store: &Store,
) -> Result<(), AllocError>
    ensures { OnOk result
        (frames_view frames.new.items
        ≡ end_frames run.now statement.entry
        (grown (kind_view statement.entry.kind.now) (stmts_view statement.entry.rest.now)
        scope.now.value store.now)
        (frames_view frames.old.items)) }
{
    let shared = Rc::clone(scope)?;
    let behind = grow(
        run.alloc,
        shared,
        statement.kind,
        statement.rest,
        store.locals(),
    )?;
    push_end(run, behind, statement, frames)
}

/// The use of the statement `n` begins, if it begins one, and then its work.
pub fn begin_work<'a>(
    inside: Inside<'a>,
    scope: Rc<Scope<'a>>,
    n: StmtId,
    kind: &'a StmtKind,
    is: bool,
    age: Age,
    frames: &mut Vec<Frame<'a>>,
    store: &mut Store,
) -> Result<Completion, AllocError>
    ensures { IfOk result
        (λ o. Goes (frames_view frames.new.items) (completion_at o store.new)
        ≡ Goes
        (Work (inside_view inside.entry) scope.entry.value n (kind_view kind.now)
        ∷ frames_view frames.old.items)
        (Went (used is n (age_view age) store.old))) }
{
    let stmt = n;
    push_task(scope, Task::Work { inside, stmt, kind }, frames)?;
    begin_use(is, n, age, store)?;
    Ok(Completion::Went)
}

/// The region that begins with a statement is entered, if one does, and then comes its use.
fn enter_statement<'a>(
    run: &Running<'a>,
    scope: Rc<Scope<'a>>,
    statement: Statement<'a>,
    frames: &mut Vec<Frame<'a>>,
    store: &mut Store,
) -> Result<Going, AllocError>
    requires { IsUse scope.value (kind_view statement.kind.now) store.old
        statement.found }
    ensures { IfOk result
        (λ g. LeadsTo run.now
        (begun_here run.now statement.entry scope.entry.value (frames_view frames.old.items)
        store.old)
        g (frames_view frames.new.items) store.new) }
{
    push_behind(run, &scope, statement, frames, store)?;
    push_task(
        scope,
        Task::Use {
            inside: statement.inside,
            stmt: statement.id,
            age: statement.found.age,
            kind: statement.kind,
        },
        frames,
    )?;
    store.open_region(begun_by(run.regions, statement.id))?;
    Ok(Going::Goes {
        completion: Completion::Went,
    })
}

/// The use of a statement with which no region begins.
fn use_statement<'a>(
    run: &Running<'a>,
    scope: Rc<Scope<'a>>,
    statement: Statement<'a>,
    frames: &mut Vec<Frame<'a>>,
    store: &mut Store,
) -> Result<Going, AllocError>
    requires found { IsUse scope.value (kind_view statement.kind.now) store.old
        statement.found }
    requires plain { IsPlain (regions_of run.now) statement.id store.old }
    ensures { IfOk result
        (λ g. LeadsTo run.now
        (begun_here run.now statement.entry scope.entry.value (frames_view frames.old.items)
        store.old)
        g (frames_view frames.new.items) store.new) }
{
    push_behind(run, &scope, statement, frames, store)?;
    let completion = begin_work(
        statement.inside,
        scope,
        statement.id,
        statement.kind,
        statement.found.begins,
        statement.found.age,
        frames,
        store,
    )?;
    Ok(Going::Goes { completion })
}

/// Whether no region begins with the statement `n`, and nothing was said before it.
fn is_plain(regions: &[Region], n: StmtId, store: &Store) -> bool
    ensures { result ≡ true → IsPlain (map region_view regions.now) n store.now }
{
    if store.has_event() {
        return false;
    }
    begun_by(regions, n).is_none()
}

/// Whether a statement, whose work came to this, has nothing left to say.
fn is_silent(
    regions: &[Region],
    statement: Statement,
    completion: Completion,
    store: &Store,
) -> bool
    ensures { result ≡ true
        → IsSilent (map region_view regions.now) statement.entry completion store.now }
{
    if statement.found.ends {
        return false;
    }
    if store.has_event() {
        return false;
    }
    match completion {
        Completion::Went => ended_by(regions, statement.id).is_none(),
        _ => false,
    }
}

/// What is left of a statement, whose work came to this: its end, if it says something, and the
/// statements that follow it, with these variables.
fn finish<'a>(
    run: &Running<'a>,
    behind: Rc<Scope<'a>>,
    statement: Statement<'a>,
    completion: Completion,
    frames: &mut Vec<Frame<'a>>,
    store: &Store,
) -> Result<Going, AllocError>
    ensures { IfOk result
        (λ g. LeadsTo run.now
        (Goes
        (end_frames run.now statement.entry behind.entry.value (frames_view frames.old.items))
        (completion_at completion store.now))
        g (frames_view frames.new.items) store.now) }
{
    if is_silent(run.regions, statement, completion, store) {
        let inside = statement.inside;
        let statements = statement.rest;
        push_task(behind, Task::Rest { inside, statements }, frames)?;
        return Ok(Going::Goes { completion });
    }
    push_end(run, behind, statement, frames)?;
    Ok(Going::Goes { completion })
}

/// The work of a statement with which no region and no use begins.
fn work_statement<'a>(
    run: &Running<'a>,
    scope: Rc<Scope<'a>>,
    statement: Statement<'a>,
    frames: &mut Vec<Frame<'a>>,
    store: &mut Store,
) -> Result<Going, AllocError>
    requires found { IsUse scope.value (kind_view statement.kind.now) store.old
        statement.found }
    requires plain { IsPlain (regions_of run.now) statement.id store.old }
    requires unused { statement.found.begins ≡ false }
    ensures { IfOk result
        (λ g. LeadsTo run.now
        (begun_here run.now statement.entry scope.entry.value (frames_view frames.old.items)
        store.old)
        g (frames_view frames.new.items) store.new) }
{
    let level = store.locals();
    let worked = work_at_once(run, &scope, statement.id, statement.kind, store)?;
    match worked {
        Some(completion) => {
            let behind = grow(run.alloc, scope, statement.kind, statement.rest, level)?;
            let going = finish(run, behind, statement, completion, frames, store)?;
            Ok(going)
        }
        None => {
            push_behind(run, &scope, statement, frames, store)?;
            let inside = statement.inside;
            let going = work(
                run,
                inside,
                &scope,
                statement.id,
                statement.kind,
                frames,
                store,
            )?;
            Ok(going)
        }
    }
}

/// The next statement, up to the first that it says or wants, or up to a part of it that has a
/// step of its own.
fn begin_statement<'a>(
    run: &Running<'a>,
    inside: Inside<'a>,
    scope: Rc<Scope<'a>>,
    first: &'a Stmt,
    rest: &'a [Stmt],
    frames: &mut Vec<Frame<'a>>,
    store: &mut Store,
) -> Result<Going, AllocError>
    ensures { IfOk result
        (λ g. LeadsTo run.now
        (rest_here run.now (inside_view inside.entry) scope.entry.value
        (more (stmt_view first.now) (stmts_view rest.now)) (frames_view frames.old.items) store.old)
        g (frames_view frames.new.items) store.new) }
{
    let found = use_of(run.alloc, &scope, store, &first.kind)?;
    let statement = Statement {
        inside,
        id: first.id,
        kind: &first.kind,
        found,
        rest,
    };
    if !is_plain(run.regions, first.id, store) {
        return enter_statement(run, scope, statement, frames, store);
    }
    if found.begins {
        return use_statement(run, scope, statement, frames, store);
    }
    work_statement(run, scope, statement, frames, store)
}

/// The statements that follow in a block.
#[tactic(auto, using(crate::proofs::Leading::at_once))]
pub fn rest<'a>(
    run: &Running<'a>,
    inside: Inside<'a>,
    scope: Rc<Scope<'a>>,
    statements: &'a [Stmt],
    frames: &mut Vec<Frame<'a>>,
    store: &mut Store,
) -> Result<Going, AllocError>
    ensures { IfOk result
        (λ g. LeadsTo run.now
        (rest_here run.now (inside_view inside.entry) scope.entry.value
        (stmts_view statements.now) (frames_view frames.old.items) store.old)
        g (frames_view frames.new.items) store.new) }
{
    match statements.split_first() {
        None => Ok(Going::Goes {
            completion: Completion::Went,
        }),
        Some((first, others)) => begin_statement(run, inside, scope, first, others, frames, store),
    }
}

/// Whether the end of a use, if it is one, and that of a region, if one ends, say nothing.
fn is_quiet(is_use: bool, region: Option<u32>, store: &Store) -> bool
    ensures { result ≡ true → IsQuiet is_use region store.now }
{
    if is_use {
        return false;
    }
    if store.has_event() {
        return false;
    }
    region.is_none()
}

/// The end of the statement `n`, that of its region, and the statements that follow it, up to the
/// first thing that is said.
#[tactic(auto, using(crate::proofs::Leading::at_once))]
pub fn leave_statement<'a>(
    run: &Running<'a>,
    inside: Inside<'a>,
    scope: Rc<Scope<'a>>,
    n: StmtId,
    is_use: bool,
    age: Age,
    region: Option<u32>,
    statements: &'a [Stmt],
    frames: &mut Vec<Frame<'a>>,
    store: &mut Store,
) -> Result<Going, AllocError>
    ensures { IfOk result
        (λ g. LeadsTo run.now
        (Goes
        (Close region
        ∷ Rest (inside_view inside.entry) scope.entry.value (stmts_view statements.now)
        ∷ frames_view frames.old.items)
        (Went (done is_use n (age_view age) store.old)))
        g (frames_view frames.new.items) store.new) }
{
    if is_quiet(is_use, region, store) {
        let going = rest(run, inside, scope, statements, frames, store)?;
        return Ok(going);
    }
    push_task(scope, Task::Rest { inside, statements }, frames)?;
    push_frame(Frame::Close { region }, frames)?;
    end_use(is_use, n, age, store)?;
    Ok(Going::Goes {
        completion: Completion::Went,
    })
}
