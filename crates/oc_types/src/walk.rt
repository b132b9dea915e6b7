//! The elements of a program in source order, up to the first that breaks a rule.
ghost use Rattle.std.specs.Prelude.{◌≡◌, ◌<◌, ◌≤◌, ◌^◌, false, Some, None, OnOk, IfOk, take, drop, length};
ghost use Rattle.oc_tree.specs.Nodes.{block_nodes, kind_nodes, stmt_nodes};
ghost use Rattle.oc_tree.specs.View.{block_view, kind_view, program_view, stmt_view, stmts_view};
ghost use Rattle.oc_tree.specs.Broken.{lowest, statement_rules};
ghost use Rattle.oc_tree.specs.Elements.{is_end, scope_after, kind_of};
ghost use Rattle.oc_tree.specs.Rules.{takes_name};
ghost use Rattle.oc_tree.specs.Pulls.{own_pulls};
ghost use Rattle.oc_tree.specs.Limits.{with_statement};
ghost use Rattle.oc_tree.specs.Sizes.{call_limit, statement_limit, variable_limit};
ghost use Rattle.oc_types.specs.Marks.{IsCallers};
ghost use Rattle.oc_types.specs.Small.{IsSmall};
ghost use Rattle.oc_types.specs.Standing.{here_of};
ghost use Rattle.oc_types.specs.Walk.{block_walk, kind_walk, outcome, stmt_walk};

use crate::annotations::{annotates_other, has_many_turns, returns_elsewhere};
use crate::calls::{args_differ, calls_main, lends_fixed, lent_twice, result_missing};
use crate::counts::Counts;
use crate::disturbs::pulls_disturb;
use crate::known::{own_known, takes_name};
use crate::numbers::{
    ANNOTATED_ELSEWHERE, ARGUMENTS_DIFFER, ARRAY_FIXED, ARRAY_LENGTH, CALLED_BACK, CONDITION_TYPE,
    LENT_FIXED, LENT_TWICE, LIMIT_PASSED, MAIN_FUNCTION, MANY_TURNS, NAME_TAKEN, NAME_UNKNOWN,
    NONVOLATILE_EXPOSED, OPERAND_TYPES, POINTEE_FIXED, PULL_DISTURBED, PULL_SKIPPED,
    RESULT_MISSING, RETURN_PLACE, SIDES_DIFFER, VARIABLE_FIXED,
};
use crate::operands::own_fits;
use crate::place::Place;
use crate::pulls::own_skips;
use crate::reach::{calls_back, exposes_nv};
use crate::scope::Scope;
use crate::sides::{condition_is_number, let_bad_length, sides_differ};
use crate::statement::Statement;
use crate::targets::{array_fixed, pointee_fixed, target_fixed};
use crate::top::TopLevel;
use crate::types::right_type;
use oc_reach::marks::Marks;
use oc_tree::broken::Broken;
use oc_tree::scope::{Origin, Var};
use oc_tree::tree::{Block, Scalar, Stmt, StmtKind, ValueKind};
use std::alloc::{AllocError, Global};

/// The lowest rule that a statement breaks, of those on where it stands and of all later ones.
fn placing_rule<'a>(
    alloc: Global,
    top: &TopLevel<'a>,
    place: Place<'a>,
    callers: &Marks,
    scope: &Scope<'a>,
    counts: &Counts,
    statement: &Statement,
) -> Result<Option<u8>, AllocError>
    requires pulls { own_pulls (kind_view statement.now) < 2 ^ 32 }
    requires callers { IsCallers (program_view top.now) place.number callers.now }
    ensures lowest { IfOk result
        (λ r. r
        ≡ lowest (drop 15 (statement_rules (program_view top.now) counts.now
        (here_of place.entry scope.now) (kind_view statement.now)))) }
    ensures small { IfOk result
        (λ r. r ≡ None
        → (counts.now.variables ≤ variable_limit) × (counts.now.statements ≤ statement_limit)
        × (counts.now.calls ≤ call_limit)) }
{
    let kind = statement.kind();
    if annotates_other(place, scope, kind) {
        return Ok(Some(ANNOTATED_ELSEWHERE));
    }
    if returns_elsewhere(top, place, scope, kind) {
        return Ok(Some(RETURN_PLACE));
    }
    if calls_back(top, place.number, callers, statement) {
        return Ok(Some(CALLED_BACK));
    }
    if has_many_turns(kind) {
        return Ok(Some(MANY_TURNS));
    }
    if counts.statement_passes() {
        return Ok(Some(LIMIT_PASSED));
    }
    if own_skips(kind) {
        return Ok(Some(PULL_SKIPPED));
    }
    if pulls_disturb(alloc, top, statement)? {
        return Ok(Some(PULL_DISTURBED));
    }
    Ok(None)
}

/// The lowest rule that a statement breaks, of those on what it writes to and lends and of all later
/// ones.
fn writing_rule<'a>(
    alloc: Global,
    top: &TopLevel<'a>,
    place: Place<'a>,
    callers: &Marks,
    scope: &Scope<'a>,
    counts: &Counts,
    statement: &Statement,
) -> Result<Option<u8>, AllocError>
    requires pulls { own_pulls (kind_view statement.now) < 2 ^ 32 }
    requires callers { IsCallers (program_view top.now) place.number callers.now }
    ensures lowest { IfOk result
        (λ r. r
        ≡ lowest (drop 9 (statement_rules (program_view top.now) counts.now
        (here_of place.entry scope.now) (kind_view statement.now)))) }
    ensures small { IfOk result
        (λ r. r ≡ None
        → (counts.now.variables ≤ variable_limit) × (counts.now.statements ≤ statement_limit)
        × (counts.now.calls ≤ call_limit)) }
{
    let kind = statement.kind();
    if target_fixed(top, scope, kind) {
        return Ok(Some(VARIABLE_FIXED));
    }
    if array_fixed(top, scope, kind) {
        return Ok(Some(ARRAY_FIXED));
    }
    if pointee_fixed(top, scope, kind) {
        return Ok(Some(POINTEE_FIXED));
    }
    if lends_fixed(top, scope, statement) {
        return Ok(Some(LENT_FIXED));
    }
    if lent_twice(alloc, top, statement)? {
        return Ok(Some(LENT_TWICE));
    }
    if exposes_nv(alloc, top, scope, statement)? {
        return Ok(Some(NONVOLATILE_EXPOSED));
    }
    let rule = placing_rule(alloc, top, place, callers, scope, counts, statement)?;
    Ok(rule)
}

/// The lowest rule that a statement breaks.
fn statement_rule<'a>(
    alloc: Global,
    top: &TopLevel<'a>,
    place: Place<'a>,
    callers: &Marks,
    scope: &Scope<'a>,
    counts: &Counts,
    statement: &Statement,
) -> Result<Option<u8>, AllocError>
    requires pulls { own_pulls (kind_view statement.now) < 2 ^ 32 }
    requires callers { IsCallers (program_view top.now) place.number callers.now }
    ensures lowest { IfOk result
        (λ r. r
        ≡ lowest (statement_rules (program_view top.now) counts.now (here_of place.entry scope.now)
        (kind_view statement.now))) }
    ensures untaken { IfOk result
        (λ r. r ≡ None
        → takes_name (program_view top.now) scope.now (kind_view statement.now) ≡ false) }
    ensures small { IfOk result
        (λ r. r ≡ None
        → (counts.now.variables ≤ variable_limit) × (counts.now.statements ≤ statement_limit)
        × (counts.now.calls ≤ call_limit)) }
{
    let kind = statement.kind();
    if takes_name(top, scope, kind) {
        return Ok(Some(NAME_TAKEN));
    }
    if !own_known(top, scope, kind) {
        return Ok(Some(NAME_UNKNOWN));
    }
    if calls_main(statement) {
        return Ok(Some(MAIN_FUNCTION));
    }
    if !own_fits(top, scope, kind) {
        return Ok(Some(OPERAND_TYPES));
    }
    if sides_differ(top, scope, kind) {
        return Ok(Some(SIDES_DIFFER));
    }
    if condition_is_number(top, scope, kind) {
        return Ok(Some(CONDITION_TYPE));
    }
    if args_differ(top, scope, statement) {
        return Ok(Some(ARGUMENTS_DIFFER));
    }
    if result_missing(top, statement) {
        return Ok(Some(RESULT_MISSING));
    }
    if let_bad_length(kind) {
        return Ok(Some(ARRAY_LENGTH));
    }
    let rule = writing_rule(alloc, top, place, callers, scope, counts, statement)?;
    Ok(rule)
}

/// The kind of a variable that holds a value of the type.
fn kind_of(scalar: Option<Scalar>) -> ValueKind
    ensures { result ≡ kind_of scalar }
{
    match scalar {
        Some(Scalar::Int) | None => ValueKind::Int,
        Some(Scalar::Bool) => ValueKind::Bool,
    }
}

/// Adds the variable that a statement declares for those after it.
fn declare<'a>(
    top: &TopLevel<'a>,
    place: Place<'a>,
    scope: &mut Scope<'a>,
    statement: &'a Stmt,
) -> Result<(), AllocError>
    requires { takes_name (program_view top.now) scope.old (kind_view statement.now.kind) ≡ false }
    ensures after { OnOk result
        (scope.new ≡ scope_after (program_view top.now) (here_of place.entry scope.old)
        statement.now.id (kind_view statement.now.kind)) }
    ensures longer { OnOk result (take (length scope.old) scope.new ≡ scope.old) }
{
    let stmt = statement.id;
    let block = place.block;
    match &statement.kind {
        StmtKind::Let {
            mutable,
            name,
            right,
            ..
        } => {
            let kind = kind_of(right_type(top, scope, right));
            let origin = Origin::Let {
                mutable: *mutable,
                stmt,
                block,
            };
            scope.declare(name, Var { origin, kind })?;
        }
        StmtKind::LetArray {
            mutable,
            name,
            words,
            ..
        } => {
            let kind = ValueKind::Array { words: *words };
            let origin = Origin::Let {
                mutable: *mutable,
                stmt,
                block,
            };
            scope.declare(name, Var { origin, kind })?;
        }
        _ => {}
    }
    Ok(())
}

/// Whether no statement is left from this place on.
#[tactic(auto, using(crate::proofs::Ends::is_end_drop))]
fn is_end(statements: &[Stmt], next: usize) -> bool
    ensures { result ≡ is_end (stmts_view (drop next statements.now)) }
{
    !(next < statements.len())
}

/// Goes through a block. The scope is as before in the end.
#[cycle(walk)]
pub fn walk_block<'a>(
    alloc: Global,
    top: &TopLevel<'a>,
    place: Place<'a>,
    callers: &Marks,
    scope: &mut Scope<'a>,
    counts: &mut Counts,
    block: &'a Block,
) -> Result<Option<Broken>, AllocError>
    requires nodes { block_nodes (block_view block.now) < 2 ^ 32 }
    requires callers { IsCallers (program_view top.now) place.number callers.now }
    requires counts { IsSmall counts.old }
    ensures found { IfOk result
        (λ r. outcome r counts.new
        ≡ block_walk (program_view top.now) (here_of place.entry scope.old) counts.old
        (block_view block.now)) }
    ensures kept { OnOk result (scope.new ≡ scope.old) }
    ensures small { IfOk result (λ r. r ≡ None → IsSmall counts.new) }
{
    let mark = scope.len();
    let statements = block.statements.as_slice();
    for (i, statement) in statements.iter().enumerate() {
        let here = Place {
            function: place.function,
            number: place.number,
            block: block.id,
            last: place.last && is_end(statements, i + 1),
        };
        let broken = walk_stmt(alloc, top, here, callers, scope, counts, statement)?;
        if broken.is_some() {
            scope.truncate(mark);
            return Ok(broken);
        }
        declare(top, here, scope, statement)?;
    }
    scope.truncate(mark);
    Ok(None)
}

/// Goes through a statement and those inside it, up to the first that breaks a rule. The scope is
/// as before in the end. Err is want of memory.
#[cycle(walk)]
fn walk_stmt<'a>(
    alloc: Global,
    top: &TopLevel<'a>,
    place: Place<'a>,
    callers: &Marks,
    scope: &mut Scope<'a>,
    counts: &mut Counts,
    statement: &'a Stmt,
) -> Result<Option<Broken>, AllocError>
    requires nodes { stmt_nodes (stmt_view statement.now) < 2 ^ 32 }
    requires callers { IsCallers (program_view top.now) place.number callers.now }
    requires counts { IsSmall counts.old }
    ensures found { IfOk result
        (λ r. outcome r counts.new
        ≡ stmt_walk (program_view top.now) (here_of place.entry scope.old) counts.old
        (stmt_view statement.now)) }
    ensures kept { OnOk result (scope.new ≡ scope.old) }
    ensures small { IfOk result (λ r. r ≡ None → IsSmall counts.new) }
    ensures untaken { IfOk result
        (λ r. r ≡ None
        → takes_name (program_view top.now) scope.old (kind_view statement.now.kind) ≡ false) }
{
    match rule_of(alloc, top, place, callers, scope, counts, &statement.kind)? {
        Some(rule) => Ok(Some(Broken {
            line: statement.line,
            rule,
        })),
        None => walk_parts(alloc, top, place, callers, scope, counts, &statement.kind),
    }
}

/// Counts a statement; and the lowest rule that it breaks.
#[tactic(auto, using(crate::proofs::Counted::few_pulls, crate::proofs::SmallCounts::stated))]
fn rule_of<'a>(
    alloc: Global,
    top: &TopLevel<'a>,
    place: Place<'a>,
    callers: &Marks,
    scope: &Scope<'a>,
    counts: &mut Counts,
    kind: &'a StmtKind,
) -> Result<Option<u8>, AllocError>
    requires nodes { kind_nodes (kind_view kind.now) < 2 ^ 32 }
    requires callers { IsCallers (program_view top.now) place.number callers.now }
    requires counts { IsSmall counts.old }
    ensures counted { OnOk result
        (counts.new ≡ with_statement counts.old (here_of place.entry scope.now)
        (kind_view kind.now)) }
    ensures lowest { IfOk result
        (λ r. r
        ≡ lowest
        (statement_rules (program_view top.now)
        (with_statement counts.old (here_of place.entry scope.now) (kind_view kind.now))
        (here_of place.entry scope.now) (kind_view kind.now))) }
    ensures untaken { IfOk result
        (λ r. r ≡ None → takes_name (program_view top.now) scope.now (kind_view kind.now) ≡ false) }
    ensures small { IfOk result (λ r. r ≡ None → IsSmall counts.new) }
{
    let statement = Statement::new(alloc, kind)?;
    counts.add(place, scope, &statement)?;
    let rule = statement_rule(alloc, top, place, callers, scope, counts, &statement)?;
    Ok(rule)
}

/// Goes through the statements inside a statement, up to the first that breaks a rule. The scope is
/// as before in the end. Err is want of memory.
#[cycle(walk)]
fn walk_parts<'a>(
    alloc: Global,
    top: &TopLevel<'a>,
    place: Place<'a>,
    callers: &Marks,
    scope: &mut Scope<'a>,
    counts: &mut Counts,
    kind: &'a StmtKind,
) -> Result<Option<Broken>, AllocError>
    requires nodes { kind_nodes (kind_view kind.now) < 2 ^ 32 }
    requires callers { IsCallers (program_view top.now) place.number callers.now }
    requires counts { IsSmall counts.old }
    requires untaken { takes_name (program_view top.now) scope.old (kind_view kind.now) ≡ false }
    ensures found { IfOk result
        (λ r. outcome r counts.new
        ≡ kind_walk (program_view top.now) (here_of place.entry scope.old) counts.old
        (kind_view kind.now)) }
    ensures kept { OnOk result (scope.new ≡ scope.old) }
    ensures small { IfOk result (λ r. r ≡ None → IsSmall counts.new) }
{
    let inside = Place {
        function: place.function,
        number: place.number,
        block: place.block,
        last: false,
    };
    match kind {
        StmtKind::If {
            then,
            otherwise,
            ..
        } => {
            let broken = walk_block(alloc, top, inside, callers, scope, counts, then)?;
            if broken.is_some() {
                return Ok(broken);
            }
            match otherwise {
                Some(block) => walk_block(alloc, top, inside, callers, scope, counts, block),
                None => Ok(None),
            }
        }
        StmtKind::For { name, body, .. } => {
            let mark = scope.len();
            scope.declare(
                name,
                Var {
                    origin: Origin::For,
                    kind: ValueKind::Int,
                },
            )?;
            let broken = walk_block(alloc, top, inside, callers, scope, counts, body)?;
            scope.truncate(mark);
            Ok(broken)
        }
        StmtKind::While { body, .. } => walk_block(
            alloc, top, inside, callers, scope, counts, body,
        ),
        _ => Ok(None),
    }
}
