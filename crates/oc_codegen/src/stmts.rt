//! The code of statements.
ghost use Rattle.std.specs.Prelude.{◌≡◌, ◌<◌, ◌+◌, ◌++◌, length, slice_set, OnOk, IfOk};
ghost use Rattle.oc_tree.specs.Tree.{for_in, while_do};
ghost use Rattle.oc_tree.specs.View.{block_view, expr_view, kind_view, stmts_view};
ghost use Rattle.oc_isa.specs.declared.instr.Instr.TheVariants.{Jump, Jfalse};
ghost use Rattle.oc_meaning.specs.Uses.{is_use};
ghost use Rattle.oc_code.specs.Forms.{placed, one};
ghost use Rattle.oc_code.specs.Scope.{in_scope, is_fresh_in};
ghost use Rattle.oc_tree.specs.Stack.{block_slots, kind_slots};
ghost use Rattle.oc_code.specs.Code.{block_code, first_code, kind_code, whole_code};
ghost use Rattle.oc_codegen.specs.Room.{HasRoom};
ghost use Rattle.oc_codegen.specs.Small.{block_bounded, kind_bounded};

use crate::buffer::Buffer;
use crate::exprs::expr;
use crate::loops::{array, close_count, close_while, open_count};
use crate::scope::{Scope, Slot, Variable};
use crate::setting::Setting;
use crate::simple::{
    after, assign, assign_index, before, call_only, declare, emit, let_to, probe, return_value,
    sense_only, test,
};
use crate::uses::{is_use, probes_of};
use oc_isa::instr::{Instr, ProbeKind};
use oc_tree::name::Name;
use oc_tree::tree::{Block, Expr, Stmt, StmtKind};
use std::alloc::AllocError;

/// The end of the first branch of an `if` whose test is still open, where a second one follows. It
/// answers the address of the jump over that, which is still open.
fn close_then(code: &mut Buffer, n: u32, test: u32) -> Result<u32, AllocError>
    requires test { test < length code.old }
    requires room { length code.old < 2147483647 }
    ensures code { OnOk result
        (code.new ≡ slice_set code.old test (placed n (Jfalse (length code.old + 1)))
        ++ one n (Jump 0)) }
    ensures jump { IfOk result (λ a. a ≡ length code.old) }
{
    let jump = code.address();
    code.set(test, n, Instr::Jfalse { t: jump + 1 });
    code.put(n, Instr::Jump { t: 0 })?;
    Ok(jump)
}

/// A `for` whose counter is in a slot. It answers the slot behind those of its variables and
/// counters. Err is want of memory.
#[cycle(stmts)]
fn for_in<'a>(
    code: &mut Buffer,
    setting: &Setting,
    scope: &mut Scope<'a>,
    n: u32,
    slot: u32,
    name: &'a Name,
    from: i32,
    to: i32,
    body: &'a Block,
) -> Result<u32, AllocError>
    requires room { HasRoom code.old (kind_code setting.now.names setting.now.functions
        setting.now.regions setting.now.params scope.old n slot (length code.old)
        (for_in name.now from to (block_view body.now))) }
    requires slots { slot + kind_slots (for_in name.now from to (block_view body.now))
        < 2147483648 }
    requires bounded { block_bounded (block_view body.now) }
    ensures code { OnOk result
        (code.new ≡ code.old
        ++ kind_code setting.now.names setting.now.functions setting.now.regions setting.now.params
        scope.old n slot (length code.old) (for_in name.now from to (block_view body.now))) }
    ensures next { IfOk result
        (λ next. next ≡ slot + kind_slots (for_in name.now from to (block_view body.now))) }
    ensures scope { OnOk result (scope.new ≡ scope.old) }
{
    let visible = scope.len();
    let start = open_count(code, n, slot, from, to)?;
    let variable = Variable {
        slot: Slot::InFrame { s: slot },
        words: 1,
        writable: false,
        fresh: false,
    };
    scope.declare(name, variable)?;
    let next = block(code, setting, scope, slot + 1, body)?;
    close_count(code, n, slot, start)?;
    scope.truncate(visible);
    Ok(next)
}

/// A `while` of at most so many turns, with its probes if it is a use.
#[cycle(stmts)]
fn while_do<'a>(
    code: &mut Buffer,
    setting: &Setting,
    scope: &mut Scope<'a>,
    n: u32,
    slot: u32,
    used: bool,
    bound: u32,
    body: &'a Block,
    condition: &Expr,
) -> Result<u32, AllocError>
    requires used { used ≡ is_use (is_fresh_in scope.old)
        (while_do (expr_view condition.now) bound (block_view body.now)) }
    requires room { HasRoom code.old (kind_code setting.now.names setting.now.functions
        setting.now.regions setting.now.params scope.old n slot (length code.old)
        (while_do (expr_view condition.now) bound (block_view body.now))) }
    requires slots { slot
        + kind_slots (while_do (expr_view condition.now) bound (block_view body.now))
        < 2147483648 }
    requires bounded { kind_bounded
        (while_do (expr_view condition.now) bound (block_view body.now)) }
    ensures code { OnOk result
        (code.new ≡ code.old
        ++ kind_code setting.now.names setting.now.functions setting.now.regions setting.now.params
        scope.old n slot (length code.old)
        (while_do (expr_view condition.now) bound (block_view body.now))) }
    ensures next { IfOk result
        (λ next. next
        ≡ slot + kind_slots (while_do (expr_view condition.now) bound (block_view body.now))) }
    ensures scope { OnOk result (scope.new ≡ scope.old) }
{
    let start = open_count(code, n, slot, 0, bound as i32)?;
    test(code, scope, n, used, condition)?;
    let exit = code.open(n)?;
    let next = block(code, setting, scope, slot + 1, body)?;
    close_while(code, n, slot, start, exit)?;
    probe(code, n, used, ProbeKind::Done)?;
    Ok(next)
}

/// A statement's own code. It answers the slot behind those of its variables and counters.
#[cycle(stmts)]
fn kind<'a>(
    code: &mut Buffer,
    setting: &Setting,
    scope: &mut Scope<'a>,
    n: u32,
    slot: u32,
    kind: &'a StmtKind,
) -> Result<u32, AllocError>
    requires room { HasRoom code.old (kind_code setting.now.names setting.now.functions
        setting.now.regions setting.now.params scope.old n slot (length code.old)
        (kind_view kind.now)) }
    requires slots { slot + kind_slots (kind_view kind.now) < 2147483648 }
    requires bounded { kind_bounded (kind_view kind.now) }
    ensures code { OnOk result
        (code.new ≡ code.old
        ++ kind_code setting.now.names setting.now.functions setting.now.regions setting.now.params
        scope.old n slot (length code.old) (kind_view kind.now)) }
    ensures next { IfOk result (λ next. next ≡ slot + kind_slots (kind_view kind.now)) }
    ensures scope { OnOk result (scope.new ≡ scope.old) }
{
    match kind {
        StmtKind::Let { right, .. } => {
            let_to(code, setting, scope, n, slot, right)?;
            Ok(slot + 1)
        }
        StmtKind::LetArray { initial, words, .. } => {
            array(code, n, slot, *initial, *words)?;
            Ok(slot + 1 + *words)
        }
        StmtKind::Assign { name, right } => {
            assign(code, setting, scope, n, name, right)?;
            Ok(slot)
        }
        StmtKind::AssignIndex { name, index, right } => {
            assign_index(code, setting, scope, n, name, index, right)?;
            Ok(slot)
        }
        StmtKind::AssignDeref { name, right } => {
            assign(code, setting, scope, n, name, right)?;
            Ok(slot)
        }
        StmtKind::If {
            condition,
            then,
            otherwise,
        } => {
            expr(code, scope, n, condition)?;
            let hole = code.open(n)?;
            let next = block(code, setting, scope, slot, then)?;
            match otherwise {
                None => {
                    let end = code.address();
                    code.set(hole, n, Instr::Jfalse { t: end });
                    Ok(next)
                }
                Some(second) => {
                    let jump = close_then(code, n, hole)?;
                    let next = block(code, setting, scope, next, second)?;
                    let end = code.address();
                    code.set(jump, n, Instr::Jump { t: end });
                    Ok(next)
                }
            }
        }
        StmtKind::For {
            name,
            from,
            to,
            body,
        } => for_in(code, setting, scope, n, slot, name, *from, *to, body),
        StmtKind::While {
            condition,
            bound,
            body,
        } => {
            let used = is_use(scope, kind);
            while_do(code, setting, scope, n, slot, used, *bound, body, condition)
        }
        StmtKind::CallOnly { call } => {
            call_only(code, setting, scope, n, call)?;
            Ok(slot)
        }
        StmtKind::SenseOnly { sensor } => {
            sense_only(code, setting, n, sensor)?;
            Ok(slot)
        }
        StmtKind::Emit { port, value } => {
            emit(code, setting, scope, n, port, value)?;
            Ok(slot)
        }
        StmtKind::Fresh { .. } => Ok(slot),
        StmtKind::Consistent { .. } => {
            probe(code, n, true, ProbeKind::Tag)?;
            Ok(slot)
        }
        StmtKind::Return { value } => {
            let used = is_use(scope, kind);
            return_value(code, setting, scope, n, used, value)?;
            Ok(slot)
        }
    }
}

/// A statement with its marks and probes, before these statements of its block.
#[cycle(stmts)]
fn statement<'a>(
    code: &mut Buffer,
    setting: &Setting,
    scope: &mut Scope<'a>,
    slot: u32,
    statement: &'a Stmt,
    rest: &[Stmt],
) -> Result<u32, AllocError>
    requires room { HasRoom code.old (whole_code setting.now.names setting.now.functions
        setting.now.regions setting.now.params scope.old statement.now.id
        (kind_view statement.now.kind)
        (kind_code setting.now.names setting.now.functions setting.now.regions setting.now.params
        scope.old statement.now.id slot
        (length code.old
        + length
        (first_code setting.now.names setting.now.functions setting.now.regions setting.now.params
        scope.old statement.now.id (kind_view statement.now.kind)))
        (kind_view statement.now.kind))) }
    requires slots { slot + kind_slots (kind_view statement.now.kind) < 2147483648 }
    requires bounded { kind_bounded (kind_view statement.now.kind) }
    ensures code { OnOk result
        (code.new ≡ code.old
        ++ whole_code setting.now.names setting.now.functions setting.now.regions setting.now.params
        scope.old statement.now.id (kind_view statement.now.kind)
        (kind_code setting.now.names setting.now.functions setting.now.regions setting.now.params
        scope.old statement.now.id slot
        (length code.old
        + length
        (first_code setting.now.names setting.now.functions setting.now.regions setting.now.params
        scope.old statement.now.id (kind_view statement.now.kind)))
        (kind_view statement.now.kind))) }
    ensures next { IfOk result (λ next. next ≡ slot + kind_slots (kind_view statement.now.kind)) }
    ensures scope { OnOk result
        (scope.new ≡ in_scope (kind_view statement.now.kind) slot (stmts_view rest.now) scope.old) }
{
    let n = statement.id;
    let probes = probes_of(scope, &statement.kind);
    before(code, setting, n, probes.begins)?;
    let next = kind(code, setting, scope, n, slot, &statement.kind)?;
    after(code, setting, n, probes.ends, &statement.kind)?;
    declare(scope, slot, &statement.kind, rest)?;
    Ok(next)
}

/// The code of a block from a slot on. It answers the slot behind those of its variables and
/// counters.
#[cycle(stmts)]
pub fn block<'a>(
    code: &mut Buffer,
    setting: &Setting,
    scope: &mut Scope<'a>,
    slot: u32,
    block: &'a Block,
) -> Result<u32, AllocError>
    requires room { HasRoom code.old (block_code setting.now.names setting.now.functions
        setting.now.regions setting.now.params scope.old slot (length code.old)
        (block_view block.now)) }
    requires slots { slot + block_slots (block_view block.now) < 2147483648 }
    requires bounded { block_bounded (block_view block.now) }
    ensures code { OnOk result
        (code.new ≡ code.old
        ++ block_code setting.now.names setting.now.functions setting.now.regions setting.now.params
        scope.old slot (length code.old) (block_view block.now)) }
    ensures next { IfOk result (λ next. next ≡ slot + block_slots (block_view block.now)) }
    ensures scope { OnOk result (scope.new ≡ scope.old) }
{
    let visible = scope.len();
    let mut next = slot;
    let mut done = 0;
    let statements = block.statements.as_slice();
    for inner in statements {
        done += 1;
        next = statement(code, setting, scope, next, inner, &statements[done..])?;
    }
    scope.truncate(visible);
    Ok(next)
}
