//! The code of statements without statements inside.
ghost use Rattle.std.specs.Prelude.{◌≡◌, ◌<◌, if◌then◌else◌, ◌+◌, ◌++◌, ◌∷◌, [], length, Option, OnOk};
ghost use Rattle.oc_tree.specs.View.{call_view, expr_view, kind_view, right_view, stmts_view};
ghost use Rattle.oc_tree.specs.Stack.{kind_slots};
ghost use Rattle.oc_tree.specs.Tree.{return};
ghost use Rattle.oc_tree.specs.Weight.{has_result};
ghost use Rattle.oc_isa.specs.declared.instr.Instr.TheVariants.{Store, Drop, Emit, Sense};
ghost use Rattle.oc_isa.specs.declared.instr.ProbeKind.TheVariants.{Use};
ghost use Rattle.oc_meaning.specs.Exec.{begun_by, ended_by, number_in};
ghost use Rattle.oc_meaning.specs.Uses.{is_use};
ghost use Rattle.oc_code.specs.Scope.{in_scope, is_fresh_in, slot_of};
ghost use Rattle.oc_code.specs.Forms.{placed, one, enter_code, commit_code, probe_code, write_code, expr_code};
ghost use Rattle.oc_code.specs.Code.{call_code, right_code, element_code, return_code, before_code, after_code, last_code};
ghost use Rattle.oc_codegen.specs.Room.{HasRoom};

use crate::buffer::Buffer;
use crate::exprs::{args, base, expr, write};
use crate::scope::{Scope, Slot, Variable};
use crate::setting::Setting;
use oc_isa::instr::{Instr, ProbeKind};
use oc_meaning::names::is_annotated;
use oc_tree::name::Name;
use oc_tree::tree::{Call, Expr, Right, Stmt, StmtKind};
use std::alloc::AllocError;

/// The code of a call of the statement `n`.
pub fn call(
    code: &mut Buffer,
    setting: &Setting,
    scope: &Scope,
    n: u32,
    call: &Call,
) -> Result<(), AllocError>
    requires { HasRoom code.old (call_code setting.now.names setting.now.functions
        setting.now.regions setting.now.params n scope.now (length code.old) (call_view call.now)) }
    ensures { OnOk result
        (code.new ≡ code.old
        ++ call_code setting.now.names setting.now.functions setting.now.regions setting.now.params
        n scope.now (length code.old) (call_view call.now)) }
{
    args(code, scope, n, call.args.as_slice())?;
    let function = setting.function(&call.function);
    code.put(n, Instr::Call { f: function })
}

/// The code of a right side.
pub fn right(
    code: &mut Buffer,
    setting: &Setting,
    scope: &Scope,
    n: u32,
    right: &Right,
) -> Result<(), AllocError>
    requires { HasRoom code.old (right_code setting.now.names setting.now.functions
        setting.now.regions setting.now.params n scope.now (length code.old)
        (right_view right.now)) }
    ensures { OnOk result
        (code.new ≡ code.old
        ++ right_code setting.now.names setting.now.functions setting.now.regions setting.now.params
        n scope.now (length code.old) (right_view right.now)) }
{
    match right {
        Right::Value { value } => expr(code, scope, n, value),
        Right::Sense { sensor } => {
            let sensor = setting.sensor(sensor);
            code.put(n, Instr::Sense { s: sensor })
        }
        Right::Call { call: inner } => call(code, setting, scope, n, inner),
    }
}

/// The code of an assignment to a variable, or to what a reference leads to.
pub fn assign(
    code: &mut Buffer,
    setting: &Setting,
    scope: &Scope,
    n: u32,
    name: &Name,
    side: &Right,
) -> Result<(), AllocError>
    requires { HasRoom code.old (right_code setting.now.names setting.now.functions
        setting.now.regions setting.now.params n scope.now (length code.old) (right_view side.now)
        ++ write_code n (slot_of scope.now name.now)) }
    ensures { OnOk result
        (code.new ≡ code.old
        ++ (right_code setting.now.names setting.now.functions setting.now.regions
        setting.now.params n scope.now (length code.old) (right_view side.now)
        ++ write_code n (slot_of scope.now name.now))) }
{
    right(code, setting, scope, n, side)?;
    write(code, n, scope.slot(name))
}

/// The code of a `let` of one word.
pub fn let_to(
    code: &mut Buffer,
    setting: &Setting,
    scope: &Scope,
    n: u32,
    slot: u32,
    side: &Right,
) -> Result<(), AllocError>
    requires { HasRoom code.old (right_code setting.now.names setting.now.functions
        setting.now.regions setting.now.params n scope.now (length code.old) (right_view side.now)
        ++ one n (Store slot)) }
    ensures { OnOk result
        (code.new ≡ code.old
        ++ (right_code setting.now.names setting.now.functions setting.now.regions
        setting.now.params n scope.now (length code.old) (right_view side.now)
        ++ one n (Store slot))) }
{
    right(code, setting, scope, n, side)?;
    code.put(n, Instr::Store { s: slot })
}

/// The code of an assignment to an element.
pub fn assign_index(
    code: &mut Buffer,
    setting: &Setting,
    scope: &Scope,
    n: u32,
    name: &Name,
    index: &Expr,
    side: &Right,
) -> Result<(), AllocError>
    requires { HasRoom code.old (element_code setting.now.names setting.now.functions
        setting.now.regions setting.now.params n scope.now (length code.old) name.now (expr_view
        index.now) (right_code setting.now.names setting.now.functions setting.now.regions
        setting.now.params n scope.now (length code.old) (right_view side.now))) }
    ensures { OnOk result
        (code.new ≡ code.old
        ++ element_code setting.now.names setting.now.functions setting.now.regions
        setting.now.params n scope.now (length code.old) name.now (expr_view index.now)
        (right_code setting.now.names setting.now.functions setting.now.regions setting.now.params n
        scope.now (length code.old) (right_view side.now))) }
{
    right(code, setting, scope, n, side)?;
    base(code, n, scope.slot(name))?;
    expr(code, scope, n, index)?;
    code.put(
        n,
        Instr::Index {
            n: scope.words(name),
        },
    )?;
    code.put(n, Instr::Put)
}

/// The code of a call as a statement, whose result is dropped.
pub fn call_only(
    code: &mut Buffer,
    setting: &Setting,
    scope: &Scope,
    n: u32,
    inner: &Call,
) -> Result<(), AllocError>
    requires { HasRoom code.old (call_code setting.now.names setting.now.functions
        setting.now.regions setting.now.params n scope.now (length code.old) (call_view inner.now)
        ++ (if has_result setting.now.functions (call_view inner.now) then one n Drop
        else [])) }
    ensures { OnOk result
        (code.new ≡ code.old
        ++ (call_code setting.now.names setting.now.functions setting.now.regions setting.now.params
        n scope.now (length code.old) (call_view inner.now)
        ++ (if has_result setting.now.functions (call_view inner.now) then one n Drop
        else []))) }
{
    call(code, setting, scope, n, inner)?;
    if setting.has_result(inner) {
        code.put(n, Instr::Drop)
    } else {
        Ok(())
    }
}

/// The code of an input whose value is dropped.
pub fn sense_only(
    code: &mut Buffer,
    setting: &Setting,
    n: u32,
    sensor: &Name,
) -> Result<(), AllocError>
    requires { HasRoom code.old (placed n (Sense (number_in setting.now.names.sensors sensor.now)) ∷
        one n Drop) }
    ensures { OnOk result
        (code.new ≡ code.old
        ++ (placed n (Sense (number_in setting.now.names.sensors sensor.now)) ∷ one n Drop)) }
{
    let sensor = setting.sensor(sensor);
    code.put(n, Instr::Sense { s: sensor })?;
    code.put(n, Instr::Drop)
}

/// The code of an output.
pub fn emit(
    code: &mut Buffer,
    setting: &Setting,
    scope: &Scope,
    n: u32,
    port: &Name,
    value: &Expr,
) -> Result<(), AllocError>
    requires { HasRoom code.old (expr_code n scope.now (length code.old) (expr_view value.now) ++
        one n (Emit (number_in setting.now.names.ports port.now))) }
    ensures { OnOk result
        (code.new ≡ code.old ++ (expr_code n scope.now (length code.old) (expr_view value.now)
        ++ one n (Emit (number_in setting.now.names.ports port.now)))) }
{
    expr(code, scope, n, value)?;
    let port = setting.port(port);
    code.put(n, Instr::Emit { p: port })
}

/// A probe, if there is one.
pub fn probe(code: &mut Buffer, n: u32, is: bool, kind: ProbeKind) -> Result<(), AllocError>
    requires { HasRoom code.old (probe_code n is kind) }
    ensures { OnOk result (code.new ≡ code.old ++ probe_code n is kind) }
{
    if is {
        code.put(n, Instr::Probe { kind, n })
    } else {
        Ok(())
    }
}

/// The begin of a region at the statement `n`, if one begins there. Err is want of memory.
fn enter(code: &mut Buffer, n: u32, region: Option<u32>) -> Result<(), AllocError>
    requires { HasRoom code.old (enter_code n region) }
    ensures { OnOk result (code.new ≡ code.old ++ enter_code n region) }
{
    match region {
        Some(r) => code.put(n, Instr::Enter { r }),
        None => Ok(()),
    }
}

/// The end of a region at the statement `n`, if one ends there. Err is want of memory.
fn commit(code: &mut Buffer, n: u32, region: Option<u32>) -> Result<(), AllocError>
    requires { HasRoom code.old (commit_code n region) }
    ensures { OnOk result (code.new ≡ code.old ++ commit_code n region) }
{
    match region {
        Some(r) => code.put(n, Instr::Commit { r }),
        None => Ok(()),
    }
}

/// The code of a `return`. It has the end of the region before it.
pub fn return_value(
    code: &mut Buffer,
    setting: &Setting,
    scope: &Scope,
    n: u32,
    used: bool,
    value: &Expr,
) -> Result<(), AllocError>
    requires used { used ≡ is_use (is_fresh_in scope.now) (return (expr_view value.now)) }
    requires room { HasRoom code.old (return_code setting.now.names setting.now.functions
        setting.now.regions setting.now.params n scope.now (length code.old)
        (expr_view value.now)) }
    ensures { OnOk result
        (code.new ≡ code.old
        ++ return_code setting.now.names setting.now.functions setting.now.regions
        setting.now.params n scope.now (length code.old) (expr_view value.now)) }
{
    expr(code, scope, n, value)?;
    probe(code, n, used, ProbeKind::Done)?;
    commit(code, n, setting.ended_by(n))?;
    code.put(
        n,
        Instr::Retv {
            k: setting.params(),
        },
    )
}

/// The test of a `while`, with its probe.
pub fn test(
    code: &mut Buffer,
    scope: &Scope,
    n: u32,
    used: bool,
    condition: &Expr,
) -> Result<(), AllocError>
    requires { HasRoom code.old (probe_code n used Use ++ expr_code n scope.now (length code.old +
        length (probe_code n used Use)) (expr_view condition.now)) }
    ensures { OnOk result (code.new
        ≡ code.old ++ (probe_code n used Use
        ++ expr_code n scope.now (length code.old + length (probe_code n used Use))
        (expr_view condition.now))) }
{
    probe(code, n, used, ProbeKind::Use)?;
    expr(code, scope, n, condition)
}

/// What stands before a statement's own code: the beginning of a region, and the probe that its use
/// of a fresh variable begins. Err is want of memory.
pub fn before(code: &mut Buffer, setting: &Setting, n: u32, begins: bool) -> Result<(), AllocError>
    requires { HasRoom code.old (before_code n (begun_by setting.now.regions n) begins) }
    ensures { OnOk result
        (code.new ≡ code.old ++ before_code n (begun_by setting.now.regions n) begins) }
{
    enter(code, n, setting.begun_by(n))?;
    probe(code, n, begins, ProbeKind::Use)
}

/// The end of the region that ends with the statement `n`, if one does; a `return` has it in its
/// own code. Err is want of memory.
fn last(code: &mut Buffer, n: u32, region: Option<u32>, kind: &StmtKind) -> Result<(), AllocError>
    requires { HasRoom code.old (last_code n region (kind_view kind.now)) }
    ensures { OnOk result (code.new ≡ code.old ++ last_code n region (kind_view kind.now)) }
{
    match kind {
        StmtKind::Return { .. } => Ok(()),
        _ => commit(code, n, region),
    }
}

/// What stands behind a statement's own code: the probe that its use of a fresh variable is over,
/// and the end of a region. Err is want of memory.
pub fn after(
    code: &mut Buffer,
    setting: &Setting,
    n: u32,
    ends: bool,
    kind: &StmtKind,
) -> Result<(), AllocError>
    requires { HasRoom code.old
        (after_code n (ended_by setting.now.regions n) ends (kind_view kind.now)) }
    ensures { OnOk result
        (code.new ≡ code.old
        ++ after_code n (ended_by setting.now.regions n) ends (kind_view kind.now)) }
{
    probe(code, n, ends, ProbeKind::Done)?;
    last(code, n, setting.ended_by(n), kind)
}

/// The variable that a statement at a slot makes, if it makes one.
pub fn declare<'a>(
    scope: &mut Scope<'a>,
    slot: u32,
    kind: &'a StmtKind,
    rest: &[Stmt],
) -> Result<(), AllocError>
    requires { slot + kind_slots (kind_view kind.now) < 2147483648 }
    ensures { OnOk result
        (scope.new ≡ in_scope (kind_view kind.now) slot (stmts_view rest.now) scope.old) }
{
    match kind {
        StmtKind::Let { name, .. } => {
            let variable = Variable {
                slot: Slot::InFrame { s: slot },
                words: 1,
                writable: true,
                fresh: is_annotated(name, rest),
            };
            scope.declare(name, variable)
        }
        StmtKind::LetArray { name, words, .. } => {
            let variable = Variable {
                slot: Slot::InFrame { s: slot + 1 },
                words: *words,
                writable: true,
                fresh: is_annotated(name, rest),
            };
            scope.declare(name, variable)
        }
        _ => Ok(()),
    }
}
