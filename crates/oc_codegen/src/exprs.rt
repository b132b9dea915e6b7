//! The code of expressions.
ghost use Rattle.std.specs.Prelude.{◌≡◌, ◌<◌, pos, ◌+◌, ◌++◌, ◌∷◌, length, slice_set, OnOk, IfOk};
ghost use Rattle.oc_tree.specs.Word.{truth};
ghost use Rattle.oc_tree.specs.View.{arg_view, args_view, expr_view};
ghost use Rattle.oc_isa.specs.declared.instr.Instr.TheVariants.{Get, Index, Push, Jump, Jfalse};
ghost use Rattle.oc_code.specs.Forms.{placed, one, read_code, write_code, base_code, expr_code, arg_code, args_code};
ghost use Rattle.oc_code.specs.Scope.{passed_slot};
ghost use Rattle.oc_codegen.specs.Slots.{slot_view};
ghost use Rattle.oc_codegen.specs.Ops.{sides_of};
ghost use Rattle.oc_codegen.specs.Room.{HasRoom};

use crate::buffer::Buffer;
use crate::scope::{Scope, Slot};
use oc_isa::instr::{BinOp, Instr};
use oc_tree::tree::{Arg, BinaryOp, Expr};
use std::alloc::AllocError;

/// Which sides an operator evaluates: both, or the right one only where the left one is true, or
/// false.
#[derive(Clone, Copy)]
enum Sides {
    Both { op: BinOp },
    FirstTrue,
    FirstFalse,
}

/// Which sides an operator evaluates, and the operator of the code where these are both.
fn sides_of(op: BinaryOp) -> Sides
    ensures { result ≡ sides_of op }
{
    match op {
        BinaryOp::Or => Sides::FirstFalse,
        BinaryOp::And => Sides::FirstTrue,
        BinaryOp::Eq => Sides::Both { op: BinOp::Eq },
        BinaryOp::Ne => Sides::Both { op: BinOp::Ne },
        BinaryOp::Lt => Sides::Both { op: BinOp::Lt },
        BinaryOp::Le => Sides::Both { op: BinOp::Le },
        BinaryOp::Gt => Sides::Both { op: BinOp::Gt },
        BinaryOp::Ge => Sides::Both { op: BinOp::Ge },
        BinaryOp::Add => Sides::Both { op: BinOp::Add },
        BinaryOp::Sub => Sides::Both { op: BinOp::Sub },
        BinaryOp::Mul => Sides::Both { op: BinOp::Mul },
        BinaryOp::Div => Sides::Both { op: BinOp::Div },
        BinaryOp::Rem => Sides::Both { op: BinOp::Rem },
    }
}

/// A scalar's value.
fn read(code: &mut Buffer, n: u32, slot: Slot) -> Result<(), AllocError>
    requires { HasRoom code.old (read_code n (slot_view slot)) }
    ensures { OnOk result (code.new ≡ code.old ++ read_code n (slot_view slot)) }
{
    match slot {
        Slot::InFrame { s } => code.put(n, Instr::Load { s }),
        Slot::ByAddress { s } => {
            code.put(n, Instr::Load { s })?;
            code.put(n, Instr::Get)
        }
        Slot::InNv { a } => code.put(n, Instr::Nload { a }),
        Slot::Nowhere => code.put(n, Instr::Push { c: 0 }),
    }
}

/// The topmost word goes into a scalar.
pub fn write(code: &mut Buffer, n: u32, slot: Slot) -> Result<(), AllocError>
    requires { HasRoom code.old (write_code n (slot_view slot)) }
    ensures { OnOk result (code.new ≡ code.old ++ write_code n (slot_view slot)) }
{
    match slot {
        Slot::InFrame { s } => code.put(n, Instr::Store { s }),
        Slot::ByAddress { s } => {
            code.put(n, Instr::Load { s })?;
            code.put(n, Instr::Put)
        }
        Slot::InNv { a } => code.put(n, Instr::Nstore { a }),
        Slot::Nowhere => code.put(n, Instr::Drop),
    }
}

/// A variable's address.
pub fn base(code: &mut Buffer, n: u32, slot: Slot) -> Result<(), AllocError>
    requires { HasRoom code.old (base_code n (slot_view slot)) }
    ensures { OnOk result (code.new ≡ code.old ++ base_code n (slot_view slot)) }
{
    match slot {
        Slot::InFrame { s } => code.put(n, Instr::Addr { s }),
        Slot::ByAddress { s } => code.put(n, Instr::Load { s }),
        Slot::InNv { a } => code.put(n, Instr::Naddr { a }),
        Slot::Nowhere => code.put(n, Instr::Push { c: 0 }),
    }
}

/// The value of an element of an array of so many words, behind its address and the index.
fn element(code: &mut Buffer, n: u32, words: u32) -> Result<(), AllocError>
    requires { HasRoom code.old (placed n (Index words) ∷ one n Get) }
    ensures { OnOk result (code.new ≡ code.old ++ placed n (Index words) ∷ one n Get) }
{
    code.put(n, Instr::Index { n: words })?;
    code.put(n, Instr::Get)
}

/// A truth value as a word: 1 or 0.
fn word_of(value: bool) -> i32
    ensures { result ≡ truth value }
{
    if value { 1 } else { 0 }
}

/// The end of `&&`: its left side has left the test that is still open, and its right side stands.
fn close_and(code: &mut Buffer, n: u32, test: u32) -> Result<(), AllocError>
    requires test { test < length code.old }
    requires room { length code.old < 2147483646 }
    ensures { OnOk result (code.new
        ≡ slice_set code.old test (placed n (Jfalse (length code.old + 1)))
        ++ placed n (Jump (length code.old + 2)) ∷ one n (Push (pos 0))) }
{
    let end = code.address();
    code.set(test, n, Instr::Jfalse { t: end + 1 });
    code.put(n, Instr::Jump { t: end + 2 })?;
    code.put(n, Instr::Push { c: 0 })
}

/// What stands between the sides of `||`, and the address of its jump, which is still open.
fn open_or(code: &mut Buffer, n: u32) -> Result<u32, AllocError>
    requires { length code.old < 2147483645 }
    ensures code { OnOk result
        (code.new ≡ code.old ++ placed n (Jfalse (length code.old + 3)) ∷ placed n (Push (pos 1))
        ∷ one n (Jump 0)) }
    ensures jump { IfOk result (λ a. a ≡ length code.old + 2) }
{
    let test = code.address();
    code.put(n, Instr::Jfalse { t: test + 3 })?;
    code.put(n, Instr::Push { c: 1 })?;
    code.put(n, Instr::Jump { t: 0 })?;
    Ok(test + 2)
}

/// The code of an expression of the statement `n`.
pub fn expr(code: &mut Buffer, scope: &Scope, n: u32, expression: &Expr) -> Result<(), AllocError>
    requires { HasRoom code.old
        (expr_code n scope.now (length code.old) (expr_view expression.now)) }
    ensures { OnOk result
        (code.new ≡ code.old
        ++ expr_code n scope.now (length code.old) (expr_view expression.now)) }
{
    match expression {
        Expr::Number { value } => code.put(n, Instr::Push { c: *value }),
        Expr::Truth { value } => code.put(n, Instr::Push { c: word_of(*value) }),
        Expr::Variable { name } => read(code, n, scope.slot(name)),
        Expr::Deref { name } => read(code, n, scope.slot(name)),
        Expr::Index { array, index } => {
            base(code, n, scope.slot(array))?;
            expr(code, scope, n, index)?;
            element(code, n, scope.words(array))
        }
        Expr::Unary { op, inner } => {
            expr(code, scope, n, inner)?;
            code.put(n, Instr::Un { op: *op })
        }
        Expr::Binary { op, left, right } => {
            expr(code, scope, n, left)?;
            match sides_of(*op) {
                Sides::Both { op } => {
                    expr(code, scope, n, right)?;
                    code.put(n, Instr::Bin { op })
                }
                Sides::FirstTrue => {
                    let test = code.open(n)?;
                    expr(code, scope, n, right)?;
                    close_and(code, n, test)
                }
                Sides::FirstFalse => {
                    let jump = open_or(code, n)?;
                    expr(code, scope, n, right)?;
                    let end = code.address();
                    code.set(jump, n, Instr::Jump { t: end });
                    Ok(())
                }
            }
        }
        Expr::Sense { .. } => code.put(n, Instr::Push { c: 0 }),
        Expr::Call { .. } => code.put(n, Instr::Push { c: 0 }),
    }
}

/// The slot of the reference that an argument passes on, which is just its name.
fn passed_slot(scope: &Scope, expression: &Expr) -> Option<u32>
    ensures { result ≡ passed_slot scope.now (expr_view expression.now) }
{
    match expression {
        Expr::Variable { name } => match scope.slot(name) {
            Slot::ByAddress { s } => Some(s),
            Slot::InFrame { .. } => None,
            Slot::InNv { .. } => None,
            Slot::Nowhere => None,
        },
        _ => None,
    }
}

/// The code of an argument.
fn arg(code: &mut Buffer, scope: &Scope, n: u32, arg: &Arg) -> Result<(), AllocError>
    requires { HasRoom code.old (arg_code n scope.now (length code.old) (arg_view arg.now)) }
    ensures { OnOk result
        (code.new ≡ code.old ++ arg_code n scope.now (length code.old) (arg_view arg.now)) }
{
    match arg {
        Arg::Value { value } => match passed_slot(scope, value) {
            Some(s) => code.put(n, Instr::Load { s }),
            None => expr(code, scope, n, value),
        },
        Arg::Shared { name } => base(code, n, scope.slot(name)),
        Arg::Mutable { name } => base(code, n, scope.slot(name)),
    }
}

/// The code of the arguments of a call.
pub fn args(code: &mut Buffer, scope: &Scope, n: u32, args: &[Arg]) -> Result<(), AllocError>
    requires { HasRoom code.old (args_code n scope.now (length code.old) (args_view args.now)) }
    ensures { OnOk result
        (code.new ≡ code.old ++ args_code n scope.now (length code.old) (args_view args.now)) }
{
    for next in args {
        arg(code, scope, n, next)?;
    }
    Ok(())
}
