//! What operators do to words.
ghost use Rattle.std.specs.Prelude.{◌≡◌};
ghost use Rattle.oc_tree.specs.Word.{unary_of};
ghost use Rattle.oc_meaning.specs.Eval.{apply};

use oc_tree::tree::{BinaryOp, UnaryOp};

/// `x op y`, or nothing where a divisor is zero. `&&` and `||` aren't applied to two numbers.
pub fn apply(op: BinaryOp, x: i32, y: i32) -> Option<i32>
    ensures { result ≡ apply op x y }
{
    match op {
        BinaryOp::Or | BinaryOp::And => None,
        BinaryOp::Add => Some(x.wrapping_add(y)),
        BinaryOp::Sub => Some(x.wrapping_sub(y)),
        BinaryOp::Mul => Some(x.wrapping_mul(y)),
        BinaryOp::Div => {
            if y == 0 {
                None
            } else {
                Some(x.wrapping_div(y))
            }
        }
        BinaryOp::Rem => {
            if y == 0 {
                None
            } else {
                Some(x.wrapping_rem(y))
            }
        }
        BinaryOp::Eq => Some((x == y) as i32),
        BinaryOp::Ne => Some((x != y) as i32),
        BinaryOp::Lt => Some((x < y) as i32),
        BinaryOp::Le => Some((x <= y) as i32),
        BinaryOp::Gt => Some((x > y) as i32),
        BinaryOp::Ge => Some((x >= y) as i32),
    }
}

/// An operator on one word.
pub fn apply_unary(op: UnaryOp, x: i32) -> i32
    ensures { result ≡ unary_of op x }
{
    match op {
        UnaryOp::Neg => x.wrapping_neg(),
        UnaryOp::Not => (x == 0) as i32,
    }
}
