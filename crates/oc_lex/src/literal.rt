//! The value of a number.
ghost use Rattle.std.specs.Prelude.{◌≡◌, pos, MatchOption, ◌<◌, ◌≤◌};
ghost use Rattle.oc_lex.specs.Bytes.{value_of, with_digit};

const LARGEST: u64 = 2147483647;

/// The number with one more digit behind it; a `_` counts nothing.
fn add_digit(total: u64, digit: u8) -> u64
    requires { total ≤ LARGEST }
    ensures { result ≡ with_digit total digit }
{
    if digit == b'_' {
        total
    } else {
        total * 10 + u64::from(digit.saturating_sub(b'0'))
    }
}

/// The value of digits, if an `i32` has it.
#[tactic(auto, using(crate::proofs::Values::value_more, crate::proofs::Values::value_large, crate::proofs::Values::value_small))]
pub fn value(digits: &[u8]) -> Option<i32>
    ensures { MatchOption result (LARGEST < value_of digits.now)
        (λ v. (v ≡ pos (value_of digits.now)) × (value_of digits.now ≤ LARGEST)) }
{
    let mut total = 0;
    for digit in digits {
        total = add_digit(total, *digit);
        if total > LARGEST {
            return None;
        }
    }
    Some(total as i32)
}
