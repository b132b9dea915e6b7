//! Numbers that stop at a cap.
ghost use Rattle.std.specs.Prelude.{◌≡◌, ◌≤◌, ◌+◌, ◌*◌, max};
ghost use Rattle.oc_weight.specs.Capped.{capped, weight_cap};

const CAP: u64 = 4294967297;

/// The number, or the cap where it is greater.
pub fn cap(n: u64) -> u64
    ensures value { result ≡ capped n }
    ensures small { result ≤ weight_cap }
{
    if n < CAP { n } else { CAP }
}

/// The sum, or the cap.
pub fn plus(a: u64, b: u64) -> u64
    requires a { a ≤ weight_cap }
    requires b { b ≤ weight_cap }
    ensures sum { result ≡ capped (a + b) }
    ensures small { result ≤ weight_cap }
{
    cap(a + b)
}

/// The product, or the cap.
pub fn times(n: u32, a: u64) -> u64
    requires { a ≤ weight_cap }
    ensures product { result ≡ capped (n * a) }
    ensures small { result ≤ weight_cap }
{
    cap(n as u64 * a)
}

/// The greater of two numbers.
pub fn greater(a: u64, b: u64) -> u64
    requires a { a ≤ weight_cap }
    requires b { b ≤ weight_cap }
    ensures greater { result ≡ max a b }
    ensures small { result ≤ weight_cap }
{
    if a < b { b } else { a }
}
