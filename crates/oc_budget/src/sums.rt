//! Sums and products of costs. None exactly where one doesn't fit 64 bits.
ghost use Rattle.std.specs.Prelude.{◌≡◌, ◌+◌, ◌*◌, max};
ghost use Rattle.oc_budget.specs.Fitting.{IsFitted};

/// The sum of two costs; none where it doesn't fit 64 bits.
pub fn plus(a: u64, b: u64) -> Option<u64>
    ensures { IsFitted result (a + b) }
{
    a.checked_add(b)
}

/// So many times a cost; none where that doesn't fit 64 bits.
pub fn times(n: u32, a: u64) -> Option<u64>
    ensures { IsFitted result (n * a) }
{
    (n as u64).checked_mul(a)
}

/// The greater of two costs.
pub fn greater(a: u64, b: u64) -> u64
    ensures { result ≡ max a b }
{
    if a < b { b } else { a }
}
