//! Numbers of functions, worked out level by level of calls.
ghost use Rattle.std.specs.Prelude.{true, ◌≡◌};

/// Whether a level has the same numbers as the one before it.
pub fn is_same(left: &[u64], right: &[u64]) -> bool
    ensures { result ≡ true → left.now ≡ right.now }
{
    left == right
}
