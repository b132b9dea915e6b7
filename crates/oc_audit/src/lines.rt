//! Lines of a report.
ghost use Rattle.std.specs.Prelude.{◌≡◌, ◌++◌, true, codes, IfSome, IfNone};
ghost use Rattle.oc_audit.specs.Taking.{has_no_feed};

/// The bytes before the first line feed, and those behind it.
pub fn first_line(bytes: &[u8]) -> Option<(&[u8], &[u8])>
    ensures some { IfSome result
        (λ r. (r.0.now ++ (codes "\n" ++ r.1.now) ≡ bytes.now) × (has_no_feed r.0.now ≡ true)) }
    ensures none { IfNone result (has_no_feed bytes.now ≡ true) }
{
    let Some(place) = bytes.iter().position(|byte| *byte == b'\n') else {
        return None;
    };
    Some((&bytes[..place], &bytes[place + 1..]))
}
