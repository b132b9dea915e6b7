//! Numbers in plain digits.
ghost use Rattle.std.specs.Prelude.{◌≡◌};
ghost use Rattle.oc_rows.specs.Numbers.{number_of};

/// Numbers are below this.
const LIMIT: u64 = 1 << 63;

/// The most digits that a number may have, leading zeros included.
const MOST_DIGITS: usize = 19;

/// The number that these bytes spell: 1 to 19 digits, below 2^63.
pub fn read_number(bytes: &[u8]) -> Option<u64>
    ensures { result ≡ number_of bytes.now }
{
    if bytes.is_empty() || MOST_DIGITS < bytes.len() {
        return None;
    }
    let mut number: u64 = 0;
    for byte in bytes {
        if !byte.is_ascii_digit() {
            return None;
        }
        number = number * 10 + u64::from(*byte - b'0');
    }
    if number < LIMIT { Some(number) } else { None }
}
