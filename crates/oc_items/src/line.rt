//! Parts of a line, written from its end to its front.
ghost use Rattle.std.specs.Prelude.{◌≡◌, ◌+◌, ◌≤◌, ◌++◌, length, drop};
ghost use Rattle.std.specs.Fmt.{signed_decimal};

use itoa::write_digits;

/// How long a line is at most that is put together before it is put.
pub const LINE: usize = 64;

/// Writes a word that ends at a place, and answers where it begins.
#[inline(always)]
pub fn write_word(word: &[u8], line: &mut [u8; LINE], end: usize) -> usize
    requires { (length word.now ≤ end) × (end ≤ LINE) }
    ensures start { result + length word.now ≡ end }
    ensures written { drop result line.new ≡ word.now ++ drop end line.old }
{
    let from = end - word.len();
    line[from..end].copy_from_slice(word);
    from
}

/// Writes a value that ends at a place, and answers where it begins.
#[inline(always)]
pub fn write_value(value: i32, line: &mut [u8; LINE], end: usize) -> usize
    requires { (11 ≤ end) × (end ≤ LINE) }
    ensures most { end ≤ result + 11 }
    ensures within { result ≤ end }
    ensures written { drop result line.new ≡ signed_decimal value ++ drop end line.old }
{
    let from = write_digits(value.unsigned_abs() as u64, line, end);
    if 0 <= value {
        return from;
    }
    line[from - 1] = b'-';
    from - 1
}
