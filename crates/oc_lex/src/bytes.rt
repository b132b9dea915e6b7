//! Kinds of bytes, and how far they run.
ghost use Rattle.std.specs.Prelude.{◌≡◌, ◌≤◌, length};
ghost use Rattle.std.specs.List.{prefix_len};
ghost use Rattle.oc_lex.specs.Bytes.{in_line, in_name, in_number, is_letter};
ghost use Rattle.oc_lex.specs.Classes.{class_of};

/// What a byte is to a reader of tokens: a space, tab, carriage return or line feed; an ASCII
/// letter; `_`; an ASCII digit; or any other.
#[derive(Clone, Copy, PartialEq, Eq)]
pub enum Class {
    Blank,
    Letter,
    Underscore,
    Digit,
    Other,
}

/// The class of a byte.
#[tactic(auto, unfolding(crate::specs::Classes::class_of))]
pub fn byte_class(byte: u8) -> Class
    ensures { result ≡ class_of byte }
{
    match byte {
        b' ' | b'\t' | b'\r' | b'\n' => Class::Blank,
        b'a'..=b'z' | b'A'..=b'Z' => Class::Letter,
        b'_' => Class::Underscore,
        b'0'..=b'9' => Class::Digit,
        _ => Class::Other,
    }
}

/// Whether it is an ASCII letter.
pub fn is_letter(byte: u8) -> bool
    ensures { result ≡ is_letter byte }
{
    matches!(byte, b'a'..=b'z' | b'A'..=b'Z')
}

/// Whether a name goes on with this byte: an ASCII letter, a digit or `_`.
#[tactic(auto, unfolding(crate::specs::Bytes::begins_name, crate::specs::Bytes::in_name))]
fn is_in_name(byte: u8) -> bool
    ensures { result ≡ in_name byte }
{
    is_letter(byte) || is_in_number(byte)
}

/// Whether a number goes on with this byte: a digit or `_`.
#[tactic(auto, unfolding(crate::specs::Bytes::in_number))]
fn is_in_number(byte: u8) -> bool
    ensures { result ≡ in_number byte }
{
    matches!(byte, b'_' | b'0'..=b'9')
}

/// How many bytes in front may go on a name.
pub fn name_length(bytes: &[u8]) -> usize
    ensures exact { result ≡ prefix_len in_name bytes.now }
    ensures within { result ≤ length bytes.now }
{
    bytes.iter().take_while(|byte| is_in_name(**byte)).count()
}

/// How many bytes in front may go on a number.
pub fn number_length(bytes: &[u8]) -> usize
    ensures exact { result ≡ prefix_len in_number bytes.now }
    ensures within { result ≤ length bytes.now }
{
    bytes.iter().take_while(|byte| is_in_number(**byte)).count()
}

/// How many bytes stand before the next line feed.
pub fn line_length(bytes: &[u8]) -> usize
    ensures exact { result ≡ prefix_len in_line bytes.now }
    ensures within { result ≤ length bytes.now }
{
    bytes.iter().take_while(|byte| **byte != b'\n').count()
}
