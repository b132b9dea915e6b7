//! The line of a nonvolatile variable, read back.
ghost use Rattle.std.specs.Prelude.{◌≡◌, ◌<◌, ◌++◌, true, IfOk, IfSome, IfNone};
ghost use Rattle.oc_items.specs.Reading.{has_no_space};
ghost use Rattle.oc_audit.specs.Words.{IsTail, IsNext, HasNoNext, GivesWords};

use oc_items::read::{behind, read_i32};
use oc_tree::name::Name;
use std::alloc::AllocError;

/// The bytes up to the first space, and those from there on.
fn split_word(bytes: &[u8]) -> (&[u8], &[u8])
    ensures parts { result.0.now ++ result.1.now ≡ bytes.now }
    ensures field { has_no_space result.0.now ≡ true }
    ensures tail { IsTail result.1.now }
{
    let Some(place) = bytes.iter().position(|byte| *byte == b' ') else {
        return (bytes, &bytes[bytes.len()..]);
    };
    (&bytes[..place], &bytes[place..])
}

/// The word in front, with a space before it, and what stands behind it.
fn next_word(bytes: &[u8]) -> Option<(i32, &[u8])>
    ensures some { IfSome result (λ r. IsNext bytes.now r.0 r.1.now) }
    ensures none { IfNone result (HasNoNext bytes.now) }
{
    let rest = behind(b" ", bytes)?;
    let parts = split_word(rest);
    let word = read_i32(parts.0)?;
    Some((word, parts.1))
}

/// Adds the so many words of the line of a nonvolatile variable; on `false` it is no such line, and
/// some words may have been added.
pub fn take_words(
    name: &Name,
    count: u32,
    line: &[u8],
    words: &mut Vec<i32>,
) -> Result<bool, AllocError>
    ensures { IfOk result
        (λ good. GivesWords name.now count line.now words.old.items good words.new.items) }
{
    let Some(named) = behind(b"nv ", line) else {
        return Ok(false);
    };
    let Some(rest) = behind(name.bytes(), named) else {
        return Ok(false);
    };
    let mut left = rest;
    for _place in 0..count {
        let Some((word, further)) = next_word(left) else {
            return Ok(false);
        };
        words.push(word)?;
        left = further;
    }
    Ok(left.is_empty())
}
