//! Items back from their lines.
ghost use Rattle.std.specs.Prelude.{◌≡◌, ◌^◌, ◌<◌, ◌≤◌, ◌+◌, ◌-◌, ◌*◌, ◌++◌, ℕ, ℤ, List, true, length, codes, decimal, IfSome, IfNone, MatchOption, FitsSigned};
ghost use Rattle.std.specs.Str.{all_ascii_digits};
ghost use Rattle.std.specs.Int.{w32};
ghost use Rattle.std.specs.Fmt.{signed_decimal};
ghost use Rattle.oc_tree.specs.Names.{NameLists, names_view, name_at};
ghost use Rattle.oc_items.specs.Reading.{spelled_from, zero_leads, differ_first, LineTells, LineTellsNone, TellsBody, HasBody, has_no_space, place_of, StandsBehind, Spelled, SpelledNone, IsValue, NamedIn, NoSense, NoEmit, NoStatement, NoMark, NoStop};

use crate::item::Item;
use itoa::Buffer;
use oc_tree::name::{Name, Names};
use oc_tree::said::TrapKind;
use std::str::from_utf8;

/// A number with one more digit behind it; none where that is 2^64 or more.
fn with_digit(number: u64, digit: u8) -> Option<u64>
    ensures { MatchOption result (2 ^ 64 ≤ 10 * number + (digit - 48))
        (λ n. n ≡ 10 * number + (digit - 48)) }
{
    let digit = digit.saturating_sub(b'0');
    number.checked_mul(10)?.checked_add(digit as u64)
}

/// The number that digits spell; none where another byte is among them, and from 2^64 on.
fn number_of(bytes: &[u8]) -> Option<u64>
    ensures digits { IfSome result (λ n. all_ascii_digits bytes.now ≡ true) }
    ensures some { IfSome result (λ n. n ≡ spelled_from 0 bytes.now) }
    ensures none { IfNone result (all_ascii_digits bytes.now ≡ true
        → 2 ^ 64 ≤ spelled_from 0 bytes.now) }
{
    let mut number = 0;
    for byte in bytes {
        if !byte.is_ascii_digit() {
            return None;
        }
        number = with_digit(number, *byte)?;
    }
    Some(number)
}

/// Whether a 0 stands before other bytes.
fn zero_leads(bytes: &[u8]) -> bool
    ensures { result ≡ zero_leads bytes.now }
{
    match bytes {
        [first, _, ..] => *first == b'0',
        _ => false,
    }
}

/// The number below 2^64 whose digits these are.
fn read_u64(field: &[u8]) -> Option<u64>
    ensures some { IfSome result (λ n. decimal n ≡ field.now) }
    ensures none { IfNone result ((n : ℕ) → n < 2 ^ 64 → decimal n ≡ field.now → ⊥) }
{
    if field.is_empty() {
        return None;
    }
    if zero_leads(field) {
        return None;
    }
    number_of(field)
}

/// The number of 32 bits whose digits, with a `-` where it is negative, these are.
pub fn read_i32(field: &[u8]) -> Option<i32>
    ensures some { IfSome result (λ z. signed_decimal z ≡ field.now) }
    ensures none { IfNone result ((z : ℤ) → FitsSigned w32 z → signed_decimal z ≡ field.now → ⊥) }
{
    let Ok(text) = from_utf8(field) else {
        return None;
    };
    let Ok(number) = text.parse::<i32>() else {
        return None;
    };
    let mut buffer = Buffer::new();
    if buffer.format(number).as_bytes() == field {
        Some(number)
    } else {
        None
    }
}

/// The bytes before the first space, and those behind it.
fn split_at_space(line: &[u8]) -> Option<(&[u8], &[u8])>
    ensures some { IfSome result
        (λ p. (p.0.now ++ (codes " " ++ p.1.now) ≡ line.now) × (has_no_space p.0.now ≡ true)) }
    ensures none { IfNone result (has_no_space line.now ≡ true) }
{
    let Some(place) = line.iter().position(|byte| *byte == b' ') else {
        return None;
    };
    Some((&line[..place], &line[place + 1..]))
}

/// Whether both have a first byte, and these differ.
fn differ_first(left: &[u8], right: &[u8]) -> bool
    ensures { result ≡ differ_first left.now right.now }
{
    match (left, right) {
        ([a, ..], [b, ..]) => *a != *b,
        _ => false,
    }
}

/// The bytes behind the key, where it stands in front.
pub fn behind<'a>(key: &[u8], bytes: &'a [u8]) -> Option<&'a [u8]>
    ensures some { IfSome result (λ rest. StandsBehind key.now bytes.now rest.now) }
    ensures none { IfNone result ((rest : List ℕ) → StandsBehind key.now bytes.now rest → ⊥) }
{
    if differ_first(key, bytes) {
        return None;
    }
    bytes.strip_prefix(key)
}

/// The number of 32 bits behind the key.
fn number_behind(key: &[u8], bytes: &[u8]) -> Option<u32>
    ensures some { IfSome result (λ n. Spelled key.now bytes.now (2 ^ 32) n) }
    ensures none { IfNone result (SpelledNone key.now bytes.now (2 ^ 32)) }
{
    let digits = behind(key, bytes)?;
    let number = read_u64(digits)?;
    if number > u32::MAX as u64 {
        return None;
    }
    Some(number as u32)
}

/// The number of 64 bits behind the key.
fn ticks_behind(key: &[u8], bytes: &[u8]) -> Option<u64>
    ensures some { IfSome result (λ n. Spelled key.now bytes.now (2 ^ 64) n) }
    ensures none { IfNone result (SpelledNone key.now bytes.now (2 ^ 64)) }
{
    let digits = behind(key, bytes)?;
    read_u64(digits)
}

/// The value behind a name and a space.
fn value_behind(name: &[u8], bytes: &[u8]) -> Option<i32>
    ensures some { IfSome result (λ z. IsValue name.now bytes.now z) }
    ensures none { IfNone result ((z : ℤ) → IsValue name.now bytes.now z → ⊥) }
{
    let rest = behind(name, bytes)?;
    let digits = behind(b" ", rest)?;
    read_i32(digits)
}

/// The number of the first name that stands in front of a value, and the value.
fn read_named_value(names: &[Name], bytes: &[u8]) -> Option<(u8, i32)>
    ensures some { IfSome result (λ r. NamedIn names.now bytes.now r.0 r.1) }
    ensures none { IfNone result ((k : ℕ) (z : ℤ) → k < 2 ^ 8 → k < length names.now
        → IsValue (name_at names.now k) bytes.now z → ⊥) }
{
    let count = names.len().min(256);
    for place in 0..count {
        if let Some(value) = value_behind(names[place].bytes(), bytes) {
            return Some((place as u8, value));
        }
    }
    None
}

/// The input of this tick with this body.
fn read_sense(tick: u64, body: &[u8], names: &Names) -> Option<Item>
    ensures some { IfSome result (λ i. TellsBody (names_view names.now) tick body.now i) }
    ensures none { IfNone result (NoSense (names_view names.now) body.now) }
{
    let rest = behind(b"sense ", body)?;
    let (sensor, value) = read_named_value(names.sensors.as_slice(), rest)?;
    Some(Item::Sense {
        tick,
        sensor,
        value,
    })
}

/// The output of this tick with this body.
fn read_emit(tick: u64, body: &[u8], names: &Names) -> Option<Item>
    ensures some { IfSome result (λ i. TellsBody (names_view names.now) tick body.now i) }
    ensures none { IfNone result (NoEmit (names_view names.now) body.now) }
{
    let rest = behind(b"emit ", body)?;
    let (port, value) = read_named_value(names.ports.as_slice(), rest)?;
    Some(Item::Emit { tick, port, value })
}

/// The item of this tick with this body that names a statement.
fn read_statement(tick: u64, body: &[u8]) -> Option<Item>
    ensures some { IfSome result (λ i. (names : NameLists) → TellsBody names tick body.now i) }
    ensures none { IfNone result (NoStatement body.now) }
{
    if let Some(stmt) = number_behind(b"use ", body) {
        return Some(Item::Use { tick, stmt });
    }
    if let Some(stmt) = number_behind(b"done ", body) {
        return Some(Item::Done { tick, stmt });
    }
    if let Some(stmt) = number_behind(b"tag ", body) {
        return Some(Item::Tag { tick, stmt });
    }
    if let Some(stmt) = number_behind(b"trap zero ", body) {
        let kind = TrapKind::Zero;
        return Some(Item::Trap { tick, kind, stmt });
    }
    let stmt = number_behind(b"trap index ", body)?;
    let kind = TrapKind::Index;
    Some(Item::Trap { tick, kind, stmt })
}

/// The mark of a region of this tick with this body.
fn read_mark(tick: u64, body: &[u8]) -> Option<Item>
    ensures some { IfSome result (λ i. (names : NameLists) → TellsBody names tick body.now i) }
    ensures none { IfNone result (NoMark body.now) }
{
    if let Some(region) = number_behind(b"enter ", body) {
        return Some(Item::Enter { tick, region });
    }
    if let Some(region) = number_behind(b"commit ", body) {
        return Some(Item::Commit { tick, region });
    }
    let region = number_behind(b"abort ", body)?;
    Some(Item::Abort { tick, region })
}

/// The outage or the end of this tick with this body.
fn read_stop(tick: u64, body: &[u8]) -> Option<Item>
    ensures some { IfSome result (λ i. (names : NameLists) → TellsBody names tick body.now i) }
    ensures none { IfNone result (NoStop body.now) }
{
    if body == b"end".as_slice() {
        return Some(Item::End { tick });
    }
    if body == b"dark".as_slice() {
        return Some(Item::Dark { tick });
    }
    let ticks = ticks_behind(b"off ", body)?;
    Some(Item::Off { tick, ticks })
}

/// The item of this tick with this body.
fn read_body(tick: u64, body: &[u8], names: &Names) -> Option<Item>
    ensures some { IfSome result (λ i. TellsBody (names_view names.now) tick body.now i) }
    ensures none { IfNone result ((i : Item) → place_of i < 2 ^ 8
        → HasBody (names_view names.now) tick body.now i → ⊥) }
{
    if let Some(item) = read_sense(tick, body, names) {
        return Some(item);
    }
    if let Some(item) = read_emit(tick, body, names) {
        return Some(item);
    }
    if let Some(item) = read_statement(tick, body) {
        return Some(item);
    }
    if let Some(item) = read_mark(tick, body) {
        return Some(item);
    }
    read_stop(tick, body)
}

/// The item of which this is the line, without its line feed: of a sensor or port the first of its
/// name. It takes no memory.
pub fn read_item(line: &[u8], names: &Names) -> Option<Item>
    ensures some { IfSome result (λ i. LineTells (names_view names.now) line.now i) }
    ensures none { IfNone result (LineTellsNone (names_view names.now) line.now) }
{
    let parts = split_at_space(line)?;
    let tick = read_u64(parts.0)?;
    read_body(tick, parts.1, names)
}
