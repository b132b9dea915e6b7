//! From bytes to tokens.
ghost use Rattle.std.specs.Prelude.{◌≡◌, ◌+◌, ◌≤◌, ◌<◌, ◌⊎◌, ◌++◌, List, Err, Ok, length, take, drop, IfOk, IfErr, MatchResult, OnOk, MatchBool, All, ◌^◌};
ghost use Rattle.oc_lex.specs.Limits.{source_limit};
ghost use Rattle.oc_lex.specs.Stands.{InOrder, StandsIn};
ghost use Rattle.oc_lex.specs.Tokens.{AreTokens, HasFault, BeginsWithLetter, Reads, feeds_of, tokens_of};
ghost use Rattle.oc_lex.specs.declared.token.Token.{Token as SomeToken};
ghost use Rattle.oc_lex.specs.declared.lexer.LexError.{LexError as SomeError};
ghost use Rattle.oc_lex.specs.declared.lexer.LexError.TheVariants.{Memory};
ghost use Rattle.oc_lex.specs.declared.piece.Piece.TheVariants.{Number};

use crate::bytes::is_letter;
use crate::literal::value;
use crate::piece::{Piece, front};
use crate::token::{Kind, Token};
use crate::word::word_of;
use std::alloc::{AllocFailed, Global};
use thiserror::Error;

/// Why a source has no tokens: its first fault from the left, at the place of a byte.
#[derive(Clone, Copy, Debug, Error)]
pub enum LexError {
    /// No token begins with this byte.
    #[error("no token begins with the byte at {at}")]
    Byte { at: usize },
    /// The number that begins here is above 2147483647, or a letter follows it directly.
    #[error("the number at {at} is too great or runs into a letter")]
    Literal { at: usize },
    #[error("out of memory")]
    Memory,
}

impl<T: Drop> From<AllocFailed<T>> for LexError {
    ghost from_gives = { λ _ e. e ≡ Memory };

    fn from(_failed: AllocFailed<T>) -> LexError {
        LexError::Memory
    }
}

/// The tokens of a source of at most 1 MiB, or its first fault from the left.
pub fn lex(alloc: Global, source: &[u8]) -> Result<Vec<Token>, LexError>
    requires { length source.now ≤ source_limit }
    // What comes with Ok are the tokens of the source.
    ensures found { IfOk result (λ tokens. AreTokens source.now tokens.items) }
    // Each of them stands in the source, they follow each other, and they are no more than its
    // bytes.
    ensures stand { IfOk result (λ tokens. All (StandsIn source.now) tokens.items) }
    ensures order { IfOk result (λ tokens. InOrder 0 tokens.items (length source.now)) }
    ensures count { IfOk result (λ tokens. length tokens.items ≤ length source.now) }
    // Where the source has tokens, they come, unless memory runs out.
    ensures only { (ts : List SomeToken) → AreTokens source.now ts
        → MatchResult result (λ tokens. tokens.items ≡ ts) (λ e. e ≡ LexError.Memory) }
    // What comes with Err is the first fault of the source, or want of memory.
    ensures fault { IfErr result (λ e. (e ≡ LexError.Memory) ⊎ HasFault source.now e) }
    // Where the source has a fault, it comes, unless memory runs out.
    ensures first { (f : SomeError) → HasFault source.now f
        → (result ≡ Err f) ⊎ (result ≡ Err LexError.Memory) }
{
    read_all(alloc, source)
}

/// The tokens of a source, or its first fault from the left, or want of memory.
fn read_all(alloc: Global, source: &[u8]) -> Result<Vec<Token>, LexError>
    requires { length source.now ≤ source_limit }
    ensures { MatchResult result (λ tokens. AreTokens source.now tokens.items)
        (λ e. (e ≡ LexError.Memory) ⊎ HasFault source.now e) }
{
    let mut tokens = Vec::new(alloc);
    let mut at = 0;
    let mut line = 1;
    while at < source.len() {
        let rest = &source[at..];
        let Some((piece, count)) = front(rest) else {
            return Err(LexError::Byte { at });
        };
        let end = at + count;
        let kind = kind_of(piece, rest, count, at)?;
        add(&mut tokens, kind, at, end, line)?;
        line = line_after(line, source[at]);
        at = end;
    }
    Ok(tokens)
}

/// The kind of token that the piece of so many bytes in front is, or None for a blank or a comment.
fn kind_of(piece: Piece, bytes: &[u8], count: usize, at: usize) -> Result<Option<Kind>, LexError>
    requires { count ≤ length bytes.now }
    ensures { Reads piece (take count bytes.now) (drop count bytes.now) at result }
{
    match piece {
        Piece::Blank | Piece::Comment => Ok(None),
        Piece::Name => Ok(Some(word_of(&bytes[..count]).map_or(Kind::Name, Kind::Word))),
        Piece::Mark(mark) => Ok(Some(Kind::Mark(mark))),
        Piece::Number => number(&bytes[..count], &bytes[count..], at),
    }
}

/// The token that a number is, where what follows is no letter.
fn number(text: &[u8], after: &[u8], at: usize) -> Result<Option<Kind>, LexError>
    ensures { Reads Number text.now after.now at result }
{
    match value(text) {
        Some(value) if !begins_with_letter(after) => Ok(Some(Kind::Number { value })),
        _ => Err(LexError::Literal { at }),
    }
}

/// Whether the first byte is an ASCII letter; not so where there is none.
fn begins_with_letter(bytes: &[u8]) -> bool
    ensures { MatchBool result (BeginsWithLetter bytes.now) (¬ BeginsWithLetter bytes.now) }
{
    match bytes {
        [] => false,
        [first, ..] => is_letter(*first),
    }
}

/// Adds the token of this kind between two places, if there is a kind. Err is want of memory.
fn add(
    tokens: &mut Vec<Token>,
    kind: Option<Kind>,
    start: usize,
    end: usize,
    line: u32,
) -> Result<(), LexError>
    ensures added { OnOk result
        (tokens.new.items ≡ tokens.old.items ++ tokens_of kind start end line) }
    ensures refused { IfErr result (λ e. e ≡ LexError.Memory) }
{
    if let Some(kind) = kind {
        tokens.push(Token {
            kind,
            start,
            end,
            line,
        })?;
    }
    Ok(())
}

/// The line after a byte in this line.
fn line_after(line: u32, byte: u8) -> u32
    requires { line + 1 < 2 ^ 32 }
    ensures { result ≡ line + feeds_of byte }
{
    if byte == b'\n' { line + 1 } else { line }
}
