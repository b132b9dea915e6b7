//! Marks in front.
ghost use Rattle.std.specs.Prelude.{◌≡◌, [], ◌∷◌, MatchOption};
ghost use Rattle.oc_lex.specs.Spellings.{mark_spelling, SpellsNoMark};

use crate::token::Mark;

/// The mark of two bytes.
pub fn double(first: u8, second: u8) -> Option<Mark>
    ensures { MatchOption result (SpellsNoMark (first ∷ second ∷ []))
        (λ m. mark_spelling m ≡ first ∷ second ∷ []) }
{
    match (first, second) {
        (b'-', b'>') => Some(Mark::Arrow),
        (b'=', b'=') => Some(Mark::Equal),
        (b'!', b'=') => Some(Mark::NotEqual),
        (b'<', b'=') => Some(Mark::LessEqual),
        (b'>', b'=') => Some(Mark::GreaterEqual),
        (b'&', b'&') => Some(Mark::And),
        (b'|', b'|') => Some(Mark::Or),
        (b'.', b'.') => Some(Mark::Range),
        _ => None,
    }
}

/// The mark of one byte.
#[inline(always)]
pub fn single(first: u8) -> Option<Mark>
    ensures { MatchOption result (SpellsNoMark (first ∷ [])) (λ m. mark_spelling m ≡ first ∷ []) }
{
    match first {
        b'(' => Some(Mark::OpenRound),
        b')' => Some(Mark::CloseRound),
        b'{' => Some(Mark::OpenCurly),
        b'}' => Some(Mark::CloseCurly),
        b'[' => Some(Mark::OpenSquare),
        b']' => Some(Mark::CloseSquare),
        b';' => Some(Mark::Semicolon),
        b':' => Some(Mark::Colon),
        b',' => Some(Mark::Comma),
        b'=' => Some(Mark::Assign),
        b'<' => Some(Mark::Less),
        b'>' => Some(Mark::Greater),
        b'+' => Some(Mark::Plus),
        b'-' => Some(Mark::Minus),
        b'*' => Some(Mark::Star),
        b'/' => Some(Mark::Slash),
        b'%' => Some(Mark::Percent),
        b'!' => Some(Mark::Not),
        b'&' => Some(Mark::Ampersand),
        _ => None,
    }
}
