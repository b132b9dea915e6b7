//! Words, which have the form of names.
ghost use Rattle.std.specs.Prelude.{◌≡◌, find, MatchOption};
ghost use Rattle.std.specs.Str.{bytes_eq};
ghost use Rattle.oc_lex.specs.Spellings.{word_spelling, words_like, SpellsNoWord};

use crate::token::Word;

/// The words that begin as a text does.
#[tactic(auto, unfolding(crate::specs::Spellings::words_like))]
fn words_like(text: &[u8]) -> &'static [Word]
    ensures { result.now ≡ words_like text.now }
{
    let [first, ..] = text else {
        return &[];
    };
    match *first {
        b's' => &[Word::Sensor, Word::Sense],
        b'p' => &[Word::Port],
        b'n' => &[Word::Nonvolatile],
        b'f' => &[Word::Function, Word::For, Word::False],
        b'l' => &[Word::Let],
        b'm' => &[Word::Mutable],
        b'i' => &[Word::If, Word::In, Word::Int],
        b'e' => &[Word::Else, Word::Emit],
        b'w' => &[Word::While],
        b'b' => &[Word::Bound, Word::Bool],
        b'r' => &[Word::Return],
        b't' => &[Word::True],
        b'F' => &[Word::Fresh],
        b'C' => &[Word::Consistent],
        b'a' => &[Word::Atomic],
        b'_' => &[Word::Underscore],
        _ => &[],
    }
}

/// How a word of the language is spelled.
fn spelling(word: Word) -> &'static [u8]
    ensures { result.now ≡ word_spelling word }
{
    match word {
        Word::Sensor => b"sensor",
        Word::Port => b"port",
        Word::Nonvolatile => b"nv",
        Word::Function => b"fn",
        Word::Let => b"let",
        Word::Mutable => b"mut",
        Word::If => b"if",
        Word::Else => b"else",
        Word::For => b"for",
        Word::In => b"in",
        Word::While => b"while",
        Word::Bound => b"bound",
        Word::Return => b"return",
        Word::True => b"true",
        Word::False => b"false",
        Word::Emit => b"emit",
        Word::Sense => b"sense",
        Word::Fresh => b"Fresh",
        Word::Consistent => b"Consistent",
        Word::Int => b"i32",
        Word::Bool => b"bool",
        Word::Atomic => b"atomic",
        Word::Underscore => b"_",
    }
}

/// The first of these words that is spelled so.
fn find_among(words: &[Word], text: &[u8]) -> Option<Word>
    ensures { result ≡ find (λ w. bytes_eq (word_spelling w) text.now) words.now }
{
    words.iter().copied().find(|word| spelling(*word) == text)
}

/// The word that a text spells.
pub fn word_of(text: &[u8]) -> Option<Word>
    ensures { MatchOption result (SpellsNoWord text.now) (λ w. word_spelling w ≡ text.now) }
{
    find_among(words_like(text), text)
}
