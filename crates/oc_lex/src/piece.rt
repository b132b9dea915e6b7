//! The longest piece in front.
ghost use Rattle.std.specs.Prelude.{◌≡◌, ◌∷◌, MatchOption};
ghost use Rattle.oc_lex.specs.Classes.{class_of};
ghost use Rattle.oc_lex.specs.Pieces.{Longest, BeginNoPiece};
ghost use Rattle.oc_lex.specs.declared.bytes.Class.TheVariants.{Other};

use crate::bytes::{Class, byte_class, line_length, name_length, number_length};
use crate::mark::{double, single};
use crate::token::Mark;

/// What a source is made of. A name may be one of the words.
#[derive(Clone, Copy)]
pub enum Piece {
    Blank,
    Comment,
    Name,
    Number,
    Mark(Mark),
}

/// The longest piece in front, and its length.
pub fn front(bytes: &[u8]) -> Option<(Piece, usize)>
    ensures { MatchOption result (BeginNoPiece bytes.now) (λ x. Longest x.0 x.1 bytes.now) }
{
    let [first, rest @ ..] = bytes else {
        return None;
    };
    match byte_class(*first) {
        Class::Blank => Some((Piece::Blank, 1)),
        Class::Letter | Class::Underscore => Some((Piece::Name, 1 + name_length(rest))),
        Class::Digit => Some((Piece::Number, 1 + number_length(rest))),
        Class::Other => comment_or_mark(*first, rest),
    }
}

/// The longest piece in front that begins with this byte, which begins no blank, name or number: a
/// comment or a mark, and its length; none where neither begins there.
fn comment_or_mark(first: u8, rest: &[u8]) -> Option<(Piece, usize)>
    requires { class_of first ≡ Other }
    ensures { MatchOption result (BeginNoPiece (first ∷ rest.now))
        (λ x. Longest x.0 x.1 (first ∷ rest.now)) }
{
    let [second, text @ ..] = rest else {
        return Some((Piece::Mark(single(first)?), 1));
    };
    if first == b'/' && *second == b'/' {
        return Some((Piece::Comment, 2 + line_length(text)));
    }
    match double(first, *second) {
        Some(mark) => Some((Piece::Mark(mark), 2)),
        None => Some((Piece::Mark(single(first)?), 1)),
    }
}
