//! What tokens are.

/// A token: what it is, and where it stands in its source.
#[derive(Clone, Copy)]
pub struct Token {
    pub kind: Kind,
    /// The place of its first byte.
    pub start: usize,
    /// The place after its last byte.
    pub end: usize,
    /// 1 plus the number of line feeds before it.
    pub line: u32,
}

/// What a token is. A name's bytes are those from its token's start to its end.
#[derive(Clone, Copy)]
pub enum Kind {
    Name,
    Number { value: i32 },
    Word(Word),
    Mark(Mark),
}

/// A word of the language, which is no name.
#[derive(Clone, Copy, PartialEq, Eq)]
pub enum Word {
    Sensor,
    Port,
    /// `nv`
    Nonvolatile,
    /// `fn`
    Function,
    Let,
    /// `mut`
    Mutable,
    If,
    Else,
    For,
    In,
    While,
    Bound,
    Return,
    True,
    False,
    Emit,
    Sense,
    Fresh,
    Consistent,
    /// `i32`
    Int,
    Bool,
    Atomic,
    /// `_`
    Underscore,
}

/// A mark or an operator.
#[derive(Clone, Copy, PartialEq, Eq)]
pub enum Mark {
    /// `(`
    OpenRound,
    /// `)`
    CloseRound,
    /// `{`
    OpenCurly,
    /// `}`
    CloseCurly,
    /// `[`
    OpenSquare,
    /// `]`
    CloseSquare,
    /// `;`
    Semicolon,
    /// `:`
    Colon,
    /// `,`
    Comma,
    /// `->`
    Arrow,
    /// `=`
    Assign,
    /// `==`
    Equal,
    /// `!=`
    NotEqual,
    /// `<`
    Less,
    /// `<=`
    LessEqual,
    /// `>`
    Greater,
    /// `>=`
    GreaterEqual,
    /// `+`
    Plus,
    /// `-`
    Minus,
    /// `*`
    Star,
    /// `/`
    Slash,
    /// `%`
    Percent,
    /// `&&`
    And,
    /// `||`
    Or,
    /// `!`
    Not,
    /// `&`
    Ampersand,
    /// `..`
    Range,
}
