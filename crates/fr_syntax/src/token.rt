//! The tokens of a line.

/// A byte that is a token by itself.
#[derive(Clone, Copy, Debug)]
pub enum Mark {
    LeftParen,
    RightParen,
    LeftBracket,
    RightBracket,
    Comma,
    Star,
    Caret,
    Minus,
    At,
    Equals,
    Less,
    Greater,
    /// It stands in no line of the grammar.
    Other(u8),
}

/// A token of a line.
#[derive(Clone, Copy, Debug)]
pub enum Token<'a> {
    /// A letter followed by letters, digits and `_`.
    Name(&'a [u8]),
    /// A run of digits.
    Number(&'a [u8]),
    /// Any other byte.
    Mark(Mark),
}

/// A token, the place of its first byte and the place after its last, counted from 1.
#[derive(Clone, Copy, Debug)]
pub struct Placed<'a> {
    pub token: Token<'a>,
    pub place: usize,
    pub after: usize,
}
