//! Tokens of queries.

use doc_tree::{Row, Word};

/// A token, or what starts none.
#[derive(Debug, Drop)]
pub enum Token {
    /// The longest run of letters, digits and `_` that begins with a letter.
    Word(Word),
    /// The text between two quotes.
    Quoted(Word),
    Colon,
    Comma,
    OpenBracket,
    CloseBracket,
    OpenParen,
    CloseParen,
    Dot,
    Equals,
    /// The sign `!=`.
    Differs,
    Bar,
    Slash,
    Plus,
    Caret,
    /// It starts no token.
    Stray,
}

/// A token at a byte of a text.
#[derive(Debug, Drop)]
pub struct Placed {
    pub place: usize,
    pub token: Token,
}

/// The tokens of a text, and the length of the text.
#[derive(Debug, Drop)]
pub struct Tokens {
    pub list: Row<Placed>,
    pub end: usize,
}
