//! The tokens of expressions.

/// A token. A word that is a name of the list stands for its number.
#[derive(Clone, Copy, Debug)]
pub enum Token {
    True,
    False,
    Name(u16),
    Not,
    And,
    Or,
    Implies,
    Same,
    Open,
    Close,
    /// What stands behind the last token.
    End,
}
