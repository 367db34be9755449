//! Queries, paths, and the rows of their answers.

use doc_tree::{Row, Word};

/// Where a walk leads, by the numbers of link kinds.
#[derive(Debug, Drop)]
pub enum Path {
    /// One link of the kind.
    Link(u16),
    /// One link of the kind, from its target to its source.
    Back(u16),
    /// A walk of the first and then one of the second.
    Then(Box<Path>, Box<Path>),
    /// A walk of the first or one of the second.
    Either(Box<Path>, Box<Path>),
    /// One or more walks after one another.
    Chain(Box<Path>),
}

/// What the elements of an answer must meet. Variables have numbers: those in scope come first, then the new ones.
#[derive(Debug, Drop)]
pub enum Constraint {
    /// There is a walk along the path, or there is none where it is negated.
    Walk {
        from: u16,
        path: Path,
        to: u16,
        negated: bool,
    },
    /// The value of the attribute, by its number in the type of the variable, equals the text, or differs from it.
    Attr {
        var: u16,
        attr: u16,
        text: Word,
        equal: bool,
    },
}

/// A query: the types of its new variables, and its constraints.
#[derive(Debug, Drop)]
pub struct Query {
    pub vars: Row<u16>,
    pub constraints: Row<Constraint>,
}

/// The tuples that answer somewhere, in lexicographic order of element numbers, each with the condition that it answers.
#[derive(Drop)]
pub struct AnswerRows<C> {
    pub tuples: Row<(Row<u16>, C)>,
}
