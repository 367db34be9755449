//! Templates, their nodes, and the pieces of their texts.

use cond_text::Expr;
use doc_tree::{Row, Word};
use gsn::NodeKind;
use path_queries::Query;

/// A template. The first node is the goal that the others support or annotate.
#[derive(Debug, Drop)]
pub struct Template {
    pub name: Word,
    /// The parameters, each with the number of its type.
    pub params: Row<(Word, u16)>,
    pub nodes: Row<TNode>,
}

/// A node of a template. Variables have numbers in the scope at the node: the parameters first, then those of the `each` of the strategies
/// above, outermost first.
#[derive(Debug, Drop)]
pub struct TNode {
    pub id: Word,
    pub kind: TKind,
    /// The earlier node of the template that it stands under.
    pub under: Option<u16>,
    pub text: Row<Piece>,
    /// The query whose answers a strategy ranges over.
    pub each: Option<Query>,
    /// The query without whose answer the node is left out.
    pub guard: Option<Query>,
    /// The check of a solution.
    pub check: Option<Check>,
    /// The variables that a use gives to the parameters.
    pub args: Row<u16>,
    pub undeveloped: bool,
}

/// A node of a kind, or the use of an earlier template by its number.
#[derive(Clone, Copy, PartialEq, Eq, Debug)]
pub enum TKind {
    Node(NodeKind),
    Uses(u16),
}

/// A piece of a text.
#[derive(Debug, Drop)]
pub enum Piece {
    Words(Word),
    /// The name of the element of a variable.
    NameOf(u16),
    /// The value of an attribute, by its number in the type of the variable.
    Attr(u16, u16),
    /// The number of answers of `each`.
    Count,
}

/// What a solution checks: of the system of a variable's element that a state is never reached or that it has no deadlock, or that a query has
/// no answer, or some.
#[derive(Debug, Drop)]
pub enum Check {
    /// No reachable state of the system of this variable satisfies the expression over labels.
    Never(u16, Expr),
    NoDeadlock(u16),
    NoAnswer(Query),
    SomeAnswer(Query),
}
