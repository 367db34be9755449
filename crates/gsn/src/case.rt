//! The data of a plain case.

use doc_tree::{Row, Word};

/// The kinds of nodes of the Goal Structuring Notation.
#[derive(Clone, Copy, PartialEq, Eq, Debug)]
pub enum NodeKind {
    Goal,
    Strategy,
    Solution,
    Context,
    Assumption,
    Justification,
}

/// The kinds of relations of the Goal Structuring Notation.
#[derive(Clone, Copy, PartialEq, Eq, Debug)]
pub enum RelKind {
    SupportedBy,
    InContextOf,
}

/// A node. A solution's verdict is true where its evidence supports it, false where it refutes it, and none where it is open; the verdict of
/// any other node counts for nothing.
#[derive(Drop)]
pub struct CNode {
    pub kind: NodeKind,
    pub text: Word,
    pub undeveloped: bool,
    pub verdict: Option<bool>,
}

/// A relation between two nodes, which are named by their places in the case: `from` is supported by `to`, or is in the context of it.
#[derive(Clone, Copy, Debug)]
pub struct CRel {
    pub from: u32,
    pub to: u32,
    pub kind: RelKind,
}

/// An assurance case for one product.
#[derive(Drop)]
pub struct Case {
    pub nodes: Row<CNode>,
    pub relations: Row<CRel>,
}
