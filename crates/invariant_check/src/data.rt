//! What is checked of a system, and what is found.

use cond_text::Expr;
use doc_tree::Row;

/// What no reachable state of a system may be.
#[derive(Drop)]
pub enum Property {
    /// A state whose labels satisfy the expression, whose names are the numbers of labels.
    Never(Expr),
    /// A state that no transition leaves.
    NoDeadlock,
}

/// The state in which a run starts and the transitions that it takes, by their numbers in the system.
#[derive(Drop)]
pub struct Run {
    pub start: u16,
    pub steps: Row<u16>,
}

/// What a check found in all products at once, under a condition.
#[derive(Drop)]
pub struct Finding<C> {
    /// Where the condition holds and no reachable state violates.
    pub supported: C,
    /// Where the condition holds and a reachable state violates.
    pub refuted: C,
    /// The states to which a shortest run to a violation leads, the least of several, and where that is; by state, each holds at some world.
    pub targets: Row<(u16, C)>,
    /// The least world where it is refuted, and the run there.
    pub sample: Option<(Row<bool>, Run)>,
}
