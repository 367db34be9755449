//! The data of a case for all products of a line.

use cond_text::Names;
use conditions::Table;
use doc_tree::{Part, Row, Word};
use gsn::{NodeKind, RelKind};

/// A case whose nodes carry the conditions under which they are there. A condition has the type `C`.
#[derive(Drop)]
pub struct Lifted<C> {
    pub title: Word,
    pub features: Names,
    /// Holds at the valid worlds.
    pub valid: C,
    pub nodes: Row<LNode<C>>,
    pub relations: Row<LRel<C>>,
    pub systems: Row<LSystem<C>>,
}

/// A node, there where `when` holds. A strategy has a condition for each of its branches, and a solution a finding.
#[derive(Drop)]
pub struct LNode<C> {
    pub key: Word,
    pub kind: NodeKind,
    pub text: Row<LPart>,
    pub when: C,
    pub undeveloped: bool,
    pub branches: Row<C>,
    pub finding: Option<LFinding<C>>,
}

/// A piece of a node's text: words, or the number of its branches that are there.
#[derive(Drop)]
pub enum LPart {
    Words(Word),
    Count,
}

/// A relation of node `from` to node `to`, two places among the nodes, there where `when` holds.
#[derive(Drop)]
pub struct LRel<C> {
    pub from: u32,
    pub to: u32,
    pub kind: RelKind,
    pub when: C,
}

/// A featured transition system (Classen et al.) as its exploration left it: where each state is reached, and where each transition
/// `(from, to, action)` is the one by which its target is first reached.
#[derive(Drop)]
pub struct LSystem<C> {
    pub element: Word,
    pub states: Row<Word>,
    pub reached: Row<C>,
    pub transitions: Row<(u16, u16, Word)>,
    pub parents: Row<C>,
}

/// What a check found: where it is refuted, and by which states or answers.
#[derive(Drop)]
pub struct LFinding<C> {
    pub check: LCheck,
    pub refuted: C,
    pub targets: Row<(u16, C)>,
    pub witnesses: Row<(Row<Word>, C)>,
}

/// A check. The number of a system is its place among those of the case, and the text is an expression over labels.
#[derive(Drop)]
pub enum LCheck {
    Never(u16, Word),
    NoDeadlock(u16),
    NoAnswer,
    SomeAnswer,
}

/// A case as a file holds it: each condition is the identifier of a row of its table, or 0 for false or 1 for true.
#[derive(Drop)]
pub struct ReadCase {
    pub lifted: Lifted<u32>,
    pub table: Table,
}

/// A broken rule of a case file, with its place: the item of the part, and the item inside that. A place that doesn't apply is 0.
#[derive(Clone, Copy, Debug, PartialEq, Eq)]
pub struct CaseFault {
    pub fault: u8,
    pub part: Part,
    pub item: u32,
    pub sub: u32,
}
