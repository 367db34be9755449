//! The ends of relations, and the lists of systems.

ghost use Rattle.std.specs.Prelude.{◌≡◌, [], IfOk, IfErr};
ghost use Rattle.doc_tree.specs.View.{document};
ghost use Rattle.lifted_case.specs.ReadFaults.{Finds, ends_below, joins_states, lists_fit, end_faults_in, system_faults_in};

use crate::faults::items::{ItemTest, check_items, items_pass};
use crate::members::{natural_at, nth_natural, size_at};
use crate::stop::ReadCaseStop;
use doc_tree::{Doc, Part};

/// A relation whose ends are among so many nodes.
#[derive(Drop)]
struct EndsBelow {
    nodes: usize,
}

impl ItemTest for EndsBelow {
    ghost passes = { λ t d. ends_below t.nodes d };

    fn passes(&self, item: &Doc) -> bool {
        (natural_at(item, "from") as usize) < self.nodes
            && (natural_at(item, "to") as usize) < self.nodes
    }
}

/// Stops at the first relation with an end that is no node.
pub fn check_ends(doc: &Doc) -> Result<(), ReadCaseStop>
    ensures kept { IfOk result (λ _. end_faults_in (document doc.now) ≡ []) }
    ensures fault { IfErr result (Finds (end_faults_in (document doc.now))) }
{
    let nodes = size_at(doc, "nodes");
    check_items(8, Part::Relations, &EndsBelow { nodes }, doc, "relations")
}

/// A transition whose ends are among so many states.
#[derive(Drop)]
struct JoinsStates {
    states: usize,
}

impl ItemTest for JoinsStates {
    ghost passes = { λ t d. joins_states t.states d };

    fn passes(&self, item: &Doc) -> bool {
        (nth_natural(item, 0).unwrap_or(0) as usize) < self.states
            && (nth_natural(item, 1).unwrap_or(0) as usize) < self.states
    }
}

/// A system with a condition for each state, one for each transition, and transitions between its states.
struct ListsFit;

impl ItemTest for ListsFit {
    ghost passes = { λ _ d. lists_fit d };

    fn passes(&self, item: &Doc) -> bool {
        let states = size_at(item, "states");
        size_at(item, "reached") == states
            && size_at(item, "parents") == size_at(item, "transitions")
            && items_pass(&JoinsStates { states }, item, "transitions")
    }
}

/// Stops at the first system whose lists don't fit.
pub fn check_systems(doc: &Doc) -> Result<(), ReadCaseStop>
    ensures kept { IfOk result (λ _. system_faults_in (document doc.now) ≡ []) }
    ensures fault { IfErr result (Finds (system_faults_in (document doc.now))) }
{
    check_items(9, Part::Systems, &ListsFit, doc, "systems")
}
