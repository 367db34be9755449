//! The members that a node has, and those of its finding.

ghost use Rattle.std.specs.Prelude.{◌≡◌, ◌||◌, ◌==◌, [], map, IfOk, IfErr, codes, nat_lt};
ghost use Rattle.std.specs.List.{list_all};
ghost use Rattle.meaning.specs.Cases.{argues, is_solution};
ghost use Rattle.meaning.specs.CaseReading as reading;
ghost use Rattle.meaning.specs.Documents.{member_of, list_at};
ghost use Rattle.gsn.specs.View.{kind_of};
ghost use Rattle.doc_tree.specs.View.{document, documents};
ghost use Rattle.lifted_case.specs.declared.stop.ReadCaseStop.TheVariants.{NoMemory};
ghost use Rattle.lifted_case.specs.ReadFaults.{Finds, size_at, states_at, targets_fit, witnesses_alone, finding_members_fit, finding_of_kind_fits, node_members_fit, finding_faults_in};

use crate::faults::items::{ItemTest, check_items, items_pass};
use crate::members::{natural_at, nth_natural, size_at};
use crate::stop::ReadCaseStop;
use crate::words::{CheckWord, check_named, kind_at};
use doc_tree::{Doc, Part};
use gsn::NodeKind;
use std::alloc::Global;

/// A target whose state is among so many.
#[derive(Drop)]
struct TargetBelow {
    states: usize,
}

impl ItemTest for TargetBelow {
    ghost passes = { λ t d. nat_lt (reading.target_of d).0 t.states };

    fn passes(&self, item: &Doc) -> bool {
        (nth_natural(item, 0).unwrap_or(0) as usize) < self.states
    }
}

/// How many states a system has, and 0 where there is no such system.
fn states_of(states: &[usize], system: usize) -> usize
    ensures { result ≡ states_at states.now system }
{
    states.get(system).copied().unwrap_or(0)
}

/// Whether a finding is about one of the systems, with targets among its states.
fn targets_fit(states: &[usize], finding: &Doc) -> bool
    ensures { result ≡ targets_fit states.now (document finding.now) }
{
    let system = natural_at(finding, "system") as usize;
    finding.has("system")
        && finding.has("targets")
        && !finding.has("witnesses")
        && system < states.len()
        && targets_below(states_of(states, system), finding)
}

fn targets_below(states: usize, finding: &Doc) -> bool
    ensures { result ≡ list_all (λ t. nat_lt (reading.target_of t).0 states) (list_at (codes "targets") (document finding.now)) }
{
    items_pass(&TargetBelow { states }, finding, "targets")
}

/// Whether a finding has witnesses, and no member that only other checks have.
fn witnesses_alone(finding: &Doc) -> bool
    ensures { result ≡ witnesses_alone (document finding.now) }
{
    !finding.has("expr")
        && !finding.has("system")
        && !finding.has("targets")
        && finding.has("witnesses")
}

/// Whether a finding has the members of its check.
fn finding_fits(states: &[usize], finding: &Doc) -> bool
    ensures { result ≡ finding_members_fit states.now (document finding.now) (reading.finding_of (document finding.now)).check }
{
    match check_named(finding.text_at("check")) {
        Some(CheckWord::Never) => finding.has("expr") && targets_fit(states, finding),
        Some(CheckWord::Deadlock) => !finding.has("expr") && targets_fit(states, finding),
        Some(CheckWord::NoAnswer | CheckWord::SomeAnswer) | None => witnesses_alone(finding),
    }
}

/// Whether a solution has a finding with the members of its check, and another node has none.
fn finding_of_kind_fits(states: &[usize], kind: NodeKind, node: &Doc) -> bool
    ensures { result ≡ finding_of_kind_fits states.now (kind_of kind) (member_of (codes "finding") (document node.now)) }
{
    match node.member("finding") {
        Some(finding) => is_solution(kind) && finding_fits(states, finding),
        None => !is_solution(kind),
    }
}

fn is_solution(kind: NodeKind) -> bool
    ensures { result ≡ is_solution (kind_of kind) }
{
    matches!(kind, NodeKind::Solution)
}

fn is_strategy(kind: NodeKind) -> bool
    ensures { result ≡ reading.is_strategy (kind_of kind) }
{
    matches!(kind, NodeKind::Strategy)
}

/// Whether a node of this kind is argued for by others.
fn argues(kind: NodeKind) -> bool
    ensures { result ≡ argues (kind_of kind) }
{
    matches!(kind, NodeKind::Goal | NodeKind::Strategy)
}

/// A node with the members of its kind, over systems with so many states.
#[derive(Drop)]
struct MembersFit<'a> {
    states: &'a [usize],
}

impl ItemTest for MembersFit<'_> {
    ghost passes = { λ t d. node_members_fit t.states.now d };

    fn passes(&self, item: &Doc) -> bool {
        let kind = kind_at(item);
        finding_of_kind_fits(self.states, kind, item)
            && (is_strategy(kind) || size_at(item, "branches") == 0)
            && (argues(kind) || !item.truth_at("undeveloped"))
    }
}

/// How many states each system has.
fn state_counts(alloc: Global, systems: &[Doc]) -> Result<Vec<usize>, ReadCaseStop>
    ensures ok { IfOk result (λ v. v.items ≡ map (size_at (codes "states")) (documents systems.now)) }
    ensures stop { IfErr result (λ stop. stop ≡ NoMemory) }
{
    let mut counts = Vec::new(alloc);
    'systems: for system in systems {
        counts.push(size_at(system, "states"))?;
    }
    Ok(counts)
}

/// Stops at the first node that lacks a member of its kind or its check, or that has one of others.
pub fn check_findings(alloc: Global, doc: &Doc) -> Result<(), ReadCaseStop>
    ensures kept { IfOk result (λ _. finding_faults_in (document doc.now) ≡ []) }
    ensures fault { IfErr result (Finds (finding_faults_in (document doc.now))) }
{
    let states = state_counts(alloc, doc.list_at("systems"))?;
    let states = states.as_slice();
    check_items(10, Part::Nodes, &MembersFit { states }, doc, "nodes")
}
