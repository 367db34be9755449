//! What the nodes of a case start with, and how many supports each needs.

ghost use Rattle.std.specs.Prelude.{◌≡◌, ℕ, ◌<◌, IfOk, length, map, slice_index, not, ◌&&◌, if◌then◌else◌};
ghost use Rattle.meaning.specs.Cases as plain;
ghost use Rattle.gsn.specs.View.{kind_of, node_of};
ghost use Rattle.gsn.specs.Marks.{JoinsNodes, IsPlaces, one_for, is_in, is_supporting, total};

use crate::case::{CNode, CRel, NodeKind, RelKind};
use crate::tables::zeros;
use doc_tree::NoMemory;
use std::alloc::Global;

/// Whether nodes of this kind argue by the nodes that support them.
fn argues(kind: NodeKind) -> bool
    ensures { result ≡ plain.argues (kind_of kind) }
{
    match kind {
        NodeKind::Goal | NodeKind::Strategy => true,
        _ => false,
    }
}

/// Whether the node is a solution with this verdict.
fn is_judged(node: &CNode, verdict: bool) -> bool
    ensures { result ≡ plain.is_judged verdict (node_of node.now) }
{
    match node.kind {
        NodeKind::Solution => match node.verdict {
            Some(told) => if verdict { told } else { !told },
            None => false,
        },
        _ => false,
    }
}

/// Which nodes argue.
pub fn arguing(alloc: Global, nodes: &[CNode]) -> Result<Vec<bool>, NoMemory>
    ensures { IfOk result (λ v. v.items ≡ map (λ n. plain.argues (kind_of n.kind)) nodes.now) }
{
    let mut marks = Vec::new(alloc);
    'nodes: for node in nodes {
        marks.push(argues(node.kind))?;
    }
    Ok(marks)
}

/// Which nodes are solutions with this verdict.
pub fn judged(alloc: Global, nodes: &[CNode], verdict: bool) -> Result<Vec<bool>, NoMemory>
    ensures { IfOk result (λ v. v.items ≡ map (λ n. plain.is_judged verdict (node_of n)) nodes.now) }
{
    let mut marks = Vec::new(alloc);
    'nodes: for node in nodes {
        marks.push(is_judged(node, verdict))?;
    }
    Ok(marks)
}

/// The places of the marks.
pub fn places(alloc: Global, marks: &[bool]) -> Result<Vec<usize>, NoMemory>
    ensures { IfOk result (λ v. IsPlaces marks.now (length marks.now) v.items) }
{
    let mut places = Vec::new(alloc);
    'marks: for (k, mark) in marks.iter().enumerate() {
        if *mark {
            places.push(k)?;
        }
    }
    Ok(places)
}

/// A node that argues needs one support.
pub fn one_support(alloc: Global, arguing: &[bool]) -> Result<Vec<usize>, NoMemory>
    ensures { IfOk result (λ v. v.items ≡ map one_for arguing.now) }
{
    let mut needed = Vec::new(alloc);
    'nodes: for argues in arguing {
        needed.push(if *argues { 1 } else { 0 })?;
    }
    Ok(needed)
}

/// Whether the relation is a support of a node that argues and isn't refuted.
fn is_needed(relation: &CRel, arguing: &[bool], refuted: &[bool]) -> bool
    requires source { relation.now.from < length arguing.now }
    requires marks { length refuted.now ≡ length arguing.now }
    ensures { result ≡ (is_supporting relation.now && (is_in arguing.now relation.now.from && not (is_in refuted.now relation.now.from))) }
{
    let source = relation.from as usize;
    match relation.kind {
        RelKind::SupportedBy => arguing[source] && !refuted[source],
        RelKind::InContextOf => false,
    }
}

/// A node that argues and isn't refuted needs all its supports.
pub fn all_supports(
    alloc: Global,
    relations: &[CRel],
    arguing: &[bool],
    refuted: &[bool],
) -> Result<Vec<usize>, NoMemory>
    requires ends { JoinsNodes (length arguing.now) relations.now }
    requires marks { length refuted.now ≡ length arguing.now }
    ensures sized { IfOk result (λ v. length v.items ≡ length arguing.now) }
    ensures needed { IfOk result (λ v. (x : ℕ) → slice_index v.items x
        ≡ (if is_in arguing.now x && not (is_in refuted.now x) then total relations.now x else 0)) }
{
    let mut needed = zeros(alloc, arguing.len())?;
    'relations: for relation in relations {
        if is_needed(relation, arguing, refuted) {
            needed[relation.from as usize] += 1;
        }
    }
    Ok(needed)
}
