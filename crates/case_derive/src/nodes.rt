//! The nodes that are there at one world.

ghost use Rattle.std.specs.Prelude.{◌≡◌, IfOk, map, not, option_map};
ghost use Rattle.gsn.specs.View.{node_of};
ghost use Rattle.case_derive.specs.AtWorld.{marks_of, node_at, nodes_at};

use crate::texts::{count, text};
use crate::truth::Truth;
use doc_tree::NoMemory;
use gsn::CNode;
use lifted_case::{LFinding, LNode};
use std::alloc::Global;

/// Which nodes are there.
pub fn marks<T: Truth>(
    alloc: Global,
    nodes: &[LNode<T::C>],
    truth: &T,
) -> Result<Vec<bool>, NoMemory>
    ensures { IfOk result (λ v. v.items ≡ marks_of (T.holds truth.now) nodes.now) }
{
    let mut marks = Vec::new(alloc);
    'nodes: for node in nodes {
        marks.push(truth.at(node.when))?;
    }
    Ok(marks)
}

/// What the finding of a solution says: true where it isn't refuted.
fn verdict<T: Truth>(finding: &Option<LFinding<T::C>>, truth: &T) -> Option<bool>
    ensures { result ≡ option_map (λ f. not (T.holds truth.now f.refuted)) finding.now }
{
    match finding {
        Some(finding) => Some(!truth.at(finding.refuted)),
        None => None,
    }
}

fn node<T: Truth>(alloc: Global, node: &LNode<T::C>, truth: &T) -> Result<CNode, NoMemory>
    ensures { IfOk result (λ n. node_of n ≡ node_at (T.holds truth.now) node.now) }
{
    let branches = count(node.branches.list(), truth);
    let text = text(alloc, node.text.list(), branches)?;
    Ok(CNode {
        kind: node.kind,
        text,
        undeveloped: node.undeveloped,
        verdict: verdict(&node.finding, truth),
    })
}

/// The nodes that are there, in their order.
pub fn nodes<T: Truth>(
    alloc: Global,
    nodes: &[LNode<T::C>],
    truth: &T,
) -> Result<Vec<CNode>, NoMemory>
    ensures { IfOk result (λ v. map node_of v.items ≡ nodes_at (T.holds truth.now) nodes.now) }
{
    let mut there = Vec::new(alloc);
    'nodes: for one in nodes {
        if truth.at(one.when) {
            there.push(node(alloc, one, truth)?)?;
        }
    }
    Ok(there)
}
