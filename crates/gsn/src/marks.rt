//! The least set of nodes that has what it starts with, and each node with as many supports in the set as the node needs.

ghost use Rattle.std.specs.Prelude.{◌≡◌, ◌<◌, IfOk, length, vec_len};
ghost use Rattle.gsn.specs.Incoming.{IsIncoming, targets};
ghost use Rattle.gsn.specs.Marks.{JoinsNodes, AllBelow, IsLeastClosed};

use crate::case::CRel;
use crate::credit::credit_all;
use crate::incoming::Incoming;
use crate::tables::no_marks;
use doc_tree::NoMemory;
use std::alloc::Global;

/// The marks of the least set with the nodes of `start`, and each node that has at least as many SupportedBy relations into the set as `needed`
/// says, where that is not 0. Each node is taken from a stack once, and each relation once with its target, so the time is linear.
pub fn least_marks(
    alloc: Global,
    relations: &[CRel],
    incoming: &Incoming,
    needed: Vec<usize>,
    start: Vec<usize>,
) -> Result<Vec<bool>, NoMemory>
    requires ends { JoinsNodes (vec_len needed) relations.now }
    requires start { AllBelow (vec_len needed) start.items }
    requires incoming { IsIncoming (vec_len needed) (targets relations.now) (length relations.now) incoming.now.last.items incoming.now.before.items }
    ensures { IfOk result (λ marked. IsLeastClosed relations.now needed.items start.items marked.items) }
{
    let mut marked = no_marks(alloc, needed.len())?;
    let mut missing = needed;
    let mut pending = start;
    'pending: while let Some(node) = pending.pop() {
        if !marked[node] {
            marked[node] = true;
            credit_all(node, relations, incoming, &mut missing, &mut pending)?;
        }
    }
    Ok(marked)
}
