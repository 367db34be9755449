//! The relations to each node, as chains.

ghost use Rattle.std.specs.Prelude.{◌≡◌, ◌<◌, IfOk, length};
ghost use Rattle.gsn.specs.Incoming.{IsIncoming, targets};
ghost use Rattle.gsn.specs.Marks.{JoinsNodes};

use crate::case::CRel;
use crate::tables::zeros;
use doc_tree::NoMemory;
use std::alloc::Global;

/// The relations to each node, the last one first. A place is one more than a relation's number, and 0 ends a chain: `last` has the place of
/// the last relation to each node, and `before` has for each relation the place of the one before it to the same node.
#[derive(Drop)]
pub struct Incoming {
    pub last: Vec<usize>,
    pub before: Vec<usize>,
}

pub fn chains(alloc: Global, nodes: usize, relations: &[CRel]) -> Result<Incoming, NoMemory>
    requires { JoinsNodes nodes relations.now }
    ensures { IfOk result (λ t. IsIncoming nodes (targets relations.now) (length relations.now) t.last.items t.before.items) }
{
    let mut last = zeros(alloc, nodes)?;
    let mut before = Vec::new(alloc);
    'relations: for (k, relation) in relations.iter().enumerate() {
        let target = relation.to as usize;
        before.push(last[target])?;
        last[target] = k + 1;
    }
    Ok(Incoming { last, before })
}
