//! The chains of the unique table, made anew.

ghost use Rattle.std.specs.Prelude.{◌≡◌, ◌+◌, ◌<◌, ◌≤◌, ◌^◌, [], length, replicate, vec_capacity};
ghost use Rattle.node_pool.specs.Chains.{HasChains};

use crate::hash::slot;
use crate::memory::append;
use crate::node::Node;

/// Puts each node at the head of its slot's chain, in order.
pub fn chain_all(nodes: &[Node], mask: u32, heads: &mut Vec<u32>, next: &mut Vec<u32>)
    requires few { length nodes.now ≤ 1048576 }
    requires heads { heads.old.items ≡ replicate (mask + 1) 0 }
    requires next { next.old.items ≡ [] }
    requires room { length nodes.now ≤ vec_capacity next.old }
    ensures chains { HasChains mask nodes.now heads.new.items next.new.items }
    ensures all_slots { length heads.new.items ≡ mask + 1 }
    ensures same_length { length next.new.items ≡ length nodes.now }
    ensures heads_room { vec_capacity heads.old ≤ vec_capacity heads.new }
    ensures next_room { vec_capacity next.old ≤ vec_capacity next.new }
{
    for node in nodes {
        let slot = slot(mask, *node);
        append(next, heads[slot]);
        heads[slot] = next.len() as u32;
    }
}
