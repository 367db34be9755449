//! Where the unique table looks for a triple.

ghost use Rattle.std.specs.Prelude.{◌≡◌, ◌≤◌};
ghost use Rattle.node_pool.specs.Chains.{slot_of};

use crate::node::Node;

/// The most slots that a new table has, less one.
const FIRST_MASK: u32 = 1023;

/// How many slots a new table has, less one, if it has room for `widest + 1`.
pub fn first_mask(widest: u32) -> u32
    ensures { result ≤ widest }
{
    if widest < FIRST_MASK {
        widest
    } else {
        FIRST_MASK
    }
}

/// How many slots a table of `mask + 1` slots has next, less one: eight times as many, or as many as there is room for.
pub fn next_mask(mask: u32, widest: u32) -> u32
    requires within { mask ≤ widest }
    ensures more { mask ≤ result }
    ensures within { result ≤ widest }
{
    let wider = mask as u64 * 8 + 7;
    if wider < widest as u64 {
        wider as u32
    } else {
        widest
    }
}

/// The triple's slot in a table of `mask + 1` slots: three odd factors mix the parts, and the middle bits are taken.
#[tactic(auto, unfolding(crate::specs::Chains::slot_of))]
pub fn slot(mask: u32, node: Node) -> usize
    ensures value { result ≡ slot_of mask node }
    ensures within { result ≤ mask }
{
    let mixed = node.var as u64 * 1597334677
        + node.low.0 as u64 * 668265263
        + node.high.0 as u64 * 951274213;
    ((mixed >> 15) & mask as u64) as usize
}
