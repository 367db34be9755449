//! Numbers of nodes, and what a number stands for.

/// The number of a function: 0 is false, 1 is true, and `k + 2` is the node that was made k-th, counted from 0.
#[derive(Clone, Copy, PartialEq, Eq, Debug)]
pub struct NodeNo(pub u32);

/// A node has the function `high` where its variable is true, and else `low`.
#[derive(Clone, Copy, PartialEq, Eq, Debug)]
pub struct Node {
    pub var: u16,
    pub low: NodeNo,
    pub high: NodeNo,
}
