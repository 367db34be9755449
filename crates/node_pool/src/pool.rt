//! The region of nodes with its unique table.

ghost use Rattle.std.specs.Prelude.{◌≡◌, ◌↔◌, ◌+◌, ◌<◌, ◌≤◌, ◌++◌, ◌∷◌, [], length, MatchOption, IfOk, OnErr, IsErr, IsOk, IsTrue};
ghost use Rattle.meaning.specs.Cofactors.{IsThere, Lacks, Agree};
ghost use Rattle.node_pool.specs.Nodes.{triple, top_of, MayStand, IsAbsent};
ghost use Rattle.node_pool.specs.Regions.{IsRegion, IsInner, IsNumberOf, IsNew, IsFull};
ghost use Rattle.node_pool.specs.Functions.{pool_of, function_of, branch, AgreeAtAll};
ghost use Rattle.node_pool.specs.Made.{Makes, Grows};

use crate::chaining::chain_all;
use crate::hash::{first_mask, next_mask, slot};
use crate::memory::{NoMemory, append, empty_with_room, fill_with_zeros};
use crate::node::{Node, NodeNo};
use std::alloc::Global;
use std::marker::Model;

/// The most nodes that a pool may be made for.
pub const MAX_NODES: u32 = 1_048_576;

/// The most variables that a pool may be made for.
pub const MAX_VARS: u16 = 256;

/// The triple is new, and the pool holds as many nodes as its limit.
#[derive(Clone, Copy, PartialEq, Eq, Debug)]
pub struct Full;

/// The nodes of reduced ordered decision diagrams over so many variables, at most `limit` of them.
///
/// `heads` and `next` are the unique table. Each slot has a chain of the nodes whose triples fall there, the latest
/// first: `heads` has its first link and `next` the link after each node. A link is a node's place plus 1, and 0 ends
/// the chain. There are `mask + 1` slots, and eight times as many whenever there are more nodes than slots, within the room for
/// `widest + 1`.
#[derive(Drop)]
pub struct Pool {
    limit: u32,
    vars: u16,
    mask: u32,
    widest: u32,
    nodes: Vec<Node>,
    next: Vec<u32>,
    heads: Vec<u32>,
}

impl Model for Pool {
    ghost use Rattle.node_pool.specs.Regions.{Region};

    ghost Value = { Region };

    ghost use Rattle.node_pool.specs.Pool.{region_of, IsSound};

    ghost view = { region_of };

    ghost invariant = { IsSound };
}

impl Pool {
    /// A pool with no nodes. It takes the memory of all its tables, at most 24 bytes for each node of the limit.
    pub fn new(alloc: Global, limit: u32, vars: u16) -> Result<Pool, NoMemory>
        requires some { 1 ≤ limit }
        requires few { limit ≤ MAX_NODES }
        requires few_vars { vars ≤ MAX_VARS }
        ensures { IfOk result (λ p. p ≡ record { limit = limit; vars = vars; nodes = [] }) }
    {
        let widest = u32::MAX >> limit.leading_zeros();
        let mask = first_mask(widest);
        let nodes = empty_with_room(alloc, limit as usize)?;
        let next = empty_with_room(alloc, limit as usize)?;
        let mut heads = empty_with_room(alloc, widest as usize + 1)?;
        fill_with_zeros(&mut heads, mask as usize + 1);
        Ok(Pool {
            limit,
            vars,
            mask,
            widest,
            nodes,
            next,
            heads,
        })
    }

    /// How many nodes there are.
    pub fn used(&self) -> u32
        ensures value { result ≡ length self.now.nodes }
        ensures region { IsRegion self.now }
    {
        self.nodes.len() as u32
    }

    /// The most nodes that there may be.
    pub fn limit(&self) -> u32
        ensures { result ≡ self.now.limit }
    {
        self.limit
    }

    /// How many variables there are.
    pub fn vars(&self) -> u16
        ensures { result ≡ self.now.vars }
    {
        self.vars
    }

    /// The variable, the low child and the high child of a node.
    pub fn triple(&self, number: NodeNo) -> (u16, NodeNo, NodeNo)
        requires { IsInner self.now number }
        ensures { IsNumberOf self.now number (triple result.0 result.1 result.2) }
    {
        let node = self.nodes[number.0 as usize - 2];
        (node.var, node.low, node.high)
    }

    /// The variable at which the number branches. The constants branch after all variables: theirs is `vars`.
    #[tactic(auto, unfolding(crate::specs::Nodes::top_of))]
    pub fn top(&self, number: NodeNo) -> u16
        requires { IsThere (pool_of self.now) number.0 }
        ensures { result ≡ top_of self.now.vars self.now.nodes number.0 }
    {
        if number.0 < 2 {
            self.vars
        } else {
            self.triple(number).0
        }
    }

    /// The number of the triple, where it is there.
    fn find(&self, node: Node) -> Option<NodeNo>
        ensures { MatchOption result
            (IsAbsent self.now.nodes node)
            (λ number. IsNumberOf self.now number node) }
    {
        let mut link = self.heads[slot(self.mask, node)];
        while link != 0 {
            let place = link as usize - 1;
            if self.nodes[place] == node {
                return Some(NodeNo(link + 1));
            }
            link = self.next[place];
        }
        None
    }

    /// Chains all nodes anew in more slots.
    fn widen(&mut self)
        ensures same { self.new ≡ self.old }
    {
        let wider = next_mask(self.mask, self.widest);
        self.heads.clear();
        fill_with_zeros(&mut self.heads, wider as usize + 1);
        self.next.clear();
        chain_all(&self.nodes, wider, &mut self.heads, &mut self.next);
        self.mask = wider;
    }

    /// Puts a new node at the head of its slot's chain.
    fn link(&mut self, node: Node)
        requires room { length self.old.nodes < self.old.limit }
        requires stands { MayStand self.old.vars self.old.nodes node (length self.old.nodes) }
        requires absent { IsAbsent self.old.nodes node }
        ensures { self.new ≡ record self.old { nodes = self.old.nodes ++ node ∷ [] } }
    {
        let slot = slot(self.mask, node);
        let head = self.heads[slot];
        append(&mut self.next, head);
        append(&mut self.nodes, node);
        self.heads[slot] = self.nodes.len() as u32;
    }

    /// Puts a new node at the head of its slot's chain, in more slots where there are more nodes than slots.
    fn insert(&mut self, node: Node)
        requires room { length self.old.nodes < self.old.limit }
        requires stands { MayStand self.old.vars self.old.nodes node (length self.old.nodes) }
        requires absent { IsAbsent self.old.nodes node }
        ensures { self.new ≡ record self.old { nodes = self.old.nodes ++ node ∷ [] } }
    {
        if self.mask < self.widest && self.nodes.len() > self.mask as usize {
            self.widen();
        }
        self.link(node);
    }

    /// The number of the node with this variable and these children, which is the child itself where both are one.
    pub fn make(&mut self, var: u16, low: NodeNo, high: NodeNo) -> Result<NodeNo, Full>
        requires var { var < self.old.vars }
        requires low { IsThere (pool_of self.old) low.0 }
        requires high { IsThere (pool_of self.old) high.0 }
        requires low_after { var < top_of self.old.vars self.old.nodes low.0 }
        requires high_after { var < top_of self.old.vars self.old.nodes high.0 }

        // Equal children give that child.
        ensures equal { low ≡ high → (result ≡ Ok low) × (self.new ≡ self.old) }
        // A triple that is there gives its number.
        ensures present { (number : NodeNo) → IsNumberOf self.old number (triple var low high)
            → (result ≡ Ok number) × (self.new ≡ self.old) }
        // A new triple takes the next number, and is refused exactly where the pool is full.
        ensures added { IsOk result → IsNew self.old (triple var low high)
            → (result ≡ Ok (record { 0 = length self.old.nodes + 2 }))
            × (self.new ≡ record self.old { nodes = self.old.nodes ++ triple var low high ∷ [] }) }
        ensures full { IsErr result ↔ IsFull self.old (triple var low high) }
        ensures err { OnErr result (self.new ≡ self.old) }

        // What follows for functions.
        ensures ok { IfOk result (Makes self.old self.new (triple var low high)) }
        ensures lacks { OnErr result (Lacks self.old.vars (pool_of self.new)
            (branch var (function_of self.old low.0) (function_of self.old high.0))) }
        ensures grows { Grows self.old self.new }
        ensures region { IsRegion self.new }
    {
        let _invariant = &self.limit;
        if low == high {
            return Ok(low);
        }
        let node = Node { var, low, high };
        if let Some(number) = self.find(node) {
            return Ok(number);
        }
        if self.used() == self.limit() {
            return Err(Full);
        }
        self.insert(node);
        Ok(NodeNo(self.used() + 1))
    }

    /// Whether two numbers have the same function. No diagram is walked: a function has one number.
    pub fn same(&self, left: NodeNo, right: NodeNo) -> bool
        requires left { IsThere (pool_of self.now) left.0 }
        requires right { IsThere (pool_of self.now) right.0 }
        ensures functions { IsTrue result ↔ Agree (function_of self.now left.0) (function_of self.now right.0) }
        ensures worlds { IsTrue result ↔ AgreeAtAll self.now.vars (function_of self.now left.0) (function_of self.now right.0) }
    {
        let _invariant = &self.limit;
        left == right
    }
}
