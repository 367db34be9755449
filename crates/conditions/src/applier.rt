//! Questions answered by recursion, with a table of kept results.

ghost use Rattle.std.specs.Prelude.{◌≡◌, ◌+◌, ◌<◌, ◌≤◌, ◌++◌, [], length, replicate, vec_capacity, MatchOption, IfSome, IfOk};
ghost use Rattle.node_pool.specs.Nodes.{triple, top_of, value};
ghost use Rattle.node_pool.specs.Regions.{IsRegion, IsInner, IsNumberOf};
ghost use Rattle.node_pool.specs.Functions.{world_of};
ghost use Rattle.conditions.specs.Questions.{first_of, IsAsked, IsNumberSplit};
ghost use Rattle.conditions.specs.Answers.{IsAnswer, Answers, IsHalved, Joins};
ghost use Rattle.conditions.specs.Applier.{no_kept, EachFrom};

use crate::question::{FALSE, Question, TRUE, split};
use node_pool::{
    Full, MAX_NODES, MAX_VARS, NoMemory, NodeNo, Pool, append, empty_with_room, first_mask,
    next_mask,
};
use std::alloc::Global;
use std::marker::Model;

/// A result that was computed before.
#[derive(Clone, Copy)]
struct Kept {
    question: Question,
    answer: NodeNo,
}

/// A pool of nodes with a table of kept results. It has `mask + 1` slots, and eight times as many whenever there are fewer than four for
/// each node, up to a slot or two for each node of the limit. A kept result may be overwritten by another one of the same slot.
#[derive(Drop)]
pub struct Applier {
    pool: Pool,
    mask: u32,
    widest: u32,
    kept: Vec<Kept>,
}

impl Model for Applier {
    ghost use Rattle.node_pool.specs.Regions.{Region};

    ghost Value = { Region };

    ghost use Rattle.conditions.specs.Applier.{region_of, IsSound};

    ghost view = { region_of };

    ghost invariant = { IsSound };
}

/// The slot of a question in a table of `mask + 1` slots.
fn kept_slot(mask: u32, question: Question) -> usize
    ensures { result ≤ mask }
{
    let (kind, left, right) = match question {
        Question::Number(number) => (0, number, number),
        Question::Both(left, right) => (1, left, right),
        Question::Either(left, right) => (2, left, right),
        Question::Without(left, right) => (3, left, right),
        Question::Pick { var, low, high } => (4 + var as u64, low, high),
    };
    let mixed = left.0 as u64 * 668265263 + right.0 as u64 * 951274213 + kind * 1597334677;
    ((mixed >> 13) & mask as u64) as usize
}

/// The result that an unused slot has, which is true of any pool.
fn blank() -> Kept
    ensures { result ≡ no_kept }
{
    Kept {
        question: Question::Number(FALSE),
        answer: FALSE,
    }
}

/// Appends so many unused slots within the capacity.
fn add_blanks(kept: &mut Vec<Kept>, count: usize)
    requires room { length kept.old.items + count ≤ vec_capacity kept.old }
    ensures items { kept.new.items ≡ kept.old.items ++ replicate count no_kept }
    ensures capacity { vec_capacity kept.old ≤ vec_capacity kept.new }
{
    for _ in 0..count {
        append(kept, blank());
    }
}

/// Copies each of the first results to its slot among `mask + 1`.
fn spread(kept: &mut Vec<Kept>, count: usize, mask: u32)
    requires slots { length kept.old.items ≡ mask + 1 }
    requires count { count ≤ length kept.old.items }
    ensures slots { length kept.new.items ≡ length kept.old.items }
    ensures from { EachFrom kept.old.items kept.new.items }
    ensures capacity { vec_capacity kept.new ≡ vec_capacity kept.old }
{
    for slot in 0..count {
        let result = kept[slot];
        kept[kept_slot(mask, result.question)] = result;
    }
}

impl Applier {
    /// No nodes yet. All memory is taken here.
    pub fn new(alloc: Global, limit: u32, vars: u16) -> Result<Applier, NoMemory>
        requires some { 1 ≤ limit }
        requires few { limit ≤ MAX_NODES }
        requires few_vars { vars ≤ MAX_VARS }
        ensures { IfOk result (λ a. a ≡ record { limit = limit; vars = vars; nodes = [] }) }
    {
        let pool = Pool::new(alloc, limit, vars)?;
        let _used = pool.used();
        let widest = u32::MAX >> limit.leading_zeros();
        let mask = first_mask(widest);
        let mut kept = empty_with_room(alloc, widest as usize + 1)?;
        add_blanks(&mut kept, mask as usize + 1);
        Ok(Applier {
            pool,
            mask,
            widest,
            kept,
        })
    }

    /// How many nodes there are.
    pub fn used(&self) -> u32
        ensures value { result ≡ length self.now.nodes }
        ensures region { IsRegion self.now }
    {
        let _invariant = &self.kept;
        self.pool.used()
    }

    /// The most nodes that there may be.
    pub fn limit(&self) -> u32
        ensures { result ≡ self.now.limit }
    {
        self.pool.limit()
    }

    /// How many variables there are.
    pub fn vars(&self) -> u16
        ensures { result ≡ self.now.vars }
    {
        self.pool.vars()
    }

    /// The variable, the low child and the high child of a node.
    pub fn triple(&self, number: NodeNo) -> (u16, NodeNo, NodeNo)
        requires { IsInner self.now number }
        ensures { IsNumberOf self.now number (triple result.0 result.1 result.2) }
    {
        self.pool.triple(number)
    }

    /// The number's function where the variable is false and where it is true.
    pub fn split(&self, number: NodeNo, var: u16) -> (NodeNo, NodeNo)
        requires there { number.0 < length self.now.nodes + 2 }
        requires var { var < self.now.vars }
        requires not_after { var ≤ top_of self.now.vars self.now.nodes number.0 }
        ensures { IsNumberSplit self.now.vars self.now.nodes number.0 var result.0.0 result.1.0 }
    {
        split(&self.pool, number, var)
    }

    /// The truth of the number's function at a world.
    pub fn at(&self, number: NodeNo, world: &[bool]) -> bool
        requires there { number.0 < length self.now.nodes + 2 }
        requires places { length world.now ≡ self.now.vars }
        ensures { result ≡ value self.now.nodes number.0 (world_of world.now) }
    {
        let mut number = number;
        while number.0 >= 2 {
            let (var, low, high) = self.pool.triple(number);
            number = if world[usize::from(var)] { high } else { low };
        }
        number == TRUE
    }

    fn look_up(&self, question: Question) -> Option<NodeNo>
        ensures { IfSome result (IsAnswer self.now question) }
    {
        let kept = self.kept[kept_slot(self.mask, question)];
        if kept.question == question {
            Some(kept.answer)
        } else {
            None
        }
    }

    /// More slots, with the kept results in theirs.
    fn widen(&mut self)
        ensures { self.new ≡ self.old }
    {
        let slots = self.kept.len();
        let wider = next_mask(self.mask, self.widest);
        add_blanks(&mut self.kept, (wider - self.mask) as usize);
        spread(&mut self.kept, slots, wider);
        self.mask = wider;
    }

    /// Writes a result into its slot.
    fn set(&mut self, question: Question, answer: NodeNo)
        requires { IsAnswer self.old question answer }
        ensures { self.new ≡ self.old }
    {
        let slot = kept_slot(self.mask, question);
        self.kept[slot] = Kept { question, answer };
    }

    /// Keeps a result, in more slots where there are fewer than four for each node.
    fn keep(&mut self, question: Question, answer: NodeNo)
        requires { IsAnswer self.old question answer }
        ensures { self.new ≡ self.old }
    {
        if self.mask < self.widest && self.pool.used() > self.mask / 4 {
            self.widen();
        }
        self.set(question, answer);
    }

    /// The answer where no node has to be made. Else the first variable is one of the pool's.
    fn known(&self, question: Question) -> Option<NodeNo>
        requires { IsAsked self.now.vars self.now.nodes question }
        ensures { MatchOption result
            (first_of self.now.vars self.now.nodes question < self.now.vars)
            (IsAnswer self.now question) }
    {
        let _invariant = &self.pool;
        match question.at_once() {
            Some(answer) => Some(answer),
            None => self.look_up(question),
        }
    }

    /// Answers a question whose two halves are answered.
    fn join(
        &mut self,
        question: Question,
        var: u16,
        low: NodeNo,
        high: NodeNo,
    ) -> Result<NodeNo, Full>
        requires { IsHalved self.old question var low high }
        ensures { Joins self.old self.new question result }
    {
        let answer = self.pool.make(var, low, high)?;
        self.keep(question, answer);
        Ok(answer)
    }

    /// The number whose function the question asks for.
    pub fn apply(&mut self, question: Question) -> Result<NodeNo, Full>
        requires { IsAsked self.old.vars self.old.nodes question }
        ensures { Answers self.old self.new question result }
    {
        let _used = self.used();
        if let Some(answer) = self.known(question) {
            return Ok(answer);
        }
        let var = question.first(&self.pool);
        let (if_false, if_true) = question.branches(&self.pool, var);
        let low = self.apply(if_false)?;
        let high = self.apply(if_true)?;
        self.join(question, var, low, high)
    }
}
