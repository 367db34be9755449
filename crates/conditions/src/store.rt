//! A region of nodes that is opened once.

ghost use Rattle.std.specs.Prelude.{◌≡◌, ◌≢◌, ◌+◌, ◌<◌, ◌≤◌, [], length, OnOk, OnErr, IsErr, Ok};
ghost use Rattle.node_pool.specs.Nodes.{triple, top_of, value};
ghost use Rattle.node_pool.specs.Regions.{IsRegion, IsInner, IsNumberOf};
ghost use Rattle.node_pool.specs.Functions.{world_of};
ghost use Rattle.conditions.specs.Questions.{IsAsked, IsNumberSplit};
ghost use Rattle.conditions.specs.Answers.{Answers};
ghost use Rattle.conditions.specs.Store.{no_region};
ghost use Rattle.conditions.specs.Least.{IsLeastOf};

use crate::applier::Applier;
use crate::question::{FALSE, Question, TRUE};
use node_pool::{Full, MAX_NODES, MAX_VARS, NoMemory, NodeNo};
use std::alloc::Global;
use std::marker::Model;

/// Nothing, or a pool with its table of kept results.
#[derive(Drop)]
pub struct Store {
    opened: Option<Applier>,
}

impl Model for Store {
    ghost use Rattle.node_pool.specs.Regions.{Region};

    ghost Value = { Region };

    ghost use Rattle.conditions.specs.Store.{region_of, IsSound};

    ghost view = { region_of };

    ghost invariant = { IsSound };
}

impl Store {
    /// No memory, no variables, and the limit 0.
    pub fn shut() -> Store
        ensures { result ≡ no_region }
    {
        Store { opened: None }
    }

    /// Takes the memory of a pool with that limit, and of its table.
    pub fn start(&mut self, alloc: Global, limit: u32, vars: u16) -> Result<(), NoMemory>
        requires some { 1 ≤ limit }
        requires few { limit ≤ MAX_NODES }
        requires few_vars { vars ≤ MAX_VARS }
        ensures ok { OnOk result (self.new ≡ record { limit = limit; vars = vars; nodes = [] }) }
        ensures err { OnErr result (self.new ≡ self.old) }
    {
        let applier = Applier::new(alloc, limit, vars)?;
        let _used = applier.used();
        self.opened = Some(applier);
        Ok(())
    }

    /// How many nodes there are.
    pub fn used(&self) -> u32
        ensures value { result ≡ length self.now.nodes }
        ensures region { IsRegion self.now }
    {
        match &self.opened {
            Some(applier) => applier.used(),
            None => 0,
        }
    }

    /// The most nodes that there may be.
    pub fn limit(&self) -> u32
        ensures { result ≡ self.now.limit }
    {
        match &self.opened {
            Some(applier) => applier.limit(),
            None => 0,
        }
    }

    /// How many variables there are.
    pub fn vars(&self) -> u16
        ensures { result ≡ self.now.vars }
    {
        match &self.opened {
            Some(applier) => applier.vars(),
            None => 0,
        }
    }

    /// The variable, the low child and the high child of a node.
    pub fn triple(&self, number: NodeNo) -> (u16, NodeNo, NodeNo)
        requires { IsInner self.now number }
        ensures { IsNumberOf self.now number (triple result.0 result.1 result.2) }
    {
        match &self.opened {
            Some(applier) => applier.triple(number),
            None => unreachable!(),
        }
    }

    /// The number's function where the variable is false and where it is true.
    pub fn split(&self, number: NodeNo, var: u16) -> (NodeNo, NodeNo)
        requires there { number.0 < length self.now.nodes + 2 }
        requires var { var < self.now.vars }
        requires not_after { var ≤ top_of self.now.vars self.now.nodes number.0 }
        ensures { IsNumberSplit self.now.vars self.now.nodes number.0 var result.0.0 result.1.0 }
    {
        match &self.opened {
            Some(applier) => applier.split(number, var),
            None => (number, number),
        }
    }

    /// The truth of the number's function at a world.
    pub fn at(&self, number: NodeNo, world: &[bool]) -> bool
        requires there { number.0 < length self.now.nodes + 2 }
        requires places { length world.now ≡ self.now.vars }
        ensures { result ≡ value self.now.nodes number.0 (world_of world.now) }
    {
        match &self.opened {
            Some(applier) => applier.at(number, world),
            None => number == TRUE,
        }
    }

    /// The number whose function the question asks for. Only an open store refuses.
    pub fn ask(&mut self, question: Question) -> Result<NodeNo, Full>
        requires { IsAsked self.old.vars self.old.nodes question }
        ensures answers { Answers self.old self.new question result }
        ensures if_open { IsErr result → 1 ≤ self.old.limit }
    {
        match &mut self.opened {
            Some(applier) => applier.apply(question),
            None => Ok(constant(question)),
        }
    }

    /// Writes the least world at which the number's function is true.
    pub fn least(&self, number: NodeNo, out: &mut [bool])
        requires there { number.0 < length self.now.nodes + 2 }
        requires some { number.0 ≢ 0 }
        requires places { length out.old ≡ self.now.vars }
        ensures { IsLeastOf self.now number.0 out.new }
    {
        let _used = self.used();
        let mut number = number;
        for var in 0..self.vars() {
            let (low, high) = self.split(number, var);
            let is_true = low == FALSE;
            out[usize::from(var)] = is_true;
            number = if is_true { high } else { low };
        }
    }
}

/// The answer where there are no variables.
fn constant(question: Question) -> NodeNo
    requires { IsAsked 0 [] question }
    ensures { Answers no_region no_region question (Ok result) }
{
    match question.at_once() {
        Some(answer) => answer,
        None => unreachable!(),
    }
}
