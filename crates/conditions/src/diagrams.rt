//! Conditions as numbers of diagram nodes, over worlds that may be restricted.

ghost use Rattle.std.specs.Prelude.{◌≡◌, ◌<◌, ◌≤◌, ◌↔◌, ◌&&◌, ◌||◌, not, [], true, false, length, IsTrue, IfOk, IfErr, OnOk, OnErr};
ghost use Rattle.std.specs.Bool.{OnTrue, OnFalse};
ghost use Rattle.meaning.specs.Texts.{holds_at};
ghost use Rattle.meaning.specs.Counts.{counted};
ghost use Rattle.meaning.specs.Reports.{IsLeast};
ghost use Rattle.worlds.specs.Algebra.{Kept, HoldsWhere, HoldsNowhere, HoldAlike, IsRefusal, has, refusals_after};
ghost use Rattle.node_pool.specs.Regions.{IsRegion};
ghost use Rattle.node_pool.specs.Functions.{function_of};
ghost use Rattle.conditions.specs.Questions.{IsAsked};
ghost use Rattle.conditions.specs.Store.{no_region};
ghost use Rattle.std.specs.List.{All};
ghost use Rattle.conditions.specs.Tables.{IsExported};
ghost use Rattle.conditions.specs.Diagrams.{algebra_of, IsLive, IsBounded, IsExact, IsRestricted, Asks};

use crate::export::export;
use crate::question::{FALSE, Question, TRUE};
use crate::store::Store;
use crate::table::Table;
use doc_tree::Row;
use node_pool::{Full, MAX_NODES, MAX_VARS, NoMemory, NodeNo};
use std::alloc::Global;
use std::marker::Model;
use worlds::{NodeLimit, Worlds};

/// A condition: the number of its function.
pub type Cond = NodeNo;

/// Conditions over so many features, made of at most as many nodes as the limit.
///
/// A value is *shut* until `start` gives it its limit and its number of features, for good. Then all lists of that length are worlds, until
/// `restrict` leaves those of one condition. All memory is taken by `start`.
#[derive(Drop)]
pub struct Diagrams {
    store: Store,
    valid: Cond,
    asked: u64,
    refused: u64,
    taken: u64,
}

impl Model for Diagrams {
    ghost use Rattle.conditions.specs.Diagrams.{State};

    ghost Value = { State };

    ghost use Rattle.conditions.specs.Diagrams.{state_of, IsSound};

    ghost view = { state_of };

    ghost invariant = { IsSound };
}

impl Diagrams {
    /// A value with no features, no nodes and no memory. Its limit is 0.
    pub fn shut() -> Diagrams
        ensures { result ≡ record { region = no_region; valid = record { 0 = 1 }; asked = 0; refused = 0; taken = 0 } }
    {
        let store = Store::shut();
        let _used = store.used();
        Diagrams {
            store,
            valid: TRUE,
            asked: 0,
            refused: 0,
            taken: 0,
        }
    }

    /// Opens a shut value. From then on all lists of so many truth values are worlds, and at most `limit` nodes are made.
    pub fn start(&mut self, alloc: Global, limit: u32, features: u16) -> Result<(), NoMemory>
        requires is_shut { self.old.region.limit ≡ 0 }
        requires some { 1 ≤ limit }
        requires few { limit ≤ MAX_NODES }
        requires few_features { features ≤ MAX_VARS }
        ensures ok { OnOk result (self.new ≡ record self.old { region = record { limit = limit; vars = features; nodes = [] }; valid = record { 0 = 1 } }) }
        ensures err { OnErr result (self.new ≡ self.old) }
    {
        self.store.start(alloc, limit, features)?;
        let _used = self.store.used();
        self.valid = TRUE;
        Ok(())
    }

    /// An open value: `shut`, then `start`.
    pub fn new(alloc: Global, limit: u32, features: u16) -> Result<Diagrams, NoMemory>
        requires some { 1 ≤ limit }
        requires few { limit ≤ MAX_NODES }
        requires few_features { features ≤ MAX_VARS }
        ensures { IfOk result (λ d. d ≡ record { region = record { limit = limit; vars = features; nodes = [] }; valid = record { 0 = 1 }; asked = 0; refused = 0; taken = 0 }) }
    {
        let mut diagrams = Diagrams::shut();
        diagrams.start(alloc, limit, features)?;
        Ok(diagrams)
    }

    /// How many nodes there are.
    pub fn used(&self) -> u32
        ensures value { result ≡ length self.now.region.nodes }
        ensures region { IsRegion self.now.region }
    {
        self.store.used()
    }

    /// The most nodes that there may be: 0 where it is shut.
    pub fn limit(&self) -> u32
        ensures { result ≡ self.now.region.limit }
    {
        self.store.limit()
    }

    /// How many growing calls were refused. Where there was one, the limit is too low for as many functions as were asked for and taken in.
    pub fn refused(&self) -> u64
        ensures value { result ≡ self.now.refused }
        ensures bounded { IsBounded (algebra_of self.now) }
    {
        let _invariant = &self.store;
        self.refused
    }

    /// How many rows were taken in from tables.
    pub fn taken(&self) -> u64
        ensures value { result ≡ self.now.taken }
        ensures bounded { IsBounded (algebra_of self.now) }
    {
        let _invariant = &self.store;
        self.taken
    }

    /// Leaves those worlds at which `c` holds. From now on `always` is `c`, and only `c`, `never` and what is made from them are live.
    pub fn restrict(&mut self, c: Cond)
        requires { (algebra_of self.old).live c }
        ensures state { self.new ≡ record self.old { valid = c } }
        ensures restricted { IsRestricted self.old self.new c }
    {
        let _invariant = &self.store;
        self.valid = c;
    }

    /// The conditions as a table: the rows below them, in the order in which a walk over them first leaves each row, low before high before the
    /// row, and each condition's identifier.
    pub fn export(&self, alloc: Global, roots: &[Cond]) -> Result<(Table, Row<u32>), NoMemory>
        requires { All (algebra_of self.now).live roots.now }
        ensures { IfOk result (λ exported. IsExported self.now.region roots.now exported.0 exported.1) }
    {
        export(&self.store, alloc, roots)
    }

    /// Makes one more function.
    fn ask(&mut self, question: Question) -> Result<Cond, NodeLimit>
        requires { IsAsked self.old.region.vars self.old.region.nodes question }
        ensures { Asks self.old self.new question result }
    {
        self.asked = self.asked.saturating_add(1);
        match self.store.ask(question) {
            Ok(answer) => Ok(answer),
            Err(Full) => {
                self.refused = self.refused.saturating_add(1);
                Err(NodeLimit {
                    used: self.store.used(),
                })
            }
        }
    }
}

impl Worlds for Diagrams {
    type C = Cond;

    ghost algebra = { algebra_of };

    fn count(&self) -> u16 {
        self.store.vars()
    }

    fn always(&self) -> Cond
        ensures holds { HoldsWhere (algebra_of self.now) result (λ _. true) }
        ensures is_valid { result ≡ self.now.valid }
    {
        let _invariant = &self.store;
        self.valid
    }

    fn never(&self) -> Cond {
        let _invariant = &self.store;
        FALSE
    }

    /// Adds only nodes of "the feature, at a valid world".
    fn feature(&mut self, f: u16) -> Result<Cond, NodeLimit>
        requires { f < self.old.region.vars }
        ensures kept { Kept (algebra_of self.old) (algebra_of self.new) }
        ensures asked { self.new.asked ≡ counted self.old.asked 1 }
        ensures refusals { self.new.refused ≡ refusals_after result self.old.refused }
        ensures made { IfOk result (λ c. HoldsWhere (algebra_of self.new) c (λ x. holds_at x f)) }
        ensures refused { IfErr result (IsRefusal (algebra_of self.old) (algebra_of self.new)) }
        ensures exact { IsExact self.old.region self.new.region
            (λ w. w f && function_of self.old.region self.old.valid.0 w) result }
    {
        self.ask(Question::Pick {
            var: f,
            low: FALSE,
            high: self.valid,
        })
    }

    fn both(&mut self, a: Cond, b: Cond) -> Result<Cond, NodeLimit>
        requires a_live { (algebra_of self.old).live a }
        requires b_live { (algebra_of self.old).live b }
        ensures kept { Kept (algebra_of self.old) (algebra_of self.new) }
        ensures asked { self.new.asked ≡ counted self.old.asked 1 }
        ensures refusals { self.new.refused ≡ refusals_after result self.old.refused }
        ensures made { IfOk result (λ c. HoldsWhere (algebra_of self.new) c (λ x. (algebra_of self.old).holds a x && (algebra_of self.old).holds b x)) }
        ensures refused { IfErr result (IsRefusal (algebra_of self.old) (algebra_of self.new)) }
        ensures exact { IsExact self.old.region self.new.region
            (λ w. function_of self.old.region a.0 w && function_of self.old.region b.0 w) result }
    {
        self.ask(Question::Both(a, b))
    }

    fn either(&mut self, a: Cond, b: Cond) -> Result<Cond, NodeLimit>
        requires a_live { (algebra_of self.old).live a }
        requires b_live { (algebra_of self.old).live b }
        ensures kept { Kept (algebra_of self.old) (algebra_of self.new) }
        ensures asked { self.new.asked ≡ counted self.old.asked 1 }
        ensures refusals { self.new.refused ≡ refusals_after result self.old.refused }
        ensures made { IfOk result (λ c. HoldsWhere (algebra_of self.new) c (λ x. (algebra_of self.old).holds a x || (algebra_of self.old).holds b x)) }
        ensures refused { IfErr result (IsRefusal (algebra_of self.old) (algebra_of self.new)) }
        ensures exact { IsExact self.old.region self.new.region
            (λ w. function_of self.old.region a.0 w || function_of self.old.region b.0 w) result }
    {
        self.ask(Question::Either(a, b))
    }

    fn without(&mut self, a: Cond, b: Cond) -> Result<Cond, NodeLimit>
        requires a_live { (algebra_of self.old).live a }
        requires b_live { (algebra_of self.old).live b }
        ensures kept { Kept (algebra_of self.old) (algebra_of self.new) }
        ensures asked { self.new.asked ≡ counted self.old.asked 1 }
        ensures refusals { self.new.refused ≡ refusals_after result self.old.refused }
        ensures made { IfOk result (λ c. HoldsWhere (algebra_of self.new) c (λ x. (algebra_of self.old).holds a x && not ((algebra_of self.old).holds b x))) }
        ensures refused { IfErr result (IsRefusal (algebra_of self.old) (algebra_of self.new)) }
        ensures exact { IsExact self.old.region self.new.region
            (λ w. function_of self.old.region a.0 w && not (function_of self.old.region b.0 w)) result }
    {
        self.ask(Question::Without(a, b))
    }

    fn is_never(&self, a: Cond) -> bool {
        let _invariant = &self.store;
        a == FALSE
    }

    fn same(&self, a: Cond, b: Cond) -> bool {
        let _invariant = &self.store;
        a == b
    }

    fn at(&self, a: Cond, world: &[bool]) -> bool {
        self.store.at(a, world)
    }

    fn pick(&self, a: Cond, out: &mut [bool]) -> bool {
        if a == FALSE {
            return false;
        }
        self.store.least(a, out);
        true
    }

    fn asked(&self) -> u64
        ensures value { result ≡ self.now.asked }
        ensures bounded { IsBounded (algebra_of self.now) }
    {
        let _invariant = &self.store;
        self.asked
    }
}
