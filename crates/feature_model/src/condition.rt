//! The condition of a line: an expression that is true at exactly its valid worlds.

ghost use Rattle.std.specs.Prelude.{◌≡◌, ◌+◌, ◌*◌, ◌≤◌, ◌<◌, List, Bool, length, map, slice_get, Some, IfOk};
ghost use Rattle.meaning.specs.Texts.{numbered};
ghost use Rattle.meaning.specs.Expressions.{Not, Both, Either, Implies, name_bound, size_of};
ghost use Rattle.meaning.specs.Expressions as meaning;
ghost use Rattle.meaning.specs.Features.{Feature, is_valid};
ghost use Rattle.cond_text.specs.View.{expression};
ghost use Rattle.feature_model.specs.Groups.{group_view};
ghost use Rattle.feature_model.specs.Contents.{line_view, IsProper, constraints_size};
ghost use Rattle.feature_model.specs.Conditions.{any_of, one_at_most, child_condition, mandatory_condition, or_condition, alternative_condition, feature_condition, and_all, root_condition, line_condition};

use crate::line::{Group, Line, Placed};
use cond_text::Expr;
use doc_tree::NoMemory;
use std::alloc::Global;

impl Line {
    /// The expression over the features that is true at exactly the valid worlds. Its size is linear in the features and the sizes of the constraints.
    pub fn expr(&self, alloc: Global) -> Result<Expr, NoMemory>
        ensures truth { IfOk result (λ e. (w : List Bool) → length w ≡ length self.now.features
            → meaning.truth (expression e) w ≡ is_valid (line_view self.now) w) }
        ensures names { IfOk result (λ e. name_bound (expression e) ≤ length self.now.features) }
        ensures size { IfOk result (λ e. size_of (expression e) ≤ 1 + 40 * length self.now.features + constraints_size self.now) }
    {
        self.condition(alloc)
    }

    fn condition(&self, alloc: Global) -> Result<Expr, NoMemory>
        ensures value { IfOk result (λ e. expression e ≡ line_condition (line_view self.now)) }
        ensures proper { IsProper self.now }
    {
        let features = self.features_condition(alloc)?;
        and_constraints(alloc, features, self.constraints())
    }

    fn features_condition(&self, alloc: Global) -> Result<Expr, NoMemory>
        ensures value { IfOk result (λ e. expression e
            ≡ and_all (root_condition self.now.features) (map (feature_condition self.now.features) (numbered self.now.features))) }
        ensures proper { IsProper self.now }
    {
        let count = self.count();
        let mut all = if count == 0 {
            Expr::Bottom
        } else {
            Expr::Name(0)
        };
        'features: for no in 0..count {
            all = both(alloc, all, self.feature_condition(alloc, no)?)?;
        }
        Ok(all)
    }

    fn feature_condition(&self, alloc: Global, no: u16) -> Result<Expr, NoMemory>
        requires { no < length self.now.features }
        ensures { IfOk result (λ e. (f : Feature) → slice_get self.now.features no ≡ Some f
            → expression e ≡ feature_condition self.now.features (no, f)) }
    {
        let placed = self.placed(no);
        let tree = tree_condition(alloc, no, placed)?;
        let groups = groups_condition(alloc, no, self.ors(no), self.alternatives(no))?;
        both(alloc, tree, groups)
    }
}

/// How a feature and its parent need one another.
fn tree_condition(alloc: Global, no: u16, placed: Placed) -> Result<Expr, NoMemory>
    ensures { IfOk result (λ e. expression e
        ≡ Both (child_condition no placed.parent) (mandatory_condition no (group_view placed.group) placed.parent)) }
{
    let child = child_condition(alloc, no, placed.parent)?;
    let mandatory = mandatory_condition(alloc, no, placed)?;
    both(alloc, child, mandatory)
}

/// How a feature needs the children of its groups.
fn groups_condition(
    alloc: Global,
    no: u16,
    ors: &[u16],
    alternatives: &[u16],
) -> Result<Expr, NoMemory>
    ensures { IfOk result (λ e. expression e ≡ Both (or_condition no ors.now) (alternative_condition no alternatives.now)) }
{
    let or_group = or_condition(alloc, no, ors)?;
    let alternative = alternative_condition(alloc, no, alternatives)?;
    both(alloc, or_group, alternative)
}

/// A feature needs its parent. The first feature needs none.
fn child_condition(alloc: Global, no: u16, parent: Option<u16>) -> Result<Expr, NoMemory>
    ensures { IfOk result (λ e. expression e ≡ child_condition no parent) }
{
    match parent {
        Some(parent) => implies(alloc, Expr::Name(no), Expr::Name(parent)),
        None => {
            if no == 0 {
                Ok(Expr::Top)
            } else {
                not(alloc, Expr::Name(no))
            }
        }
    }
}

/// The parent of a mandatory feature needs it.
fn mandatory_condition(alloc: Global, no: u16, placed: Placed) -> Result<Expr, NoMemory>
    ensures { IfOk result (λ e. expression e ≡ mandatory_condition no (group_view placed.group) placed.parent) }
{
    match placed.group {
        Group::Mandatory => match placed.parent {
            Some(parent) => implies(alloc, Expr::Name(parent), Expr::Name(no)),
            None => Ok(Expr::Top),
        },
        _ => Ok(Expr::Top),
    }
}

/// A feature needs a child of its or-group, if it has one.
fn or_condition(alloc: Global, no: u16, children: &[u16]) -> Result<Expr, NoMemory>
    ensures { IfOk result (λ e. expression e ≡ or_condition no children.now) }
{
    if children.is_empty() {
        return Ok(Expr::Top);
    }
    let some = any_of(alloc, children)?;
    implies(alloc, Expr::Name(no), some)
}

/// A feature needs exactly one child of its alternative group, if it has one.
fn alternative_condition(alloc: Global, no: u16, children: &[u16]) -> Result<Expr, NoMemory>
    ensures { IfOk result (λ e. expression e ≡ alternative_condition no children.now) }
{
    if children.is_empty() {
        return Ok(Expr::Top);
    }
    let some = any_of(alloc, children)?;
    let one = one_at_most(alloc, 8, children)?;
    let exactly_one = both(alloc, some, one)?;
    implies(alloc, Expr::Name(no), exactly_one)
}

/// Some of the features are true.
fn any_of(alloc: Global, children: &[u16]) -> Result<Expr, NoMemory>
    ensures { IfOk result (λ e. expression e ≡ any_of children.now) }
{
    let mut any = Expr::Bottom;
    'children: for child in children {
        any = either(alloc, any, Expr::Name(*child))?;
    }
    Ok(any)
}

/// At most one of at most `2 ^ depth` features is true: where one of the first half is, none of the other half is, and at most one of each half is.
fn one_at_most(alloc: Global, depth: u8, children: &[u16]) -> Result<Expr, NoMemory>
    ensures { IfOk result (λ e. expression e ≡ one_at_most depth children.now) }
{
    if depth == 0 || children.len() <= 1 {
        return Ok(Expr::Top);
    }
    let (first, others) = children.split_at(children.len() / 2);
    let of_first = one_at_most(alloc, depth - 1, first)?;
    let of_others = one_at_most(alloc, depth - 1, others)?;
    let of_each = both(alloc, of_first, of_others)?;
    let apart = apart(alloc, first, others)?;
    both(alloc, apart, of_each)
}

/// Where one of the first features is true, none of the others is.
fn apart(alloc: Global, first: &[u16], others: &[u16]) -> Result<Expr, NoMemory>
    ensures { IfOk result (λ e. expression e ≡ Implies (any_of first.now) (Not (any_of others.now))) }
{
    let none = not(alloc, any_of(alloc, others)?)?;
    let some = any_of(alloc, first)?;
    implies(alloc, some, none)
}

/// The expression and all constraints.
fn and_constraints(alloc: Global, features: Expr, constraints: &[Expr]) -> Result<Expr, NoMemory>
    ensures { IfOk result (λ e. expression e ≡ and_all (expression features) (map expression constraints.now)) }
{
    let mut all = features;
    'constraints: for constraint in constraints {
        all = both(alloc, all, copy(alloc, constraint)?)?;
    }
    Ok(all)
}

fn copy(alloc: Global, e: &Expr) -> Result<Expr, NoMemory>
    ensures { IfOk result (λ c. expression c ≡ expression e.now) }
{
    match e {
        Expr::Top => Ok(Expr::Top),
        Expr::Bottom => Ok(Expr::Bottom),
        Expr::Name(no) => Ok(Expr::Name(*no)),
        Expr::Not(a) => not(alloc, copy(alloc, a)?),
        Expr::Both(a, b) => both(alloc, copy(alloc, a)?, copy(alloc, b)?),
        Expr::Either(a, b) => either(alloc, copy(alloc, a)?, copy(alloc, b)?),
        Expr::Implies(a, b) => implies(alloc, copy(alloc, a)?, copy(alloc, b)?),
        Expr::Same(a, b) => same(alloc, copy(alloc, a)?, copy(alloc, b)?),
    }
}

pub fn not(alloc: Global, a: Expr) -> Result<Expr, NoMemory>
    ensures { IfOk result (λ e. expression e ≡ Not (expression a)) }
{
    Ok(Expr::Not(Box::new(alloc, a)?))
}

pub fn both(alloc: Global, a: Expr, b: Expr) -> Result<Expr, NoMemory>
    ensures { IfOk result (λ e. expression e ≡ Both (expression a) (expression b)) }
{
    Ok(Expr::Both(Box::new(alloc, a)?, Box::new(alloc, b)?))
}

fn either(alloc: Global, a: Expr, b: Expr) -> Result<Expr, NoMemory>
    ensures { IfOk result (λ e. expression e ≡ Either (expression a) (expression b)) }
{
    Ok(Expr::Either(Box::new(alloc, a)?, Box::new(alloc, b)?))
}

pub fn implies(alloc: Global, a: Expr, b: Expr) -> Result<Expr, NoMemory>
    ensures { IfOk result (λ e. expression e ≡ Implies (expression a) (expression b)) }
{
    Ok(Expr::Implies(Box::new(alloc, a)?, Box::new(alloc, b)?))
}

fn same(alloc: Global, a: Expr, b: Expr) -> Result<Expr, NoMemory>
    ensures { IfOk result (λ e. expression e ≡ meaning.Same (expression a) (expression b)) }
{
    Ok(Expr::Same(Box::new(alloc, a)?, Box::new(alloc, b)?))
}
