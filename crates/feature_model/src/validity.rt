//! Which worlds are products of a line.

ghost use Rattle.std.specs.Prelude.{◌≡◌, ◌≤◌, ◌<◌, ◌&&◌, length, map, is_ok, All, count_by, slice_get, Some, List, ℕ};
ghost use Rattle.std.specs.List.{list_any};
ghost use Rattle.meaning.specs.Texts.{holds_at, flat, numbered, first_of_list};
ghost use Rattle.meaning.specs.Expressions.{name_bound};
ghost use Rattle.meaning.specs.Features.{Feature, is_valid, implies, has_parent, is_mandatory, parent_true, or_group_kept, alternative_group_kept};
ghost use Rattle.cond_text.specs.View.{expression};
ghost use Rattle.feature_model.specs.Groups.{group_view};
ghost use Rattle.feature_model.specs.Contents.{line_view};
ghost use Rattle.feature_model.specs.Breaks.{feature_breaks, constraint_breaks, breaks, told_rule};

use crate::line::{Group, Line, Placed};
use cond_text::{Expr, truth};

/// A rule of a line that a world breaks.
#[derive(Clone, Copy, Debug, PartialEq, Eq)]
pub enum LineRule {
    /// The first feature is false.
    Root,
    /// The feature is true, and its parent is not.
    Child(u16),
    /// The feature is mandatory and false, and its parent is true.
    Mandatory(u16),
    /// The feature is true, and no child of its or-group is.
    OrGroup(u16),
    /// The feature is true, and not exactly one child of its alternative group is.
    Alternative(u16),
    /// The constraint is false.
    Constraint(u16),
}

impl Line {
    /// Whether the world, a truth value for each feature, is a product of the line, and else the first rule that it breaks: `Root`, then for each
    /// feature `Child`, `Mandatory`, `OrGroup` and `Alternative`, then the constraints.
    pub fn valid(&self, world: &[bool]) -> Result<(), LineRule>
        requires { length world.now ≡ length self.now.features }
        ensures valid { is_ok result ≡ is_valid (line_view self.now) world.now }
        ensures first { told_rule result ≡ first_of_list (breaks (line_view self.now) world.now) }
    {
        self.kept(world)
    }

    fn kept(&self, world: &[bool]) -> Result<(), LineRule>
        requires { length world.now ≡ length self.now.features }
        ensures { told_rule result ≡ first_of_list (breaks (line_view self.now) world.now) }
    {
        if !holds(world, 0) {
            return Err(LineRule::Root);
        }
        self.features_kept(world)?;
        constraints_kept(self.constraints(), world)
    }

    fn features_kept(&self, world: &[bool]) -> Result<(), LineRule>
        ensures { told_rule result ≡ first_of_list (flat (feature_breaks self.now.features world.now) (numbered self.now.features)) }
    {
        'features: for no in 0..self.count() {
            self.feature_kept(no, world)?;
        }
        Ok(())
    }

    fn feature_kept(&self, no: u16, world: &[bool]) -> Result<(), LineRule>
        requires { no < length self.now.features }
        ensures { (f : Feature) → slice_get self.now.features no ≡ Some f
            → told_rule result ≡ first_of_list (feature_breaks self.now.features world.now (no, f)) }
    {
        let placed = self.placed(no);
        if !child_kept(world, no, placed.parent) {
            return Err(LineRule::Child(no));
        }
        if !mandatory_kept(world, no, placed) {
            return Err(LineRule::Mandatory(no));
        }
        if !or_kept(world, no, self.ors(no)) {
            return Err(LineRule::OrGroup(no));
        }
        if !alternative_kept(world, no, self.alternatives(no)) {
            return Err(LineRule::Alternative(no));
        }
        Ok(())
    }
}

/// Whether a feature is true.
#[tactic(auto, using(crate::proofs::ValidWorlds::value_at, crate::proofs::ValidWorlds::none_past))]
fn holds(world: &[bool], no: u16) -> bool
    ensures { result ≡ holds_at world.now no }
{
    let no = usize::from(no);
    no < world.len() && world[no]
}

/// Whether a feature is false or has a true parent. The first feature needs none.
fn child_kept(world: &[bool], no: u16, parent: Option<u16>) -> bool
    ensures { result ≡ implies (holds_at world.now no) (has_parent world.now no parent) }
{
    !holds(world, no)
        || match parent {
            Some(parent) => holds(world, parent),
            None => no == 0,
        }
}

/// Whether a feature is true where it is mandatory and its parent is true.
fn mandatory_kept(world: &[bool], no: u16, placed: Placed) -> bool
    ensures { result ≡ implies (is_mandatory (group_view placed.group) && parent_true world.now placed.parent) (holds_at world.now no) }
{
    let needed = match placed.group {
        Group::Mandatory => match placed.parent {
            Some(parent) => holds(world, parent),
            None => false,
        },
        _ => false,
    };
    !needed || holds(world, no)
}

/// Whether a feature is false or its or-group has no child or a true one.
fn or_kept(world: &[bool], no: u16, children: &[u16]) -> bool
    ensures { result ≡ implies (holds_at world.now no) (or_group_kept world.now children.now) }
{
    !holds(world, no) || children.is_empty() || any_true(world, children)
}

/// Whether a feature is false or its alternative group has no child or exactly one true one.
fn alternative_kept(world: &[bool], no: u16, children: &[u16]) -> bool
    ensures { result ≡ implies (holds_at world.now no) (alternative_group_kept world.now children.now) }
{
    !holds(world, no) || children.is_empty() || count_true(world, children) == 1
}

fn any_true(world: &[bool], children: &[u16]) -> bool
    ensures { result ≡ list_any (holds_at world.now) children.now }
{
    'children: for child in children {
        if holds(world, *child) {
            return true;
        }
    }
    false
}

fn count_true(world: &[bool], children: &[u16]) -> usize
    ensures { result ≡ count_by (holds_at world.now) children.now }
{
    let mut count = 0;
    'children: for child in children {
        if holds(world, *child) {
            count += 1;
        }
    }
    count
}

fn constraints_kept(constraints: &[Expr], world: &[bool]) -> Result<(), LineRule>
    requires few { length constraints.now ≤ 1024 }
    requires bounds { All (λ e. name_bound (expression e) ≤ length world.now) constraints.now }
    ensures { told_rule result ≡ first_of_list (flat (constraint_breaks world.now) (numbered (map expression constraints.now))) }
{
    'constraints: for (no, constraint) in constraints.iter().enumerate() {
        if !truth(constraint, world) {
            return Err(LineRule::Constraint(no as u16));
        }
    }
    Ok(())
}
