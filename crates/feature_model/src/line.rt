//! The line of a product family: a feature tree with constraints.

ghost use Rattle.std.specs.Prelude.{◌≡◌, ◌<◌, ◌≤◌, ◌++◌, ◌∷◌, [], length, map, IfOk, None, OnOk, All, if◌then◌else◌};
ghost use Rattle.meaning.specs.Texts.{place_of};
ghost use Rattle.meaning.specs.Features.{feature_names, is_or, is_alternative};
ghost use Rattle.meaning.specs.Expressions.{name_bound};
ghost use Rattle.cond_text.specs.View.{expression};
ghost use Rattle.feature_model.specs.Groups.{group_view};
ghost use Rattle.feature_model.specs.Contents.{line_view, IsBelow, IsProper};
ghost use Rattle.feature_model.specs.Line.{feature_with, IsPlaced};
ghost use Rattle.feature_model.specs.Children.{children, members_of, with_child};

use cond_text::{Expr, Names};
use doc_tree::NoMemory;
use std::alloc::Global;
use std::marker::Model;

/// How a feature stands under its parent (Kang et al., Feature-Oriented Domain Analysis).
#[derive(Clone, Copy, Debug, PartialEq, Eq)]
pub enum Group {
    /// True where its parent is.
    Mandatory,
    Optional,
    /// One of those of which at least one is true where their parent is.
    Or,
    /// One of those of which exactly one is true where their parent is.
    Alternative,
}

/// Where a feature stands.
#[derive(Clone, Copy, Debug)]
pub struct Placed {
    pub parent: Option<u16>,
    pub group: Group,
}

/// The line of a product family: at most 256 features in a tree, and constraints over them.
///
/// Features are numbered from 0, parents before their children. `ors` and `alternatives` have the children in an or-group and in an alternative
/// group of each feature.
#[derive(Drop)]
pub struct Line {
    names: Names,
    placed: Vec<Placed>,
    ors: Vec<Vec<u16>>,
    alternatives: Vec<Vec<u16>>,
    constraints: Vec<Expr>,
}

impl Model for Line {
    ghost use Rattle.feature_model.specs.Contents.{Contents};
    ghost use Rattle.std.specs.Coded.{codes};
    ghost use Rattle.cond_text.specs.contracts.expr.Expr as expr;

    ghost Value = { Contents };

    ghost coded = { Prim.hlevel (codes, expr.the_row.coded) };

    ghost use Rattle.feature_model.specs.Line.{contents_of, IsSound};

    ghost view = { contents_of };

    ghost invariant = { IsSound };
}

impl Line {
    /// A line with no feature. It keeps the allocator, and takes no memory.
    pub(crate) fn new(alloc: Global) -> Line
        ensures { result ≡ record { features = []; constraints = [] } }
    {
        Line {
            names: Names::new(alloc),
            placed: Vec::new(alloc),
            ors: Vec::new(alloc),
            alternatives: Vec::new(alloc),
            constraints: Vec::new(alloc),
        }
    }

    /// The line with one more feature, behind the others.
    pub(crate) fn with_feature(
        self,
        alloc: Global,
        name: &str,
        placed: Placed,
    ) -> Result<Line, NoMemory>
        requires few { length self.features < 256 }
        requires new { place_of name.now (feature_names (line_view self)) ≡ None }
        requires earlier { IsBelow (length self.features) placed.parent }
        ensures { IfOk result (λ line. line ≡ record self { features = self.features ++ feature_with name.now placed ∷ [] }) }
    {
        let Line {
            mut names,
            placed: mut places,
            mut ors,
            mut alternatives,
            constraints,
        } = self;
        grow(
            alloc,
            &mut names,
            &mut places,
            &mut ors,
            &mut alternatives,
            name,
            placed,
        )?;
        Ok(Line {
            names,
            placed: places,
            ors,
            alternatives,
            constraints,
        })
    }

    /// The line with one more constraint, behind the others.
    pub(crate) fn with_constraint(self, constraint: Expr) -> Result<Line, NoMemory>
        requires few { length self.constraints < 1024 }
        requires bound { name_bound (expression constraint) ≤ length self.features }
        ensures { IfOk result (λ line. line ≡ record self { constraints = self.constraints ++ constraint ∷ [] }) }
    {
        let mut line = self;
        line.constraints.push(constraint)?;
        Ok(line)
    }

    /// How many features there are.
    pub fn count(&self) -> u16
        ensures count { result ≡ length self.now.features }
        ensures proper { IsProper self.now }
    {
        let _invariant = &self.placed;
        self.names.count()
    }

    /// Where a feature stands.
    pub(crate) fn placed(&self, no: u16) -> Placed
        requires { no < length self.now.features }
        ensures { IsPlaced self.now.features no result }
    {
        self.placed[usize::from(no)]
    }

    /// The children of a feature in its or-group.
    pub(crate) fn ors(&self, no: u16) -> &[u16]
        requires { no < length self.now.features }
        ensures { result.now ≡ children is_or self.now.features no }
    {
        self.ors[usize::from(no)].as_slice()
    }

    /// The children of a feature in its alternative group.
    pub(crate) fn alternatives(&self, no: u16) -> &[u16]
        requires { no < length self.now.features }
        ensures { result.now ≡ children is_alternative self.now.features no }
    {
        self.alternatives[usize::from(no)].as_slice()
    }

    /// The constraints, in their order.
    pub(crate) fn constraints(&self) -> &[Expr]
        ensures value { result.now ≡ self.now.constraints }
        ensures few { length result.now ≤ 1024 }
        ensures bounds { All (λ e. name_bound (expression e) ≤ length self.now.features) result.now }
    {
        self.constraints.as_slice()
    }

    /// The names of the features, in their order.
    pub fn features(&self) -> &Names
        ensures { result.now ≡ feature_names (line_view self.now) }
    {
        &self.names
    }
}

/// Adds a feature to the fields of a line.
fn grow(
    alloc: Global,
    names: &mut Names,
    places: &mut Vec<Placed>,
    ors: &mut Vec<Vec<u16>>,
    alternatives: &mut Vec<Vec<u16>>,
    name: &str,
    placed: Placed,
) -> Result<(), NoMemory>
    requires few { length names.old < 256 }
    requires new { place_of name.now names.old ≡ None }
    requires ors { IsBelow (length ors.old.items) (if is_or (group_view placed.group) then placed.parent else None) }
    requires alternatives { IsBelow (length alternatives.old.items) (if is_alternative (group_view placed.group) then placed.parent else None) }
    ensures names { OnOk result (names.new ≡ names.old ++ name.now ∷ []) }
    ensures places { OnOk result (places.new.items ≡ places.old.items ++ placed ∷ []) }
    ensures ors { OnOk result (members_of ors.new.items
        ≡ with_child (members_of ors.old.items) (if is_or (group_view placed.group) then placed.parent else None) (length names.old)) }
    ensures alternatives { OnOk result (members_of alternatives.new.items
        ≡ with_child (members_of alternatives.old.items) (if is_alternative (group_view placed.group) then placed.parent else None) (length names.old)) }
{
    let child = names.add_new(name)?;
    places.push(placed)?;
    join(alloc, ors, or_parent(placed), child)?;
    join(alloc, alternatives, alternative_parent(placed), child)?;
    Ok(())
}

/// The parent in whose or-group the feature is.
fn or_parent(placed: Placed) -> Option<u16>
    ensures { result ≡ (if is_or (group_view placed.group) then placed.parent else None) }
{
    match placed.group {
        Group::Or => placed.parent,
        _ => None,
    }
}

/// The parent in whose alternative group the feature is.
fn alternative_parent(placed: Placed) -> Option<u16>
    ensures { result ≡ (if is_alternative (group_view placed.group) then placed.parent else None) }
{
    match placed.group {
        Group::Alternative => placed.parent,
        _ => None,
    }
}

/// Adds one more feature to the children of each feature, which has none and is itself a child of this parent.
fn join(
    alloc: Global,
    lists: &mut Vec<Vec<u16>>,
    parent: Option<u16>,
    child: u16,
) -> Result<(), NoMemory>
    requires { IsBelow (length lists.old.items) parent }
    ensures { OnOk result (members_of lists.new.items ≡ with_child (members_of lists.old.items) parent child) }
{
    if let Some(parent) = parent {
        let members = &mut lists[usize::from(parent)];
        members.push(child)?;
    }
    lists.push(Vec::new(alloc))?;
    Ok(())
}
