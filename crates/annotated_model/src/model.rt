//! The model of a bundle.

ghost use Rattle.std.specs.Prelude.{◌≡◌, ◌<◌, length, map, IfOk, IfErr, IfSome, IfNone};
ghost use Rattle.std.specs.List.{All};
ghost use Rattle.meaning.specs.Texts.{place_of};
ghost use Rattle.meaning.specs.Documents.{table, no_members};
ghost use Rattle.meaning.specs.ModelRules.{model_in};
ghost use Rattle.meaning.specs.Models as meaning;
ghost use Rattle.doc_tree.specs.View.{document};
ghost use Rattle.annotated_model.specs.View.{type_view, kind_view, element_view, link_view, system_view};
ghost use Rattle.annotated_model.specs.ModelFacts.{KindFits, ElementFits, LinkFits, SystemFits, KeepsRules};
ghost use Rattle.annotated_model.specs.ModelTexts.{ModelHasTexts};
ghost use Rattle.annotated_model.specs.SystemPlaces.{TellSystems};
ghost use Rattle.annotated_model.specs.Joined.{joined_view, nothing, CanJoin};

use crate::ancestry;
use crate::data::{Element, Link, LinkKind, System, TypeDef};
use crate::known::Known;
use crate::owners::with_systems;
use cond_text::Names;
use doc_tree::{Doc, Row};
use std::alloc::Global;

/// A typed model as it was read from a bundle document. A number of a type, a kind, a label, an element, a link or a system is its place in the
/// model's list of these, from 0.
#[derive(Drop)]
pub struct Model {
    types: Row<TypeDef>,
    kinds: Row<LinkKind>,
    labels: Names,
    elements: Row<Element>,
    element_names: Names,
    links: Row<Link>,
    systems: Row<System>,
}

impl std::marker::Model for Model {
    ghost use Rattle.std.specs.Prelude.{map, ◌≡◌};
    ghost use Rattle.meaning.specs.Models as meaning;
    ghost use Rattle.annotated_model.specs.View.{type_view, kind_view, element_view, link_view, system_view};
    ghost use Rattle.annotated_model.specs.ModelFacts.{KeepsRules};
    ghost use Rattle.annotated_model.specs.ModelTexts.{ModelHasTexts};
    ghost use Rattle.annotated_model.specs.SystemPlaces.{TellSystems};

    ghost Value = { meaning.Model };

    ghost use Rattle.std.specs.Coded.{codes};
    ghost use Rattle.annotated_model.specs.ExpressionCode.{coded_expression};

    ghost coded = { Prim.hlevel (codes, coded_expression) };

    ghost view = { λ m. record {
      types = map type_view m.types;
      kinds = map kind_view m.kinds;
      labels = m.labels;
      elements = map element_view m.elements;
      links = map link_view m.links;
      systems = map system_view m.systems;
    } };

    ghost invariant = { λ m.
        (m.element_names ≡ map (λ e. e.name) m.elements)
        × TellSystems m.elements (map system_view m.systems)
        × KeepsRules (record {
          types = map type_view m.types;
          kinds = map kind_view m.kinds;
          labels = m.labels;
          elements = map element_view m.elements;
          links = map link_view m.links;
          systems = map system_view m.systems;
        })
        × ModelHasTexts (record {
          types = map type_view m.types;
          kinds = map kind_view m.kinds;
          labels = m.labels;
          elements = map element_view m.elements;
          links = map link_view m.links;
          systems = map system_view m.systems;
        }) };
}

/// A model without anything.
pub fn empty(alloc: Global) -> Model
    ensures { result ≡ nothing }
{
    Model {
        types: Row::of(Vec::new(alloc)),
        kinds: Row::of(Vec::new(alloc)),
        labels: Names::new(alloc),
        elements: Row::of(Vec::new(alloc)),
        element_names: Names::new(alloc),
        links: Row::of(Vec::new(alloc)),
        systems: Row::of(Vec::new(alloc)),
    }
}

/// The model of these parts, where the systems belong to the elements with these names.
pub fn joined(known: Known, links: Row<Link>, systems: Row<System>, owners: &Names) -> Model
    requires { CanJoin known links systems owners.now }
    ensures { result ≡ joined_view known links systems }
{
    let elements = with_systems(owners, known.elements);
    Model {
        types: known.types,
        kinds: known.kinds,
        labels: known.labels,
        elements,
        element_names: known.element_names,
        links,
        systems,
    }
}

/// The table of the model, if the bundle has one.
pub fn model_table(bundle: &Doc) -> Option<&Doc>
    ensures there { IfSome result (λ model. document model.now ≡ model_in (document bundle.now)) }
    ensures none { IfNone result (model_in (document bundle.now) ≡ table no_members) }
{
    match bundle.member("model") {
        Some(model) => { if model.is_table() { Some(model) } else { None } }
        None => None,
    }
}

impl Model {
    /// The types.
    pub fn types(&self) -> &[TypeDef]
        ensures types { map type_view result.now ≡ self.now.types }
        ensures rules { KeepsRules self.now }
        ensures texts { ModelHasTexts self.now }
    {
        self.types.list()
    }

    /// The kinds of links.
    pub fn kinds(&self) -> &[LinkKind]
        ensures kinds { map kind_view result.now ≡ self.now.kinds }
        ensures fit { All (KindFits self.now) self.now.kinds }
    {
        self.kinds.list()
    }

    /// The labels of states.
    pub fn labels(&self) -> &Names
        ensures { result.now ≡ self.now.labels }
    {
        &self.labels
    }

    /// The elements.
    pub fn elements(&self) -> &[Element]
        ensures elements { map element_view result.now ≡ self.now.elements }
        ensures fit { All (ElementFits self.now) self.now.elements }
        ensures systems { TellSystems result.now self.now.systems }
    {
        self.elements.list()
    }

    /// The links.
    pub fn links(&self) -> &[Link]
        ensures links { map link_view result.now ≡ self.now.links }
        ensures fit { All (LinkFits self.now) self.now.links }
    {
        self.links.list()
    }

    /// The systems.
    pub fn systems(&self) -> &[System]
        ensures systems { map system_view result.now ≡ self.now.systems }
        ensures fit { All (SystemFits self.now) self.now.systems }
    {
        self.systems.list()
    }

    /// The number of the element with a name, and `None` exactly where no element has it.
    pub fn element_no(&self, name: &str) -> Option<u16>
        ensures { result ≡ place_of name.now (map (λ e. e.name) self.now.elements) }
    {
        self.element_names.find(name)
    }

    /// Whether a type is another one or below it.
    pub fn is_a(&self, t: u16, of: u16) -> bool
        ensures { result ≡ meaning.is_a self.now.types t of }
    {
        ancestry::is_a(self.types.list(), t, of)
    }
}
