//! The nodes of a template, one after another.

ghost use Rattle.std.specs.Prelude.{◌≡◌, ◌+◌, ◌<◌, ◌≤◌, ◌++◌, ◌∷◌, [], true, false, not, codes, length, map, take, get_or, unwrap_or, IfOk, IfErr, OnOk};
ghost use Rattle.std.specs.List.{slice_get};
ghost use Rattle.meaning.specs.Documents.{list_at};
ghost use Rattle.meaning.specs.BundlePlaces.{Nodes, faults_at, is_among, name_in};
ghost use Rattle.meaning.specs.TemplateTexts.{placed};
ghost use Rattle.meaning.specs.TemplateRules as rules;
ghost use Rattle.doc_tree.specs.View.{document, documents};
ghost use Rattle.templates.specs.Faults.{IsFirst};
ghost use Rattle.templates.specs.View.{node_view};
ghost use Rattle.templates.specs.ListRules.{parameters_in, types_named, types_known};
ghost use Rattle.templates.specs.NodeRules.{FormedBefore, above_in, node_told, nodes_told, nodes_broken, around, template_nodes_broken, all_nodes_broken};
ghost use Rattle.templates.specs.Readers.{ReaderFits, ids_of, around_of, new_variables_in};
ghost use Rattle.templates.specs.Seen.{SeenFits, scopes_of, scope_next, next_broken};
ghost use Rattle.templates.specs.declared.fault.TemplateStop.TheVariants.{NoMemory};

use crate::checks::read_never;
use crate::data::TNode;
use crate::fault::{Place, TemplateStop};
use crate::kinds::annotates;
use crate::members::stands_in_place;
use crate::names::{add_new, is_known};
use crate::node_form::check_form;
use crate::reader::{NodeRead, Reader, node_of};
use crate::scopes::Scopes;
use crate::support::{NODE_LIMIT, above_of, support_of};
use annotated_model::Model;
use cond_text::Names;
use doc_tree::{Doc, Part, Row, Word};
use std::alloc::Global;

/// What is read of the nodes of a template so far.
#[derive(Drop)]
pub struct Seen {
    pub ids: Names,
    pub scopes: Scopes,
}

impl Seen {
    /// Where no node is read.
    fn new(alloc: Global, parameters: &[(Word, u16)]) -> Result<Seen, TemplateStop>
        ensures ids { IfOk result (λ s. s.ids ≡ []) }
        ensures all { IfOk result (λ s. s.scopes.all.items ≡ parameters.now ∷ []) }
        ensures spots { IfOk result (λ s. s.scopes.spots.items ≡ []) }
        ensures stop { IfErr result (λ stop. stop ≡ NoMemory) }
    {
        let scopes = Scopes::new(alloc, parameters)?;
        Ok(Seen {
            ids: Names::new(alloc),
            scopes,
        })
    }
}

/// A node, and the place of the scope at it.
#[derive(Drop)]
struct PlacedNode {
    read: NodeRead,
    place: usize,
}

impl Reader<'_> {
    /// The node of a number, behind those that are read, where it breaks no rule.
    fn read_node(
        &self,
        alloc: Global,
        seen: &Seen,
        number: usize,
        node: &Doc,
    ) -> Result<PlacedNode, TemplateStop>
        requires fits { ReaderFits self.now }
        requires seen { SeenFits self.now seen.now number }
        requires inside { number < length self.now.nodes.now }
        requires item { slice_get self.now.nodes.now number ≡ Some node.now }
        requires formed { FormedBefore self.now.counted (documents self.now.nodes.now) number }
        ensures node { IfOk result (λ r. node_view r.read.node
            ≡ node_told self.now.model.now self.now.names.now self.now.parameters.now (ids_of self.now) (scopes_of seen.now.scopes) (document node.now)) }
        ensures place { IfOk result (λ r. slice_get seen.now.scopes.all.items r.place ≡ Some (scope_next self.now seen.now (document node.now))) }
        ensures new { IfOk result (λ r. r.read.new ≡ new_variables_in self.now.model.now (scope_next self.now seen.now (document node.now)) (document node.now)) }
        ensures few { IfOk result (λ r. length (unwrap_or r.read.new []) ≤ 3) }
        ensures within { IfOk result (λ r. self.now.counted + number < 1024) }
        ensures new_id { IfOk result (λ r. is_among seen.now.ids (rules.id_in (document node.now)) ≡ false) }
        ensures formed { IfOk result (λ r. FormedBefore self.now.counted (documents self.now.nodes.now) (number + 1)) }
        ensures none { IfOk result (λ r. next_broken self.now seen.now number (document node.now) ≡ []) }
        ensures fault { IfErr result (IsFirst (faults_at Nodes self.now.number number (next_broken self.now seen.now number (document node.now)))) }
    {
        let place = Place::inside(Part::Nodes, self.number, number);
        let new = !is_known(&seen.ids, node.text_at("id"));
        check_form(place, new, self.counted + number != NODE_LIMIT, node)?;
        let never = read_never(alloc, place, self.model.labels(), node)?;
        let above = above_of(&seen.ids, node);
        place.require(24, stands_in_place(self.nodes, above, number, node))?;
        let place = seen.scopes.place_under(above, annotates(node));
        let scope = seen.scopes.at(place);
        let parts = self.read_scoped(alloc, scope, number, node)?;
        let read = node_of(self.model, self.names, scope, above, parts, never, node);
        Ok(PlacedNode { read, place })
    }

    /// Adds the nodes behind none, where they break no rule.
    fn add_nodes(
        &self,
        alloc: Global,
        seen: &mut Seen,
        nodes: &mut Vec<TNode>,
    ) -> Result<(), TemplateStop>
        requires fits { ReaderFits self.now }
        requires seen { SeenFits self.now seen.old 0 }
        requires nodes { nodes.old.items ≡ [] }
        ensures value { OnOk result (map node_view nodes.new.items
            ≡ nodes_told self.now.model.now self.now.names.now self.now.parameters.now (ids_of self.now) [] (documents self.now.nodes.now)) }
        ensures within { IfOk result (λ _. self.now.counted + length self.now.nodes.now ≤ 1024) }
        ensures none { IfOk result (λ _. nodes_broken (around_of self.now) [] 0 (documents self.now.nodes.now) ≡ []) }
        ensures fault { IfErr result (IsFirst (nodes_broken (around_of self.now) [] 0 (documents self.now.nodes.now))) }
    {
        'nodes: for (number, node) in self.nodes.iter().enumerate() {
            let found = self.read_node(alloc, seen, number, node)?;
            let PlacedNode { read, place } = found;
            let NodeRead { node: value, new } = read;
            nodes.push(value)?;
            seen.scopes.add(alloc, place, new)?;
            add_new(&mut seen.ids, node.text_at("id"))?;
        }
        Ok(())
    }

    /// The nodes, where they break no rule.
    pub fn read_nodes(&self, alloc: Global) -> Result<Row<TNode>, TemplateStop>
        requires fits { ReaderFits self.now }
        ensures value { IfOk result (λ row. map node_view row
            ≡ nodes_told self.now.model.now self.now.names.now self.now.parameters.now (ids_of self.now) [] (documents self.now.nodes.now)) }
        ensures within { IfOk result (λ row. self.now.counted + length self.now.nodes.now ≤ 1024) }
        ensures none { IfOk result (λ row. nodes_broken (around_of self.now) [] 0 (documents self.now.nodes.now) ≡ []) }
        ensures fault { IfErr result (IsFirst (nodes_broken (around_of self.now) [] 0 (documents self.now.nodes.now))) }
    {
        let mut nodes = Vec::new(alloc);
        let mut seen = Seen::new(alloc, self.parameters)?;
        self.add_nodes(alloc, &mut seen, &mut nodes)?;
        Ok(Row::of(nodes))
    }
}
