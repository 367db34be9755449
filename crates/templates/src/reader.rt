//! What a node of a template tells, where it breaks no rule.

ghost use Rattle.std.specs.Prelude.{◌≡◌, ◌+◌, ◌<◌, ◌≤◌, ◌&&◌, [], true, codes, length, map, option_map, unwrap_or, IfOk, IfErr};
ghost use Rattle.meaning.specs.Documents.{text_at};
ghost use Rattle.meaning.specs.BundlePlaces.{Nodes, faults_at};
ghost use Rattle.meaning.specs.TemplateTexts.{placed, parts_of};
ghost use Rattle.meaning.specs.TemplateRules as rules;
ghost use Rattle.cond_text.specs.View.{expression};
ghost use Rattle.doc_tree.specs.View.{document, documents};
ghost use Rattle.templates.specs.Faults.{IsFirst, faults_here};
ghost use Rattle.templates.specs.View.{piece_view, node_view};
ghost use Rattle.templates.specs.CheckReads.{never_in};
ghost use Rattle.templates.specs.QueryReads.{Told, has_new};
ghost use Rattle.templates.specs.UseReads.{arguments_in};
ghost use Rattle.templates.specs.NodeRules.{among, FormedBefore};
ghost use Rattle.templates.specs.Readers.{ReaderFits, PartsFit, members_broken, rest_broken, texts_broken, scoped_broken, new_variables_in};

use crate::checks::{check_is_right, check_of};
use crate::data::{Piece, TNode};
use crate::fault::{Place, TemplateStop};
use crate::members::{has_nothing_else, has_what_it_needs, is_developed_enough, read_words};
use crate::queries::{NodeQueries, QueryRead, has_variables, read_member, read_queries};
use crate::support::{Support, is_supported};
use crate::uses::{arguments_of, kind_of, use_is_right};
use annotated_model::Model;
use cond_text::{Expr, Names};
use doc_tree::{Doc, Part, Row, Word};
use path_queries::Query;
use std::alloc::Global;

/// What the nodes of a template are read over.
#[derive(Drop)]
pub struct Reader<'a> {
    pub model: &'a Model,
    /// The templates of the bundle, their names and their parameters.
    pub docs: &'a [Doc],
    pub names: &'a Names,
    pub all_parameters: &'a [Row<(Word, u16)>],
    /// The number of the template.
    pub number: usize,
    pub parameters: &'a [(Word, u16)],
    /// How many nodes stand in earlier templates.
    pub counted: usize,
    pub nodes: &'a [Doc],
    pub support: &'a Support,
}

/// The texts of a node.
#[derive(Drop)]
pub struct NodeTexts {
    pub id: Word,
    pub text: Row<Piece>,
    /// The variables that a use gives.
    pub args: Row<u16>,
}

/// What a node tells in its scope: its queries, each with its new variables, and its texts.
#[derive(Drop)]
pub struct NodeParts {
    pub queries: NodeQueries,
    pub texts: NodeTexts,
}

/// A node, and the new variables of its `each`.
#[derive(Drop)]
pub struct NodeRead {
    pub node: TNode,
    pub new: Option<Row<(Word, u16)>>,
}

/// A query without its new variables.
fn query_alone(query: Option<(Row<(Word, u16)>, Query)>) -> Option<Query>
    ensures { result ≡ option_map (λ p. p.1) query }
{
    match query {
        Some((_, query)) => Some(query),
        None => None,
    }
}

/// The new variables of a query, and the query.
fn query_parts(
    query: Option<(Row<(Word, u16)>, Query)>,
) -> (Option<Row<(Word, u16)>>, Option<Query>)
    ensures new { result.0 ≡ option_map (λ p. p.0) query }
    ensures query { result.1 ≡ option_map (λ p. p.1) query }
{
    match query {
        Some((new, query)) => (Some(new), Some(query)),
        None => (None, None),
    }
}

/// The node of a document, from its parts.
pub fn node_of(
    model: &Model,
    names: &Names,
    scope: &[(Word, u16)],
    above: Option<u16>,
    parts: NodeParts,
    never: Option<Expr>,
    node: &Doc,
) -> NodeRead
    requires few { length scope.now ≤ 65536 }
    requires parts { PartsFit model.now scope.now (document node.now) parts }
    requires never { option_map expression never ≡ never_in model.now.labels (rules.check_in (document node.now)) }
    ensures node { node_view result.node ≡ (placed model.now names.now above scope.now (document node.now)).node }
    ensures new { result.new ≡ new_variables_in model.now scope.now (document node.now) }
    ensures few { length (unwrap_or result.new []) ≤ 3 }
{
    let NodeParts { queries, texts } = parts;
    let NodeQueries { each, guard, check } = queries;
    let NodeTexts { id, text, args } = texts;
    let (new, each) = query_parts(each);
    let node = TNode {
        id,
        kind: kind_of(names, node),
        under: above,
        text,
        each,
        guard: query_alone(guard),
        check: check_of(model, scope, never, check, node),
        args,
        undeveloped: node.truth_at("undeveloped"),
    };
    NodeRead { node, new }
}

impl Reader<'_> {
    /// Whether the node of a number is as developed as it says.
    fn is_developed(&self, number: usize, node: &Doc) -> bool
        requires fits { ReaderFits self.now }
        requires formed { FormedBefore self.now.counted (documents self.now.nodes.now) (number + 1) }
        ensures { result ≡ rules.undeveloped_is_right (among self.now.counted (documents self.now.nodes.now)) (number, document node.now) }
    {
        is_developed_enough(is_supported(self.support, number), node)
    }

    /// Whether the node of a number has the members of its kind, is as developed as it says, and has new variables in its `each`.
    fn members_fit(&self, each: &QueryRead, number: usize, node: &Doc) -> bool
        requires fits { ReaderFits self.now }
        requires formed { FormedBefore self.now.counted (documents self.now.nodes.now) (number + 1) }
        ensures { result ≡ (rules.has_what_it_needs (document node.now) && rules.has_nothing_else (number, document node.now)
            && rules.undeveloped_is_right (among self.now.counted (documents self.now.nodes.now)) (number, document node.now) && has_new each.now) }
    {
        has_what_it_needs(node)
            && has_nothing_else(number, node)
            && self.is_developed(number, node)
            && has_variables(each)
    }

    /// What the `each` of the node of a number tells, where the node has the members that it may have.
    fn read_each(
        &self,
        alloc: Global,
        place: Place,
        scope: &[(Word, u16)],
        number: usize,
        node: &Doc,
    ) -> Result<QueryRead, TemplateStop>
        requires fits { ReaderFits self.now }
        requires few { length scope.now ≤ 65532 }
        requires texts { rules.node_texts_fit (document node.now) ≡ true }
        requires formed { FormedBefore self.now.counted (documents self.now.nodes.now) (number + 1) }
        ensures told { IfOk result (Told self.now.model.now scope.now (codes "each") (document node.now)) }
        ensures none { IfOk result (λ _. members_broken self.now scope.now number (document node.now) ≡ []) }
        ensures fault { IfErr result (IsFirst (faults_here place (members_broken self.now scope.now number (document node.now)))) }
    {
        let each = read_member(alloc, self.model, scope, "each", node)?;
        place.require(25, self.members_fit(&each, number, node))?;
        Ok(each)
    }

    /// The check of a node is one, and its use is of an earlier template, if it has them.
    fn require_rest(
        &self,
        place: Place,
        scope: &[(Word, u16)],
        node: &Doc,
    ) -> Result<(), TemplateStop>
        requires fits { ReaderFits self.now }
        requires few { length scope.now ≤ 65532 }
        ensures none { IfOk result (λ _. rest_broken self.now scope.now (document node.now) ≡ []) }
        ensures fault { IfErr result (IsFirst (faults_here place (rest_broken self.now scope.now (document node.now)))) }
    {
        place.require(28, check_is_right(self.model, scope, node))?;
        let fits = use_is_right(
            self.model,
            self.docs,
            self.names,
            self.all_parameters,
            self.number,
            scope,
            node,
        );
        place.require(29, fits)
    }

    /// The texts of a node, where it breaks none of the rules behind those of its queries.
    fn read_texts(
        &self,
        alloc: Global,
        place: Place,
        scope: &[(Word, u16)],
        node: &Doc,
    ) -> Result<NodeTexts, TemplateStop>
        requires fits { ReaderFits self.now }
        requires few { length scope.now ≤ 65532 }
        requires texts { rules.node_texts_fit (document node.now) ≡ true }
        ensures text { IfOk result (λ t. map piece_view t.text ≡ parts_of self.now.model.now scope.now (text_at (codes "text") (document node.now))) }
        ensures args { IfOk result (λ t. t.args ≡ arguments_in scope.now (document node.now)) }
        ensures id { IfOk result (λ t. t.id ≡ rules.id_in (document node.now)) }
        ensures none { IfOk result (λ _. texts_broken self.now scope.now (document node.now) ≡ []) }
        ensures fault { IfErr result (IsFirst (faults_here place (texts_broken self.now scope.now (document node.now)))) }
    {
        let text = read_words(alloc, place, self.model, scope, node)?;
        self.require_rest(place, scope, node)?;
        let args = arguments_of(alloc, scope, node)?;
        let id = Word::of(alloc, node.text_at("id"))?;
        Ok(NodeTexts { id, text, args })
    }

    /// What the node of a number tells in this scope, where it breaks none of the rules that read the scope.
    pub fn read_scoped(
        &self,
        alloc: Global,
        scope: &[(Word, u16)],
        number: usize,
        node: &Doc,
    ) -> Result<NodeParts, TemplateStop>
        requires fits { ReaderFits self.now }
        requires few { length scope.now ≤ 65532 }
        requires number { number < 1024 }
        requires texts { rules.node_texts_fit (document node.now) ≡ true }
        requires formed { FormedBefore self.now.counted (documents self.now.nodes.now) (number + 1) }
        ensures parts { IfOk result (PartsFit self.now.model.now scope.now (document node.now)) }
        ensures none { IfOk result (λ _. scoped_broken self.now scope.now number (document node.now) ≡ []) }
        ensures fault { IfErr result (IsFirst (faults_at Nodes self.now.number number (scoped_broken self.now scope.now number (document node.now)))) }
    {
        let place = Place::inside(Part::Nodes, self.number, number);
        let each = self.read_each(alloc, place, scope, number, node)?;
        let queries = read_queries(alloc, place, self.model, scope, each, node)?;
        let texts = self.read_texts(alloc, place, scope, node)?;
        Ok(NodeParts { queries, texts })
    }
}
