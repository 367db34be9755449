//! Reading the templates of a bundle.

ghost use Rattle.std.specs.Prelude.{◌≡◌, ◌+◌, ◌++◌, ◌≤◌, ◌<◌, [], Some, true, codes, length, map, take, IfOk, IfErr};
ghost use Rattle.std.specs.List.{All, slice_get};
ghost use Rattle.meaning.specs.Documents.{list_at};
ghost use Rattle.meaning.specs.BundlePlaces.{name_in};
ghost use Rattle.meaning.specs.TemplateTexts.{templates_of};
ghost use Rattle.meaning.specs.TemplateRules.{template_faults};
ghost use Rattle.doc_tree.specs.View.{document, documents};
ghost use Rattle.templates.specs.Faults.{IsFirst};
ghost use Rattle.templates.specs.View.{node_view, template_view};
ghost use Rattle.templates.specs.ListRules.{parameters_in, types_named, types_known, all_parameters_broken};
ghost use Rattle.templates.specs.NodeRules.{around, template_nodes_broken, all_nodes_broken};
ghost use Rattle.templates.specs.Wholes.{nodes_in, joined_views};
ghost use Rattle.templates.specs.ReadOver.{AreRead};
ghost use Rattle.templates.specs.declared.fault.TemplateStop.TheVariants.{NoMemory};

use crate::data::{TNode, Template};
use crate::fault::{Place, TemplateStop};
use crate::listed::read_names;
use crate::params::read_parameters;
use crate::reader::Reader;
use crate::support::support_of;
use annotated_model::Model;
use cond_text::Names;
use doc_tree::{Doc, Part, Row, Word};
use std::alloc::Global;

/// The templates of a bundle, in order. A number of a template is its place, from 0. They break no rule over the model that they were read over.
#[derive(Drop)]
pub struct Templates {
    list: Row<Template>,
}

impl std::marker::Model for Templates {
    ghost use Rattle.std.specs.Prelude.{List, map};
    ghost use Rattle.meaning.specs.Templates as meaning;
    ghost use Rattle.templates.specs.View.{template_view};
    ghost use Rattle.templates.specs.ReadOver.{AreRead};

    ghost Value = { List meaning.Template };

    ghost use Rattle.std.specs.Coded.{codes};
    ghost use Rattle.annotated_model.specs.ExpressionCode.{coded_expression};
    ghost use Rattle.templates.specs.PathCode.{coded_path};

    ghost coded = { Prim.hlevel (codes, coded_expression, coded_path) };

    ghost view = { λ t. map template_view t.list };

    ghost invariant = { λ t. AreRead (map template_view t.list) };
}

/// The parameters of the template with this number.
fn parameters_of(parameters: &[Row<(Word, u16)>], number: usize) -> &[(Word, u16)]
    requires number { number < length parameters.now }
    requires few { All (λ row. length row ≤ 8) parameters.now }
    ensures value { slice_get parameters.now number ≡ Some result.now }
    ensures few { length result.now ≤ 8 }
{
    parameters[number].list()
}

/// The nodes of the template with this number, behind so many nodes of earlier templates.
fn read_nodes(
    alloc: Global,
    model: &Model,
    docs: &[Doc],
    names: &Names,
    parameters: &[Row<(Word, u16)>],
    number: usize,
    counted: usize,
    template: &Doc,
) -> Result<Row<TNode>, TemplateStop>
    requires names { names.now ≡ map name_in (documents docs.now) }
    requires types { map (λ d. types_named model.now (list_at (codes "params") d)) (documents docs.now) ≡ map types_known parameters.now }
    requires values { parameters.now ≡ map (parameters_in model.now) (documents docs.now) }
    requires few { All (λ row. length row ≤ 8) parameters.now }
    requires number { number < length docs.now }
    requires item { slice_get docs.now number ≡ Some template.now }
    requires within { number < 256 }
    requires counted { counted ≤ 1024 }
    ensures value { IfOk result (λ row. map node_view row ≡ nodes_in model.now names.now (document template.now)) }
    ensures within { IfOk result (λ row. counted + length (list_at (codes "nodes") (document template.now)) ≤ 1024) }
    ensures none { IfOk result (λ row. template_nodes_broken (around model.now (documents (take number docs.now)) number counted (document template.now)) (document template.now) ≡ []) }
    ensures fault { IfErr result (IsFirst (template_nodes_broken (around model.now (documents (take number docs.now)) number counted (document template.now)) (document template.now))) }
{
    Place::item(Part::Nodes, number).require(2, template.may_have_list("nodes"))?;
    let nodes = template.list_at("nodes");
    let support = support_of(alloc, counted, nodes)?;
    let own = parameters_of(parameters, number);
    let reader = Reader {
        model,
        docs,
        names,
        all_parameters: parameters,
        number,
        parameters: own,
        counted,
        nodes,
        support: &support,
    };
    reader.read_nodes(alloc)
}

/// How many nodes a template has.
fn count(template: &Doc) -> usize
    ensures { result ≡ length (list_at (codes "nodes") (document template.now)) }
{
    template.list_at("nodes").len()
}

/// The nodes of each template.
fn read_all_nodes(
    alloc: Global,
    model: &Model,
    docs: &[Doc],
    names: &Names,
    parameters: &[Row<(Word, u16)>],
) -> Result<Vec<Row<TNode>>, TemplateStop>
    requires names { names.now ≡ map name_in (documents docs.now) }
    requires types { map (λ d. types_named model.now (list_at (codes "params") d)) (documents docs.now) ≡ map types_known parameters.now }
    requires values { parameters.now ≡ map (parameters_in model.now) (documents docs.now) }
    requires few { All (λ row. length row ≤ 8) parameters.now }
    requires within { length docs.now ≤ 256 }
    ensures values { IfOk result (λ rows. map (map node_view) rows.items ≡ map (nodes_in model.now names.now) (documents docs.now)) }
    ensures none { IfOk result (λ rows. all_nodes_broken model.now [] 0 0 (documents docs.now) ≡ []) }
    ensures fault { IfErr result (IsFirst (all_nodes_broken model.now [] 0 0 (documents docs.now))) }
{
    let mut rows = Vec::new(alloc);
    let mut counted = 0;
    'templates: for (number, template) in docs.iter().enumerate() {
        let row = read_nodes(
            alloc, model, docs, names, parameters, number, counted, template,
        )?;
        rows.push(row)?;
        counted += count(template);
    }
    Ok(rows)
}

/// The templates with these parameters and nodes.
fn joined(
    alloc: Global,
    docs: &[Doc],
    parameters: Vec<Row<(Word, u16)>>,
    nodes: Vec<Row<TNode>>,
) -> Result<Row<Template>, TemplateStop>
    requires parameters { length parameters.items ≡ length docs.now }
    requires nodes { length nodes.items ≡ length docs.now }
    ensures templates { IfOk result (λ row. map template_view row ≡ joined_views (documents docs.now) parameters.items (map (map node_view) nodes.items)) }
    ensures stop { IfErr result (λ stop. stop ≡ NoMemory) }
{
    let mut all = Vec::new(alloc);
    let mut more_parameters = parameters.into_iter();
    let mut more_nodes = nodes.into_iter();
    'templates: for template in docs {
        let Some(params) = more_parameters.next() else {
            unreachable!()
        };
        let Some(nodes) = more_nodes.next() else {
            unreachable!()
        };
        all.push(Template {
            name: Word::of(alloc, template.text_at("name"))?,
            params,
            nodes,
        })?;
    }
    Ok(Row::of(all))
}

/// The parameters and the nodes of the templates with these names, joined.
fn read_list(
    alloc: Global,
    model: &Model,
    docs: &[Doc],
    names: &Names,
) -> Result<Row<Template>, TemplateStop>
    requires names { names.now ≡ map name_in (documents docs.now) }
    requires types { length model.now.types ≤ 65536 }
    requires within { length docs.now ≤ 256 }
    ensures templates { IfOk result (λ row. map template_view row
        ≡ joined_views (documents docs.now) (map (parameters_in model.now) (documents docs.now)) (map (nodes_in model.now names.now) (documents docs.now))) }
    ensures parameters { IfOk result (λ _. all_parameters_broken model.now 0 (documents docs.now) ≡ []) }
    ensures nodes { IfOk result (λ _. all_nodes_broken model.now [] 0 0 (documents docs.now) ≡ []) }
    ensures fault { IfErr result (IsFirst (all_parameters_broken model.now 0 (documents docs.now) ++ all_nodes_broken model.now [] 0 0 (documents docs.now))) }
{
    let parameters = read_parameters(alloc, model, docs)?;
    let nodes = read_all_nodes(alloc, model, docs, names, parameters.as_slice())?;
    joined(alloc, docs, parameters, nodes)
}

impl Templates {
    /// The templates that a bundle holds over its model.
    ///
    /// What is told of templates with a fault is the first one: of the templates themselves, then of their parameters, then of their nodes, each
    /// template by template.
    pub fn read(alloc: Global, doc: &Doc, model: &Model) -> Result<Templates, TemplateStop>
        ensures ok { IfOk result (λ t. (t ≡ templates_of model.now (document doc.now)) × (template_faults model.now (document doc.now) ≡ [])) }
        ensures fault { IfErr result (IsFirst (template_faults model.now (document doc.now))) }
    {
        // A model has at most 256 types, so that each has a number of 16 bits.
        let _types = model.types();
        let names = read_names(alloc, doc)?;
        let docs = doc.list_at("templates");
        let list = read_list(alloc, model, docs, &names)?;
        Ok(Templates { list })
    }

    /// The templates.
    pub fn list(&self) -> &[Template]
        ensures templates { map template_view result.now ≡ self.now }
        ensures read { AreRead self.now }
    {
        self.list.list()
    }
}
