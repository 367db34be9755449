//! What the nodes of a template tell of each other: whether all have their form, and which are supported.

ghost use Rattle.std.specs.Prelude.{◌≡◌, ◌+◌, ◌<◌, ◌≤◌, ◌&&◌, not, false, true, ℕ, None, [], length, vec_len, slice_index_or, if◌then◌else◌, IfOk, IfErr, IfSome};
ghost use Rattle.std.specs.List.{list_any};
ghost use Rattle.meaning.specs.Texts.{numbered};
ghost use Rattle.meaning.specs.ModelRules as model_rules;
ghost use Rattle.meaning.specs.TemplateRules as rules;
ghost use Rattle.doc_tree.specs.View.{document, documents};
ghost use Rattle.templates.specs.NodeRules.{form_with, all_formed, above_among, supports_node};
ghost use Rattle.templates.specs.Marks.{marked};
ghost use Rattle.templates.specs.declared.fault.TemplateStop.TheVariants.{NoMemory};

use crate::fault::TemplateStop;
use crate::kinds::node_word;
use crate::names::{add_new, is_known};
use crate::node_form::is_formed;
use cond_text::Names;
use doc_tree::Doc;
use std::alloc::Global;

/// The most nodes of a bundle.
pub const NODE_LIMIT: usize = 1024;

/// What the nodes of a template tell of each other.
#[derive(Drop)]
pub struct Support {
    /// Whether every node has its form.
    pub formed: bool,
    /// For each node, whether a node supports it, where every node has its form.
    pub marks: Vec<bool>,
}

/// The earlier node under which a node says it stands.
pub fn above_of(before: &Names, node: &Doc) -> Option<u16>
    ensures { result ≡ above_among before.now (document node.now) }
{
    match node.text_member("under") {
        Some(id) => before.find(id),
        None => None,
    }
}

/// The earlier node that a node supports.
fn supported_by(before: &Names, node: &Doc) -> Option<u16>
    ensures { result ≡ (if rules.supports (rules.kind_in (document node.now)) then above_among before.now (document node.now) else None) }
{
    if node_word(node).supports() {
        above_of(before, node)
    } else {
        None
    }
}

/// Marks a node, if there is one.
fn mark(marks: &mut Vec<bool>, number: Option<u16>)
    requires { IfSome number (λ n. n < vec_len marks.old) }
    ensures marks { marks.new.items ≡ marked number marks.old.items }
    ensures length { vec_len marks.new ≡ vec_len marks.old }
{
    if let Some(number) = number {
        marks[usize::from(number)] = true;
    }
}

/// Marks the nodes that a node supports, and tells whether every node has its form, behind so many nodes of earlier templates.
fn mark_supported(
    counted: usize,
    nodes: &[Doc],
    ids: &mut Names,
    marks: &mut Vec<bool>,
) -> Result<bool, TemplateStop>
    requires counted { counted ≤ 1024 }
    requires ids { ids.old ≡ [] }
    requires marks { marks.old.items ≡ [] }
    ensures formed { IfOk result (λ formed. formed ≡ all_formed counted (documents nodes.now)) }
    ensures marks { IfOk result (λ formed. formed ≡ true → (j : ℕ)
        → slice_index_or marks.new.items j false ≡ list_any (supports_node (documents nodes.now) j) (numbered (documents nodes.now))) }
    ensures stop { IfErr result (λ stop. stop ≡ NoMemory) }
{
    'nodes: for (number, node) in nodes.iter().enumerate() {
        let new = !is_known(ids, node.text_at("id"));
        if !is_formed(new, counted + number != NODE_LIMIT, node) {
            return Ok(false);
        }
        mark(marks, supported_by(ids, node));
        marks.push(false)?;
        add_new(ids, node.text_at("id"))?;
    }
    Ok(true)
}

/// What the nodes of a template tell of each other, behind so many nodes of earlier templates.
pub fn support_of(alloc: Global, counted: usize, nodes: &[Doc]) -> Result<Support, TemplateStop>
    requires { counted ≤ 1024 }
    ensures formed { IfOk result (λ support. support.formed ≡ all_formed counted (documents nodes.now)) }
    ensures marks { IfOk result (λ support. support.formed ≡ true → (j : ℕ)
        → slice_index_or support.marks.items j false ≡ list_any (supports_node (documents nodes.now) j) (numbered (documents nodes.now))) }
    ensures stop { IfErr result (λ stop. stop ≡ NoMemory) }
{
    let mut ids = Names::new(alloc);
    let mut marks = Vec::new(alloc);
    let formed = mark_supported(counted, nodes, &mut ids, &mut marks)?;
    Ok(Support { formed, marks })
}

/// Whether a node supports the node with this number, where every node has its form.
pub fn is_supported(support: &Support, number: usize) -> bool
    ensures { result ≡ (support.now.formed && slice_index_or support.now.marks.items number false) }
{
    support.formed && number < support.marks.len() && support.marks[number]
}
