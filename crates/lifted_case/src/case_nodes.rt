//! The nodes of a case.

ghost use Rattle.std.specs.Prelude.{◌≡◌, IfOk, OnOk, map, option_map};
ghost use Rattle.meaning.specs.Cases.{kind_word};
ghost use Rattle.meaning.specs.CaseBytes.{part_data, node_data, branch_members, finding_member, list_data};
ghost use Rattle.doc_tree.specs.View.{document};
ghost use Rattle.gsn.specs.View.{kind_of};
ghost use Rattle.lifted_case.specs.CaseView.{case_part_of};
ghost use Rattle.lifted_case.specs.Written.{IsWritten};
ghost use Rattle.lifted_case.specs.CaseWritten.{AddsMembers, id_in, finding_with, node_with};
ghost use Rattle.lifted_case.specs.CaseMembers.{members_of_node, undeveloped_members};

use crate::case_findings::finding;
use crate::case_ids::CaseIds;
use crate::case_members::{ids as list_ids, mark, put, put_text};
use crate::lifted::{LFinding, LNode, LPart};
use crate::tables::{list, number, table, text};
use conditions::Cond;
use doc_tree::{Doc, NoMemory, Word};
use gsn::NodeKind;
use std::alloc::Global;

fn part(alloc: Global, part: &LPart) -> Result<Doc, NoMemory>
    ensures { IfOk result (λ d. IsWritten (document d) (part_data (case_part_of part.now))) }
{
    match part {
        LPart::Words(words) => Ok(text(alloc, words.text())?),
        LPart::Count => Ok(number(0)),
    }
}

fn parts(alloc: Global, parts: &[LPart]) -> Result<Doc, NoMemory>
    ensures { IfOk result (λ d. IsWritten (document d) (list_data part_data (map case_part_of parts.now))) }
{
    let mut docs = Vec::new(alloc);
    'parts: for one in parts {
        docs.push(part(alloc, one)?)?;
    }
    Ok(list(docs))
}

/// The word for a kind of node.
fn word(kind: NodeKind) -> &'static str
    ensures { result.now ≡ kind_word (kind_of kind) }
{
    match kind {
        NodeKind::Goal => "goal",
        NodeKind::Strategy => "strategy",
        NodeKind::Solution => "solution",
        NodeKind::Context => "context",
        NodeKind::Assumption => "assumption",
        NodeKind::Justification => "justification",
    }
}

/// Adds the branches, if there are any.
fn put_branches(
    alloc: Global,
    ids: &CaseIds,
    entries: &mut Vec<(Word, Doc)>,
    branches: &[Cond],
) -> Result<(), NoMemory>
    ensures { OnOk result (AddsMembers entries.old.items entries.new.items
        (branch_members (map (id_in ids.now) branches.now))) }
{
    if branches.is_empty() {
        return Ok(());
    }
    let branches = list_ids(alloc, ids, branches)?;
    put(alloc, entries, "branches", branches)?;
    Ok(())
}

/// Adds the finding, if there is one.
fn put_finding(
    alloc: Global,
    ids: &CaseIds,
    entries: &mut Vec<(Word, Doc)>,
    found: &Option<LFinding<Cond>>,
) -> Result<(), NoMemory>
    ensures { OnOk result (AddsMembers entries.old.items entries.new.items
        (finding_member (option_map (finding_with (id_in ids.now)) found.now))) }
{
    match found {
        Some(found) => {
            let found = finding(alloc, ids, found)?;
            put(alloc, entries, "finding", found)?;
            Ok(())
        }
        None => Ok(()),
    }
}

/// Adds the mark of a node that is undeveloped.
fn put_undeveloped(
    alloc: Global,
    entries: &mut Vec<(Word, Doc)>,
    undeveloped: bool,
) -> Result<(), NoMemory>
    ensures { OnOk result (AddsMembers entries.old.items entries.new.items (undeveloped_members undeveloped)) }
{
    if undeveloped {
        put(alloc, entries, "undeveloped", mark())?;
    }
    Ok(())
}

/// Adds the members of a node.
fn put_members(
    alloc: Global,
    entries: &mut Vec<(Word, Doc)>,
    ids: &CaseIds,
    node: &LNode<Cond>,
) -> Result<(), NoMemory>
    ensures { OnOk result (AddsMembers entries.old.items entries.new.items
        (members_of_node (node_with (id_in ids.now) node.now))) }
{
    put_branches(alloc, ids, entries, node.branches.list())?;
    put_finding(alloc, ids, entries, &node.finding)?;
    put_text(alloc, entries, "key", node.key.text())?;
    put_text(alloc, entries, "kind", word(node.kind))?;
    let parts = parts(alloc, node.text.list())?;
    put(alloc, entries, "text", parts)?;
    put_undeveloped(alloc, entries, node.undeveloped)?;
    put(alloc, entries, "when", number(ids.id(node.when)))?;
    Ok(())
}

fn node(alloc: Global, ids: &CaseIds, node: &LNode<Cond>) -> Result<Doc, NoMemory>
    ensures { IfOk result (λ d. IsWritten (document d) (node_data (node_with (id_in ids.now) node.now))) }
{
    let mut entries = Vec::new(alloc);
    put_members(alloc, &mut entries, ids, node)?;
    Ok(table(entries))
}

pub fn nodes(alloc: Global, ids: &CaseIds, nodes: &[LNode<Cond>]) -> Result<Doc, NoMemory>
    ensures { IfOk result (λ d. IsWritten (document d)
        (list_data node_data (map (node_with (id_in ids.now)) nodes.now))) }
{
    let mut docs = Vec::new(alloc);
    'nodes: for one in nodes {
        docs.push(node(alloc, ids, one)?)?;
    }
    Ok(list(docs))
}
