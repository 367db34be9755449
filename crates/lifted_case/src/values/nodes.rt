//! The nodes of a case, and its relations.

ghost use Rattle.std.specs.Prelude.{◌≡◌, IfOk, map, option_map, codes};
ghost use Rattle.std.specs.List.{All};
ghost use Rattle.meaning.specs.Documents.{member_of, natural_at};
ghost use Rattle.meaning.specs.CaseReading as reading;
ghost use Rattle.gsn.specs.View.{relation_kind_of};
ghost use Rattle.doc_tree.specs.View.{document, documents};
ghost use Rattle.lifted_case.specs.CaseView.{check_of, finding_of, case_node_of, case_relation_of};
ghost use Rattle.lifted_case.specs.SmallNumbers.{IsNarrow, FindingIsNarrow, NodeIsNarrow};

use crate::lifted::{LCheck, LFinding, LNode, LRel};
use crate::members::natural_at;
use crate::values::lists::{narrow, naturals, pieces, targets, witnesses};
use crate::words::{CheckWord, check_named, kind_at, relation_named};
use doc_tree::{Doc, NoMemory, Row, Word};
use gsn::RelKind;
use std::alloc::Global;

/// What a finding checks.
fn check(alloc: Global, doc: &Doc) -> Result<LCheck, NoMemory>
    requires { IsNarrow (natural_at (codes "system") (document doc.now)) }
    ensures { IfOk result (λ check. check_of check ≡ (reading.finding_of (document doc.now)).check) }
{
    match check_named(doc.text_at("check")) {
        Some(CheckWord::Never) => {
            let system = narrow(natural_at(doc, "system"));
            let property = Word::of(alloc, doc.text_at("expr"))?;
            Ok(LCheck::Never(system, property))
        }
        Some(CheckWord::Deadlock) => Ok(LCheck::NoDeadlock(narrow(natural_at(doc, "system")))),
        Some(CheckWord::NoAnswer) | None => Ok(LCheck::NoAnswer),
        Some(CheckWord::SomeAnswer) => Ok(LCheck::SomeAnswer),
    }
}

fn finding(alloc: Global, doc: &Doc) -> Result<LFinding<u32>, NoMemory>
    requires { FindingIsNarrow (document doc.now) }
    ensures { IfOk result (λ finding. finding_of finding ≡ reading.finding_of (document doc.now)) }
{
    Ok(LFinding {
        check: check(alloc, doc)?,
        refuted: natural_at(doc, "refuted"),
        targets: targets(alloc, doc.list_at("targets"))?,
        witnesses: witnesses(alloc, doc.list_at("witnesses"))?,
    })
}

/// The finding of a node, if it has one.
fn finding_at(alloc: Global, node: &Doc) -> Result<Option<LFinding<u32>>, NoMemory>
    requires { NodeIsNarrow (document node.now) }
    ensures { IfOk result (λ f. option_map finding_of f ≡ option_map reading.finding_of (member_of (codes "finding") (document node.now))) }
{
    match node.member("finding") {
        Some(doc) => Ok(Some(finding(alloc, doc)?)),
        None => Ok(None),
    }
}

fn node(alloc: Global, doc: &Doc) -> Result<LNode<u32>, NoMemory>
    requires { NodeIsNarrow (document doc.now) }
    ensures { IfOk result (λ node. case_node_of node ≡ reading.node_of (document doc.now)) }
{
    Ok(LNode {
        key: Word::of(alloc, doc.text_at("key"))?,
        kind: kind_at(doc),
        text: pieces(alloc, doc.list_at("text"))?,
        when: natural_at(doc, "when"),
        undeveloped: doc.truth_at("undeveloped"),
        branches: naturals(alloc, doc.list_at("branches"))?,
        finding: finding_at(alloc, doc)?,
    })
}

pub fn nodes(alloc: Global, docs: &[Doc]) -> Result<Row<LNode<u32>>, NoMemory>
    requires { All (λ doc. NodeIsNarrow (document doc)) docs.now }
    ensures { IfOk result (λ nodes. map case_node_of nodes ≡ map reading.node_of (documents docs.now)) }
{
    let mut nodes = Vec::new(alloc);
    'docs: for doc in docs {
        nodes.push(node(alloc, doc)?)?;
    }
    Ok(Row::of(nodes))
}

/// The kind of a relation, and support where its word is unknown.
fn relation_kind(relation: &Doc) -> RelKind
    ensures { relation_kind_of result ≡ (reading.relation_of (document relation.now)).kind }
{
    relation_named(relation.text_at("kind")).unwrap_or(RelKind::SupportedBy)
}

fn relation(doc: &Doc) -> LRel<u32>
    ensures { case_relation_of result ≡ reading.relation_of (document doc.now) }
{
    LRel {
        from: natural_at(doc, "from"),
        to: natural_at(doc, "to"),
        kind: relation_kind(doc),
        when: natural_at(doc, "when"),
    }
}

pub fn relations(alloc: Global, docs: &[Doc]) -> Result<Row<LRel<u32>>, NoMemory>
    ensures { IfOk result (λ relations. map case_relation_of relations ≡ map reading.relation_of (documents docs.now)) }
{
    let mut relations = Vec::new(alloc);
    'docs: for doc in docs {
        relations.push(relation(doc))?;
    }
    Ok(Row::of(relations))
}
