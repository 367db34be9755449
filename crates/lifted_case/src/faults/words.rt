//! The words for kinds and checks.

ghost use Rattle.std.specs.Prelude.{◌≡◌, ◌&&◌, [], IfOk, IfErr, codes, is_some};
ghost use Rattle.meaning.specs.CaseReading as reading;
ghost use Rattle.meaning.specs.Documents.{text_at};
ghost use Rattle.doc_tree.specs.View.{document};
ghost use Rattle.lifted_case.specs.ReadFaults.{Finds};

use crate::faults::items::{ItemTest, check_items};
use crate::stop::ReadCaseStop;
use crate::words::{check_named, kind_named, relation_named};
use doc_tree::{Doc, Part};

/// Whether the check of a node's finding is known.
fn check_word_known(node: &Doc) -> bool
    ensures { result ≡ reading.check_word_known (document node.now) }
{
    match node.member("finding") {
        Some(finding) => check_named(finding.text_at("check")).is_some(),
        None => true,
    }
}

/// A node whose kind and check are known.
struct KnownNode;

impl ItemTest for KnownNode {
    ghost passes = { λ _ d. is_some (reading.kind_named (text_at (codes "kind") d)) && reading.check_word_known d };

    fn passes(&self, item: &Doc) -> bool {
        kind_named(item.text_at("kind")).is_some() && check_word_known(item)
    }
}

/// A relation whose kind is known.
struct KnownRelation;

impl ItemTest for KnownRelation {
    ghost passes = { λ _ d. is_some (reading.relation_named (text_at (codes "kind") d)) };

    fn passes(&self, item: &Doc) -> bool {
        relation_named(item.text_at("kind")).is_some()
    }
}

/// Stops at the first word that is unknown.
pub fn check_words(doc: &Doc) -> Result<(), ReadCaseStop>
    ensures kept { IfOk result (λ _. reading.word_faults (document doc.now) ≡ []) }
    ensures fault { IfErr result (Finds (reading.word_faults (document doc.now))) }
{
    check_items(7, Part::Nodes, &KnownNode, doc, "nodes")?;
    check_items(7, Part::Relations, &KnownRelation, doc, "relations")
}
