//! The names and texts of a case.

ghost use Rattle.std.specs.Prelude.{◌≡◌, [], IfOk, IfErr, codes};
ghost use Rattle.meaning.specs.Documents.{member_of};
ghost use Rattle.meaning.specs.Texts as texts;
ghost use Rattle.meaning.specs.CaseReading as reading;
ghost use Rattle.doc_tree.specs.View.{document};
ghost use Rattle.lifted_case.specs.ReadFaults.{Finds, text_faults_in, name_faults_in, text_or_none, witness_texts, system_texts, finding_texts, node_texts};

use crate::faults::items::{ItemTest, all_pass, check_items, check_place, check_that, items_pass};
use crate::faults::names::first_bad_name;
use crate::members::{first_list, nth_text, text_of};
use crate::stop::ReadCaseStop;
use doc_tree::{Doc, Part};
use std::alloc::Global;

/// Whether the text has no control character.
fn is_text(text: &str) -> bool
    ensures { result ≡ texts.is_text text.now }
{
    text.as_bytes()
        .iter()
        .all(|byte| 32 <= *byte && *byte != 127)
}

/// A text that may be printed.
struct PlainText;

impl ItemTest for PlainText {
    ghost passes = { λ _ d. texts.is_text (text_or_none d) };

    fn passes(&self, item: &Doc) -> bool {
        is_text(text_of(item))
    }
}

/// A piece of a node's text.
struct PlainPiece;

impl ItemTest for PlainPiece {
    ghost passes = { λ _ d. reading.part_is_text (reading.part_of d) };

    fn passes(&self, item: &Doc) -> bool {
        match item.as_text() {
            Some(words) => is_text(words),
            None => true,
        }
    }
}

/// A witness of a finding, with the names of elements.
struct PlainWitness;

impl ItemTest for PlainWitness {
    ghost passes = { λ _ d. witness_texts d };

    fn passes(&self, item: &Doc) -> bool {
        all_pass(&PlainText, first_list(item))
    }
}

/// A transition of a system, with an action.
struct PlainTransition;

impl ItemTest for PlainTransition {
    ghost passes = { λ _ d. texts.is_text (reading.transition_of d).2 };

    fn passes(&self, item: &Doc) -> bool {
        is_text(nth_text(item, 2).unwrap_or(""))
    }
}

/// A system, with the names of its element, its states and its actions.
struct PlainSystem;

impl ItemTest for PlainSystem {
    ghost passes = { λ _ d. system_texts d };

    fn passes(&self, item: &Doc) -> bool {
        is_text(item.text_at("element"))
            && items_pass(&PlainText, item, "states")
            && items_pass(&PlainTransition, item, "transitions")
    }
}

/// Whether the expression and the names of a node's finding may be printed.
fn finding_is_text(node: &Doc) -> bool
    ensures { result ≡ reading.absent_or finding_texts (member_of (codes "finding") (document node.now)) }
{
    match node.member("finding") {
        Some(finding) => {
            items_pass(&PlainWitness, finding, "witnesses") && is_text(finding.text_at("expr"))
        }
        None => true,
    }
}

/// A node, with its key, its text, and the texts of its finding.
struct PlainNode;

impl ItemTest for PlainNode {
    ghost passes = { λ _ d. node_texts d };

    fn passes(&self, item: &Doc) -> bool {
        is_text(item.text_at("key"))
            && items_pass(&PlainPiece, item, "text")
            && finding_is_text(item)
    }
}

/// Stops at the first name that is none or stands twice, or at the first text with a control character.
pub fn check_texts(alloc: Global, doc: &Doc) -> Result<(), ReadCaseStop>
    ensures kept { IfOk result (λ _. text_faults_in (document doc.now) ≡ []) }
    ensures fault { IfErr result (Finds (text_faults_in (document doc.now))) }
{
    check_that(4, Part::Document, is_text(doc.text_at("title")))?;
    check_names(alloc, doc)?;
    check_items(4, Part::Systems, &PlainSystem, doc, "systems")?;
    check_items(4, Part::Nodes, &PlainNode, doc, "nodes")
}

/// Stops at the first feature whose name is none or stood before.
fn check_names(alloc: Global, doc: &Doc) -> Result<(), ReadCaseStop>
    ensures kept { IfOk result (λ _. name_faults_in (document doc.now) ≡ []) }
    ensures fault { IfErr result (Finds (name_faults_in (document doc.now))) }
{
    let place = first_bad_name(alloc, doc.list_at("features"))?;
    check_place(4, Part::Features, place)
}
