//! The forms of the members of a case.

ghost use Rattle.std.specs.Prelude.{◌≡◌, [], IfOk, IfErr, false, codes, option_map, unwrap_or, ◌||◌};
ghost use Rattle.meaning.specs.Documents.{member_of};
ghost use Rattle.meaning.specs.CaseReading as reading;
ghost use Rattle.doc_tree.specs.View.{document};
ghost use Rattle.lifted_case.specs.ReadFaults.{Finds};

use crate::faults::items::{
    ItemTest, check_items, check_that, has_list_of, is_list_of, may_have_list_of,
};
use crate::members::{
    as_natural, has_length, has_list, has_natural, has_text, nth, nth_natural, nth_text,
};
use crate::stop::ReadCaseStop;
use doc_tree::{Doc, Part};

/// A text.
struct Text;

impl ItemTest for Text {
    ghost passes = { λ _ d. reading.is_text_value d };

    fn passes(&self, item: &Doc) -> bool {
        item.is_text()
    }
}

/// A number.
struct Natural;

impl ItemTest for Natural {
    ghost passes = { λ _ d. reading.is_natural_value d };

    fn passes(&self, item: &Doc) -> bool {
        as_natural(item).is_some()
    }
}

/// A piece of a node's text: words, or 0 for the number of its branches.
struct Piece;

impl ItemTest for Piece {
    ghost passes = { λ _ d. reading.is_text_value d || reading.is_zero_value d };

    fn passes(&self, item: &Doc) -> bool {
        item.is_text() || is_zero(item)
    }
}

fn is_zero(doc: &Doc) -> bool
    ensures { result ≡ reading.is_zero_value (document doc.now) }
{
    as_natural(doc) == Some(0)
}

/// A target of a finding: a state, and where it is reached.
struct Target;

impl ItemTest for Target {
    ghost passes = { λ _ d. reading.is_target d };

    fn passes(&self, item: &Doc) -> bool {
        has_length(item, 2) && nth_natural(item, 0).is_some() && nth_natural(item, 1).is_some()
    }
}

/// A witness of a finding: the names of elements, and where they answer first.
struct Witness;

impl ItemTest for Witness {
    ghost passes = { λ _ d. reading.is_witness d };

    fn passes(&self, item: &Doc) -> bool {
        has_length(item, 2) && begins_with_texts(item) && nth_natural(item, 1).is_some()
    }
}

/// Whether the first item of a list is a list of texts.
fn begins_with_texts(doc: &Doc) -> bool
    ensures { result ≡ unwrap_or (option_map (reading.is_list_of reading.is_text_value) (reading.nth 0 (document doc.now))) false }
{
    match nth(doc, 0) {
        Some(names) => is_list_of(&Text, names),
        None => false,
    }
}

/// A transition of a system: the state before, the state behind, and its action.
struct Transition;

impl ItemTest for Transition {
    ghost passes = { λ _ d. reading.is_transition d };

    fn passes(&self, item: &Doc) -> bool {
        has_length(item, 3)
            && nth_natural(item, 0).is_some()
            && nth_natural(item, 1).is_some()
            && nth_text(item, 2).is_some()
    }
}

/// A system.
struct System;

impl ItemTest for System {
    ghost passes = { λ _ d. reading.is_system d };

    fn passes(&self, item: &Doc) -> bool {
        item.is_table()
            && has_text(item, "element")
            && has_list_of(&Text, item, "states")
            && has_list_of(&Natural, item, "reached")
            && has_list_of(&Transition, item, "transitions")
            && has_list_of(&Natural, item, "parents")
    }
}

fn is_finding(doc: &Doc) -> bool
    ensures { result ≡ reading.is_finding (document doc.now) }
{
    doc.is_table()
        && has_text(doc, "check")
        && has_natural(doc, "refuted")
        && doc.may_have_text("expr")
        && may_have_natural(doc, "system")
        && may_have_list_of(&Target, doc, "targets")
        && may_have_list_of(&Witness, doc, "witnesses")
}

/// Whether the member is a number, if it is there.
fn may_have_natural(doc: &Doc, name: &str) -> bool
    ensures { result ≡ reading.absent_or reading.is_natural_value (member_of name.now (document doc.now)) }
{
    match doc.member(name) {
        Some(value) => as_natural(value).is_some(),
        None => true,
    }
}

/// Whether the member is a finding, if it is there.
fn may_have_finding(doc: &Doc) -> bool
    ensures { result ≡ reading.absent_or reading.is_finding (member_of (codes "finding") (document doc.now)) }
{
    match doc.member("finding") {
        Some(finding) => is_finding(finding),
        None => true,
    }
}

/// A node.
struct Node;

impl ItemTest for Node {
    ghost passes = { λ _ d. reading.is_node d };

    fn passes(&self, item: &Doc) -> bool {
        item.is_table()
            && has_text(item, "key")
            && has_text(item, "kind")
            && has_natural(item, "when")
            && has_list_of(&Piece, item, "text")
            && may_have_list_of(&Natural, item, "branches")
            && item.may_have_truth("undeveloped")
            && may_have_finding(item)
    }
}

/// A relation.
struct Relation;

impl ItemTest for Relation {
    ghost passes = { λ _ d. reading.is_relation d };

    fn passes(&self, item: &Doc) -> bool {
        item.is_table()
            && has_natural(item, "from")
            && has_natural(item, "to")
            && has_text(item, "kind")
            && has_natural(item, "when")
    }
}

/// Whether the members at the top are there, the lists among them as lists.
fn top_is_formed(doc: &Doc) -> bool
    ensures { result ≡ reading.top_is_formed (document doc.now) }
{
    has_natural(doc, "case")
        && has_text(doc, "title")
        && doc.has("valid")
        && has_list(doc, "features")
        && has_list(doc, "nodes")
        && has_list(doc, "relations")
        && has_list(doc, "systems")
        && has_list(doc, "table")
}

/// Stops at the first needed member that is absent, or that has another form.
pub fn check_forms(doc: &Doc) -> Result<(), ReadCaseStop>
    ensures kept { IfOk result (λ _. reading.form_faults (document doc.now) ≡ []) }
    ensures fault { IfErr result (Finds (reading.form_faults (document doc.now))) }
{
    check_that(2, Part::Document, top_is_formed(doc))?;
    check_items(2, Part::Features, &Text, doc, "features")?;
    check_items(2, Part::Systems, &System, doc, "systems")?;
    check_items(2, Part::Nodes, &Node, doc, "nodes")?;
    check_that(2, Part::Valid, has_natural(doc, "valid"))?;
    check_items(2, Part::Relations, &Relation, doc, "relations")
}
