//! The identifiers of conditions, which are those of the table.

ghost use Rattle.std.specs.Prelude.{◌≡◌, [], IfOk, IfErr, codes, nat_lt};
ghost use Rattle.meaning.specs.CaseReading as reading;
ghost use Rattle.meaning.specs.Documents.{member_of, natural_at};
ghost use Rattle.doc_tree.specs.View.{document};
ghost use Rattle.lifted_case.specs.ReadFaults.{Finds, id_below, finding_ids_below, node_ids_below, system_ids_below, id_faults_of, id_faults_in};

use crate::faults::items::{ItemTest, check_items, check_that, items_pass};
use crate::members::{as_natural, natural_at, nth_natural, size_at};
use crate::stop::ReadCaseStop;
use doc_tree::{Doc, Part};

/// Whether the number is below the number of identifiers.
fn is_below(id: u32, ids: usize) -> bool
    ensures { result ≡ nat_lt id ids }
{
    (id as usize) < ids
}

/// An identifier, where there are so many.
#[derive(Drop)]
struct IdBelow {
    ids: usize,
}

impl ItemTest for IdBelow {
    ghost passes = { λ t d. id_below t.ids d };

    fn passes(&self, item: &Doc) -> bool {
        is_below(as_natural(item).unwrap_or(0), self.ids)
    }
}

/// A target or a witness, with its identifier, where there are so many.
#[derive(Drop)]
struct SecondBelow {
    ids: usize,
}

impl ItemTest for SecondBelow {
    ghost passes = { λ t d. nat_lt (reading.target_of d).1 t.ids };

    fn passes(&self, item: &Doc) -> bool {
        is_below(nth_natural(item, 1).unwrap_or(0), self.ids)
    }
}

/// Whether the identifiers of a node's finding are among so many.
fn finding_ids_below(node: &Doc, ids: usize) -> bool
    ensures { result ≡ reading.absent_or (finding_ids_below ids) (member_of (codes "finding") (document node.now)) }
{
    match node.member("finding") {
        Some(finding) => {
            is_below(natural_at(finding, "refuted"), ids)
                && items_pass(&SecondBelow { ids }, finding, "targets")
                && items_pass(&SecondBelow { ids }, finding, "witnesses")
        }
        None => true,
    }
}

/// A node, with its identifiers.
#[derive(Drop)]
struct NodeIds {
    ids: usize,
}

impl ItemTest for NodeIds {
    ghost passes = { λ t d. node_ids_below t.ids d };

    fn passes(&self, item: &Doc) -> bool {
        let ids = self.ids;
        is_below(natural_at(item, "when"), ids)
            && items_pass(&IdBelow { ids }, item, "branches")
            && finding_ids_below(item, ids)
    }
}

/// A system, with its identifiers.
#[derive(Drop)]
struct SystemIds {
    ids: usize,
}

impl ItemTest for SystemIds {
    ghost passes = { λ t d. system_ids_below t.ids d };

    fn passes(&self, item: &Doc) -> bool {
        let ids = self.ids;
        items_pass(&IdBelow { ids }, item, "reached")
            && items_pass(&IdBelow { ids }, item, "parents")
    }
}

/// A relation, with its identifier.
#[derive(Drop)]
struct RelationId {
    ids: usize,
}

impl ItemTest for RelationId {
    ghost passes = { λ t d. nat_lt (natural_at (codes "when") d) t.ids };

    fn passes(&self, item: &Doc) -> bool {
        is_below(natural_at(item, "when"), self.ids)
    }
}

/// Stops at the first condition that the table doesn't have.
pub fn check_ids(doc: &Doc) -> Result<(), ReadCaseStop>
    ensures kept { IfOk result (λ _. id_faults_in (document doc.now) ≡ []) }
    ensures fault { IfErr result (Finds (id_faults_in (document doc.now))) }
{
    check_ids_below(doc, size_at(doc, "table") + 2)
}

/// Stops at the first condition that is none of so many.
fn check_ids_below(doc: &Doc, ids: usize) -> Result<(), ReadCaseStop>
    ensures kept { IfOk result (λ _. id_faults_of ids (document doc.now) ≡ []) }
    ensures fault { IfErr result (Finds (id_faults_of ids (document doc.now))) }
{
    check_items(6, Part::Systems, &SystemIds { ids }, doc, "systems")?;
    check_items(6, Part::Nodes, &NodeIds { ids }, doc, "nodes")?;
    check_that(6, Part::Valid, is_below(natural_at(doc, "valid"), ids))?;
    check_items(6, Part::Relations, &RelationId { ids }, doc, "relations")
}
