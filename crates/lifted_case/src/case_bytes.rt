//! The bytes of a case.

ghost use Rattle.std.specs.Prelude.{◌≡◌, ◌<◌, ◌≤◌, Some, length, IfOk, OnOk};
ghost use Rattle.std.specs.List.{All};
ghost use Rattle.meaning.specs.CaseFiles.{CaseDocument};
ghost use Rattle.meaning.specs.CaseBytes.{case_bytes, case_data};
ghost use Rattle.meaning.specs.CaseReading.{read_case, Is};
ghost use Rattle.meaning.specs.Documents.{Json, document_of, of_json};
ghost use Rattle.doc_tree.specs.View.{document};
ghost use Rattle.conditions.specs.Diagrams.{algebra_of};
ghost use Rattle.conditions.specs.Tables.{case_rows};
ghost use Rattle.lifted_case.specs.declared.case_bytes.CaseStop.TheVariants.{NoMemory};
ghost use Rattle.lifted_case.specs.Written.{IsWritten};
ghost use Rattle.lifted_case.specs.CaseContents.{BreaksNoRule, TextsAreJoined};
ghost use Rattle.lifted_case.specs.CaseWritten.{AddsMembers, conditions_in, document_with, id_in, IsWrittenFrom, most_bytes};
ghost use Rattle.lifted_case.specs.CaseMembers.{members_of_case};

use crate::case_ids::{CaseIds, case_ids};
use crate::case_members::{names, put, put_text};
use crate::case_nodes::nodes;
use crate::case_systems::{relations, rows, systems};
use crate::case_walk::case_walk;
use crate::lifted::Lifted;
use crate::tables::{number, table};
use conditions::{Cond, Diagrams, Table};
use doc_tree::{Doc, NoMemory, Word};
use std::alloc::{AllocFailed, Global};

/// The most bytes of a case: 67,108,864.
const MOST_BYTES: usize = 67_108_864;

/// Why a case was not written.
#[derive(Clone, Copy, Debug, PartialEq, Eq)]
pub enum CaseStop {
    /// The bytes are more than the most of a case.
    BigCase,
    NoMemory,
}

impl From<NoMemory> for CaseStop {
    ghost from_gives = { λ e stop. stop ≡ NoMemory };

    fn from(_: NoMemory) -> CaseStop {
        CaseStop::NoMemory
    }
}

/// Adds the members of a case.
fn put_members(
    alloc: Global,
    entries: &mut Vec<(Word, Doc)>,
    case: &Lifted<Cond>,
    conditions: &Table,
    ids: &CaseIds,
) -> Result<(), NoMemory>
    ensures { OnOk result (AddsMembers entries.old.items entries.new.items
        (members_of_case (document_with (id_in ids.now) (case_rows conditions.now.rows) case.now))) }
{
    put(alloc, entries, "case", number(1))?;
    let features = names(alloc, &case.features)?;
    put(alloc, entries, "features", features)?;
    let nodes = nodes(alloc, ids, case.nodes.list())?;
    put(alloc, entries, "nodes", nodes)?;
    let relations = relations(alloc, ids, case.relations.list())?;
    put(alloc, entries, "relations", relations)?;
    let systems = systems(alloc, ids, case.systems.list())?;
    put(alloc, entries, "systems", systems)?;
    let rows = rows(alloc, conditions.rows())?;
    put(alloc, entries, "table", rows)?;
    put_text(alloc, entries, "title", case.title.text())?;
    put(alloc, entries, "valid", number(ids.id(case.valid)))?;
    Ok(())
}

fn case_doc(
    alloc: Global,
    case: &Lifted<Cond>,
    conditions: &Table,
    ids: &CaseIds,
) -> Result<Doc, NoMemory>
    ensures { IfOk result (λ d. IsWritten (document d)
        (case_data (document_with (id_in ids.now) (case_rows conditions.now.rows) case.now))) }
{
    let mut entries = Vec::new(alloc);
    put_members(alloc, &mut entries, case, conditions, ids)?;
    Ok(table(entries))
}

/// The document of the case, with the identifiers of a table of its conditions.
fn written_doc(alloc: Global, case: &Lifted<Cond>, d: &Diagrams) -> Result<Doc, NoMemory>
    requires features { d.now.region.vars ≡ length case.now.features }
    requires live { All (algebra_of d.now).live (conditions_in case.now) }
    requires texts { TextsAreJoined case.now }
    ensures { IfOk result (λ doc. (k : CaseDocument) × IsWrittenFrom d.now.region case.now k × IsWritten (document doc) (case_data k)) }
{
    let roots = case_walk(alloc, case)?;
    let (table, ids) = case_ids(alloc, d, roots.as_slice())?;
    let doc = case_doc(alloc, case, &table, &ids)?;
    Ok(doc)
}

/// The bytes of the case's document, however many.
fn all_bytes(alloc: Global, case: &Lifted<Cond>, d: &Diagrams) -> Result<Vec<u8>, NoMemory>
    requires features { d.now.region.vars ≡ length case.now.features }
    requires live { All (algebra_of d.now).live (conditions_in case.now) }
    requires texts { TextsAreJoined case.now }
    ensures { IfOk result (λ v. (k : CaseDocument) × IsWrittenFrom d.now.region case.now k × (v.items ≡ case_bytes k) × (document_of Json v.items ≡ Some (of_json (case_data k)))) }
{
    let doc = written_doc(alloc, case, d)?;
    let mut bytes = doc.to_json(alloc)?;
    bytes.push(b'\n')?;
    Ok(bytes)
}

/// The bytes of a case: the compact JSON of its document with the members in byte order, and a newline. The document's table has the rows
/// below the case's conditions, in the order in which a walk over them first leaves each row, low before high before the row; the order of
/// the conditions is that of `valid`, the nodes, the relations and the systems. So the bytes depend on the case's contents and the truth of
/// its conditions alone, and not on how `d` came to them.
///
/// `BigCase` comes exactly where the bytes are more than 67,108,864.
pub fn write_case(alloc: Global, case: &Lifted<Cond>, d: &Diagrams) -> Result<Vec<u8>, CaseStop>
    requires features { d.now.region.vars ≡ length case.now.features }
    requires live { All (algebra_of d.now).live (conditions_in case.now) }
    requires rules { BreaksNoRule case.now }
    requires texts { TextsAreJoined case.now }
    ensures ok { IfOk result (λ v. (k : CaseDocument) × IsWrittenFrom d.now.region case.now k × (v.items ≡ case_bytes k) × (length v.items ≤ most_bytes) × (read_case v.items ≡ Is k)) }
    ensures big { result ≡ Err CaseStop.BigCase → (k : CaseDocument) × IsWrittenFrom d.now.region case.now k × (most_bytes < length (case_bytes k))
        × (document_of Json (case_bytes k) ≡ Some (of_json (case_data k))) }
{
    let bytes = all_bytes(alloc, case, d)?;
    if bytes.len() > MOST_BYTES {
        return Err(CaseStop::BigCase);
    }
    Ok(bytes)
}
