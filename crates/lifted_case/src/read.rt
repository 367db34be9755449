//! From bytes to a case.

ghost use Rattle.std.specs.Prelude.{◌≡◌, [], true, Some, map, length, codes, IfOk, IfErr, Err};
ghost use Rattle.meaning.specs.CaseReading as reading;
ghost use Rattle.meaning.specs.CaseReading.{Is, Broken, case_document_of, has_list};
ghost use Rattle.meaning.specs.Documents.{list_at, text_at, texts_in};
ghost use Rattle.doc_tree.specs.View.{document};
ghost use Rattle.conditions.specs.TableRows.{bad_rows};
ghost use Rattle.conditions.specs.Tables.{case_rows};
ghost use Rattle.lifted_case.specs.CaseView.{case_document_of_read, case_node_of, case_relation_of, case_system_of, fault_view};
ghost use Rattle.lifted_case.specs.CaseRules.{KeepsCaseRules};
ghost use Rattle.lifted_case.specs.ReadFaults.{faults_in, TellsReading};

use crate::faults::check;
use crate::lifted::{CaseFault, LNode, LRel, LSystem, Lifted, ReadCase};
use crate::members::natural_at;
use crate::stop::ReadCaseStop;
use crate::values::lists::names;
use crate::values::nodes::{nodes, relations};
use crate::values::systems::systems;
use cond_text::Names;
use conditions::{Table, TableStop, read_table};
use doc_tree::{Doc, DocStop, NoMemory, Part, Row, Word, from_json};
use std::alloc::Global;

/// The file is no document with a table at the top.
const NO_CASE: CaseFault = CaseFault {
    fault: 1,
    part: Part::Document,
    item: 0,
    sub: 0,
};

/// The case that the bytes are, which are JSON (RFC 8259), or the first rule of case files that they break: the least by its number, then
/// by the place. An item past 4,294,967,295 is told as that number. `NoMemory` comes only where the memory doesn't hold what is read.
pub fn read_case(alloc: Global, bytes: &[u8]) -> Result<ReadCase, ReadCaseStop>
    ensures ok { IfOk result (λ c. reading.read_case bytes.now ≡ Is (case_document_of_read c)) }
    ensures rules { IfOk result KeepsCaseRules }
    ensures fault { (f : CaseFault) → result ≡ Err (ReadCaseStop.Fault f) → reading.read_case bytes.now ≡ Broken (fault_view f) }
{
    match from_json(alloc, bytes) {
        Ok(doc) => read_document(alloc, &doc),
        Err(DocStop::NotDocument) => Err(ReadCaseStop::Fault(NO_CASE)),
        Err(DocStop::NoMemory) => Err(ReadCaseStop::NoMemory),
    }
}

/// The case that a document is, or the first rule that it breaks.
fn read_document(alloc: Global, doc: &Doc) -> Result<ReadCase, ReadCaseStop>
    ensures ok { IfOk result (λ c. reading.read_document (Some (document doc.now)) ≡ Is (case_document_of_read c)) }
    ensures rules { IfOk result KeepsCaseRules }
    ensures fault { IfErr result (λ stop. TellsReading stop (reading.read_document (Some (document doc.now)))) }
{
    if !doc.is_table() {
        return Err(ReadCaseStop::Fault(NO_CASE));
    }
    check(alloc, doc)?;
    Ok(case_of(alloc, doc)?)
}

/// The case that a document without faults is.
fn case_of(alloc: Global, doc: &Doc) -> Result<ReadCase, NoMemory>
    requires { faults_in (document doc.now) ≡ [] }
    ensures document { IfOk result (λ c. case_document_of_read c ≡ case_document_of (document doc.now)) }
    ensures rules { IfOk result KeepsCaseRules }
{
    let items = read_items(alloc, doc)?;
    let (features, table) = features_and_table(alloc, doc)?;
    let lifted = Lifted {
        title: items.title,
        features,
        valid: natural_at(doc, "valid"),
        nodes: items.nodes,
        relations: items.relations,
        systems: items.systems,
    };
    Ok(ReadCase { lifted, table })
}

/// What a document has beside its features and its table.
#[derive(Drop)]
struct Items {
    title: Word,
    nodes: Row<LNode<u32>>,
    relations: Row<LRel<u32>>,
    systems: Row<LSystem<u32>>,
}

/// What a document without faults has beside them.
fn read_items(alloc: Global, doc: &Doc) -> Result<Items, NoMemory>
    requires { faults_in (document doc.now) ≡ [] }
    ensures title { IfOk result (λ i. i.title ≡ text_at (codes "title") (document doc.now)) }
    ensures nodes { IfOk result (λ i. map case_node_of i.nodes ≡ map reading.node_of (list_at (codes "nodes") (document doc.now))) }
    ensures relations { IfOk result (λ i. map case_relation_of i.relations ≡ map reading.relation_of (list_at (codes "relations") (document doc.now))) }
    ensures systems { IfOk result (λ i. map case_system_of i.systems ≡ map reading.system_of (list_at (codes "systems") (document doc.now))) }
{
    Ok(Items {
        title: Word::of(alloc, doc.text_at("title"))?,
        nodes: nodes(alloc, doc.list_at("nodes"))?,
        relations: relations(alloc, doc.list_at("relations"))?,
        systems: systems(alloc, doc.list_at("systems"))?,
    })
}

/// The features of a document without faults, and its table over them.
fn features_and_table(alloc: Global, doc: &Doc) -> Result<(Names, Table), NoMemory>
    requires { faults_in (document doc.now) ≡ [] }
    ensures features { IfOk result (λ x. x.0 ≡ texts_in (list_at (codes "features") (document doc.now))) }
    ensures rows { IfOk result (λ x. case_rows x.1.rows ≡ map reading.row_of (list_at (codes "table") (document doc.now))) }
    ensures over { IfOk result (λ x. x.1.features ≡ length x.0) }
{
    let features = names(alloc, doc.list_at("features"))?;
    let table = table(alloc, doc, features.count())?;
    Ok((features, table))
}

/// The table of a document over so many features, where it has one whose rows break no rule.
fn table(alloc: Global, doc: &Doc, features: u16) -> Result<Table, NoMemory>
    requires there { has_list (codes "table") (document doc.now) ≡ true }
    requires faultless { bad_rows features (list_at (codes "table") (document doc.now)) ≡ [] }
    ensures rows { IfOk result (λ t. case_rows t.rows ≡ map reading.row_of (list_at (codes "table") (document doc.now))) }
    ensures features { IfOk result (λ t. t.features ≡ features) }
{
    let Some(table) = doc.member("table") else {
        unreachable!()
    };
    match read_table(alloc, table, features) {
        Ok(table) => Ok(table),
        Err(TableStop::NoMemory) => Err(NoMemory),
        Err(
            TableStop::NotTriple(_)
            | TableStop::NotOrdered(_)
            | TableStop::NotReduced(_)
            | TableStop::Repeated(_),
        ) => unreachable!(),
    }
}
