//! The relations, the systems and the table of a case.

ghost use Rattle.std.specs.Prelude.{◌≡◌, IfOk, OnOk, map};
ghost use Rattle.meaning.specs.CaseBytes.{relation_data, transition_data, system_data, row_data, list_data};
ghost use Rattle.meaning.specs.CaseBytes as bytes;
ghost use Rattle.doc_tree.specs.View.{document};
ghost use Rattle.gsn.specs.View.{relation_kind_of};
ghost use Rattle.conditions.specs.Tables.{case_row, case_rows};
ghost use Rattle.lifted_case.specs.Written.{IsWritten};
ghost use Rattle.lifted_case.specs.CaseWritten.{AddsMembers, id_in, relation_with, system_with};
ghost use Rattle.lifted_case.specs.CaseMembers.{members_of_relation, members_of_system};

use crate::case_ids::CaseIds;
use crate::case_members::{ids as list_ids, put, put_text, triple};
use crate::lifted::{LRel, LSystem};
use crate::tables::{list, number, table, text, texts};
use conditions::Cond;
use doc_tree::{Doc, NoMemory, Word};
use gsn::RelKind;
use std::alloc::Global;

/// The word for a kind of relation.
fn word(kind: RelKind) -> &'static str
    ensures { result.now ≡ bytes.relation_word (relation_kind_of kind) }
{
    match kind {
        RelKind::SupportedBy => "supported",
        RelKind::InContextOf => "context",
    }
}

/// Adds the members of a relation.
fn put_relation(
    alloc: Global,
    entries: &mut Vec<(Word, Doc)>,
    ids: &CaseIds,
    relation: &LRel<Cond>,
) -> Result<(), NoMemory>
    ensures { OnOk result (AddsMembers entries.old.items entries.new.items
        (members_of_relation (relation_with (id_in ids.now) relation.now))) }
{
    put(alloc, entries, "from", number(relation.from))?;
    put_text(alloc, entries, "kind", word(relation.kind))?;
    put(alloc, entries, "to", number(relation.to))?;
    put(alloc, entries, "when", number(ids.id(relation.when)))?;
    Ok(())
}

fn relation(alloc: Global, ids: &CaseIds, relation: &LRel<Cond>) -> Result<Doc, NoMemory>
    ensures { IfOk result (λ d. IsWritten (document d) (relation_data (relation_with (id_in ids.now) relation.now))) }
{
    let mut entries = Vec::new(alloc);
    put_relation(alloc, &mut entries, ids, relation)?;
    Ok(table(entries))
}

pub fn relations(alloc: Global, ids: &CaseIds, relations: &[LRel<Cond>]) -> Result<Doc, NoMemory>
    ensures { IfOk result (λ d. IsWritten (document d)
        (list_data relation_data (map (relation_with (id_in ids.now)) relations.now))) }
{
    let mut docs = Vec::new(alloc);
    'relations: for one in relations {
        docs.push(relation(alloc, ids, one)?)?;
    }
    Ok(list(docs))
}

fn transition(alloc: Global, transition: &(u16, u16, Word)) -> Result<Doc, NoMemory>
    ensures { IfOk result (λ d. IsWritten (document d) (transition_data transition.now)) }
{
    let (from, to, action) = transition;
    let action = text(alloc, action.text())?;
    let doc = triple(
        alloc,
        number(u32::from(*from)),
        number(u32::from(*to)),
        action,
    )?;
    Ok(doc)
}

fn transitions(alloc: Global, transitions: &[(u16, u16, Word)]) -> Result<Doc, NoMemory>
    ensures { IfOk result (λ d. IsWritten (document d) (list_data transition_data transitions.now)) }
{
    let mut docs = Vec::new(alloc);
    'transitions: for one in transitions {
        docs.push(transition(alloc, one)?)?;
    }
    Ok(list(docs))
}

/// Adds the members of a system.
fn put_system(
    alloc: Global,
    entries: &mut Vec<(Word, Doc)>,
    ids: &CaseIds,
    system: &LSystem<Cond>,
) -> Result<(), NoMemory>
    ensures { OnOk result (AddsMembers entries.old.items entries.new.items
        (members_of_system (system_with (id_in ids.now) system.now))) }
{
    put_text(alloc, entries, "element", system.element.text())?;
    let parents = list_ids(alloc, ids, system.parents.list())?;
    put(alloc, entries, "parents", parents)?;
    let reached = list_ids(alloc, ids, system.reached.list())?;
    put(alloc, entries, "reached", reached)?;
    let states = texts(alloc, system.states.list())?;
    put(alloc, entries, "states", states)?;
    let transitions = transitions(alloc, system.transitions.list())?;
    put(alloc, entries, "transitions", transitions)?;
    Ok(())
}

fn system(alloc: Global, ids: &CaseIds, system: &LSystem<Cond>) -> Result<Doc, NoMemory>
    ensures { IfOk result (λ d. IsWritten (document d) (system_data (system_with (id_in ids.now) system.now))) }
{
    let mut entries = Vec::new(alloc);
    put_system(alloc, &mut entries, ids, system)?;
    Ok(table(entries))
}

pub fn systems(alloc: Global, ids: &CaseIds, systems: &[LSystem<Cond>]) -> Result<Doc, NoMemory>
    ensures { IfOk result (λ d. IsWritten (document d)
        (list_data system_data (map (system_with (id_in ids.now)) systems.now))) }
{
    let mut docs = Vec::new(alloc);
    'systems: for one in systems {
        docs.push(system(alloc, ids, one)?)?;
    }
    Ok(list(docs))
}

fn row(alloc: Global, row: &(u16, u32, u32)) -> Result<Doc, NoMemory>
    ensures { IfOk result (λ d. IsWritten (document d) (row_data (case_row row.now))) }
{
    let (variable, low, high) = row;
    let doc = triple(
        alloc,
        number(u32::from(*variable)),
        number(*low),
        number(*high),
    )?;
    Ok(doc)
}

/// The rows of a table.
pub fn rows(alloc: Global, rows: &[(u16, u32, u32)]) -> Result<Doc, NoMemory>
    ensures { IfOk result (λ d. IsWritten (document d) (list_data row_data (case_rows rows.now))) }
{
    let mut docs = Vec::new(alloc);
    'rows: for one in rows {
        docs.push(row(alloc, one)?)?;
    }
    Ok(list(docs))
}
