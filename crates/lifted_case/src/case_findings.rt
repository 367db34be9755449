//! The findings of a case's solutions.

ghost use Rattle.std.specs.Prelude.{◌≡◌, IfOk, OnOk, map};
ghost use Rattle.serde_json.specs.Data.{object};
ghost use Rattle.meaning.specs.CaseBytes.{target_data, witness_data, list_data, members_of, finding_members};
ghost use Rattle.doc_tree.specs.View.{document};
ghost use Rattle.lifted_case.specs.CaseView.{check_of};
ghost use Rattle.lifted_case.specs.Written.{IsWritten};
ghost use Rattle.lifted_case.specs.CaseWritten.{AddsMembers, id_in, target_with, witness_with, finding_with};
ghost use Rattle.lifted_case.specs.CaseMembers.{system_members, query_members};

use crate::case_ids::CaseIds;
use crate::case_members::{pair, put, put_text};
use crate::lifted::{LCheck, LFinding};
use crate::tables::{list, number, table, texts};
use conditions::Cond;
use doc_tree::{Doc, NoMemory, Row, Word};
use std::alloc::Global;

fn target(alloc: Global, ids: &CaseIds, target: &(u16, Cond)) -> Result<Doc, NoMemory>
    ensures { IfOk result (λ d. IsWritten (document d) (target_data (target_with (id_in ids.now) target.now))) }
{
    let (state, condition) = target;
    let doc = pair(alloc, number(u32::from(*state)), number(ids.id(*condition)))?;
    Ok(doc)
}

fn targets(alloc: Global, ids: &CaseIds, targets: &[(u16, Cond)]) -> Result<Doc, NoMemory>
    ensures { IfOk result (λ d. IsWritten (document d)
        (list_data target_data (map (target_with (id_in ids.now)) targets.now))) }
{
    let mut docs = Vec::new(alloc);
    'targets: for one in targets {
        docs.push(target(alloc, ids, one)?)?;
    }
    Ok(list(docs))
}

fn witness(alloc: Global, ids: &CaseIds, witness: &(Row<Word>, Cond)) -> Result<Doc, NoMemory>
    ensures { IfOk result (λ d. IsWritten (document d) (witness_data (witness_with (id_in ids.now) witness.now))) }
{
    let (names, condition) = witness;
    let names = texts(alloc, names.list())?;
    let doc = pair(alloc, names, number(ids.id(*condition)))?;
    Ok(doc)
}

fn witnesses(alloc: Global, ids: &CaseIds, witnesses: &[(Row<Word>, Cond)]) -> Result<Doc, NoMemory>
    ensures { IfOk result (λ d. IsWritten (document d)
        (list_data witness_data (map (witness_with (id_in ids.now)) witnesses.now))) }
{
    let mut docs = Vec::new(alloc);
    'witnesses: for one in witnesses {
        docs.push(witness(alloc, ids, one)?)?;
    }
    Ok(list(docs))
}

/// Adds what is refuted, and in which states of which system.
fn put_system(
    alloc: Global,
    ids: &CaseIds,
    entries: &mut Vec<(Word, Doc)>,
    finding: &LFinding<Cond>,
    system: u16,
) -> Result<(), NoMemory>
    ensures { OnOk result (AddsMembers entries.old.items entries.new.items
        (system_members (finding_with (id_in ids.now) finding.now) system)) }
{
    put(alloc, entries, "refuted", number(ids.id(finding.refuted)))?;
    put(alloc, entries, "system", number(u32::from(system)))?;
    let targets = targets(alloc, ids, finding.targets.list())?;
    put(alloc, entries, "targets", targets)?;
    Ok(())
}

/// Adds what is refuted, and by which answers.
fn put_query(
    alloc: Global,
    ids: &CaseIds,
    entries: &mut Vec<(Word, Doc)>,
    finding: &LFinding<Cond>,
) -> Result<(), NoMemory>
    ensures { OnOk result (AddsMembers entries.old.items entries.new.items
        (query_members (finding_with (id_in ids.now) finding.now))) }
{
    put(alloc, entries, "refuted", number(ids.id(finding.refuted)))?;
    let witnesses = witnesses(alloc, ids, finding.witnesses.list())?;
    put(alloc, entries, "witnesses", witnesses)?;
    Ok(())
}

/// Adds the members that go by the check.
fn put_finding(
    alloc: Global,
    ids: &CaseIds,
    entries: &mut Vec<(Word, Doc)>,
    finding: &LFinding<Cond>,
) -> Result<(), NoMemory>
    ensures { OnOk result (AddsMembers entries.old.items entries.new.items
        (finding_members (finding_with (id_in ids.now) finding.now) (check_of finding.now.check))) }
{
    match &finding.check {
        LCheck::Never(system, property) => {
            put_text(alloc, entries, "check", "never")?;
            put_text(alloc, entries, "expr", property.text())?;
            put_system(alloc, ids, entries, finding, *system)?;
            Ok(())
        }
        LCheck::NoDeadlock(system) => {
            put_text(alloc, entries, "check", "deadlock")?;
            put_system(alloc, ids, entries, finding, *system)?;
            Ok(())
        }
        LCheck::NoAnswer => {
            put_text(alloc, entries, "check", "none")?;
            put_query(alloc, ids, entries, finding)?;
            Ok(())
        }
        LCheck::SomeAnswer => {
            put_text(alloc, entries, "check", "some")?;
            put_query(alloc, ids, entries, finding)?;
            Ok(())
        }
    }
}

pub fn finding(alloc: Global, ids: &CaseIds, finding: &LFinding<Cond>) -> Result<Doc, NoMemory>
    ensures { IfOk result (λ d. IsWritten (document d)
        (object (members_of (finding_members (finding_with (id_in ids.now) finding.now) (check_of finding.now.check))))) }
{
    let mut entries = Vec::new(alloc);
    put_finding(alloc, ids, &mut entries, finding)?;
    Ok(table(entries))
}
