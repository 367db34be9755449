//! The limits of a case.

ghost use Rattle.std.specs.Prelude.{◌≡◌, ◌++◌, [], map, IfOk, IfErr, codes, option_to_list};
ghost use Rattle.meaning.specs.CaseReading as reading;
ghost use Rattle.meaning.specs.CaseReading.{faults_at};
ghost use Rattle.meaning.specs.BundlePlaces.{Systems};
ghost use Rattle.meaning.specs.Documents.{list_at};
ghost use Rattle.doc_tree.specs.View.{document, documents};
ghost use Rattle.doc_tree.specs.Places.{part_of};
ghost use Rattle.lifted_case.specs.ReadFaults.{Finds, size_at, systems_past, limit_faults_in};

use crate::faults::items::check_place;
use crate::members::size_at;
use crate::stop::ReadCaseStop;
use doc_tree::{Doc, Part};

/// The first item too many, if there are more than so many.
fn past(limit: usize, size: usize) -> Option<usize>
    ensures { option_to_list result ≡ reading.past limit size }
{
    if limit < size { Some(limit) } else { None }
}

/// The first system with which the lists of this name have more than so many items in all.
fn past_in_all(limit: usize, systems: &[Doc], list: &str) -> Option<usize>
    ensures { option_to_list result ≡ reading.past_in_all 0 limit (map (size_at list.now) (documents systems.now)) }
{
    let mut room = limit;
    'systems: for (i, system) in systems.iter().enumerate() {
        let size = size_at(system, list);
        if room < size {
            return Some(i);
        }
        room -= size;
    }
    None
}

/// The least of the places.
fn least(first: Option<usize>, second: Option<usize>) -> Option<usize>
    ensures { option_to_list result ≡ reading.first_alone (option_to_list first ++ option_to_list second) }
{
    match (first, second) {
        (Some(first), Some(second)) => Some(first.min(second)),
        (None, second) => second,
        (first, None) => first,
    }
}

/// The first system too many, or with which there are too many states or transitions.
fn system_past(systems: &[Doc]) -> Option<usize>
    ensures { option_to_list result ≡ systems_past (documents systems.now) }
{
    let states = past_in_all(4_096, systems, "states");
    let transitions = past_in_all(16_384, systems, "transitions");
    least(past(256, systems.len()), least(states, transitions))
}

/// Stops at the first item too many.
pub fn check_limits(doc: &Doc) -> Result<(), ReadCaseStop>
    ensures kept { IfOk result (λ _. limit_faults_in (document doc.now) ≡ []) }
    ensures fault { IfErr result (Finds (limit_faults_in (document doc.now))) }
{
    check_size(256, Part::Features, doc, "features")?;
    check_system_limits(doc)?;
    check_size(32_768, Part::Nodes, doc, "nodes")?;
    check_size(65_536, Part::Relations, doc, "relations")
}

/// Stops at the first item too many of a list.
fn check_size(limit: usize, part: Part, doc: &Doc, list: &str) -> Result<(), ReadCaseStop>
    ensures kept { IfOk result (λ _. faults_at 11 (part_of part) (reading.past limit (size_at list.now (document doc.now))) ≡ []) }
    ensures fault { IfErr result (Finds (faults_at 11 (part_of part) (reading.past limit (size_at list.now (document doc.now))))) }
{
    check_place(11, part, past(limit, size_at(doc, list)))
}

/// Stops at the first system that passes a limit.
fn check_system_limits(doc: &Doc) -> Result<(), ReadCaseStop>
    ensures kept { IfOk result (λ _. faults_at 11 Systems (systems_past (list_at (codes "systems") (document doc.now))) ≡ []) }
    ensures fault { IfErr result (Finds (faults_at 11 Systems (systems_past (list_at (codes "systems") (document doc.now))))) }
{
    check_place(11, Part::Systems, system_past(doc.list_at("systems")))
}
