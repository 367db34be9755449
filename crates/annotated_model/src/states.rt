//! The states of the systems.

ghost use Rattle.std.specs.Prelude.{◌≡◌, ◌+◌, ◌^◌, ◌<◌, ◌≤◌, [], map, length, codes, true, false, IfOk, IfErr, IfSome, is_some};
ghost use Rattle.meaning.specs.Documents.{texts_in};
ghost use Rattle.meaning.specs.BundlePlaces.{States, faults_at, is_among, name_in};
ghost use Rattle.meaning.specs.Models as meaning;
ghost use Rattle.meaning.specs.ModelRules as rules;
ghost use Rattle.doc_tree.specs.View.{document, documents};
ghost use Rattle.annotated_model.specs.Faults.{IsFirst, faults_here};
ghost use Rattle.annotated_model.specs.StateRules as broken;
ghost use Rattle.annotated_model.specs.View.{state_view};

use crate::data::State;
use crate::fault::{ModelStop, Place};
use crate::names::{add_new, is_known};
use crate::new_texts::are_new;
use crate::texts::text_of;
use cond_text::{Names, is_name};
use doc_tree::{Doc, Part, Row, Word};
use std::alloc::Global;

/// The most states of a model.
pub const STATE_LIMIT: usize = 4096;

/// The states of a system, and their names.
#[derive(Drop)]
pub struct StatesOf {
    pub names: Names,
    pub states: Row<State>,
}

fn has_form(state: &Doc) -> bool
    ensures { result ≡ rules.state_has_form (document state.now) }
{
    state.is_table()
        && state.needs_text("name")
        && state.may_have_truth("initial")
        && state.may_have_texts("labels")
}

/// The rules of form at a state whose name is new or not, and which stands within the limit or not.
pub fn check_form(
    alloc: Global,
    place: Place,
    new: bool,
    within: bool,
    state: &Doc,
) -> Result<(), ModelStop>
    ensures none { IfOk result (λ _. broken.state_form new within (document state.now) ≡ []) }
    ensures new { IfOk result (λ _. new ≡ true) }
    ensures within { IfOk result (λ _. within ≡ true) }
    ensures fault { IfErr result (IsFirst (faults_here place (broken.state_form new within (document state.now)))) }
{
    let distinct = are_new(alloc, &Names::new(alloc), state.list_at("labels"))?;
    let name = state.text_at("name");
    place.require_named(has_form(state), is_name(name), new && distinct, within)
}

/// The number of a label, if it is known.
#[tactic(auto, using(meaning::proofs::NamePlaces::some_place))]
fn find_label(labels: &Names, label: &Doc) -> Option<u16>
    ensures known { is_some result ≡ is_among labels.now (rules.label_text (document label.now)) }
    ensures number { IfSome result (λ number. number ≡ meaning.number_in labels.now (rules.label_text (document label.now))) }
{
    labels.find(text_of(label))
}

/// The numbers of labels, which are all known.
fn read_labels(
    alloc: Global,
    labels: &Names,
    place: Place,
    given: &[Doc],
) -> Result<Row<u16>, ModelStop>
    ensures value { IfOk result (λ row. row ≡ map (meaning.number_in labels.now) (texts_in (documents given.now))) }
    ensures none { IfOk result (λ _. broken.texts_broken labels.now (texts_in (documents given.now)) ≡ []) }
    ensures fault { IfErr result (IsFirst (faults_here place (broken.texts_broken labels.now (texts_in (documents given.now))))) }
{
    let mut numbers = Vec::new(alloc);
    'given: for label in given {
        match find_label(labels, label) {
            Some(number) => numbers.push(number)?,
            None => return Err(place.broken_at(22, 0)),
        }
    }
    Ok(Row::of(numbers))
}

/// The state of this number in a system, behind states of these names.
fn read_state(
    alloc: Global,
    labels: &Names,
    names: &Names,
    counted: usize,
    item: usize,
    no: usize,
    state: &Doc,
) -> Result<State, ModelStop>
    requires item { item < 2 ^ 32 }
    requires few { counted + no ≤ 4096 }
    ensures value { IfOk result (λ s. state_view s ≡ meaning.state_of labels.now (document state.now)) }
    ensures new { IfOk result (λ _. is_among names.now (name_in (document state.now)) ≡ false) }
    ensures within { IfOk result (λ _. counted + no < 4096) }
    ensures none { IfOk result (λ _. broken.state_broken labels.now counted names.now no (document state.now) ≡ []) }
    ensures fault { IfErr result (IsFirst (faults_at States item no (broken.state_broken labels.now counted names.now no (document state.now)))) }
{
    let place = Place {
        part: Part::States,
        item: item as u32,
        sub: no as u32,
    };
    let name = state.text_at("name");
    let new = !is_known(names, name);
    check_form(alloc, place, new, counted + no != STATE_LIMIT, state)?;
    let labels = read_labels(alloc, labels, place, state.list_at("labels"))?;
    Ok(State {
        name: Word::of(alloc, name)?,
        initial: state.truth_at("initial"),
        labels,
    })
}

/// The states of a system, behind so many states of earlier systems.
fn read_items(
    alloc: Global,
    labels: &Names,
    counted: usize,
    item: usize,
    items: &[Doc],
) -> Result<StatesOf, ModelStop>
    requires item { item < 2 ^ 32 }
    requires counted { counted ≤ 4096 }
    ensures names { IfOk result (λ s. s.names ≡ map name_in (documents items.now)) }
    ensures value { IfOk result (λ s. broken.states_view s ≡ map (meaning.state_of labels.now) (documents items.now)) }
    ensures few { IfOk result (λ _. counted + length items.now ≤ 4096) }
    ensures none { IfOk result (λ _. broken.states_broken labels.now item counted [] 0 (documents items.now) ≡ []) }
    ensures fault { IfErr result (IsFirst (broken.states_broken labels.now item counted [] 0 (documents items.now))) }
{
    let mut names = Names::new(alloc);
    let mut states = Vec::new(alloc);
    'items: for (no, state) in items.iter().enumerate() {
        states.push(read_state(alloc, labels, &names, counted, item, no, state)?)?;
        add_new(&mut names, state.text_at("name"))?;
    }
    Ok(StatesOf {
        names,
        states: Row::of(states),
    })
}

/// The states of the system of a number, behind so many states of earlier systems.
fn read_system(
    alloc: Global,
    labels: &Names,
    counted: usize,
    item: usize,
    system: &Doc,
) -> Result<StatesOf, ModelStop>
    requires item { item < 2 ^ 32 }
    requires counted { counted ≤ 4096 }
    ensures names { IfOk result (λ s. s.names ≡ broken.names_given (document system.now)) }
    ensures value { IfOk result (λ s. broken.states_view s ≡ broken.states_given labels.now (document system.now)) }
    ensures few { IfOk result (λ _. counted + length (broken.given_states (document system.now)) ≤ 4096) }
    ensures none { IfOk result (λ _. broken.system_states_broken labels.now item counted (document system.now) ≡ []) }
    ensures fault { IfErr result (IsFirst (broken.system_states_broken labels.now item counted (document system.now))) }
{
    let place = Place::item(Part::States, item);
    place.require(2, system.may_have_list("states"))?;
    read_items(alloc, labels, counted, item, system.list_at("states"))
}

/// How many states a system gives.
pub fn count(system: &Doc) -> usize
    ensures { result ≡ length (broken.given_states (document system.now)) }
{
    system.list_at("states").len()
}

/// The states of each system.
pub fn read_states(
    alloc: Global,
    labels: &Names,
    systems: &[Doc],
) -> Result<Vec<StatesOf>, ModelStop>
    requires { length systems.now ≤ 256 }
    ensures names { IfOk result (λ v. map (λ s. s.names) v.items ≡ map broken.names_given (documents systems.now)) }
    ensures value { IfOk result (λ v. map broken.states_view v.items ≡ map (broken.states_given labels.now) (documents systems.now)) }
    ensures none { IfOk result (λ _. broken.all_states_broken labels.now 0 0 (documents systems.now) ≡ []) }
    ensures fault { IfErr result (IsFirst (broken.all_states_broken labels.now 0 0 (documents systems.now))) }
{
    let mut all = Vec::new(alloc);
    let mut counted = 0;
    'systems: for (item, system) in systems.iter().enumerate() {
        all.push(read_system(alloc, labels, counted, item, system)?)?;
        counted += count(system);
    }
    Ok(all)
}
