//! The transitions of the systems.

ghost use Rattle.std.specs.Prelude.{◌≡◌, ◌+◌, ◌^◌, ◌<◌, ◌≤◌, [], map, length, codes, true, IfOk, IfErr, IfSome, is_some, Some, ◌&&◌};
ghost use Rattle.meaning.specs.Texts.{place_of};
ghost use Rattle.meaning.specs.Documents.{text_at};
ghost use Rattle.meaning.specs.BundlePlaces.{Transitions, faults_at, is_among, member_within};
ghost use Rattle.meaning.specs.Models as meaning;
ghost use Rattle.meaning.specs.ModelRules as rules;
ghost use Rattle.doc_tree.specs.View.{document, documents};
ghost use Rattle.annotated_model.specs.Faults.{IsFirst, faults_here};
ghost use Rattle.annotated_model.specs.StateRules.{names_given, states_given, states_view};
ghost use Rattle.annotated_model.specs.TransitionRules as broken;
ghost use Rattle.annotated_model.specs.View.{transition_view, system_view};

use crate::condition::read_condition;
use crate::data::{System, Transition};
use crate::fault::{ModelStop, Place};
use crate::known::Known;
use crate::states::StatesOf;
use crate::texts::{CONDITION_LIMIT, member_within};
use cond_text::{Names, is_name};
use doc_tree::{Doc, Part, Row, Word};
use std::alloc::Global;

/// The most transitions of a model.
const TRANSITION_LIMIT: usize = 16_384;

/// The numbers of the states at the ends of a transition.
#[derive(Clone, Copy)]
struct Ends {
    from: u16,
    to: u16,
}

fn has_form(transition: &Doc) -> bool
    ensures { result ≡ rules.transition_has_form (document transition.now) }
{
    transition.is_table()
        && transition.needs_text("from")
        && transition.needs_text("to")
        && transition.needs_text("action")
        && transition.may_have_text("when")
}

/// The rules of form at a transition that stands within the limit or not.
fn check_form(place: Place, within: bool, transition: &Doc) -> Result<(), ModelStop>
    ensures fits { IfOk result (λ _. member_within 4096 (codes "when") (document transition.now) ≡ true) }
    ensures within { IfOk result (λ _. within ≡ true) }
    ensures none { IfOk result (λ _. broken.transition_form within (document transition.now) ≡ []) }
    ensures fault { IfErr result (IsFirst (faults_here place (broken.transition_form within (document transition.now)))) }
{
    place.require(2, has_form(transition))?;
    place.require(3, is_name(transition.text_at("action")))?;
    place.require(4, member_within(CONDITION_LIMIT, "when", transition))?;
    place.require(6, within)
}

/// The states at the ends, if they are known.
fn find_ends(states: &Names, transition: &Doc) -> Option<Ends>
    ensures known { is_some result ≡ (is_some (place_of (text_at (codes "from") (document transition.now)) states.now) && is_some (place_of (text_at (codes "to") (document transition.now)) states.now)) }
    ensures from { IfSome result (λ e. place_of (text_at (codes "from") (document transition.now)) states.now ≡ Some e.from) }
    ensures to { IfSome result (λ e. place_of (text_at (codes "to") (document transition.now)) states.now ≡ Some e.to) }
{
    let from = states.find(transition.text_at("from"))?;
    let to = states.find(transition.text_at("to"))?;
    Some(Ends { from, to })
}

/// The states at the ends, which are known.
fn read_ends(states: &Names, place: Place, transition: &Doc) -> Result<Ends, ModelStop>
    ensures from { IfOk result (λ e. place_of (text_at (codes "from") (document transition.now)) states.now ≡ Some e.from) }
    ensures to { IfOk result (λ e. place_of (text_at (codes "to") (document transition.now)) states.now ≡ Some e.to) }
    ensures none { IfOk result (λ _. broken.ends_broken states.now (document transition.now) ≡ []) }
    ensures fault { IfErr result (IsFirst (faults_here place (broken.ends_broken states.now (document transition.now)))) }
{
    match find_ends(states, transition) {
        Some(ends) => Ok(ends),
        None => Err(place.broken_at(22, 0)),
    }
}

/// The transition of this number in a system with states of these names.
fn read_transition(
    alloc: Global,
    features: &Names,
    states: &Names,
    counted: usize,
    item: usize,
    no: usize,
    transition: &Doc,
) -> Result<Transition, ModelStop>
    requires item { item < 2 ^ 32 }
    requires few { counted + no ≤ 16384 }
    ensures value { IfOk result (λ t. transition_view t ≡ meaning.transition_of features.now states.now (document transition.now)) }
    ensures within { IfOk result (λ _. counted + no < 16384) }
    ensures none { IfOk result (λ _. broken.transition_broken features.now counted states.now no (document transition.now) ≡ []) }
    ensures fault { IfErr result (IsFirst (faults_at Transitions item no (broken.transition_broken features.now counted states.now no (document transition.now)))) }
{
    let place = Place {
        part: Part::Transitions,
        item: item as u32,
        sub: no as u32,
    };
    check_form(place, counted + no != TRANSITION_LIMIT, transition)?;
    let when = read_condition(alloc, features, place, transition)?;
    let ends = read_ends(states, place, transition)?;
    Ok(Transition {
        from: ends.from,
        to: ends.to,
        action: Word::of(alloc, transition.text_at("action"))?,
        when,
    })
}

/// The transitions of a system with states of these names, behind so many transitions of earlier systems.
fn read_items(
    alloc: Global,
    features: &Names,
    states: &Names,
    counted: usize,
    item: usize,
    items: &[Doc],
) -> Result<Row<Transition>, ModelStop>
    requires item { item < 2 ^ 32 }
    requires counted { counted ≤ 16384 }
    ensures value { IfOk result (λ row. map transition_view row ≡ map (meaning.transition_of features.now states.now) (documents items.now)) }
    ensures few { IfOk result (λ _. counted + length items.now ≤ 16384) }
    ensures none { IfOk result (λ _. broken.transitions_broken features.now item counted states.now 0 (documents items.now) ≡ []) }
    ensures fault { IfErr result (IsFirst (broken.transitions_broken features.now item counted states.now 0 (documents items.now))) }
{
    let mut all = Vec::new(alloc);
    'items: for (no, transition) in items.iter().enumerate() {
        all.push(read_transition(alloc, features, states, counted, item, no, transition)?)?;
    }
    Ok(Row::of(all))
}

/// How many transitions a system gives.
fn count(system: &Doc) -> usize
    ensures { result ≡ length (broken.given_transitions (document system.now)) }
{
    system.list_at("transitions").len()
}

/// The transitions of the system of a number, with states of these names, behind so many transitions of earlier systems.
fn read_system(
    alloc: Global,
    features: &Names,
    states: &Names,
    counted: usize,
    item: usize,
    system: &Doc,
) -> Result<Row<Transition>, ModelStop>
    requires item { item < 2 ^ 32 }
    requires counted { counted ≤ 16384 }
    requires states { states.now ≡ names_given (document system.now) }
    ensures value { IfOk result (λ row. map transition_view row ≡ broken.transitions_given features.now (document system.now)) }
    ensures few { IfOk result (λ _. counted + length (broken.given_transitions (document system.now)) ≤ 16384) }
    ensures none { IfOk result (λ _. broken.system_transitions_broken features.now item counted (document system.now) ≡ []) }
    ensures fault { IfErr result (IsFirst (broken.system_transitions_broken features.now item counted (document system.now))) }
{
    let place = Place::item(Part::Transitions, item);
    place.require(2, system.may_have_list("transitions"))?;
    read_items(
        alloc,
        features,
        states,
        counted,
        item,
        system.list_at("transitions"),
    )
}

/// A system from its element's number, its states and its document.
fn system_from(
    alloc: Global,
    features: &Names,
    known: &Known,
    states: StatesOf,
    counted: usize,
    item: usize,
    system: &Doc,
) -> Result<System, ModelStop>
    requires item { item < 2 ^ 32 }
    requires counted { counted ≤ 16384 }
    requires names { states.names ≡ names_given (document system.now) }
    requires states { states_view states ≡ states_given known.now.labels (document system.now) }
    ensures value { IfOk result (λ s. system_view s ≡ meaning.system_from features.now known.now.labels known.now.element_names (document system.now)) }
    ensures few { IfOk result (λ _. counted + length (broken.given_transitions (document system.now)) ≤ 16384) }
    ensures none { IfOk result (λ _. broken.system_transitions_broken features.now item counted (document system.now) ≡ []) }
    ensures fault { IfErr result (IsFirst (broken.system_transitions_broken features.now item counted (document system.now))) }
{
    let transitions = read_system(alloc, features, &states.names, counted, item, system)?;
    let element = known
        .element_names
        .find(system.text_at("element"))
        .unwrap_or(0);
    Ok(System {
        element,
        states: states.states,
        transitions,
    })
}

/// Each system, with its states and its transitions.
pub fn read_transitions(
    alloc: Global,
    features: &Names,
    known: &Known,
    systems: &[Doc],
    states: Vec<StatesOf>,
) -> Result<Vec<System>, ModelStop>
    requires few { length systems.now ≤ 256 }
    requires names { map (λ s. s.names) states.items ≡ map names_given (documents systems.now) }
    requires states { map states_view states.items ≡ map (states_given known.now.labels) (documents systems.now) }
    ensures value { IfOk result (λ v. map system_view v.items ≡ map (meaning.system_from features.now known.now.labels known.now.element_names) (documents systems.now)) }
    ensures none { IfOk result (λ _. broken.all_transitions_broken features.now 0 0 (documents systems.now) ≡ []) }
    ensures fault { IfErr result (IsFirst (broken.all_transitions_broken features.now 0 0 (documents systems.now))) }
{
    let mut all = Vec::new(alloc);
    let mut counted = 0;
    let mut rest = states.into_iter();
    'systems: for (item, system) in systems.iter().enumerate() {
        let Some(states) = rest.next() else {
            unreachable!()
        };
        all.push(system_from(alloc, features, known, states, counted, item, system)?)?;
        counted += count(system);
    }
    Ok(all)
}
