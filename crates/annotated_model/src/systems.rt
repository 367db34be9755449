//! The systems of a model, each with its states and transitions.

ghost use Rattle.std.specs.Prelude.{◌≡◌, ◌<◌, ◌≤◌, ◌+◌, [], map, length, codes, true, false, not, IfOk, IfErr, Some};
ghost use Rattle.std.specs.List.{list_any};
ghost use Rattle.meaning.specs.Documents.{text_at, truth_at};
ghost use Rattle.meaning.specs.BundlePlaces.{Systems, faults_at, is_among};
ghost use Rattle.meaning.specs.ModelRules as rules;
ghost use Rattle.meaning.specs.LineRules as lines;
ghost use Rattle.doc_tree.specs.View.{document, documents};
ghost use Rattle.annotated_model.specs.Faults.{IsFirst};
ghost use Rattle.annotated_model.specs.Known.{Knows};
ghost use Rattle.annotated_model.specs.Parts.{systems_in, owners_in};
ghost use Rattle.annotated_model.specs.StateRules.{state_form, given_states};
ghost use Rattle.annotated_model.specs.SystemRules as broken;
ghost use Rattle.annotated_model.specs.View.{system_view};

use crate::data::System;
use crate::fault::{ModelStop, Place};
use crate::known::Known;
use crate::names::{add_new, is_known};
use crate::new_texts::Texts;
use crate::states::{STATE_LIMIT, check_form, count, read_states};
use crate::transitions::read_transitions;
use cond_text::Names;
use doc_tree::{Doc, NoMemory, Part, Row};
use std::alloc::Global;

/// The most systems of a model.
const SYSTEM_LIMIT: usize = 256;

fn has_form(system: &Doc) -> bool
    ensures { result ≡ rules.system_has_form (document system.now) }
{
    system.is_table() && system.needs_text("element")
}

/// Whether the elements of a type have systems.
fn is_system_type(known: &Known, number: u16) -> bool
    ensures { result ≡ broken.is_system_type known.now number }
{
    match known.types.list().get(usize::from(number)) {
        Some(found) => found.system,
        None => false,
    }
}

/// Whether an element is of a system type.
fn may_have_system(known: &Known, element: u16) -> bool
    ensures { result ≡ broken.may_have_system known.now (Some element) }
{
    match known.elements.list().get(usize::from(element)) {
        Some(found) => is_system_type(known, found.of_type),
        None => true,
    }
}

/// Whether a system's element is known, has no earlier system and is of a system type.
fn takes_system(known: &Known, owners: &Names, system: &Doc) -> bool
    ensures { result ≡ broken.takes_system known.now owners.now (document system.now) }
{
    let element = system.text_at("element");
    match known.element_names.find(element) {
        Some(number) => !is_known(owners, element) && may_have_system(known, number),
        None => false,
    }
}

/// Whether the state of this number, behind so many of earlier systems, isn't the first past the limit.
fn is_within(counted: usize, no: usize) -> bool
    ensures { result ≡ lines.is_within 4096 (counted + no) }
{
    counted > STATE_LIMIT || no != STATE_LIMIT - counted
}

/// Whether a state has its form, where its name is new or not and it stands within the limit or not.
fn is_formed(alloc: Global, new: bool, within: bool, state: &Doc) -> Result<bool, NoMemory>
    ensures formed { IfOk result (λ formed. formed ≡ rules.is_formed (state_form new within (document state.now))) }
    ensures new { IfOk result (λ formed. formed ≡ true → new ≡ true) }
{
    let place = Place {
        part: Part::States,
        item: 0,
        sub: 0,
    };
    match check_form(alloc, place, new, within, state) {
        Ok(()) => Ok(true),
        Err(ModelStop::Fault(_)) => Ok(false),
        Err(ModelStop::NoMemory) => Err(NoMemory),
    }
}

/// Whether the states have the form that finding an initial one needs.
fn are_formed(alloc: Global, counted: usize, states: &[Doc]) -> Result<bool, NoMemory>
    ensures { IfOk result (λ formed. formed ≡ broken.are_formed counted [] 0 (documents states.now)) }
{
    let mut names = Texts::new(alloc);
    'states: for (no, state) in states.iter().enumerate() {
        let new = names.add(state.text_at("name"))?;
        if !is_formed(alloc, new, is_within(counted, no), state)? {
            return Ok(false);
        }
    }
    Ok(true)
}

fn has_initial(states: &[Doc]) -> bool
    ensures { result ≡ list_any (truth_at (codes "initial")) (documents states.now) }
{
    'states: for state in states {
        if state.truth_at("initial") {
            return true;
        }
    }
    false
}

/// Whether some state of a system is initial, where they have their form.
fn can_start(alloc: Global, counted: usize, system: &Doc) -> Result<bool, NoMemory>
    ensures { IfOk result (λ can. can ≡ broken.can_start counted (document system.now)) }
{
    let states = system.list_at("states");
    if has_initial(states) || !system.may_have_list("states") {
        return Ok(true);
    }
    Ok(!are_formed(alloc, counted, states)?)
}

/// The rules at the system of this number, behind systems of these elements with so many states.
fn check(
    alloc: Global,
    known: &Known,
    owners: &Names,
    counted: usize,
    no: usize,
    system: &Doc,
) -> Result<(), ModelStop>
    requires { no ≤ 256 }
    ensures new { IfOk result (λ _. is_among owners.now (text_at (codes "element") (document system.now)) ≡ false) }
    ensures within { IfOk result (λ _. no < 256) }
    ensures none { IfOk result (λ _. broken.system_broken known.now owners.now counted no (document system.now) ≡ []) }
    ensures fault { IfErr result (IsFirst (faults_at Systems no 0 (broken.system_broken known.now owners.now counted no (document system.now)))) }
{
    let place = Place::item(Part::Systems, no);
    place.require(2, has_form(system))?;
    place.require(6, no != SYSTEM_LIMIT)?;
    place.require(19, takes_system(known, owners, system))?;
    place.require(21, can_start(alloc, counted, system)?)
}

/// The names of the elements that the systems belong to, where these break no rule.
pub fn read_owners(alloc: Global, known: &Known, systems: &[Doc]) -> Result<Names, ModelStop>
    ensures owners { IfOk result (λ owners. owners ≡ map (text_at (codes "element")) (documents systems.now)) }
    ensures few { IfOk result (λ _. length systems.now ≤ 256) }
    ensures none { IfOk result (λ _. broken.systems_broken known.now [] 0 0 (documents systems.now) ≡ []) }
    ensures fault { IfErr result (IsFirst (broken.systems_broken known.now [] 0 0 (documents systems.now))) }
{
    let mut owners = Names::new(alloc);
    let mut counted: usize = 0;
    'systems: for (no, system) in systems.iter().enumerate() {
        check(alloc, known, &owners, counted, no, system)?;
        add_new(&mut owners, system.text_at("element"))?;
        counted = counted.saturating_add(count(system));
    }
    Ok(owners)
}

/// The systems of a model table, over what its earlier parts gave, and the names of the elements that they belong to.
pub fn read_systems(
    alloc: Global,
    features: &Names,
    known: &Known,
    model: &Doc,
) -> Result<(Row<System>, Names), ModelStop>
    requires { Knows known.now features.now (document model.now) }
    ensures value { IfOk result (λ read. map system_view read.0 ≡ systems_in features.now (document model.now)) }
    ensures owners { IfOk result (λ read. read.1 ≡ owners_in (document model.now)) }
    ensures few { IfOk result (λ read. length read.1 ≤ 256) }
    ensures none { IfOk result (λ _. broken.behaviour_faults features.now (document model.now) ≡ []) }
    ensures fault { IfErr result (IsFirst (broken.behaviour_faults features.now (document model.now))) }
{
    let place = Place {
        part: Part::Systems,
        item: 0,
        sub: 0,
    };
    place.require(2, model.may_have_list("systems"))?;
    let systems = model.list_at("systems");
    let owners = read_owners(alloc, known, systems)?;
    let states = read_states(alloc, &known.labels, systems)?;
    let all = read_transitions(alloc, features, known, systems, states)?;
    Ok((Row::of(all), owners))
}
