//! The plain check that a set of states shows a check supported, in one product.

ghost use Rattle.std.specs.Prelude.{◌≡◌, ◌≤◌, ◌<◌, ◌||◌, length, not, Some};
ghost use Rattle.std.specs.List.{All, list_all, slice_get};
ghost use Rattle.meaning.specs.Expressions.{truth as truth_of, name_bound};
ghost use Rattle.meaning.specs.Models.{projection};
ghost use Rattle.meaning.specs.Systems.{is_closed, violates as violates_there};
ghost use Rattle.meaning.specs.Texts.{numbered, holds_at};
ghost use Rattle.annotated_model.specs.ModelFacts.{NamesFeatures};
ghost use Rattle.annotated_model.specs.View.{state_view, system_view, transition_view};
ghost use Rattle.invariant_check.specs.View.{property as property_view, label_bound};

use crate::data::Property;
use crate::violation::violates;
use annotated_model::{Model, System, Transition};
use cond_text::truth;

/// Whether a set of states is an invariant of a system in the product of a world that shows the property: it has every initial state and the end
/// of each present transition that starts in it, and no state of it violates.
///
/// `states` tells of each state whether the set has it. No memory is taken and no condition made.
pub fn accepts(
    model: &Model,
    system: u16,
    property: &Property,
    world: &[bool],
    states: &[bool],
) -> bool
    requires system { system < length model.now.systems }
    requires labels { label_bound (property_view property.now) ≤ length model.now.labels }
    requires names { NamesFeatures (length world.now) model.now }
    requires states { (s : _) → slice_get model.now.systems system ≡ Some s → length states.now ≡ length s.states }
    ensures { (s : _) → slice_get model.now.systems system ≡ Some s → result ≡ is_closed (length model.now.labels) (projection world.now s) (property_view property.now) states.now }
{
    let labels = model.labels().count();
    let systems = model.systems();
    let chosen = &systems[usize::from(system)];
    is_shown(chosen, labels, property, world, states)
}

/// Whether the set is an invariant of the system that shows the property, over so many labels.
fn is_shown(
    system: &System,
    labels: u16,
    property: &Property,
    world: &[bool],
    inside: &[bool],
) -> bool
    requires size { length inside.now ≡ length system.now.states }
    requires from { All (λ t. t.from < length system.now.states) system.now.transitions }
    requires to { All (λ t. t.to < length system.now.states) system.now.transitions }
    requires bound { label_bound (property_view property.now) ≤ labels }
    requires names { All (λ t. name_bound (transition_view t).presence ≤ length world.now) system.now.transitions }
    ensures { result ≡ is_closed labels (projection world.now (system_view system.now)) (property_view property.now) inside.now }
{
    if !has_initial(system, inside) {
        return false;
    }
    if !has_ends(system, world, inside) {
        return false;
    }
    shows(system, labels, property, world, inside)
}

/// Whether the set has every initial state.
fn has_initial(system: &System, inside: &[bool]) -> bool
    requires { length inside.now ≡ length system.now.states }
    ensures { result ≡ list_all (λ x. not x.1.initial || holds_at inside.now x.0) (numbered (system_view system.now).states) }
{
    for (number, state) in system.states.list().iter().enumerate() {
        if !follows(state.initial, inside[number]) {
            return false;
        }
    }
    true
}

/// Whether the second holds where the first does.
fn follows(first: bool, second: bool) -> bool
    ensures { result ≡ (not first || second) }
{
    !first || second
}

/// Whether the set has the end of each transition that the product has and that starts in the set.
fn has_ends(system: &System, world: &[bool], inside: &[bool]) -> bool
    requires size { length inside.now ≡ length system.now.states }
    requires from { All (λ t. t.from < length system.now.states) system.now.transitions }
    requires to { All (λ t. t.to < length system.now.states) system.now.transitions }
    requires names { All (λ t. name_bound (transition_view t).presence ≤ length world.now) system.now.transitions }
    ensures { result ≡ list_all (λ t. not (holds_at inside.now t.1.source) || holds_at inside.now t.1.target) (projection world.now (system_view system.now)).transitions }
{
    for transition in system.transitions.list() {
        if !has_end(transition, world, inside) {
            return false;
        }
    }
    true
}

/// Whether the set has the end of a transition if the product has it and it starts in the set.
fn has_end(transition: &Transition, world: &[bool], inside: &[bool]) -> bool
    requires from { transition.now.from < length inside.now }
    requires to { transition.now.to < length inside.now }
    requires names { name_bound (transition_view transition.now).presence ≤ length world.now }
    ensures { result ≡ (not (truth_of (transition_view transition.now).presence world.now) || (not (holds_at inside.now transition.now.from) || holds_at inside.now transition.now.to)) }
{
    !truth(&transition.when, world)
        || follows(
            inside[usize::from(transition.from)],
            inside[usize::from(transition.to)],
        )
}

/// Whether no state of the set violates the property.
fn shows(system: &System, labels: u16, property: &Property, world: &[bool], inside: &[bool]) -> bool
    requires size { length inside.now ≡ length system.now.states }
    requires bound { label_bound (property_view property.now) ≤ labels }
    requires names { All (λ t. name_bound (transition_view t).presence ≤ length world.now) system.now.transitions }
    ensures { result ≡ list_all (λ x. not (holds_at inside.now x.0) || not (violates_there labels (projection world.now (system_view system.now)) (property_view property.now) x.0)) (numbered (system_view system.now).states) }
{
    for state in 0..system.states.list().len() {
        if !is_fine(system, labels, property, world, state, inside[state]) {
            return false;
        }
    }
    true
}

/// Whether a state violates only where it isn't in the set.
fn is_fine(
    system: &System,
    labels: u16,
    property: &Property,
    world: &[bool],
    state: usize,
    member: bool,
) -> bool
    requires state { state < length system.now.states }
    requires bound { label_bound (property_view property.now) ≤ labels }
    requires names { All (λ t. name_bound (transition_view t).presence ≤ length world.now) system.now.transitions }
    ensures { result ≡ (not member || not (violates_there labels (projection world.now (system_view system.now)) (property_view property.now) state)) }
{
    !member || !violates(system, labels, property, world, state)
}
