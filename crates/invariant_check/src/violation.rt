//! The states that violate a property, in one product.

ghost use Rattle.std.specs.Prelude.{◌≡◌, ◌≤◌, ◌<◌, ◌==◌, ◌&&◌, length, not};
ghost use Rattle.std.specs.List.{All, list_any};
ghost use Rattle.meaning.specs.Expressions.{truth as truth_of, name_bound};
ghost use Rattle.meaning.specs.Models.{projection};
ghost use Rattle.meaning.specs.Systems.{labels_true, violates as violates_there};
ghost use Rattle.meaning.specs.Texts.{holds_at};
ghost use Rattle.cond_text.specs.View.{expression};
ghost use Rattle.annotated_model.specs.View.{state_view, system_view, transition_view};
ghost use Rattle.invariant_check.specs.View.{property as property_view, label_bound};

use crate::data::Property;
use annotated_model::{State, System, Transition};
use cond_text::{Expr, truth};

/// Whether the labels of a state, of so many, satisfy an expression over labels.
pub fn satisfies(state: &State, over: &Expr, labels: u16) -> bool
    requires { name_bound (expression over.now) ≤ labels }
    ensures { result ≡ truth_of (expression over.now) (labels_true labels (state_view state.now)) }
{
    match over {
        Expr::Top => true,
        Expr::Bottom => false,
        Expr::Name(label) => has_label(state, *label, labels),
        Expr::Not(a) => !satisfies(state, a, labels),
        Expr::Both(a, b) => satisfies(state, a, labels) && satisfies(state, b, labels),
        Expr::Either(a, b) => satisfies(state, a, labels) || satisfies(state, b, labels),
        Expr::Implies(a, b) => !satisfies(state, a, labels) || satisfies(state, b, labels),
        Expr::Same(a, b) => satisfies(state, a, labels) == satisfies(state, b, labels),
    }
}

/// Whether a state has a label, which is one of so many.
fn has_label(state: &State, label: u16, _labels: u16) -> bool
    requires { label < _labels }
    ensures { result ≡ holds_at (labels_true _labels (state_view state.now)) label }
{
    state.labels.list().contains(&label)
}

/// Whether a transition leaves a state in the product of a world.
fn leaves(transition: &Transition, world: &[bool], state: usize) -> bool
    requires names { name_bound (transition_view transition.now).presence ≤ length world.now }
    ensures { result ≡ (truth_of (transition_view transition.now).presence world.now && (transition.now.from == state)) }
{
    truth(&transition.when, world) && usize::from(transition.from) == state
}

/// Whether no transition leaves a state in the product of a world.
pub fn is_stuck(system: &System, world: &[bool], state: usize) -> bool
    requires names { All (λ t. name_bound (transition_view t).presence ≤ length world.now) system.now.transitions }
    ensures { result ≡ not (list_any (λ t. t.1.source == state) (projection world.now (system_view system.now)).transitions) }
{
    for transition in system.transitions.list() {
        if leaves(transition, world, state) {
            return false;
        }
    }
    true
}

/// Whether a state violates the property in the product of a world.
pub fn violates(
    system: &System,
    labels: u16,
    property: &Property,
    world: &[bool],
    state: usize,
) -> bool
    requires state { state < length system.now.states }
    requires bound { label_bound (property_view property.now) ≤ labels }
    requires names { All (λ t. name_bound (transition_view t).presence ≤ length world.now) system.now.transitions }
    ensures { result ≡ violates_there labels (projection world.now (system_view system.now)) (property_view property.now) state }
{
    match property {
        Property::Never(over) => satisfies(&system.states.list()[state], over, labels),
        Property::NoDeadlock => is_stuck(system, world, state),
    }
}
