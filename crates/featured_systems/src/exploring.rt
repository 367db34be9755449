//! A system explored in all products at once.

ghost use Rattle.std.specs.Prelude.{◌≡◌, ℕ, ◌≤◌, ◌<◌, ◌+◌, ◌*◌, ◌&&◌, [], length, map, replicate, slice_index_or, true, false, Some, All, IfOk, IfErr, OnOk};
ghost use Rattle.std.specs.List.{sum_by, slice_get};
ghost use Rattle.meaning.specs.Expressions.{name_bound, truth, size_of};
ghost use Rattle.meaning.specs.Models as meaning;
ghost use Rattle.meaning.specs.Systems.{IsProperSystem};
ghost use Rattle.meaning.specs.Bounds.{asks_of_exploring};
ghost use Rattle.cond_text.specs.View.{expression};
ghost use Rattle.annotated_model.specs.View.{system_view};
ghost use Rattle.annotated_model.specs.ModelFacts.{NamesFeatures, SystemFits};
ghost use Rattle.worlds.specs.Algebra.{Worked, Stops};
ghost use Rattle.worlds.specs.Rows.{AllLive, RowWhere, row_at};
ghost use Rattle.featured_systems.specs.Exploring.{IsExplored};
ghost use Rattle.featured_systems.specs.Rounds.{places, states_at, entered_below, seen_below, parents_below, front_at, Fronts, HasExplored};

use crate::entering::next_layer;
use crate::explored::Explored;
use crate::found::Found;
use crate::listing::list_layer;
use crate::lists::{numbers_by_state, touched_states};
use crate::steps::{nowhere, starts, steps_of};
use annotated_model::{Model, System, Transition};
use doc_tree::Row;
use std::alloc::Global;
use worlds::{QStop, Worlds, condition};

/// Where each state is first reached by one transition more than the last layer's. `from` and `into` have the numbers of the transitions from
/// and to each state.
fn next_round<W: Worlds>(
    alloc: Global,
    transitions: &[Transition],
    steps: &[W::C],
    from: &[Vec<u16>],
    into: &[Vec<u16>],
    last: &[W::C],
    found: &mut Found<W::C>,
    w: &mut W,
) -> Result<Vec<W::C>, QStop>
    requires from { (y : ℕ) → slice_index_or (map (λ list. list.items) from.now) y [] ≡ places 0 y (states_at false transitions.now) }
    requires into { (y : ℕ) → slice_index_or (map (λ list. list.items) into.now) y [] ≡ places 0 y (states_at true transitions.now) }
    requires from_each { length from.now ≡ length last.now }
    requires into_each { length into.now ≡ length last.now }
    requires fronts { Fronts (W.algebra w.old) transitions.now steps.now last.now }
    requires states { length found.old.reached.items ≡ length last.now }
    requires reached { AllLive (W.algebra w.old) found.old.reached.items }
    requires parents { AllLive (W.algebra w.old) found.old.parents.items }
    requires one_for_each { length found.old.parents.items ≡ length transitions.now }
    ensures worked { Worked (5 * sum_by length (map (λ list. list.items) into.now)) (W.algebra w.old) (W.algebra w.new) }
    ensures entered { IfOk result (λ next. RowWhere (W.algebra w.new) next.items (λ x. entered_below (front_at (W.algebra w.old) transitions.now steps.now last.now x) (row_at (W.algebra w.old) found.old.reached.items x) (length last.now))) }
    ensures reached { IfOk result (λ _. RowWhere (W.algebra w.new) found.new.reached.items (λ x. seen_below (front_at (W.algebra w.old) transitions.now steps.now last.now x) (row_at (W.algebra w.old) found.old.reached.items x) (length last.now))) }
    ensures parents { IfOk result (λ _. RowWhere (W.algebra w.new) found.new.parents.items (λ x. parents_below (front_at (W.algebra w.old) transitions.now steps.now last.now x) (row_at (W.algebra w.old) found.old.reached.items x)
        (row_at (W.algebra w.old) found.old.parents.items x) (length last.now))) }
    ensures one_for_each { IfOk result (λ next. length next.items ≡ length last.now) }
    ensures states { length found.new.reached.items ≡ length found.old.reached.items }
    ensures transitions { length found.new.parents.items ≡ length found.old.parents.items }
    ensures layers { found.new.layers.items ≡ found.old.layers.items }
    ensures stopped { IfErr result (Stops (W.algebra w.old) (W.algebra w.new)) }
{
    let touched = touched_states(alloc, from, transitions, last, w)?;
    next_layer(alloc, into, &touched, transitions, steps, last, found, w)
}

/// Finds all layers of a system. `found` has the initial states, no parents and no layers.
fn rounds<W: Worlds>(
    alloc: Global,
    system: &System,
    there: W::C,
    steps: &[W::C],
    from: &[Vec<u16>],
    into: &[Vec<u16>],
    found: &mut Found<W::C>,
    w: &mut W,
) -> Result<(), QStop>
    requires few { length system.now.states ≤ 4096 }
    requires fits { All (λ t. (t.from < length system.now.states) × (t.to < length system.now.states)) system.now.transitions }
    requires proper { (x : _) → IsProperSystem (meaning.projection x (system_view system.now)) }
    requires live { (W.algebra w.old).live there }
    requires steps { RowWhere (W.algebra w.old) steps.now (λ x. map (λ t. (W.algebra w.old).holds there x && truth (expression t.when) x) system.now.transitions) }
    requires one_step_for_each { length steps.now ≡ length system.now.transitions }
    requires from { (y : ℕ) → slice_index_or (map (λ list. list.items) from.now) y [] ≡ places 0 y (states_at false system.now.transitions) }
    requires into { (y : ℕ) → slice_index_or (map (λ list. list.items) into.now) y [] ≡ places 0 y (states_at true system.now.transitions) }
    requires from_each { length from.now ≡ length system.now.states }
    requires into_each { length into.now ≡ length system.now.states }
    requires into_once { sum_by length (map (λ list. list.items) into.now) ≡ length system.now.transitions }
    requires reached { RowWhere (W.algebra w.old) found.old.reached.items (λ x. map (λ s. (W.algebra w.old).holds there x && s.initial) system.now.states) }
    requires parents { RowWhere (W.algebra w.old) found.old.parents.items (λ x. replicate (length system.now.transitions) false) }
    requires one_for_each_state { length found.old.reached.items ≡ length system.now.states }
    requires one_for_each_transition { length found.old.parents.items ≡ length system.now.transitions }
    requires empty { found.old.layers.items ≡ [] }
    ensures worked { Worked (5 * (length system.now.states * length system.now.transitions)) (W.algebra w.old) (W.algebra w.new) }
    ensures explored { IfOk result (λ _. HasExplored (W.algebra w.new) (λ x. (W.algebra w.old).holds there x) (system_view system.now) found.new.reached.items found.new.parents.items found.new.layers.items) }
    ensures one_for_each_state { length found.new.reached.items ≡ length system.now.states }
    ensures one_for_each_transition { length found.new.parents.items ≡ length system.now.transitions }
    ensures stopped { IfErr result (Stops (W.algebra w.old) (W.algebra w.new)) }
{
    let mut last = starts(alloc, system.states.list(), there, w)?;
    list_layer(0, &last, &mut found.layers, w)?;
    'rounds: for before in 0..system.states.list().len().saturating_sub(1) {
        last = next_round(
            alloc,
            system.transitions.list(),
            steps,
            from,
            into,
            &last,
            found,
            w,
        )?;
        if !list_layer((before + 1) as u16, &last, &mut found.layers, w)? {
            return Ok(());
        }
    }
    Ok(())
}

/// The reached states, the parents and the layers of a system, where it is there and by the conditions of its steps.
fn found_of<W: Worlds>(
    alloc: Global,
    system: &System,
    there: W::C,
    steps: &[W::C],
    w: &mut W,
) -> Result<Found<W::C>, QStop>
    requires few_states { length system.now.states ≤ 4096 }
    requires few_transitions { length system.now.transitions ≤ 16384 }
    requires fits { All (λ t. (t.from < length system.now.states) × (t.to < length system.now.states)) system.now.transitions }
    requires proper { (x : _) → IsProperSystem (meaning.projection x (system_view system.now)) }
    requires live { (W.algebra w.old).live there }
    requires steps { RowWhere (W.algebra w.old) steps.now (λ x. map (λ t. (W.algebra w.old).holds there x && truth (expression t.when) x) system.now.transitions) }
    requires one_step_for_each { length steps.now ≡ length system.now.transitions }
    ensures worked { Worked (5 * (length system.now.states * length system.now.transitions)) (W.algebra w.old) (W.algebra w.new) }
    ensures explored { IfOk result (λ found. HasExplored (W.algebra w.new) (λ x. (W.algebra w.old).holds there x) (system_view system.now) found.reached.items found.parents.items found.layers.items) }
    ensures one_for_each_state { IfOk result (λ found. length found.reached.items ≡ length system.now.states) }
    ensures one_for_each_transition { IfOk result (λ found. length found.parents.items ≡ length system.now.transitions) }
    ensures stopped { IfErr result (Stops (W.algebra w.old) (W.algebra w.new)) }
{
    let transitions = system.transitions.list();
    let states = system.states.list();
    let from = numbers_by_state(alloc, states.len(), transitions, false)?;
    let into = numbers_by_state(alloc, states.len(), transitions, true)?;
    let reached = starts(alloc, states, there, w)?;
    let parents = nowhere(alloc, transitions.len(), w)?;
    let mut found = Found {
        reached,
        parents,
        layers: Vec::new(alloc),
    };
    rounds(alloc, system, there, steps, &from, &into, &mut found, w)?;
    Ok(found)
}

/// Where each step is present, each state is reached and at which distance, and over which transitions the shortest runs go back, in all
/// products at once. States and transitions have their numbers in the system.
///
/// The system is one of the model's. Stopped only for want of memory, or where a condition was refused.
pub fn explore<W: Worlds>(
    alloc: Global,
    model: &Model,
    system: u16,
    w: &mut W,
) -> Result<Explored<W::C>, QStop>
    requires there { system < length model.now.systems }
    requires names { NamesFeatures (W.algebra w.old).count model.now }
    ensures explored { IfOk result (λ e. (s : meaning.System) → slice_get model.now.systems system ≡ Some s → IsExplored (W.algebra w.new) model.now s e) }
    ensures worked { (s : meaning.System) → slice_get model.now.systems system ≡ Some s → Worked (asks_of_exploring model.now s) (W.algebra w.old) (W.algebra w.new) }
    ensures stopped { IfErr result (Stops (W.algebra w.old) (W.algebra w.new)) }
{
    let system = &model.systems()[usize::from(system)];
    let there = condition(&model.elements()[usize::from(system.element)].when, w)?;
    let steps = steps_of(alloc, system.transitions.list(), there, w)?;
    let Found {
        reached,
        parents,
        layers,
    } = found_of(alloc, system, there, &steps, w)?;
    Ok(Explored {
        reached: Row::of(reached),
        parents: Row::of(parents),
        layers: Row::of(layers),
        steps: Row::of(steps),
    })
}
