//! The run of a refuted check at one world, told back from its last state.

ghost use Rattle.std.specs.Prelude.{◌≡◌, ℕ, ◌≤◌, ◌<◌, ◌&&◌, ◌==◌, if◌then◌else◌, length, map, option_map, true, None, Some, All, IfOk, IfErr};
ghost use Rattle.std.specs.List.{slice_get};
ghost use Rattle.meaning.specs.Layers.{is_system_there, parents_there};
ghost use Rattle.meaning.specs.Models.{projection};
ghost use Rattle.meaning.specs.Systems.{is_refuted, run_to};
ghost use Rattle.annotated_model.specs.View.{system_view, transition_view};
ghost use Rattle.worlds.specs.Algebra.{Stops, has};
ghost use Rattle.worlds.specs.Rows.{AllLive, RowWhere};
ghost use Rattle.featured_systems.specs.Exploring.{IsExplored};
ghost use Rattle.invariant_check.specs.Findings.{IsSample, IsSomeFinding, last_run};
ghost use Rattle.invariant_check.specs.Running.{all_has, first_target, marked_into, steps_back};
ghost use Rattle.invariant_check.specs.Searching.{TargetsLead};
ghost use Rattle.invariant_check.specs.View.{run_view};

use crate::data::{Finding, Run};
use annotated_model::{Model, System, Transition};
use doc_tree::Row;
use featured_systems::Explored;
use std::alloc::{AllocError, Global};
use worlds::{QStop, Worlds};

/// The first target that holds at a world.
fn target_at<W: Worlds>(targets: &[(u16, W::C)], world: &[bool], w: &W) -> Option<u16>
    requires targets { All (λ t. (W.algebra w.now).live t.1) targets.now }
    requires length { length world.now ≡ (W.algebra w.now).count }
    ensures { result ≡ first_target (W.algebra w.now) targets.now world.now }
{
    for target in targets {
        if w.at(target.1, world) {
            return Some(target.0);
        }
    }
    None
}

/// Whether a transition leads into a state and is marked at a world.
fn leads_into<W: Worlds>(
    transition: &Transition,
    mark: W::C,
    state: u16,
    world: &[bool],
    w: &W,
) -> bool
    requires mark { (W.algebra w.now).live mark }
    requires length { length world.now ≡ (W.algebra w.now).count }
    ensures { result ≡ ((transition.now.to == state) && has (W.algebra w.now) mark world.now) }
{
    transition.to == state && w.at(mark, world)
}

/// The parent transition into a state at a world, where there is one. `parents` tells of each transition where it is one.
fn step_into<W: Worlds>(
    transitions: &[Transition],
    parents: &[W::C],
    state: u16,
    world: &[bool],
    w: &W,
) -> Option<u16>
    requires few { length transitions.now ≤ 16384 }
    requires one_for_each { length parents.now ≡ length transitions.now }
    requires parents { AllLive (W.algebra w.now) parents.now }
    requires length { length world.now ≡ (W.algebra w.now).count }
    ensures { result ≡ option_map (λ t. t.0) (marked_into (map transition_view transitions.now) (all_has (W.algebra w.now) parents.now world.now) state) }
{
    for (step, transition) in transitions.iter().enumerate() {
        if leads_into(transition, parents[step], state, world, w) {
            return Some(step as u16);
        }
    }
    None
}

/// The shortest run to a state at a world, back over the parent transitions.
fn run_back<W: Worlds>(
    alloc: Global,
    system: &System,
    parents: &[W::C],
    last: u16,
    world: &[bool],
    w: &W,
) -> Result<Run, AllocError>
    requires few { length system.now.transitions ≤ 16384 }
    requires one_for_each { length parents.now ≡ length system.now.transitions }
    requires parents { AllLive (W.algebra w.now) parents.now }
    requires length { length world.now ≡ (W.algebra w.now).count }
    requires back { all_has (W.algebra w.now) parents.now world.now ≡ steps_back (projection world.now (system_view system.now)) (system_view system.now).transitions }
    ensures { IfOk result (λ run. run_view run ≡ run_to (projection world.now (system_view system.now)) last) }
{
    let transitions = system.transitions.list();
    let mut steps = Vec::new(alloc);
    let mut state = last;
    'back: while let Some(step) = step_into(transitions, parents, state, world, w) {
        steps.push(step)?;
        state = transitions[usize::from(step)].from;
    }
    steps.reverse();
    Ok(Run {
        start: state,
        steps: Row::of(steps),
    })
}

/// The run to the first target that holds at a world, where one does.
fn run_there<W: Worlds>(
    alloc: Global,
    system: &System,
    parents: &[W::C],
    targets: &[(u16, W::C)],
    world: &[bool],
    w: &W,
) -> Result<Option<Run>, AllocError>
    requires few { length system.now.transitions ≤ 16384 }
    requires one_for_each { length parents.now ≡ length system.now.transitions }
    requires parents { AllLive (W.algebra w.now) parents.now }
    requires targets { All (λ t. (W.algebra w.now).live t.1) targets.now }
    requires length { length world.now ≡ (W.algebra w.now).count }
    requires back { (state : ℕ) → first_target (W.algebra w.now) targets.now world.now ≡ Some state
        → all_has (W.algebra w.now) parents.now world.now ≡ steps_back (projection world.now (system_view system.now)) (system_view system.now).transitions }
    ensures { IfOk result (λ run. option_map run_view run ≡ option_map (run_to (projection world.now (system_view system.now))) (first_target (W.algebra w.now) targets.now world.now)) }
{
    match target_at(targets, world, w) {
        Some(state) => Ok(Some(run_back(alloc, system, parents, state, world, w)?)),
        None => Ok(None),
    }
}

/// The run that refutes a check at a world: none where the finding doesn't hold there to be refuted, or the list is no world.
///
/// It is a shortest run to a violation, and the one that the definitions choose. The exploration and the finding are of the system, which is one
/// of the model's. No condition is made.
pub fn run_at<W: Worlds>(
    alloc: Global,
    model: &Model,
    system: u16,
    explored: &Explored<W::C>,
    finding: &Finding<W::C>,
    world: &[bool],
    w: &W,
) -> Result<Option<Run>, AllocError>
    requires system { system < length model.now.systems }
    requires explored { (s : _) → slice_get model.now.systems system ≡ Some s → IsExplored (W.algebra w.now) model.now s explored.now }
    requires finding { (s : _) → slice_get model.now.systems system ≡ Some s → IsSomeFinding (W.algebra w.now) model.now s finding.now }
    requires length { length world.now ≡ (W.algebra w.now).count }
    ensures { IfOk result (λ run. (s : _) → slice_get model.now.systems system ≡ Some s → (found : IsSomeFinding (W.algebra w.now) model.now s finding.now)
        → option_map run_view run ≡ (if has (W.algebra w.now) finding.now.refuted world.now then last_run (length model.now.labels) (projection world.now s) found.property else None)) }
{
    let systems = model.systems();
    let chosen = &systems[usize::from(system)];
    run_there(
        alloc,
        chosen,
        explored.parents.list(),
        finding.targets.list(),
        world,
        w,
    )
}

/// The least world where a check is refuted and the run there, if there is such a world.
pub fn sample<W: Worlds>(
    alloc: Global,
    _model: &Model,
    system: &System,
    parents: &[W::C],
    targets: &[(u16, W::C)],
    refuted: W::C,
    w: &W,
) -> Result<Option<(Row<bool>, Run)>, QStop>
    requires few_transitions { length system.now.transitions ≤ 16384 }
    requires refuted { (W.algebra w.now).live refuted }
    requires there { (x : _) → (W.algebra w.now).is_world x ≡ true → (W.algebra w.now).holds refuted x ≡ true → is_system_there _model.now (system_view system.now) x ≡ true }
    requires targets { All (λ t. (W.algebra w.now).live t.1) targets.now }
    requires parents { RowWhere (W.algebra w.now) parents.now (parents_there _model.now (system_view system.now)) }
    requires one_for_each { length parents.now ≡ length system.now.transitions }
    ensures sample { IfOk result (λ found. (p : _) → TargetsLead (W.algebra w.now) (length _model.now.labels) (system_view system.now) p refuted targets.now
        → ((x : _) → (W.algebra w.now).is_world x ≡ true → (W.algebra w.now).holds refuted x ≡ true → is_refuted (length _model.now.labels) (projection x (system_view system.now)) p ≡ true)
        → IsSample (W.algebra w.now) (length _model.now.labels) (system_view system.now) p refuted found) }
    ensures stopped { IfErr result (Stops (W.algebra w.now) (W.algebra w.now)) }
{
    let mut world = vec![in alloc; false; usize::from(w.count())]?;
    if !w.pick(refuted, &mut world) {
        return Ok(None);
    }
    match run_there(alloc, system, parents, targets, &world, w)? {
        Some(run) => Ok(Some((Row::of(world), run))),
        None => Ok(None),
    }
}
