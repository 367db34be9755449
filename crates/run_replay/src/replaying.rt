//! Replaying a run at one world.

ghost use Rattle.std.specs.Prelude.{◌≡◌, ◌<◌, ◌≤◌, length, Some};
ghost use Rattle.std.specs.List.{All, slice_get};
ghost use Rattle.meaning.specs.Counts.{capped};
ghost use Rattle.meaning.specs.Expressions.{name_bound};
ghost use Rattle.meaning.specs.Models.{projection};
ghost use Rattle.meaning.specs.Replay.{replay_answer, steps_replayed};
ghost use Rattle.meaning.specs.Systems.{is_initial};
ghost use Rattle.annotated_model.specs.ModelFacts.{NamesFeatures};
ghost use Rattle.annotated_model.specs.View.{system_view, transition_view};
ghost use Rattle.run_replay.specs.View.{replayed};

use crate::fault::ReplayFault;
use annotated_model::{Model, System};
use cond_text::truth;

/// The state in which the run ends that takes the given transitions of a system from a state, in the product of a world.
///
/// States and transitions are told by their numbers in the system. Where they are no run there, it tells the first reason: that the state isn't
/// initial, or the first step that is not joined to the one before it or not present, in this order. Steps past 4,294,967,295 are told as that
/// number.
pub fn replay(
    model: &Model,
    system: u16,
    world: &[bool],
    start: u16,
    steps: &[u16],
) -> Result<u16, ReplayFault>
    requires system { system < length model.now.systems }
    requires start { (s : _) → slice_get model.now.systems system ≡ Some s → start < length s.states }
    requires steps { (s : _) → slice_get model.now.systems system ≡ Some s → All (λ t. t < length s.transitions) steps.now }
    requires names { NamesFeatures (length world.now) model.now }
    ensures { (s : _) → slice_get model.now.systems system ≡ Some s → replayed result ≡ replay_answer s world.now start steps.now }
{
    let systems = model.systems();
    let chosen = &systems[usize::from(system)];
    replay_in(chosen, world, start, steps)
}

/// The answer for the transitions of a system.
fn replay_in(system: &System, world: &[bool], start: u16, steps: &[u16]) -> Result<u16, ReplayFault>
    requires start { start < length system.now.states }
    requires steps { All (λ t. t < length system.now.transitions) steps.now }
    requires names { All (λ t. name_bound (transition_view t).presence ≤ length world.now) system.now.transitions }
    ensures { replayed result ≡ replay_answer (system_view system.now) world.now start steps.now }
{
    let states = system.states.list();
    if states[usize::from(start)].initial {
        replay_steps(system, world, start, steps)
    } else {
        Err(ReplayFault::NotInitial)
    }
}

/// The state in which transitions end that are taken from a state, or the first of them that can't be taken.
fn replay_steps(
    system: &System,
    world: &[bool],
    start: u16,
    steps: &[u16],
) -> Result<u16, ReplayFault>
    requires steps { All (λ t. t < length system.now.transitions) steps.now }
    requires names { All (λ t. name_bound (transition_view t).presence ≤ length world.now) system.now.transitions }
    ensures { replayed result ≡ steps_replayed (system_view system.now) world.now 0 start steps.now }
{
    let transitions = system.transitions.list();
    let mut state = start;
    for (step, number) in steps.iter().enumerate() {
        let transition = &transitions[usize::from(*number)];
        if transition.from != state {
            return Err(ReplayFault::NotJoined(told(step)));
        }
        if !truth(&transition.when, world) {
            return Err(ReplayFault::NotPresent(told(step)));
        }
        state = transition.to;
    }
    Ok(state)
}

/// The number of a step as it is told.
fn told(step: usize) -> u32
    ensures { result ≡ capped step }
{
    u32::try_from(step).unwrap_or(u32::MAX)
}
