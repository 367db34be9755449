//! Transitions by the states that they lead from and to.

ghost use Rattle.std.specs.Prelude.{◌≡◌, ℕ, ◌<◌, ◌≤◌, ◌++◌, ◌∷◌, [], IfOk, OnOk, map, length, vec_len, slice_index_or, slice_set, All, Contains, true, false};
ghost use Rattle.std.specs.List.{sum_by};
ghost use Rattle.worlds.specs.Algebra.{HoldsNowhere};
ghost use Rattle.worlds.specs.Rows.{AllLive, row_at};
ghost use Rattle.featured_systems.specs.Rounds.{places, state_at, states_at, LeadsOnlyTo};

use annotated_model::Transition;
use std::alloc::{AllocError, Global};
use worlds::Worlds;

fn no_lists(alloc: Global, states: usize) -> Result<Vec<Vec<u16>>, AllocError>
    ensures sized { IfOk result (λ v. vec_len v ≡ states) }
    ensures empty { IfOk result (λ v. (y : ℕ) → slice_index_or (map (λ list. list.items) v.items) y [] ≡ []) }
    ensures none { IfOk result (λ v. sum_by length (map (λ list. list.items) v.items) ≡ 0) }
{
    let mut lists = Vec::new(alloc);
    for _state in 0..states {
        lists.push(Vec::new(alloc))?;
    }
    Ok(lists)
}

fn add(lists: &mut Vec<Vec<u16>>, state: usize, number: u16) -> Result<(), AllocError>
    requires { state < vec_len lists.old }
    ensures sized { vec_len lists.new ≡ vec_len lists.old }
    ensures added { OnOk result (map (λ list. list.items) lists.new.items
        ≡ slice_set (map (λ list. list.items) lists.old.items) state (slice_index_or (map (λ list. list.items) lists.old.items) state [] ++ number ∷ [])) }
{
    lists[state].push(number)?;
    Ok(())
}

/// The state to which a transition leads, or from which it does.
fn state_of(transition: &Transition, end: bool) -> u16
    ensures { result ≡ state_at end transition.now }
{
    if end { transition.to } else { transition.from }
}

/// For each of so many states, the numbers of the transitions that lead to it, or from it, in their order.
pub fn numbers_by_state(
    alloc: Global,
    states: usize,
    transitions: &[Transition],
    end: bool,
) -> Result<Vec<Vec<u16>>, AllocError>
    requires few { length transitions.now ≤ 16384 }
    requires states { All (λ t. state_at end t < states) transitions.now }
    ensures sized { IfOk result (λ v. vec_len v ≡ states) }
    ensures lists { IfOk result (λ v. (y : ℕ) → slice_index_or (map (λ list. list.items) v.items) y [] ≡ places 0 y (states_at end transitions.now)) }
    ensures each_once { IfOk result (λ v. sum_by length (map (λ list. list.items) v.items) ≡ length transitions.now) }
{
    let mut lists = no_lists(alloc, states)?;
    'transitions: for (number, transition) in transitions.iter().enumerate() {
        add(
            &mut lists,
            usize::from(state_of(transition, end)),
            number as u16,
        )?;
    }
    Ok(lists)
}

/// Marks the states to which the transitions of these numbers lead.
fn touch(numbers: &[u16], transitions: &[Transition], touched: &mut Vec<bool>)
    requires numbers { All (λ t. t < length transitions.now) numbers.now }
    requires targets { All (λ t. t.to < length touched.old.items) transitions.now }
    ensures size { length touched.new.items ≡ length touched.old.items }
    ensures kept { (y : ℕ) → slice_index_or touched.old.items y false ≡ true → slice_index_or touched.new.items y false ≡ true }
    ensures marked { All (λ t. slice_index_or touched.new.items (slice_index_or (states_at true transitions.now) t 0) false ≡ true) numbers.now }
{
    for number in numbers {
        let target = transitions[usize::from(*number)].to;
        touched[usize::from(target)] = true;
    }
}

fn untouched(alloc: Global, states: usize) -> Result<Vec<bool>, AllocError>
    ensures sized { IfOk result (λ v. length v.items ≡ states) }
{
    let mut touched = Vec::new(alloc);
    for _state in 0..states {
        touched.push(false)?;
    }
    Ok(touched)
}

/// Marks the states to which the transitions of these numbers lead, from a state with this condition, if it isn't never.
fn touch_from<W: Worlds>(
    from: W::C,
    numbers: &[u16],
    transitions: &[Transition],
    touched: &mut Vec<bool>,
    w: &W,
)
    requires live { (W.algebra w.now).live from }
    requires numbers { All (λ t. t < length transitions.now) numbers.now }
    requires targets { All (λ t. t.to < length touched.old.items) transitions.now }
    ensures size { length touched.new.items ≡ length touched.old.items }
    ensures kept { (y : ℕ) → slice_index_or touched.old.items y false ≡ true → slice_index_or touched.new.items y false ≡ true }
    ensures left { (t : ℕ) → Contains numbers.now t → slice_index_or touched.new.items (slice_index_or (states_at true transitions.now) t 0) false ≡ false → HoldsNowhere (W.algebra w.now) from }
{
    if w.is_never(from) {
        return;
    }
    touch(numbers, transitions, touched);
}

/// Which states the transitions from the states of a layer lead to, where `from` has their numbers for each state. A state whose condition
/// in the layer is never counts as outside of it.
pub fn touched_states<W: Worlds>(
    alloc: Global,
    from: &[Vec<u16>],
    transitions: &[Transition],
    last: &[W::C],
    w: &W,
) -> Result<Vec<bool>, AllocError>
    requires lists { (y : ℕ) → slice_index_or (map (λ list. list.items) from.now) y [] ≡ places 0 y (states_at false transitions.now) }
    requires sized { length from.now ≡ length last.now }
    requires sources { All (λ t. t.from < length last.now) transitions.now }
    requires targets { All (λ t. t.to < length last.now) transitions.now }
    requires live { AllLive (W.algebra w.now) last.now }
    ensures sized { IfOk result (λ touched. length touched.items ≡ length last.now) }
    ensures touched { IfOk result (λ touched. LeadsOnlyTo (W.algebra w.now) transitions.now last.now touched.items) }
{
    let mut touched = untouched(alloc, last.len())?;
    'states: for (state, numbers) in from.iter().enumerate() {
        touch_from(last[state], numbers, transitions, &mut touched, w);
    }
    Ok(touched)
}
