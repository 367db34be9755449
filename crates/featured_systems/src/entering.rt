//! From one layer to the next.

ghost use Rattle.std.specs.Prelude.{◌≡◌, ℕ, ◌<◌, ◌≤◌, ◌+◌, ◌*◌, ◌&&◌, ◌||◌, not, [], map, length, take, slice_index_or, slice_set, All, IfOk, IfErr, find, true, false, None};
ghost use Rattle.std.specs.List.{sum_by};
ghost use Rattle.meaning.specs.Systems.{is_some_number};
ghost use Rattle.worlds.specs.Algebra.{Worked, HoldsWhere, IsRefusal, Stops};
ghost use Rattle.worlds.specs.Rows.{AllLive, RowWhere, row_at};
ghost use Rattle.featured_systems.specs.Rounds.{places, states_at, comes, first_into, marked, parents_below, seen_below, is_entered, entered_below, front_at, Fronts, LeadsOnlyTo};

use crate::found::Found;
use annotated_model::Transition;
use std::alloc::Global;
use worlds::{NodeLimit, QStop, Worlds};

/// Holds where one of the two does. Nothing is asked for where the second is never.
fn join<W: Worlds>(a: W::C, b: W::C, w: &mut W) -> Result<W::C, NodeLimit>
    requires a_live { (W.algebra w.old).live a }
    requires b_live { (W.algebra w.old).live b }
    ensures worked { Worked 1 (W.algebra w.old) (W.algebra w.new) }
    ensures made { IfOk result (λ c. HoldsWhere (W.algebra w.new) c (λ x. (W.algebra w.old).holds a x || (W.algebra w.old).holds b x)) }
    ensures refused { IfErr result (IsRefusal (W.algebra w.old) (W.algebra w.new)) }
{
    if w.is_never(b) {
        return Ok(a);
    }
    w.either(a, b)
}

/// Holds where a state of the last layer and the step from it hold, and the end isn't seen yet.
fn gain<W: Worlds>(from: W::C, step: W::C, seen: W::C, w: &mut W) -> Result<W::C, NodeLimit>
    requires from_live { (W.algebra w.old).live from }
    requires step_live { (W.algebra w.old).live step }
    requires seen_live { (W.algebra w.old).live seen }
    ensures worked { Worked 2 (W.algebra w.old) (W.algebra w.new) }
    ensures made { IfOk result (λ c. HoldsWhere (W.algebra w.new) c (λ x. ((W.algebra w.old).holds from x && (W.algebra w.old).holds step x) && not ((W.algebra w.old).holds seen x))) }
    ensures refused { IfErr result (IsRefusal (W.algebra w.old) (W.algebra w.new)) }
{
    if w.is_never(from) {
        return Ok(w.never());
    }
    let moved = w.both(from, step)?;
    w.without(moved, seen)
}

/// Where a state is seen after the transitions of these numbers lead to it from the last layer, and where it is entered by them. Each of
/// them is a parent where it is the first that enters.
fn enter<W: Worlds>(
    numbers: &[u16],
    transitions: &[Transition],
    steps: &[W::C],
    last: &[W::C],
    before: W::C,
    parents: &mut Vec<W::C>,
    w: &mut W,
) -> Result<(W::C, W::C), NodeLimit>
    requires numbers { All (λ t. t < length transitions.now) numbers.now }
    requires fronts { Fronts (W.algebra w.old) transitions.now steps.now last.now }
    requires before { (W.algebra w.old).live before }
    requires parents { AllLive (W.algebra w.old) parents.old.items }
    requires one_for_each { length parents.old.items ≡ length transitions.now }
    ensures worked { Worked (5 * length numbers.now) (W.algebra w.old) (W.algebra w.new) }
    ensures seen { IfOk result (λ r. HoldsWhere (W.algebra w.new) r.0 (λ x. (W.algebra w.old).holds before x
        || is_some_number (find (comes (front_at (W.algebra w.old) transitions.now steps.now last.now x)) numbers.now))) }
    ensures entered { IfOk result (λ r. HoldsWhere (W.algebra w.new) r.1 (λ x. not ((W.algebra w.old).holds before x)
        && is_some_number (find (comes (front_at (W.algebra w.old) transitions.now steps.now last.now x)) numbers.now))) }
    ensures parents { IfOk result (λ _. RowWhere (W.algebra w.new) parents.new.items (λ x. marked ((W.algebra w.old).holds before x)
        (find (comes (front_at (W.algebra w.old) transitions.now steps.now last.now x)) numbers.now) (row_at (W.algebra w.old) parents.old.items x))) }
    ensures size { length parents.new.items ≡ length parents.old.items }
    ensures refused { IfErr result (IsRefusal (W.algebra w.old) (W.algebra w.new)) }
{
    let mut seen = before;
    let mut entered = w.never();
    for number in numbers {
        let t = usize::from(*number);
        let from = last[usize::from(transitions[t].from)];
        let gained = gain(from, steps[t], seen, w)?;
        seen = join(seen, gained, w)?;
        entered = join(entered, gained, w)?;
        parents[t] = join(parents[t], gained, w)?;
    }
    Ok((seen, entered))
}

/// Where one state is entered from the last layer. `touched` is false only where no transition leads to it from there.
fn enter_state<W: Worlds>(
    y: usize,
    touched: bool,
    numbers: &[u16],
    transitions: &[Transition],
    steps: &[W::C],
    last: &[W::C],
    found: &mut Found<W::C>,
    w: &mut W,
) -> Result<W::C, NodeLimit>
    requires state { y < length found.old.reached.items }
    requires numbers { numbers.now ≡ places 0 y (states_at true transitions.now) }
    requires fronts { Fronts (W.algebra w.old) transitions.now steps.now last.now }
    requires touched { touched ≡ false → (x : _) → (W.algebra w.old).is_world x ≡ true → first_into (front_at (W.algebra w.old) transitions.now steps.now last.now x) y ≡ None }
    requires reached { AllLive (W.algebra w.old) found.old.reached.items }
    requires parents { AllLive (W.algebra w.old) found.old.parents.items }
    requires one_for_each { length found.old.parents.items ≡ length transitions.now }
    ensures worked { Worked (5 * length numbers.now) (W.algebra w.old) (W.algebra w.new) }
    ensures entered { IfOk result (λ c. HoldsWhere (W.algebra w.new) c (λ x. is_entered (front_at (W.algebra w.old) transitions.now steps.now last.now x) (row_at (W.algebra w.old) found.old.reached.items x) y)) }
    ensures reached { IfOk result (λ _. RowWhere (W.algebra w.new) found.new.reached.items (λ x. let row = row_at (W.algebra w.old) found.old.reached.items x in
        slice_set row y (slice_index_or row y false || is_some_number (first_into (front_at (W.algebra w.old) transitions.now steps.now last.now x) y)))) }
    ensures parents { IfOk result (λ _. RowWhere (W.algebra w.new) found.new.parents.items (λ x. marked (slice_index_or (row_at (W.algebra w.old) found.old.reached.items x) y false)
        (first_into (front_at (W.algebra w.old) transitions.now steps.now last.now x) y) (row_at (W.algebra w.old) found.old.parents.items x))) }
    ensures states { length found.new.reached.items ≡ length found.old.reached.items }
    ensures transitions { length found.new.parents.items ≡ length found.old.parents.items }
    ensures layers { found.new.layers.items ≡ found.old.layers.items }
    ensures refused { IfErr result (IsRefusal (W.algebra w.old) (W.algebra w.new)) }
{
    if !touched {
        return Ok(w.never());
    }
    let before = found.reached[y];
    let (seen, entered) = enter(
        numbers,
        transitions,
        steps,
        last,
        before,
        &mut found.parents,
        w,
    )?;
    found.reached[y] = seen;
    Ok(entered)
}

/// The layer after the last one. `into` has the numbers of the transitions to each state, and `touched` is true for the states to which one
/// leads from the last layer.
pub fn next_layer<W: Worlds>(
    alloc: Global,
    into: &[Vec<u16>],
    touched: &[bool],
    transitions: &[Transition],
    steps: &[W::C],
    last: &[W::C],
    found: &mut Found<W::C>,
    w: &mut W,
) -> Result<Vec<W::C>, QStop>
    requires lists { (y : ℕ) → slice_index_or (map (λ list. list.items) into.now) y [] ≡ places 0 y (states_at true transitions.now) }
    requires sized { length into.now ≡ length last.now }
    requires one_for_each_touched { length touched.now ≡ length last.now }
    requires touched { LeadsOnlyTo (W.algebra w.old) transitions.now last.now touched.now }
    requires fronts { Fronts (W.algebra w.old) transitions.now steps.now last.now }
    requires states { length found.old.reached.items ≡ length last.now }
    requires reached { AllLive (W.algebra w.old) found.old.reached.items }
    requires parents { AllLive (W.algebra w.old) found.old.parents.items }
    requires one_for_each { length found.old.parents.items ≡ length transitions.now }
    ensures worked { Worked (5 * sum_by length (map (λ list. list.items) into.now)) (W.algebra w.old) (W.algebra w.new) }
    ensures entered { IfOk result (λ next. RowWhere (W.algebra w.new) next.items (λ x. entered_below (front_at (W.algebra w.old) transitions.now steps.now last.now x) (row_at (W.algebra w.old) found.old.reached.items x) (length last.now))) }
    ensures reached { IfOk result (λ _. RowWhere (W.algebra w.new) found.new.reached.items (λ x. seen_below (front_at (W.algebra w.old) transitions.now steps.now last.now x) (row_at (W.algebra w.old) found.old.reached.items x) (length last.now))) }
    ensures parents { IfOk result (λ _. RowWhere (W.algebra w.new) found.new.parents.items (λ x. parents_below (front_at (W.algebra w.old) transitions.now steps.now last.now x) (row_at (W.algebra w.old) found.old.reached.items x)
        (row_at (W.algebra w.old) found.old.parents.items x) (length last.now))) }
    ensures one_for_each { IfOk result (λ next. length next.items ≡ length last.now) }
    ensures states { length found.new.reached.items ≡ length found.old.reached.items }
    ensures transitions { length found.new.parents.items ≡ length found.old.parents.items }
    ensures layers { found.new.layers.items ≡ found.old.layers.items }
    ensures stopped { IfErr result (Stops (W.algebra w.old) (W.algebra w.new)) }
{
    let mut next = Vec::new(alloc);
    'states: for (y, numbers) in into.iter().enumerate() {
        let entered = enter_state(y, touched[y], numbers, transitions, steps, last, found, w)?;
        next.push(entered)?;
    }
    Ok(next)
}
