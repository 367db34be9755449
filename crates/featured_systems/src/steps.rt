//! Which transitions of a system are present, and where it starts.

ghost use Rattle.std.specs.Prelude.{◌≡◌, ◌≤◌, ◌+◌, ◌*◌, ◌&&◌, length, map, replicate, false, All, IfOk, IfErr};
ghost use Rattle.std.specs.List.{sum_by};
ghost use Rattle.meaning.specs.Expressions.{name_bound, truth, size_of};
ghost use Rattle.cond_text.specs.View.{expression};
ghost use Rattle.worlds.specs.Algebra.{Worked, HoldsWhere, IsRefusal, Stops};
ghost use Rattle.worlds.specs.Rows.{RowWhere};

use annotated_model::{State, Transition};
use std::alloc::{AllocError, Global};
use worlds::{NodeLimit, QStop, Worlds, condition};

/// Holds where the system is there and the transition is present.
fn step<W: Worlds>(transition: &Transition, there: W::C, w: &mut W) -> Result<W::C, NodeLimit>
    requires names { name_bound (expression transition.now.when) ≤ (W.algebra w.old).count }
    requires live { (W.algebra w.old).live there }
    ensures worked { Worked (8 * size_of (expression transition.now.when) + 1) (W.algebra w.old) (W.algebra w.new) }
    ensures made { IfOk result (λ c. HoldsWhere (W.algebra w.new) c (λ x. (W.algebra w.old).holds there x && truth (expression transition.now.when) x)) }
    ensures refused { IfErr result (IsRefusal (W.algebra w.old) (W.algebra w.new)) }
{
    let present = condition(&transition.when, w)?;
    w.both(there, present)
}

/// For each transition, where the system is there and the transition is present.
pub fn steps_of<W: Worlds>(
    alloc: Global,
    transitions: &[Transition],
    there: W::C,
    w: &mut W,
) -> Result<Vec<W::C>, QStop>
    requires names { All (λ t. name_bound (expression t.when) ≤ (W.algebra w.old).count) transitions.now }
    requires live { (W.algebra w.old).live there }
    ensures worked { Worked (sum_by (λ t. 8 * size_of (expression t.when) + 1) transitions.now) (W.algebra w.old) (W.algebra w.new) }
    ensures made { IfOk result (λ steps. RowWhere (W.algebra w.new) steps.items (λ x. map (λ t. (W.algebra w.old).holds there x && truth (expression t.when) x) transitions.now)) }
    ensures one_for_each { IfOk result (λ steps. length steps.items ≡ length transitions.now) }
    ensures stopped { IfErr result (Stops (W.algebra w.old) (W.algebra w.new)) }
{
    let mut steps = Vec::new(alloc);
    for transition in transitions {
        let present = step(transition, there, w)?;
        steps.push(present)?;
    }
    Ok(steps)
}

/// Where a state is initial.
fn start<W: Worlds>(state: &State, there: W::C, w: &W) -> W::C
    requires live { (W.algebra w.now).live there }
    ensures made { HoldsWhere (W.algebra w.now) result (λ x. (W.algebra w.now).holds there x && state.now.initial) }
{
    if state.initial { there } else { w.never() }
}

/// For each state, where the system is there and the state is initial.
pub fn starts<W: Worlds>(
    alloc: Global,
    states: &[State],
    there: W::C,
    w: &W,
) -> Result<Vec<W::C>, AllocError>
    requires live { (W.algebra w.now).live there }
    ensures made { IfOk result (λ first. RowWhere (W.algebra w.now) first.items (λ x. map (λ s. (W.algebra w.now).holds there x && s.initial) states.now)) }
    ensures one_for_each { IfOk result (λ first. length first.items ≡ length states.now) }
{
    let mut first = Vec::new(alloc);
    for state in states {
        first.push(start(state, there, w))?;
    }
    Ok(first)
}

/// So many conditions that never hold.
pub fn nowhere<W: Worlds>(alloc: Global, count: usize, w: &W) -> Result<Vec<W::C>, AllocError>
    ensures made { IfOk result (λ cs. RowWhere (W.algebra w.now) cs.items (λ x. replicate count false)) }
    ensures sized { IfOk result (λ cs. length cs.items ≡ count) }
{
    let mut conditions = Vec::new(alloc);
    for _place in 0..count {
        conditions.push(w.never())?;
    }
    Ok(conditions)
}
