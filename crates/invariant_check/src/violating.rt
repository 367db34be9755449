//! Where each state violates a property, in all products at once.

ghost use Rattle.std.specs.Prelude.{◌≡◌, ◌≤◌, ◌<◌, length, replicate, true, All, IfOk, IfErr};
ghost use Rattle.meaning.specs.Expressions.{name_bound};
ghost use Rattle.meaning.specs.Layers.{steps_there};
ghost use Rattle.meaning.specs.Systems.{Never, NoDeadlock};
ghost use Rattle.worlds.specs.Algebra.{Worked, HoldsWhere, Stops};
ghost use Rattle.worlds.specs.Rows.{RowWhere};
ghost use Rattle.cond_text.specs.View.{expression};
ghost use Rattle.annotated_model.specs.View.{system_view};
ghost use Rattle.invariant_check.specs.View.{property as property_view, label_bound};
ghost use Rattle.invariant_check.specs.Searching.{Violating};

use crate::data::Property;
use crate::violation::satisfies;
use annotated_model::{Model, System};
use cond_text::Expr;
use std::alloc::{AllocError, Global};
use worlds::{QStop, Worlds};

/// For each state where it violates, by where each transition is there.
pub fn violating<W: Worlds>(
    alloc: Global,
    model: &Model,
    system: &System,
    steps: &[W::C],
    property: &Property,
    w: &mut W,
) -> Result<Vec<W::C>, QStop>
    requires bound { label_bound (property_view property.now) ≤ length model.now.labels }
    requires from { All (λ t. t.from < length system.now.states) system.now.transitions }
    requires size { length steps.now ≡ length system.now.transitions }
    requires steps { RowWhere (W.algebra w.old) steps.now (steps_there model.now (system_view system.now)) }
    ensures worked { Worked (length system.now.transitions) (W.algebra w.old) (W.algebra w.new) }
    ensures made { IfOk result (λ cs. Violating (W.algebra w.new) model.now (system_view system.now) (property_view property.now) cs.items) }
    ensures stopped { IfErr result (Stops (W.algebra w.old) (W.algebra w.new)) }
{
    match property {
        Property::Never(over) => Ok(satisfying(alloc, model, system, over, w)?),
        Property::NoDeadlock => stuck(alloc, model, system, steps, w),
    }
}

/// For each state whether its labels satisfy the expression, everywhere or nowhere.
fn satisfying<W: Worlds>(
    alloc: Global,
    model: &Model,
    system: &System,
    over: &Expr,
    w: &W,
) -> Result<Vec<W::C>, AllocError>
    requires bound { name_bound (expression over.now) ≤ length model.now.labels }
    ensures made { IfOk result (λ cs. Violating (W.algebra w.now) model.now (system_view system.now) (Never (expression over.now)) cs.items) }
{
    let labels = model.labels().count();
    let mut violating = Vec::new(alloc);
    for state in system.states.list() {
        violating.push(constant(satisfies(state, over, labels), w))?;
    }
    Ok(violating)
}

/// Holds everywhere or nowhere.
fn constant<W: Worlds>(truth: bool, w: &W) -> W::C
    ensures made { HoldsWhere (W.algebra w.now) result (λ _. truth) }
{
    if truth { w.always() } else { w.never() }
}

/// For each state where no transition leaves it.
fn stuck<W: Worlds>(
    alloc: Global,
    model: &Model,
    system: &System,
    steps: &[W::C],
    w: &mut W,
) -> Result<Vec<W::C>, QStop>
    requires from { All (λ t. t.from < length system.now.states) system.now.transitions }
    requires size { length steps.now ≡ length system.now.transitions }
    requires steps { RowWhere (W.algebra w.old) steps.now (steps_there model.now (system_view system.now)) }
    ensures worked { Worked (length system.now.transitions) (W.algebra w.old) (W.algebra w.new) }
    ensures made { IfOk result (λ cs. Violating (W.algebra w.new) model.now (system_view system.now) NoDeadlock cs.items) }
    ensures stopped { IfErr result (Stops (W.algebra w.old) (W.algebra w.new)) }
{
    let mut stuck = everywhere(alloc, system.states.list().len(), w)?;
    for (number, transition) in system.transitions.list().iter().enumerate() {
        let from = usize::from(transition.from);
        stuck[from] = w.without(stuck[from], steps[number])?;
    }
    Ok(stuck)
}

/// So many conditions that always hold.
fn everywhere<W: Worlds>(alloc: Global, count: usize, w: &W) -> Result<Vec<W::C>, AllocError>
    ensures made { IfOk result (λ cs. RowWhere (W.algebra w.now) cs.items (λ x. replicate count true)) }
    ensures sized { IfOk result (λ cs. length cs.items ≡ count) }
{
    let mut conditions = Vec::new(alloc);
    for _place in 0..count {
        conditions.push(w.always())?;
    }
    Ok(conditions)
}
