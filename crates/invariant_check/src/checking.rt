//! A check of a system in all products at once.

ghost use Rattle.std.specs.Prelude.{◌≡◌, ◌≤◌, ◌<◌, length, replicate, true, false, Some, All, IfOk, IfErr};
ghost use Rattle.std.specs.List.{slice_get};
ghost use Rattle.meaning.specs.Bounds.{asks_of_judging};
ghost use Rattle.meaning.specs.Layers.{is_system_there, parents_there};
ghost use Rattle.annotated_model.specs.ModelFacts.{SystemFits};
ghost use Rattle.annotated_model.specs.View.{system_view};
ghost use Rattle.worlds.specs.Algebra.{Worked, Stops};
ghost use Rattle.worlds.specs.Rows.{AllLive, RowWhere};
ghost use Rattle.featured_systems.specs.Exploring.{IsExplored};
ghost use Rattle.invariant_check.specs.Findings.{IsFinding};
ghost use Rattle.invariant_check.specs.Targets.{IsJudged};
ghost use Rattle.invariant_check.specs.View.{property as property_view, label_bound};

use crate::data::{Finding, Property};
use crate::nearest::nearest;
use crate::running::sample;
use crate::targets::listed;
use crate::violating::violating;
use annotated_model::{Model, System};
use doc_tree::Row;
use featured_systems::Explored;
use std::alloc::{AllocError, Global};
use worlds::{QStop, Worlds};

/// So many conditions that never hold.
fn nowhere<W: Worlds>(alloc: Global, count: usize, w: &W) -> Result<Vec<W::C>, AllocError>
    ensures made { IfOk result (λ cs. RowWhere (W.algebra w.now) cs.items (λ x. replicate count false)) }
    ensures sized { IfOk result (λ cs. length cs.items ≡ count) }
{
    let mut conditions = Vec::new(alloc);
    for _place in 0..count {
        conditions.push(w.never())?;
    }
    Ok(conditions)
}

/// Where the check is supported under the condition, and where it is refuted. To `ends`, one for each state and never before, goes where the
/// run of the refuted check ends in the state.
fn judge<W: Worlds>(
    alloc: Global,
    model: &Model,
    system: &System,
    explored: &Explored<W::C>,
    property: &Property,
    under: W::C,
    ends: &mut Vec<W::C>,
    w: &mut W,
) -> Result<(W::C, W::C), QStop>
    requires from { All (λ t. t.from < length system.now.states) system.now.transitions }
    requires labels { label_bound (property_view property.now) ≤ length model.now.labels }
    requires explored { IsExplored (W.algebra w.old) model.now (system_view system.now) explored.now }
    requires live { (W.algebra w.old).live under }
    requires under { (x : _) → (W.algebra w.old).is_world x ≡ true → (W.algebra w.old).holds under x ≡ true → is_system_there model.now (system_view system.now) x ≡ true }
    requires size { length ends.old.items ≡ length system.now.states }
    requires never { RowWhere (W.algebra w.old) ends.old.items (λ x. replicate (length system.now.states) false) }
    ensures worked { Worked (asks_of_judging (system_view system.now)) (W.algebra w.old) (W.algebra w.new) }
    ensures judged { IfOk result (λ r. IsJudged (W.algebra w.new) (length model.now.labels) (system_view system.now) (property_view property.now) under r.0 r.1 ends.new.items) }
    ensures size { length ends.new.items ≡ length ends.old.items }
    ensures stopped { IfErr result (Stops (W.algebra w.old) (W.algebra w.new)) }
{
    let violations = violating(alloc, model, system, explored.steps.list(), property, w)?;
    let supported = nearest(explored.layers.list(), &violations, under, ends, w)?;
    let refuted = w.without(under, supported)?;
    Ok((supported, refuted))
}

/// What was found where the check is supported, where it is refuted, and for each state where its run ends there.
fn finding<W: Worlds>(
    alloc: Global,
    model: &Model,
    system: &System,
    parents: &[W::C],
    supported: W::C,
    refuted: W::C,
    ends: &[W::C],
    w: &W,
) -> Result<Finding<W::C>, QStop>
    requires few_states { length system.now.states ≤ 4096 }
    requires few_transitions { length system.now.transitions ≤ 16384 }
    requires refuted { (W.algebra w.now).live refuted }
    requires there { (x : _) → (W.algebra w.now).is_world x ≡ true → (W.algebra w.now).holds refuted x ≡ true → is_system_there model.now (system_view system.now) x ≡ true }
    requires ends { AllLive (W.algebra w.now) ends.now }
    requires size { length ends.now ≡ length system.now.states }
    requires parents { RowWhere (W.algebra w.now) parents.now (parents_there model.now (system_view system.now)) }
    requires one_for_each { length parents.now ≡ length system.now.transitions }
    ensures found { IfOk result (λ f. (p : _) (under : _) → IsJudged (W.algebra w.now) (length model.now.labels) (system_view system.now) p under supported refuted ends.now
        → IsFinding (W.algebra w.now) model.now (system_view system.now) p under f) }
    ensures stopped { IfErr result (Stops (W.algebra w.now) (W.algebra w.now)) }
{
    let targets = listed(alloc, ends, w)?;
    let sample = sample(alloc, model, system, parents, &targets, refuted, w)?;
    Ok(Finding {
        supported,
        refuted,
        targets: Row::of(targets),
        sample,
    })
}

/// The check of a system of a model, under a condition.
fn check_of<W: Worlds>(
    alloc: Global,
    model: &Model,
    system: &System,
    explored: &Explored<W::C>,
    property: &Property,
    under: W::C,
    w: &mut W,
) -> Result<Finding<W::C>, QStop>
    requires fits { SystemFits model.now (system_view system.now) }
    requires labels { label_bound (property_view property.now) ≤ length model.now.labels }
    requires explored { IsExplored (W.algebra w.old) model.now (system_view system.now) explored.now }
    requires live { (W.algebra w.old).live under }
    requires under { (x : _) → (W.algebra w.old).is_world x ≡ true → (W.algebra w.old).holds under x ≡ true → is_system_there model.now (system_view system.now) x ≡ true }
    ensures worked { Worked (asks_of_judging (system_view system.now)) (W.algebra w.old) (W.algebra w.new) }
    ensures found { IfOk result (λ f. IsFinding (W.algebra w.new) model.now (system_view system.now) (property_view property.now) under f) }
    ensures stopped { IfErr result (Stops (W.algebra w.old) (W.algebra w.new)) }
{
    let mut ends = nowhere(alloc, system.states.list().len(), w)?;
    let (supported, refuted) = judge(
        alloc, model, system, explored, property, under, &mut ends, w,
    )?;
    finding(
        alloc,
        model,
        system,
        explored.parents.list(),
        supported,
        refuted,
        &ends,
        w,
    )
}

/// Checks a system in all products at once, under a condition.
///
/// The system is one of the model's, it was explored, and its element is in every product where the condition holds. At every world where the
/// condition holds the finding tells whether a reachable state violates the property, and in which state the least of the shortest runs there
/// ends, as `meaning` has it of the projection to that product (`is_refuted`, `last_state`).
///
/// Stopped only for want of memory, or where a condition was refused.
pub fn check<W: Worlds>(
    alloc: Global,
    model: &Model,
    system: u16,
    explored: &Explored<W::C>,
    property: &Property,
    under: W::C,
    w: &mut W,
) -> Result<Finding<W::C>, QStop>
    requires system { system < length model.now.systems }
    requires labels { label_bound (property_view property.now) ≤ length model.now.labels }
    requires explored { (s : _) → slice_get model.now.systems system ≡ Some s → IsExplored (W.algebra w.old) model.now s explored.now }
    requires live { (W.algebra w.old).live under }
    requires under { (s : _) → slice_get model.now.systems system ≡ Some s → (x : _) → (W.algebra w.old).is_world x ≡ true → (W.algebra w.old).holds under x ≡ true → is_system_there model.now s x ≡ true }
    ensures worked { (s : _) → slice_get model.now.systems system ≡ Some s → Worked (asks_of_judging s) (W.algebra w.old) (W.algebra w.new) }
    ensures found { IfOk result (λ f. (s : _) → slice_get model.now.systems system ≡ Some s → IsFinding (W.algebra w.new) model.now s (property_view property.now) under f) }
    ensures stopped { IfErr result (Stops (W.algebra w.old) (W.algebra w.new)) }
{
    let systems = model.systems();
    let chosen = &systems[usize::from(system)];
    check_of(alloc, model, chosen, explored, property, under, w)
}
