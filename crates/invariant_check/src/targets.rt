//! The list of the states to which shortest runs to violations lead.

ghost use Rattle.std.specs.Prelude.{◌≡◌, ◌≤◌, ◌+◌, ◌++◌, ◌∷◌, [], length, filter, if◌then◌else◌, true, false, IfOk, OnOk};
ghost use Rattle.std.specs.List.{slice_index_or};
ghost use Rattle.meaning.specs.Texts.{numbers_from};
ghost use Rattle.worlds.specs.Rows.{AllLive, row_at};
ghost use Rattle.invariant_check.specs.Findings.{targets_at};
ghost use Rattle.invariant_check.specs.Targets.{AreTargets};

use std::alloc::{AllocError, Global};
use worlds::Worlds;

/// Lists a state with its condition, where that isn't never.
fn list_target<W: Worlds>(
    state: u16,
    there: W::C,
    targets: &mut Vec<(u16, W::C)>,
    w: &W,
) -> Result<(), AllocError>
    requires live { (W.algebra w.now).live there }
    requires listed { AreTargets (W.algebra w.now) targets.old.items state }
    ensures listed { OnOk result (AreTargets (W.algebra w.now) targets.new.items (state + 1)) }
    ensures targets { OnOk result ((x : _) → (W.algebra w.now).is_world x ≡ true
        → targets_at (W.algebra w.now) targets.new.items x ≡ targets_at (W.algebra w.now) targets.old.items x ++ (if (W.algebra w.now).holds there x then state ∷ [] else [])) }
{
    if w.is_never(there) {
        return Ok(());
    }
    targets.push((state, there))?;
    Ok(())
}

/// The states whose conditions aren't never, with them, where each state has a condition.
pub fn listed<W: Worlds>(alloc: Global, row: &[W::C], w: &W) -> Result<Vec<(u16, W::C)>, AllocError>
    requires few { length row.now ≤ 4096 }
    requires live { AllLive (W.algebra w.now) row.now }
    ensures listed { IfOk result (λ targets. AreTargets (W.algebra w.now) targets.items (length row.now)) }
    ensures targets { IfOk result (λ targets. (x : _) → (W.algebra w.now).is_world x ≡ true
        → targets_at (W.algebra w.now) targets.items x ≡ filter (λ i. slice_index_or (row_at (W.algebra w.now) row.now x) i false) (numbers_from 0 (length row.now))) }
{
    let mut targets = Vec::new(alloc);
    for (state, there) in row.iter().enumerate() {
        list_target(state as u16, *there, &mut targets, w)?;
    }
    Ok(targets)
}
