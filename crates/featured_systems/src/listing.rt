//! The list of the layers.

ghost use Rattle.std.specs.Prelude.{◌≡◌, ℕ, ◌≤◌, ◌<◌, ◌+◌, ◌^◌, ◌++◌, ◌∷◌, [], length, slice_index_or, if◌then◌else◌, true, false, IfOk, OnOk};
ghost use Rattle.worlds.specs.Algebra.{HoldsNowhere};
ghost use Rattle.worlds.specs.Rows.{AllLive, row_at};
ghost use Rattle.featured_systems.specs.Exploring.{layers_at};
ghost use Rattle.featured_systems.specs.Rounds.{states_in, Listed};

use std::alloc::{AllocError, Global};
use worlds::Worlds;

/// Lists a state with its distance where its condition isn't never, and tells whether it did or `any` says so.
fn list_state<W: Worlds>(
    distance: u16,
    state: u16,
    there: W::C,
    any: bool,
    layers: &mut Vec<(u16, u16, W::C)>,
    w: &W,
) -> Result<bool, AllocError>
    requires live { (W.algebra w.now).live there }
    requires listed { Listed (W.algebra w.now) layers.old.items distance state }
    ensures before { IfOk result (λ now. now ≡ false → any ≡ false) }
    ensures any { IfOk result (λ now. now ≡ false → HoldsNowhere (W.algebra w.now) there) }
    ensures listed { OnOk result (Listed (W.algebra w.now) layers.new.items distance (state + 1)) }
    ensures layers { OnOk result ((x : _) → (W.algebra w.now).is_world x ≡ true
        → layers_at (W.algebra w.now) layers.new.items x ≡ layers_at (W.algebra w.now) layers.old.items x ++ (if (W.algebra w.now).holds there x then (distance, state) ∷ [] else [])) }
{
    if w.is_never(there) {
        return Ok(any);
    }
    layers.push((distance, state, there))?;
    Ok(true)
}

/// Lists the states of a layer, and tells whether there is one at any world.
pub fn list_layer<W: Worlds>(
    distance: u16,
    layer: &[W::C],
    layers: &mut Vec<(u16, u16, W::C)>,
    w: &W,
) -> Result<bool, AllocError>
    requires few { length layer.now ≤ 4096 }
    requires live { AllLive (W.algebra w.now) layer.now }
    requires listed { Listed (W.algebra w.now) layers.old.items distance 0 }
    ensures none { IfOk result (λ any. any ≡ false → (x : _) → (W.algebra w.now).is_world x ≡ true → (y : ℕ) → slice_index_or (row_at (W.algebra w.now) layer.now x) y false ≡ false) }
    ensures listed { OnOk result (Listed (W.algebra w.now) layers.new.items (distance + 1) 0) }
    ensures layers { OnOk result ((x : _) → (W.algebra w.now).is_world x ≡ true
        → layers_at (W.algebra w.now) layers.new.items x ≡ layers_at (W.algebra w.now) layers.old.items x ++ states_in distance (row_at (W.algebra w.now) layer.now x) (length layer.now)) }
{
    let mut any = false;
    'states: for (y, there) in layer.iter().enumerate() {
        any = list_state(distance, y as u16, *there, any, layers, w)?;
    }
    Ok(any)
}
