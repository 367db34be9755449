//! Conditions over the first features, from truth tables and to them.
//!
//! The values of features are the bits of a place in a table, the last feature's the lowest. A table has 16 places: that of fewer features
//! than four stands in it as often as it fits.

ghost use Rattle.std.specs.Prelude.{◌≡◌, ◌+◌, ◌<◌, ◌≤◌, length, IfOk};
ghost use Rattle.worlds.specs.Algebra.{Kept};

use worlds::{NodeLimit, Worlds};

/// A constant.
fn constant<W: Worlds>(w: &W, truth: bool) -> W::C
    ensures { (W.algebra w.now).live result }
{
    if truth { w.always() } else { w.never() }
}

/// The first condition where the feature is false, and the second where it is true.
fn choose<W: Worlds>(w: &mut W, f: u16, low: W::C, high: W::C) -> Result<W::C, NodeLimit>
    requires feature { f < (W.algebra w.old).count }
    requires low_live { (W.algebra w.old).live low }
    requires high_live { (W.algebra w.old).live high }
    ensures kept { Kept (W.algebra w.old) (W.algebra w.new) }
    ensures live { IfOk result (W.algebra w.new).live }
{
    let feature = w.feature(f)?;
    let here = w.both(feature, high)?;
    let there = w.without(low, feature)?;
    w.either(here, there)
}

/// The condition with this truth table over one feature.
fn of_one<W: Worlds>(w: &mut W, f: u16, table: u16) -> Result<W::C, NodeLimit>
    requires { f < (W.algebra w.old).count }
    ensures kept { Kept (W.algebra w.old) (W.algebra w.new) }
    ensures live { IfOk result (W.algebra w.new).live }
{
    let low = constant(w, table & 1 != 0);
    let high = constant(w, table & 2 != 0);
    choose(w, f, low, high)
}

/// The condition with this truth table over two features, the given one and the next.
pub fn of_two<W: Worlds>(w: &mut W, f: u16, table: u16) -> Result<W::C, NodeLimit>
    requires few { f < 256 }
    requires features { f + 1 < (W.algebra w.old).count }
    ensures kept { Kept (W.algebra w.old) (W.algebra w.new) }
    ensures live { IfOk result (W.algebra w.new).live }
{
    let low = of_one(w, f + 1, table)?;
    let high = of_one(w, f + 1, table >> 2)?;
    choose(w, f, low, high)
}

/// The condition with this truth table over the last three of four features.
fn of_three<W: Worlds>(w: &mut W, table: u16) -> Result<W::C, NodeLimit>
    requires { 4 ≤ (W.algebra w.old).count }
    ensures kept { Kept (W.algebra w.old) (W.algebra w.new) }
    ensures live { IfOk result (W.algebra w.new).live }
{
    let low = of_two(w, 2, table)?;
    let high = of_two(w, 2, table >> 4)?;
    choose(w, 1, low, high)
}

/// The condition with this truth table over four features.
pub fn of_four<W: Worlds>(w: &mut W, table: u16) -> Result<W::C, NodeLimit>
    requires { 4 ≤ (W.algebra w.old).count }
    ensures kept { Kept (W.algebra w.old) (W.algebra w.new) }
    ensures live { IfOk result (W.algebra w.new).live }
{
    let low = of_three(w, table)?;
    let high = of_three(w, table >> 8)?;
    choose(w, 0, low, high)
}

/// The values of four features at a place.
fn world_at(place: u32) -> [bool; 4] {
    [
        place & 8 != 0,
        place & 4 != 0,
        place & 2 != 0,
        place & 1 != 0,
    ]
}

/// The place of a world.
pub fn place_of(world: &[bool]) -> u32 {
    let mut place = 0u32;
    for value in world {
        place = place << 1 | u32::from(*value);
    }
    place
}

/// The places at which a condition is, over at most four features.
pub fn table_of<W: Worlds>(w: &W, c: W::C) -> u16
    requires live { (W.algebra w.now).live c }
    requires few { (W.algebra w.now).count ≤ 4 }
{
    let first = 4 - usize::from(w.count());
    let mut table = 0;
    for place in 0..16u32 {
        if w.at(c, &world_at(place)[first..]) {
            table |= 1u16 << place;
        }
    }
    table
}

/// Whether a condition has a least world over at most four features, and its place; and else the place of the list that was there before,
/// the last of all.
pub fn least<W: Worlds>(w: &W, c: W::C) -> (bool, u32)
    requires live { (W.algebra w.now).live c }
    requires few { (W.algebra w.now).count ≤ 4 }
{
    let mut world = [true; 4];
    let world = &mut world[4 - usize::from(w.count())..];
    let found = w.pick(c, world);
    (found, place_of(world))
}
