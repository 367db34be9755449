//! Conditions of two features.

ghost use Rattle.std.specs.Prelude.{◌<◌, IfOk};
ghost use Rattle.worlds.specs.Algebra.{Kept};

use worlds::{NodeLimit, Worlds};

/// Both features.
pub fn both_of<W: Worlds>(w: &mut W, f: u16, g: u16) -> Result<W::C, NodeLimit>
    requires f { f < (W.algebra w.old).count }
    requires g { g < (W.algebra w.old).count }
    ensures kept { Kept (W.algebra w.old) (W.algebra w.new) }
    ensures live { IfOk result (W.algebra w.new).live }
{
    let a = w.feature(f)?;
    let b = w.feature(g)?;
    w.both(a, b)
}

/// One of the features, or both.
pub fn either_of<W: Worlds>(w: &mut W, f: u16, g: u16) -> Result<W::C, NodeLimit>
    requires f { f < (W.algebra w.old).count }
    requires g { g < (W.algebra w.old).count }
    ensures kept { Kept (W.algebra w.old) (W.algebra w.new) }
    ensures live { IfOk result (W.algebra w.new).live }
{
    let a = w.feature(f)?;
    let b = w.feature(g)?;
    w.either(a, b)
}

/// The first feature, and not the second.
pub fn one_without<W: Worlds>(w: &mut W, f: u16, g: u16) -> Result<W::C, NodeLimit>
    requires f { f < (W.algebra w.old).count }
    requires g { g < (W.algebra w.old).count }
    ensures kept { Kept (W.algebra w.old) (W.algebra w.new) }
    ensures live { IfOk result (W.algebra w.new).live }
{
    let a = w.feature(f)?;
    let b = w.feature(g)?;
    w.without(a, b)
}

/// Just one of the features.
pub fn one_of<W: Worlds>(w: &mut W, f: u16, g: u16) -> Result<W::C, NodeLimit>
    requires f { f < (W.algebra w.old).count }
    requires g { g < (W.algebra w.old).count }
    ensures kept { Kept (W.algebra w.old) (W.algebra w.new) }
    ensures live { IfOk result (W.algebra w.new).live }
{
    let a = one_without(w, f, g)?;
    let b = one_without(w, g, f)?;
    w.either(a, b)
}

/// The two features.
pub fn two<W: Worlds>(w: &mut W, f: u16, g: u16) -> Result<(W::C, W::C), NodeLimit>
    requires f { f < (W.algebra w.old).count }
    requires g { g < (W.algebra w.old).count }
    ensures kept { Kept (W.algebra w.old) (W.algebra w.new) }
    ensures first { IfOk result (λ pair. (W.algebra w.new).live pair.0) }
    ensures second { IfOk result (λ pair. (W.algebra w.new).live pair.1) }
{
    let a = w.feature(f)?;
    let b = w.feature(g)?;
    Ok((a, b))
}

/// The worlds without the feature, and no world.
pub fn others_and_none<W: Worlds>(w: &mut W, f: u16) -> Result<(W::C, W::C), NodeLimit>
    requires { f < (W.algebra w.old).count }
    ensures kept { Kept (W.algebra w.old) (W.algebra w.new) }
    ensures first { IfOk result (λ pair. (W.algebra w.new).live pair.0) }
    ensures second { IfOk result (λ pair. (W.algebra w.new).live pair.1) }
{
    let feature = w.feature(f)?;
    let all = w.always();
    let others = w.without(all, feature)?;
    Ok((others, w.never()))
}

/// Just one of the features, and no world.
pub fn one_of_and_none<W: Worlds>(w: &mut W, f: u16, g: u16) -> Result<(W::C, W::C), NodeLimit>
    requires f { f < (W.algebra w.old).count }
    requires g { g < (W.algebra w.old).count }
    ensures kept { Kept (W.algebra w.old) (W.algebra w.new) }
    ensures first { IfOk result (λ pair. (W.algebra w.new).live pair.0) }
    ensures second { IfOk result (λ pair. (W.algebra w.new).live pair.1) }
{
    let one = one_of(w, f, g)?;
    Ok((one, w.never()))
}
