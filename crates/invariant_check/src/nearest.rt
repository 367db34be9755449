//! Which states that violate are reached first, in all products at once.

ghost use Rattle.std.specs.Prelude.{◌≡◌, ◌<◌, ◌*◌, ◌&&◌, ◌||◌, length, not, replicate, false, All, IfOk, IfErr};
ghost use Rattle.worlds.specs.Algebra.{Worked, HoldsWhere, IsRefusal};
ghost use Rattle.worlds.specs.Rows.{AllLive, RowWhere};
ghost use Rattle.invariant_check.specs.Searching.{is_open, firsts_at};

use worlds::{NodeLimit, Worlds};

/// A layer is met: its state violates where `when` and `violating` hold. Gives where `left` holds and that is not so, and where `target` holds
/// or all three do.
fn meet<W: Worlds>(
    when: W::C,
    violating: W::C,
    left: W::C,
    target: W::C,
    w: &mut W,
) -> Result<(W::C, W::C), NodeLimit>
    requires when { (W.algebra w.old).live when }
    requires violating { (W.algebra w.old).live violating }
    requires left { (W.algebra w.old).live left }
    requires target { (W.algebra w.old).live target }
    ensures worked { Worked 4 (W.algebra w.old) (W.algebra w.new) }
    ensures left { IfOk result (λ r. HoldsWhere (W.algebra w.new) r.0 (λ x. (W.algebra w.old).holds left x && not ((W.algebra w.old).holds when x && (W.algebra w.old).holds violating x))) }
    ensures target { IfOk result (λ r. HoldsWhere (W.algebra w.new) r.1 (λ x. (W.algebra w.old).holds target x || ((W.algebra w.old).holds left x && ((W.algebra w.old).holds when x && (W.algebra w.old).holds violating x)))) }
    ensures refused { IfErr result (IsRefusal (W.algebra w.old) (W.algebra w.new)) }
{
    let violated = w.both(when, violating)?;
    let found = w.both(left, violated)?;
    let reached = w.either(target, found)?;
    let rest = w.without(left, found)?;
    Ok((rest, reached))
}

/// Where the condition holds and none of the layers has a state that violates. To `targets`, one for each state and never before, goes where
/// the state is the first that does.
pub fn nearest<W: Worlds>(
    layers: &[(u16, u16, W::C)],
    violating: &[W::C],
    under: W::C,
    targets: &mut Vec<W::C>,
    w: &mut W,
) -> Result<W::C, NodeLimit>
    requires under { (W.algebra w.old).live under }
    requires violating { AllLive (W.algebra w.old) violating.now }
    requires layers { All (λ l. (W.algebra w.old).live l.2) layers.now }
    requires states { All (λ l. l.1 < length violating.now) layers.now }
    requires size { length targets.old.items ≡ length violating.now }
    requires never { RowWhere (W.algebra w.old) targets.old.items (λ _. replicate (length violating.now) false) }
    ensures worked { Worked (4 * length layers.now) (W.algebra w.old) (W.algebra w.new) }
    ensures left { IfOk result (λ c. HoldsWhere (W.algebra w.new) c (is_open (W.algebra w.old) under violating.now layers.now)) }
    ensures targets { IfOk result (λ _. RowWhere (W.algebra w.new) targets.new.items (firsts_at (W.algebra w.old) under violating.now layers.now)) }
    ensures size { length targets.new.items ≡ length targets.old.items }
    ensures refused { IfErr result (IsRefusal (W.algebra w.old) (W.algebra w.new)) }
{
    let mut left = under;
    for layer in layers {
        let state = usize::from(layer.1);
        let (rest, reached) = meet(layer.2, violating[state], left, targets[state], w)?;
        targets[state] = reached;
        left = rest;
    }
    Ok(left)
}
