//! The calls before and after a restriction.

ghost use Rattle.std.specs.Prelude.{◌≡◌, ◌<◌, ◌≤◌, IfOk};
ghost use Rattle.worlds.specs.Algebra.{Kept};

use crate::functions::{least, table_of};
use crate::pairs::{both_of, either_of, one_without};
use conditions::Diagrams;
use std::process::Abort;
use std::test::Fail;
use worlds::{NodeLimit, Worlds};

/// The places at which a condition is, whether there is a least one, and that.
type Seen = (u16, (bool, u32));

/// What is seen of a condition over at most four features.
fn seen<W: Worlds>(w: &W, c: W::C) -> Seen
    requires live { (W.algebra w.now).live c }
    requires few { (W.algebra w.now).count ≤ 4 }
{
    (table_of(w, c), least(w, c))
}

/// Leaves the worlds with the feature.
pub fn restrict_to_feature(d: &mut Diagrams, f: u16) -> Result<(), NodeLimit>
    requires { f < d.old.region.vars }
    ensures { d.new.region.vars ≡ d.old.region.vars }
{
    let feature = d.feature(f)?;
    d.restrict(feature);
    Ok(())
}

/// Leaves the worlds with the first feature or the last of three.
fn restrict_to_first_or_last(d: &mut Diagrams) -> Result<(), NodeLimit>
    requires { d.old.region.vars ≡ 3 }
    ensures { d.new.region.vars ≡ 3 }
{
    let line = either_of(d, 0, 2)?;
    d.restrict(line);
    Ok(())
}

/// All and none, and whether none is never, all is, and both are the same.
fn of_constants<W: Worlds>(w: &W) -> (Seen, Seen, (bool, bool, bool))
    requires { (W.algebra w.now).count ≡ 3 }
{
    let (all, none) = (w.always(), w.never());
    let answers = (w.is_never(none), w.is_never(all), w.same(all, none));
    (seen(w, all), seen(w, none), answers)
}

/// The second feature, and the worlds without it.
fn of_second<W: Worlds>(w: &mut W) -> Result<(Seen, Seen), NodeLimit>
    requires { (W.algebra w.old).count ≡ 3 }
    ensures { Kept (W.algebra w.old) (W.algebra w.new) }
{
    let second = w.feature(1)?;
    let with = seen(w, second);
    let all = w.always();
    let rest = w.without(all, second)?;
    Ok((with, seen(w, rest)))
}

/// Both of the first and the last feature; either, and whether it is all.
fn of_first_and_last<W: Worlds>(w: &mut W) -> Result<(Seen, Seen, bool), NodeLimit>
    requires { (W.algebra w.old).count ≡ 3 }
    ensures { Kept (W.algebra w.old) (W.algebra w.new) }
{
    let both = both_of(w, 0, 2)?;
    let both = seen(w, both);
    let either = either_of(w, 0, 2)?;
    let all = w.always();
    Ok((both, seen(w, either), w.same(either, all)))
}

/// The last feature without the first; both of that and the first, and whether it is never.
fn of_last_alone<W: Worlds>(w: &mut W) -> Result<(Seen, Seen, bool), NodeLimit>
    requires { (W.algebra w.old).count ≡ 3 }
    ensures { Kept (W.algebra w.old) (W.algebra w.new) }
{
    let only = one_without(w, 2, 0)?;
    let alone = seen(w, only);
    let first = w.feature(0)?;
    let none = w.both(only, first)?;
    Ok((alone, seen(w, none), w.is_never(none)))
}

/// Of eight places the worlds are those with the bit 4 or 1: 1, 3, 4, 5, 6 and 7.
fn check_calls<W: Worlds>(rt: &impl Abort, w: &mut W)
    requires { (W.algebra w.old).count ≡ 3 }
{
    let (all, none) = ((0xfafa, (true, 1)), (0, (false, 7)));
    assert_eq!(rt; of_constants(w), (all, none, (true, false, false)));
    assert_eq!(rt;
        of_second(w),
        Ok(((0xc8c8, (true, 3)), (0x3232, (true, 1))))
    );
    assert_eq!(rt;
        (of_first_and_last(w), of_last_alone(w)),
        (
            Ok(((0xa0a0, (true, 5)), all, true)),
            Ok(((0x0a0a, (true, 1)), none, true)),
        )
    );
}

#[test]
fn every_call_keeps_to_the_worlds_that_are_left(rt: HostRuntime) -> Result<(), Fail> {
    let mut d = Diagrams::new(rt.alloc(), 100, 3)?;
    assert_eq!(rt; restrict_to_first_or_last(&mut d), Ok(()));
    assert_eq!(rt;
        (d.limit(), d.asked(), d.refused(), d.used()),
        (100, 3, 0, 3)
    );
    check_calls(&rt, &mut d);
    assert_eq!(rt;
        (d.count(), d.limit(), d.asked(), d.refused()),
        (3, 100, 16, 0)
    );
    Ok(())
}

#[test]
fn a_feature_of_restricted_worlds_is_made_without_its_bare_variable(
    rt: HostRuntime,
) -> Result<(), Fail> {
    let mut d = Diagrams::new(rt.alloc(), 2, 2)?;
    assert_eq!(rt; restrict_to_feature(&mut d, 1), Ok(()));
    assert_eq!(rt; (d.feature(0).is_ok(), d.used()), (true, 2));
    Ok(())
}
