//! Every operator over all pairs of functions of two features, and over pairs of functions of four, against their truth tables.

ghost use Rattle.std.specs.Prelude.{◌≡◌, ◌<◌, ◌≤◌};
ghost use Rattle.worlds.specs.Algebra.{Kept};

use crate::functions::{least, of_four, of_two, table_of};
use conditions::{Diagrams, NoMemory};
use std::alloc::Global;
use std::process::Abort;
use std::test::Fail;
use worlds::{NodeLimit, Worlds};

/// The truth tables of two conditions, of both, of either and of the first without the second.
type Tables = (u16, u16, u16, u16, u16);

/// Whether the two are the same, whether the first is never, and its least world.
type Answers = (bool, bool, (bool, u32));

/// The truth tables of both, of either and of the first without the second.
fn joined<W: Worlds>(w: &mut W, a: W::C, b: W::C) -> Result<(u16, u16, u16), NodeLimit>
    requires a_live { (W.algebra w.old).live a }
    requires b_live { (W.algebra w.old).live b }
    requires few { (W.algebra w.old).count ≤ 4 }
    ensures { Kept (W.algebra w.old) (W.algebra w.new) }
{
    let both = w.both(a, b)?;
    let both = table_of(w, both);
    let either = w.either(a, b)?;
    let either = table_of(w, either);
    let without = w.without(a, b)?;
    Ok((both, either, table_of(w, without)))
}

/// What two conditions over at most four features are told to be.
fn told<W: Worlds>(w: &mut W, a: W::C, b: W::C) -> Result<(Tables, Answers), NodeLimit>
    requires a_live { (W.algebra w.old).live a }
    requires b_live { (W.algebra w.old).live b }
    requires few { (W.algebra w.old).count ≤ 4 }
    ensures { Kept (W.algebra w.old) (W.algebra w.new) }
{
    let answers = (w.same(a, b), w.is_never(a), least(w, a));
    let (first, second) = (table_of(w, a), table_of(w, b));
    let (both, either, without) = joined(w, a, b)?;
    Ok(((first, second, both, either, without), answers))
}

/// What conditions with those truth tables are to be, where the last place of all is the given one.
fn wanted(left: u16, right: u16, last: u32) -> (Tables, Answers) {
    let least = if left == 0 {
        (false, last)
    } else {
        (true, left.trailing_zeros())
    };
    (
        (left, right, left & right, left | right, left & !right),
        (left == right, left == 0, least),
    )
}

/// What the conditions with those truth tables over two features are told to be.
fn told_of_two<W: Worlds>(w: &mut W, left: u16, right: u16) -> Result<(Tables, Answers), NodeLimit>
    requires { (W.algebra w.old).count ≡ 2 }
{
    let a = of_two(w, 0, left)?;
    let b = of_two(w, 0, right)?;
    told(w, a, b)
}

/// What the conditions with those truth tables over four features are told to be.
fn told_of_four<W: Worlds>(w: &mut W, left: u16, right: u16) -> Result<(Tables, Answers), NodeLimit>
    requires { (W.algebra w.old).count ≡ 4 }
    ensures { Kept (W.algebra w.old) (W.algebra w.new) }
{
    let a = of_four(w, left)?;
    let b = of_four(w, right)?;
    told(w, a, b)
}

/// Tests what two functions of two features are told to be in a value of their own.
fn check_two(rt: &impl Abort, alloc: Global, left: u16, right: u16) -> Result<(), NoMemory>
    requires left { left < 16 }
    requires right { right < 16 }
{
    let mut d = Diagrams::new(alloc, 14, 2)?;
    assert_eq!(rt;
        told_of_two(&mut d, left, right),
        Ok(wanted(left * 0x1111, right * 0x1111, 3)),
        "{left} {right}"
    );
    Ok(())
}

/// No diagram of two features has a node that isn't among the 14 functions that aren't constant.
#[test]
fn every_operator_is_right_over_all_functions_of_two_features(rt: HostRuntime) -> Result<(), Fail> {
    for left in 0..16u16 {
        for right in 0..16u16 {
            check_two(&rt, rt.alloc(), left, right)?;
        }
    }
    Ok(())
}

/// The next number of a sequence that looks random, below 2 ^ 31 (Park and Miller).
fn next(number: u32) -> u32
    ensures { result < 2147483648 }
{
    (number as u64 * 48_271 % 2_147_483_647) as u32
}

/// Asks pairs of functions of four features, one after the other.
fn check_pairs<W: Worlds>(rt: &impl Abort, w: &mut W)
    requires { (W.algebra w.old).count ≡ 4 }
{
    let mut number = 1;
    'pairs: for _ in 0..200 {
        number = next(number);
        let left = (number >> 15) as u16;
        number = next(number);
        let right = (number >> 15) as u16;
        assert_eq!(rt;
            told_of_four(w, left, right),
            Ok(wanted(left, right, 15)),
            "{left} {right}"
        );
    }
}

/// No diagram of four features has a node that isn't among the 65,534 functions that aren't constant.
#[test]
fn every_operator_is_right_over_functions_of_four_features(rt: HostRuntime) -> Result<(), Fail> {
    let mut d = Diagrams::new(rt.alloc(), 65_534, 4)?;
    check_pairs(&rt, &mut d);
    Ok(())
}
