//! The exact limit, and values that are shut.

ghost use Rattle.std.specs.Prelude.{◌≡◌, ◌*◌, ◌≤◌, length};
ghost use Rattle.worlds.specs.Algebra.{Kept};

use crate::functions::place_of;
use crate::queens;
use conditions::{Diagrams, NoMemory};
use std::alloc::Global;
use std::test::Fail;
use worlds::{NodeLimit, Worlds};

/// Whether both of two features are made, and whether a call that adds no node is answered then.
fn steps<W: Worlds>(w: &mut W) -> Result<(bool, bool), NodeLimit>
    requires { (W.algebra w.old).count ≡ 2 }
{
    let first = w.feature(0)?;
    let second = w.feature(1)?;
    let both = w.both(first, second).is_ok();
    let again = w.both(first, first)?;
    Ok((both, w.same(again, first)))
}

/// The calls that were made and those refused, the limit, and the nodes that there are.
fn counts(d: &Diagrams) -> (u64, u64, u32, u32) {
    (d.asked(), d.refused(), d.limit(), d.used())
}

/// What comes of the steps under a limit, and the counts after them.
fn steps_under(
    alloc: Global,
    limit: u32,
) -> Result<(Result<(bool, bool), NodeLimit>, (u64, u64, u32, u32)), NoMemory>
    requires some { 1 ≤ limit }
    requires few { limit ≤ 1048576 }
{
    let mut d = Diagrams::new(alloc, limit, 2)?;
    let told = steps(&mut d);
    Ok((told, counts(&d)))
}

#[test]
fn a_call_is_refused_exactly_where_its_nodes_do_not_fit(rt: HostRuntime) -> Result<(), Fail> {
    let alloc = rt.alloc();
    assert_eq!(rt;
        (
            steps_under(alloc, 1)?,
            steps_under(alloc, 2)?,
            steps_under(alloc, 3)?,
        ),
        (
            (Err(NodeLimit { used: 1 }), (2, 1, 1, 1)),
            (Ok((false, true)), (4, 1, 2, 2)),
            (Ok((true, true)), (4, 0, 3, 3)),
        )
    );
    Ok(())
}

/// Whether all and none are at the one list of no features, and whether all without none is all.
fn constants<W: Worlds>(w: &mut W) -> Result<(bool, bool, bool), NodeLimit>
    requires { (W.algebra w.old).count ≡ 0 }
    ensures { Kept (W.algebra w.old) (W.algebra w.new) }
{
    let (all, none) = (w.always(), w.never());
    let (of_all, of_none) = (w.at(all, &[]), w.at(none, &[]));
    let rest = w.without(all, none)?;
    Ok((of_all, of_none, w.same(rest, all)))
}

/// Starts a shut value, makes its feature, and answers the number of features and the counts then.
fn started(alloc: Global, d: &mut Diagrams) -> Result<(u16, (u64, u64, u32, u32)), Fail>
    requires { d.old.region.limit ≡ 0 }
{
    d.start(alloc, 10, 1)?;
    d.feature(0)?;
    Ok((d.count(), counts(d)))
}

#[test]
fn a_shut_value_has_two_conditions_until_it_is_started(rt: HostRuntime) -> Result<(), Fail> {
    let mut d = Diagrams::shut();
    assert_eq!(rt; constants(&mut d), Ok((true, false, true)));
    assert_eq!(rt; (d.count(), counts(&d)), (0, (1, 0, 0, 0)));
    assert_eq!(rt; started(rt.alloc(), &mut d)?, (1, (2, 0, 10, 1)));
    Ok(())
}

/// Whether the board of n queens is made under the limit, how many calls were refused, and how many nodes there are.
fn board(alloc: Global, limit: u32, n: u16) -> Result<(bool, u64, u32), NoMemory>
    requires some { 1 ≤ limit }
    requires few { limit ≤ 1048576 }
    requires few_squares { n * n ≤ 256 }
    requires few_rows { n ≤ 16 }
{
    let mut d = Diagrams::new(alloc, limit, n * n)?;
    let is_made = queens::queens(&mut d, n).is_ok();
    Ok((is_made, d.refused(), d.used()))
}

/// The nodes that boards of queens take, which programs over other diagrams made too.
#[test]
fn boards_take_as_many_nodes_as_elsewhere(rt: HostRuntime) -> Result<(), Fail> {
    let alloc = rt.alloc();
    assert_eq!(rt;
        (
            board(alloc, 817, 4)?,
            board(alloc, 6_912, 6)?,
            board(alloc, 60_693, 8)?,
            board(alloc, 60_692, 8)?,
        ),
        (
            (true, 0, 817),
            (true, 0, 6_912),
            (true, 0, 60_693),
            (false, 1, 60_692),
        )
    );
    Ok(())
}

/// Whether there is a board of four queens, and the first.
fn first_board<W: Worlds>(w: &mut W) -> Result<(bool, u32), NodeLimit>
    requires { (W.algebra w.old).count ≡ 16 }
{
    let board = queens::queens(w, 4)?;
    let mut squares = [true; 16];
    let found = w.pick(board, &mut squares);
    Ok((found, place_of(&squares)))
}

/// In the first board of four queens the first row has its queen as far right as may be.
#[test]
fn the_first_board_of_four_queens_is_found(rt: HostRuntime) -> Result<(), Fail> {
    let mut d = Diagrams::new(rt.alloc(), 1_000, 16)?;
    assert_eq!(rt; first_board(&mut d), Ok((true, 0b0010_1000_0001_0100)));
    Ok(())
}
