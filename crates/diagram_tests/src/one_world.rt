//! Every call at one world, and the condition of every operator at all worlds of three features.

ghost use Rattle.std.specs.Prelude.{◌≡◌, ◌≤◌, length, IfOk};
ghost use Rattle.meaning.specs.Expressions.{name_bound};
ghost use Rattle.meaning.specs.Expressions as meaning;
ghost use Rattle.cond_text.specs.View.{expression};

use cond_text::{Expr, truth};
use std::alloc::{AllocError, Global};
use std::process::Abort;
use std::test::Fail;
use worlds::{NodeLimit, One, Worlds, condition};

/// The truth of the expression at the one world, by its condition there, which is never refused.
fn truth_by_condition(e: &Expr, world: &[bool]) -> bool
    requires names { name_bound (expression e.now) ≤ length world.now }
    requires few { length world.now ≤ 256 }
    ensures { result ≡ meaning.truth (expression e.now) world.now }
{
    let mut one = One::new(world);
    match condition(e, &mut one) {
        Ok(c) => c,
        Err(_) => unreachable!(),
    }
}

/// Whether the condition of the expression holds at the world, over any conditions.
fn holds_by_condition<W: Worlds>(e: &Expr, world: &[bool], w: &mut W) -> Result<bool, NodeLimit>
    requires names { name_bound (expression e.now) ≤ (W.algebra w.old).count }
    requires world { length world.now ≡ (W.algebra w.old).count }
{
    let made = condition(e, w)?;
    Ok(w.at(made, world))
}

/// An expression over three names for each operator.
fn sample(alloc: Global, operator: u8) -> Result<Expr, AllocError>
    ensures { IfOk result (λ e. name_bound (expression e) ≤ 3) }
{
    let first = Box::new(alloc, Expr::Name(0))?;
    let third = Box::new(alloc, Expr::Name(2))?;
    Ok(match operator {
        0 => Expr::Top,
        1 => Expr::Bottom,
        2 => Expr::Name(1),
        3 => Expr::Not(third),
        4 => Expr::Both(first, third),
        5 => Expr::Either(first, third),
        6 => Expr::Implies(first, third),
        _ => Expr::Same(first, third),
    })
}

/// Its truth at the worlds 000, 001, .. 111.
fn wanted(operator: u8) -> u8 {
    match operator {
        0 => 0b1111_1111,
        1 => 0b0000_0000,
        2 => 0b0011_0011,
        3 => 0b1010_1010,
        4 => 0b0000_0101,
        5 => 0b0101_1111,
        6 => 0b1111_0101,
        _ => 0b1010_0101,
    }
}

/// The truth at those worlds of the expression, of its condition there, and of its condition over any conditions.
fn tables(e: &Expr) -> (u8, u8, u8)
    requires { name_bound (expression e.now) ≤ 3 }
{
    let (mut plain, mut at_one, mut generic) = (0u8, 0u8, 0u8);
    for number in 0..8u8 {
        let world = [number & 4 != 0, number & 2 != 0, number & 1 != 0];
        plain = plain << 1 | u8::from(truth(e, &world));
        at_one = at_one << 1 | u8::from(truth_by_condition(e, &world));
        let holds = holds_by_condition(e, &world, &mut One::new(&world)) == Ok(true);
        generic = generic << 1 | u8::from(holds);
    }
    (plain, at_one, generic)
}

/// The same of the expression for an operator.
fn tables_of(alloc: Global, operator: u8) -> Result<(u8, u8, u8), AllocError> {
    let e = sample(alloc, operator)?;
    Ok(tables(&e))
}

#[test]
fn conditions_are_the_truth_of_their_expressions(rt: HostRuntime) -> Result<(), Fail> {
    for operator in 0..8u8 {
        let table = wanted(operator);
        assert_eq!(rt;
            tables_of(rt.alloc(), operator)?,
            (table, table, table),
            "{operator}"
        );
    }
    Ok(())
}

/// Whether the joins of all and none are what they are to be; whether all and none are never, and are the same; and whether they are at the list.
type Answers = ((bool, bool, bool), (bool, bool, bool), (bool, bool));

/// What is answered of all and none.
fn answers<W: Worlds>(w: &mut W, world: &[bool]) -> Result<Answers, NodeLimit>
    requires { length world.now ≡ (W.algebra w.old).count }
{
    let (all, none) = (w.always(), w.never());
    let kinds = (w.is_never(all), w.is_never(none), w.same(all, none));
    let places = (w.at(all, world), w.at(none, world));
    let both = w.both(all, none)?;
    let both = w.same(both, none);
    let either = w.either(all, none)?;
    let either = w.same(either, all);
    let without = w.without(all, none)?;
    Ok(((both, either, w.same(without, all)), kinds, places))
}

/// Tests the answers at one world, and their count.
fn check_answers(rt: &impl Abort, world: &[bool])
    requires { length world.now ≤ 256 }
{
    let mut one = One::new(world);
    assert_eq!(rt;
        answers(&mut one, world),
        Ok(((true, true, true), (false, true, false), (true, false)))
    );
    assert_eq!(rt; (usize::from(one.count()), one.asked()), (world.len(), 3));
}

/// Tests what is picked of none and of all, and the last feature, which is true.
fn check_picks(rt: &impl Abort, world: &[bool])
    requires { length world.now ≤ 256 }
{
    let mut one = One::new(world);
    let mut found = [false; 256];
    let room = &mut found[..world.len()];
    assert!(rt; !one.pick(false, room) && !room.contains(&true));
    assert!(rt; one.pick(true, room) && &*room == world);
    if let Some(last) = one.count().checked_sub(1) {
        assert_eq!(rt; one.feature(last), Ok(true));
    }
}

/// Tests every call at a world of no false feature.
fn check_one(rt: &impl Abort, world: &[bool])
    requires { length world.now ≤ 256 }
{
    check_answers(rt, world);
    check_picks(rt, world);
}

#[test]
fn one_world_answers_by_its_truth(rt: HostRuntime) {
    check_one(&rt, &[]);
    check_one(&rt, &[true]);
    check_one(&rt, &[true; 256]);
}
