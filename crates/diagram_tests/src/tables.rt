//! The tables of worked conditions.

ghost use Rattle.std.specs.Prelude.{◌≡◌, ◌<◌};
ghost use Rattle.conditions.specs.Diagrams.{algebra_of};

use crate::pairs::{one_of, one_of_and_none, others_and_none, two};
use crate::restricted::restrict_to_feature;
use crate::texts::check_text;
use conditions::{Cond, Diagrams, NoMemory, Table};
use doc_tree::Row;
use std::alloc::Global;
use std::process::Abort;
use std::test::Fail;
use worlds::{NodeLimit, Worlds};

/// The table and identifiers of all worlds, of a condition and of another.
fn export_three(
    alloc: Global,
    d: &Diagrams,
    a: Cond,
    b: Cond,
) -> Result<(Table, Row<u32>), NoMemory>
    requires a_live { (algebra_of d.now).live a }
    requires b_live { (algebra_of d.now).live b }
{
    d.export(alloc, &[d.always(), a, b])
}

/// Tests them as a text.
fn check(
    rt: &impl Abort,
    alloc: Global,
    d: &Diagrams,
    pair: (Cond, Cond),
    wanted: &str,
) -> Result<(), Fail>
    requires a_live { (algebra_of d.now).live pair.0 }
    requires b_live { (algebra_of d.now).live pair.1 }
{
    let (table, ids) = export_three(alloc, d, pair.0, pair.1)?;
    check_text(rt, alloc, &table, ids.list(), wanted)
}

/// Leaves the worlds with just one of the second and third feature.
fn restrict_to_one_of_two(d: &mut Diagrams) -> Result<(), NodeLimit>
    requires { d.old.region.vars ≡ 3 }
    ensures { d.new.region.vars ≡ 3 }
{
    let one = one_of(d, 1, 2)?;
    d.restrict(one);
    Ok(())
}

/// The second and third feature where the first is true.
fn check_two(rt: &impl Abort, alloc: Global, d: &mut Diagrams) -> Result<(), Fail>
    requires { d.old.region.vars ≡ 3 }
{
    restrict_to_feature(d, 0)?;
    let pair = two(d, 1, 2)?;
    check(
        rt,
        alloc,
        d,
        pair,
        "0 0 1, 1 0 1, 0 0 3, 2 0 1, 0 0 5, 2 4 6 ",
    )
}

#[test]
fn two_features_under_a_root(rt: HostRuntime) -> Result<(), Fail> {
    let mut d = Diagrams::new(rt.alloc(), 100, 3)?;
    check_two(&rt, rt.alloc(), &mut d)
}

/// The same two where just one of them is true too.
fn check_one_of_two(rt: &impl Abort, alloc: Global, d: &mut Diagrams) -> Result<(), Fail>
    requires { d.old.region.vars ≡ 3 }
{
    restrict_to_feature(d, 0)?;
    restrict_to_one_of_two(d)?;
    let pair = two(d, 1, 2)?;
    let wanted = "2 0 1, 2 1 0, 1 2 3, 0 0 4, 1 0 3, 0 0 6, 1 2 0, 0 0 8, 5 7 9 ";
    check(rt, alloc, d, pair, wanted)
}

#[test]
fn one_of_two_features_under_a_root(rt: HostRuntime) -> Result<(), Fail> {
    let mut d = Diagrams::new(rt.alloc(), 100, 3)?;
    check_one_of_two(&rt, rt.alloc(), &mut d)
}

/// The worlds without the second feature where the first is true, and none.
fn check_others(rt: &impl Abort, alloc: Global, d: &mut Diagrams) -> Result<(), Fail>
    requires { d.old.region.vars ≡ 3 }
{
    restrict_to_feature(d, 0)?;
    let pair = others_and_none(d, 1)?;
    check(rt, alloc, d, pair, "0 0 1, 1 1 0, 0 0 3, 2 4 0 ")
}

#[test]
fn a_root_without_a_feature(rt: HostRuntime) -> Result<(), Fail> {
    let mut d = Diagrams::new(rt.alloc(), 100, 3)?;
    check_others(&rt, rt.alloc(), &mut d)
}

/// Just one of two features, and none.
fn check_just_one(rt: &impl Abort, alloc: Global, d: &mut Diagrams) -> Result<(), Fail>
    requires { d.old.region.vars ≡ 2 }
{
    let pair = one_of_and_none(d, 0, 1)?;
    check(rt, alloc, d, pair, "1 0 1, 1 1 0, 0 2 3, 1 4 0 ")
}

#[test]
fn a_table_has_the_rows_of_low_before_those_of_high(rt: HostRuntime) -> Result<(), Fail> {
    let mut d = Diagrams::new(rt.alloc(), 14, 2)?;
    check_just_one(&rt, rt.alloc(), &mut d)
}
