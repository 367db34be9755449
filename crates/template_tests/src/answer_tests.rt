//! Answers at one world, also of variables whose element is absent there, and the limit of their number.

ghost use Rattle.std.specs.Prelude.{◌≤◌, length, IfOk, IfSome};
ghost use Rattle.annotated_model.specs.ModelFacts.{NamesFeatures};

use crate::sample::model;
use annotated_model::Model;
use doc_tree::{Row, Word};
use path_queries::{Query, answers, element_when, link_when, some};
use std::alloc::{AllocError, Global};
use std::process::Abort;
use std::test::Fail;
use worlds::{NodeLimit, One, Worlds};

/// A query with the variable x of type N in scope, which has at most three new ones.
fn query(alloc: Global, text: &str, model: &Model) -> Result<Option<Query>, Fail>
    ensures { IfOk result (λ found. IfSome found (λ q. length q.vars ≤ 3)) }
{
    let mut scope = Vec::new(alloc);
    scope.push((Word::of(alloc, "x")?, 0))?;
    let query = Query::parse(alloc, text, model, &scope)?;
    if query.vars.list().len() <= 3 {
        Ok(Some(query))
    } else {
        Ok(None)
    }
}

/// The tuples that answer somewhere.
fn shown<C>(alloc: Global, tuples: &[(Row<u16>, C)]) -> Result<String, AllocError> {
    let mut shown = String::new(alloc);
    for row in tuples {
        let tuple = row.0.list();
        shown.push_str(&format!(in alloc; "{tuple:?}")?)?;
    }
    Ok(shown)
}

/// The answers where the condition holds, or why there are none to show.
fn answered<W: Worlds>(
    alloc: Global,
    model: &Model,
    query: &Query,
    bound: &[u16],
    under: W::C,
    w: &mut W,
    most: u32,
) -> Result<String, AllocError>
    requires names { NamesFeatures (W.algebra w.old).count model.now }
    requires variables { length query.now.vars ≤ 3 }
    requires under { (W.algebra w.old).live under }
{
    match answers(alloc, model, query, bound, under, w, most) {
        Ok(rows) => shown(alloc, rows.tuples.list()),
        Err(stop) => format!(in alloc; "{stop:?}"),
    }
}

/// Whether there is an answer somewhere where the condition holds.
fn is_answered<W: Worlds>(
    alloc: Global,
    model: &Model,
    query: &Query,
    bound: &[u16],
    under: W::C,
    w: &mut W,
) -> Option<bool>
    requires names { NamesFeatures (W.algebra w.old).count model.now }
    requires variables { length query.now.vars ≤ 3 }
    requires under { (W.algebra w.old).live under }
{
    match some(alloc, model, query, bound, under, w) {
        Ok(found) => Some(!w.is_never(found)),
        Err(_) => None,
    }
}

/// The answers at a world where the variable in scope is b and the condition holds or doesn't, and whether there is one.
fn at(
    alloc: Global,
    text: &str,
    world: [bool; 2],
    under: bool,
    most: u32,
) -> Result<(String, Option<bool>), Fail> {
    let model = model(alloc)?;
    match query(alloc, text, &model)? {
        Some(query) => {
            let some = is_answered(alloc, &model, &query, &[1], under, &mut One::new(&world));
            let one = &mut One::new(&world);
            let found = answered(alloc, &model, &query, &[1], under, one, most)?;
            Ok((found, some))
        }
        None => Ok((String::new(alloc), None)),
    }
}

/// Where d isn't there, and b is or isn't, the answers are the wanted ones, of which there may be three.
fn expect(
    rt: &impl Abort,
    alloc: Global,
    there: bool,
    text: &str,
    wanted: &str,
) -> Result<(), Fail> {
    let (found, some) = at(alloc, text, [there, false], true, 3)?;
    assert_eq!(rt; (found.as_str(), some), (wanted, Some(!wanted.is_empty())));
    Ok(())
}

#[test]
fn walks_lead_along_links(rt: HostRuntime) -> Result<(), Fail> {
    let alloc = rt.alloc();
    expect(
        &rt,
        alloc,
        true,
        "p: N, q: N with p [k+] q",
        "[0, 1][0, 2][1, 2]",
    )?;
    expect(&rt, alloc, true, "q: N with x [k] q", "[2]")?;
    expect(&rt, alloc, true, "p: N, q: N with p [^k/l] q", "")
}

#[test]
fn a_variable_may_have_an_absent_element(rt: HostRuntime) -> Result<(), Fail> {
    let alloc = rt.alloc();
    expect(&rt, alloc, false, "q: N with x [k] q", "")?;
    expect(&rt, alloc, false, "q: N with not x [k] q", "[0][2]")?;
    expect(&rt, alloc, false, "with x.a = 'two'", "")?;
    expect(&rt, alloc, false, "with x.a = ''", "[]")?;
    expect(&rt, alloc, false, "", "[]")
}

/// The answers at a world where b is there, if the condition holds there and so many are wanted.
fn limited(alloc: Global, under: bool, most: u32) -> Result<String, Fail> {
    let (found, _) = at(
        alloc,
        "p: N, q: N with p [k+] q",
        [true, false],
        under,
        most,
    )?;
    Ok(found)
}

#[test]
fn more_answers_than_wanted_are_refused(rt: HostRuntime) -> Result<(), Fail> {
    let refused = limited(rt.alloc(), true, 2)?;
    let nowhere = limited(rt.alloc(), false, 0)?;
    assert_eq!(rt; (refused.as_str(), nowhere.as_str()), ("TooMany", ""));
    Ok(())
}

/// Whether b is there.
fn element_there<W: Worlds>(model: &Model, w: &mut W) -> Result<bool, NodeLimit>
    requires names { NamesFeatures (W.algebra w.old).count model.now }
{
    if model.elements().len() < 2 {
        return Ok(false);
    }
    let element = element_when(model, 1, w)?;
    Ok(!w.is_never(element))
}

/// Whether the link from a to b is there.
fn link_there<W: Worlds>(model: &Model, w: &mut W) -> Result<bool, NodeLimit>
    requires names { NamesFeatures (W.algebra w.old).count model.now }
{
    if model.links().is_empty() {
        return Ok(false);
    }
    let link = link_when(model, 0, w)?;
    Ok(!w.is_never(link))
}

/// The same of both at a world.
fn both_there(
    alloc: Global,
    world: [bool; 2],
) -> Result<(Result<bool, NodeLimit>, Result<bool, NodeLimit>), Fail> {
    let model = model(alloc)?;
    let element = element_there(&*model, &mut One::new(&world));
    let link = link_there(&*model, &mut One::new(&world));
    Ok((element, link))
}

#[test]
fn links_are_there_with_both_ends(rt: HostRuntime) -> Result<(), Fail> {
    let with = both_there(rt.alloc(), [true, false])?;
    let without = both_there(rt.alloc(), [false, true])?;
    assert_eq!(rt;
        (with, without),
        ((Ok(true), Ok(true)), (Ok(false), Ok(false)))
    );
    Ok(())
}
