//! What is found at each world of three features.

ghost use Rattle.std.specs.Prelude.{◌≡◌, ◌<◌, length, map};
ghost use Rattle.std.specs.List.{All};
ghost use Rattle.annotated_model.specs.ModelFacts.{NamesFeatures};
ghost use Rattle.worlds.specs.Rows.{AllLive};

use crate::samples::{NEVER, SLIP, STILL, WAYS, model};
use annotated_model::Model;
use conditions::Diagrams;
use featured_systems::{Explored, explore};
use std::alloc::{AllocError, Global};
use std::process::Abort;
use std::test::Fail;
use worlds::{One, Worlds};

/// Which of the conditions hold at the world, as the digits 0 and 1.
fn digits<W: Worlds>(
    alloc: Global,
    cs: &[W::C],
    world: &[bool],
    w: &W,
) -> Result<String, AllocError>
    requires live { AllLive (W.algebra w.now) cs.now }
    requires length { length world.now ≡ (W.algebra w.now).count }
{
    let mut shown = String::new(alloc);
    for c in cs {
        shown.push_str(if w.at(*c, world) { "1" } else { "0" })?;
    }
    Ok(shown)
}

/// The distances and states of the layers that hold at the world.
fn layers<W: Worlds>(
    alloc: Global,
    listed: &[(u16, u16, W::C)],
    world: &[bool],
    w: &W,
) -> Result<String, AllocError>
    requires live { All (λ l. (W.algebra w.now).live l.2) listed.now }
    requires length { length world.now ≡ (W.algebra w.now).count }
{
    let mut shown = String::new(alloc);
    for layer in listed {
        let (distance, state, there) = *layer;
        if w.at(there, world) {
            shown.push_str(&format!(in alloc; " {distance}:{state}")?)?;
        }
    }
    Ok(shown)
}

/// The steps, the reached states, the parents and the layers at a world.
fn shown<W: Worlds>(
    alloc: Global,
    e: &Explored<W::C>,
    world: &[bool],
    w: &W,
) -> Result<String, AllocError>
    requires steps { AllLive (W.algebra w.now) e.now.steps }
    requires reached { AllLive (W.algebra w.now) e.now.reached }
    requires parents { AllLive (W.algebra w.now) e.now.parents }
    requires layers { All (λ l. (W.algebra w.now).live l.2) e.now.layers }
    requires length { length world.now ≡ (W.algebra w.now).count }
{
    let steps = digits(alloc, e.steps.list(), world, w)?;
    let reached = digits(alloc, e.reached.list(), world, w)?;
    let parents = digits(alloc, e.parents.list(), world, w)?;
    let layers = layers(alloc, e.layers.list(), world, w)?;
    format!(in alloc; "{steps} {reached} {parents}{layers}")
}

/// What is found at the world of the model's first system, among conditions that have the world.
fn explored<W: Worlds>(
    alloc: Global,
    model: &Model,
    world: &[bool],
    w: &mut W,
) -> Result<String, AllocError>
    requires there { 0 < length model.now.systems }
    requires names { NamesFeatures (W.algebra w.old).count model.now }
    requires length { length world.now ≡ (W.algebra w.old).count }
{
    match explore(alloc, model, 0, w) {
        Ok(e) => shown(alloc, &e, world, w),
        Err(stop) => format!(in alloc; "{stop:?}"),
    }
}

/// The same with that world alone, and with diagrams over all worlds.
fn at(alloc: Global, bundle: &str, world: [bool; 3]) -> Result<(String, String), Fail> {
    let model = model(alloc, bundle)?;
    if model.systems().is_empty() {
        return Ok((String::new(alloc), String::new(alloc)));
    }
    let alone = explored(alloc, &*model, &world, &mut One::new(&world))?;
    let mut diagrams = Diagrams::new(alloc, 10_000, 3)?;
    let among_all = explored(alloc, &*model, &world, &mut diagrams)?;
    Ok((alone, among_all))
}

/// Both are the wanted one.
fn expect(
    rt: &impl Abort,
    alloc: Global,
    bundle: &str,
    world: [bool; 3],
    wanted: &str,
) -> Result<(), Fail> {
    let (alone, among_all) = at(alloc, bundle, world)?;
    assert_eq!(rt; (alone.as_str(), among_all.as_str()), (wanted, wanted));
    Ok(())
}

#[test]
fn a_state_is_reached_where_its_transition_is(rt: HostRuntime) -> Result<(), Fail> {
    let alloc = rt.alloc();
    let slips = "111 1111 111 0:0 1:1 2:2 2:3";
    expect(
        &rt,
        alloc,
        SLIP,
        [true, true, false],
        "110 1110 110 0:0 1:1 2:2",
    )?;
    expect(&rt, alloc, SLIP, [true, false, false], slips)
}

#[test]
fn the_shortest_way_and_the_first_of_two_are_found(rt: HostRuntime) -> Result<(), Fail> {
    let alloc = rt.alloc();
    let short = "1110101 11110 0110000 0:2 0:3 1:0 1:1";
    let long = "1011101 11110 1010000 0:2 0:3 1:1 2:0";
    expect(&rt, alloc, WAYS, [true, true, false], short)?;
    expect(&rt, alloc, WAYS, [true, false, true], long)
}

#[test]
fn an_absent_element_has_no_system(rt: HostRuntime) -> Result<(), Fail> {
    let alloc = rt.alloc();
    expect(&rt, alloc, STILL, [true, true, false], " 10  0:0")?;
    expect(&rt, alloc, STILL, [true, false, false], " 00 ")?;
    expect(&rt, alloc, NEVER, [true, true, true], "0 00 0")
}
