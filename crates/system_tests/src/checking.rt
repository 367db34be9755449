//! What checks find at worlds of three features, and what their runs and invariants say there.

ghost use Rattle.std.specs.Prelude.{◌≡◌, ◌≤◌, ◌<◌, length, true, Some, IfOk};
ghost use Rattle.std.specs.Bool.{OnTrue};
ghost use Rattle.std.specs.List.{All, slice_get};
ghost use Rattle.annotated_model.specs.ModelFacts.{NamesFeatures};
ghost use Rattle.worlds.specs.Algebra.{Kept, HoldsWhere};
ghost use Rattle.worlds.specs.Rows.{AllLive};
ghost use Rattle.meaning.specs.Layers.{is_system_there};
ghost use Rattle.featured_systems.specs.Exploring.{IsExplored};
ghost use Rattle.invariant_check.specs.Findings.{IsSomeFinding};
ghost use Rattle.invariant_check.specs.View.{property as property_view, label_bound};
ghost use Rattle.system_tests.specs.Known.{HasRun};

use crate::samples::{FORK, HALT, NEAR, NEVER, SLIP, model};
use annotated_model::Model;
use cond_text::parse;
use conditions::Diagrams;
use featured_systems::{Explored, explore};
use invariant_check::{Finding, Property, Run, accepts, check, run_at};
use run_replay::replay;
use std::alloc::{AllocError, Global};
use std::process::Abort;
use std::test::Fail;
use worlds::{NodeLimit, One, Worlds, condition};

/// `never` of an expression over labels, or `deadlock` where there is none.
fn property(alloc: Global, model: &Model, never: &str) -> Result<Property, Fail>
    ensures { IfOk result (λ p. label_bound (property_view p) ≤ length model.now.labels) }
{
    if never.is_empty() {
        return Ok(Property::NoDeadlock);
    }
    Ok(Property::Never(parse(alloc, never, model.labels())?))
}

/// The start of a run and its steps.
fn run_text(alloc: Global, run: &Run) -> Result<String, AllocError> {
    let mut shown = format!(in alloc; "{}", run.start)?;
    for step in run.steps.list() {
        shown.push_str(&format!(in alloc; " {step}")?)?;
    }
    Ok(shown)
}

/// Which conditions hold at the world.
fn marks<W: Worlds>(
    alloc: Global,
    cs: &[W::C],
    world: &[bool],
    w: &W,
) -> Result<Vec<bool>, AllocError>
    requires live { AllLive (W.algebra w.now) cs.now }
    requires length { length world.now ≡ (W.algebra w.now).count }
    ensures { IfOk result (λ marked. length marked.items ≡ length cs.now) }
{
    let mut marked = Vec::new(alloc);
    for c in cs {
        marked.push(w.at(*c, world))?;
    }
    Ok(marked)
}

/// The targets that hold at the world.
fn targets<W: Worlds>(
    alloc: Global,
    listed: &[(u16, W::C)],
    world: &[bool],
    w: &W,
) -> Result<String, AllocError>
    requires live { All (λ t. (W.algebra w.now).live t.1) listed.now }
    requires length { length world.now ≡ (W.algebra w.now).count }
{
    let mut shown = String::new(alloc);
    for target in listed {
        let (state, there) = *target;
        if w.at(there, world) {
            shown.push_str(&format!(in alloc; " {state}")?)?;
        }
    }
    Ok(shown)
}

/// Whether all numbers are below a bound.
fn are_below(numbers: &[u16], bound: usize) -> bool
    ensures { OnTrue result (All (λ n. n < bound) numbers.now) }
{
    for number in numbers {
        if usize::from(*number) >= bound {
            return false;
        }
    }
    true
}

/// Whether the first system has the state and the transitions.
fn are_known(model: &Model, start: u16, steps: &[u16]) -> bool
    requires there { 0 < length model.now.systems }
    ensures { OnTrue result (HasRun model.now start steps.now) }
{
    let system = &model.systems()[0];
    if usize::from(start) >= system.states.list().len() {
        return false;
    }
    are_below(steps, system.transitions.list().len())
}

/// The end of a run of the first system, or why it is none.
fn end(
    alloc: Global,
    model: &Model,
    world: &[bool],
    start: u16,
    steps: &[u16],
) -> Result<String, AllocError>
    requires there { 0 < length model.now.systems }
    requires names { NamesFeatures (length world.now) model.now }
{
    if !are_known(model, start, steps) {
        return Ok(String::from_str(alloc, "unknown")?);
    }
    match replay(model, 0, world, start, steps) {
        Ok(end) => format!(in alloc; "ends {end}"),
        Err(fault) => format!(in alloc; "{fault:?}"),
    }
}

/// The run that refutes the check at the world, with its end.
fn refuting_run<W: Worlds>(
    alloc: Global,
    model: &Model,
    e: &Explored<W::C>,
    f: &Finding<W::C>,
    world: &[bool],
    w: &W,
) -> Result<String, AllocError>
    requires there { 0 < length model.now.systems }
    requires explored { (s : _) → slice_get model.now.systems 0 ≡ Some s → IsExplored (W.algebra w.now) model.now s e.now }
    requires finding { (s : _) → slice_get model.now.systems 0 ≡ Some s → IsSomeFinding (W.algebra w.now) model.now s f.now }
    requires names { NamesFeatures (length world.now) model.now }
    requires length { length world.now ≡ (W.algebra w.now).count }
{
    match run_at(alloc, model, 0, e, f, world, w)? {
        Some(run) => {
            let end = end(alloc, model, world, run.start, run.steps.list())?;
            let run = run_text(alloc, &run)?;
            format!(in alloc; "{run} {end}")
        }
        None => format!(in alloc; "no run"),
    }
}

/// The verdict at the world, the targets that hold there, the run with its end, and whether the reached states show the check.
fn told<W: Worlds>(
    alloc: Global,
    model: &Model,
    e: &Explored<W::C>,
    f: &Finding<W::C>,
    property: &Property,
    world: &[bool],
    w: &W,
) -> Result<String, AllocError>
    requires there { 0 < length model.now.systems }
    requires labels { label_bound (property_view property.now) ≤ length model.now.labels }
    requires explored { (s : _) → slice_get model.now.systems 0 ≡ Some s → IsExplored (W.algebra w.now) model.now s e.now }
    requires finding { (s : _) → slice_get model.now.systems 0 ≡ Some s → IsSomeFinding (W.algebra w.now) model.now s f.now }
    requires names { NamesFeatures (length world.now) model.now }
    requires length { length world.now ≡ (W.algebra w.now).count }
{
    let verdict = match (w.at(f.refuted, world), w.at(f.supported, world)) {
        (true, false) => "refuted",
        (false, true) => "supported",
        (false, false) => "absent",
        (true, true) => "both",
    };
    let targets = targets(alloc, f.targets.list(), world, w)?;
    let run = refuting_run(alloc, model, e, f, world, w)?;
    let reached = marks(alloc, e.reached.list(), world, w)?;
    let shown = accepts(model, 0, property, world, &reached);
    format!(in alloc; "{verdict}{targets}: {run}, {shown}")
}

/// The targets at all worlds, and the least world where it is refuted with the run there.
fn sampled<C>(alloc: Global, f: &Finding<C>) -> Result<String, AllocError> {
    let mut shown = String::new(alloc);
    for target in f.targets.list() {
        shown.push_str(&format!(in alloc; "{} ", target.0)?)?;
    }
    match &f.sample {
        Some((world, run)) => {
            for truth in world.list() {
                shown.push_str(if *truth { "1" } else { "0" })?;
            }
            let run = run_text(alloc, run)?;
            shown.push_str(&format!(in alloc; " {run}")?)?;
        }
        None => shown.push_str("no sample")?,
    }
    Ok(shown)
}

/// What a check of the first system finds at the world, and its sample.
fn judged<W: Worlds>(
    alloc: Global,
    model: &Model,
    e: &Explored<W::C>,
    property: &Property,
    under: W::C,
    world: &[bool],
    w: &mut W,
) -> Result<(String, String), AllocError>
    requires there { 0 < length model.now.systems }
    requires labels { label_bound (property_view property.now) ≤ length model.now.labels }
    requires explored { (s : _) → slice_get model.now.systems 0 ≡ Some s → IsExplored (W.algebra w.old) model.now s e.now }
    requires live { (W.algebra w.old).live under }
    requires under { (s : _) → slice_get model.now.systems 0 ≡ Some s → (x : _) → (W.algebra w.old).is_world x ≡ true → (W.algebra w.old).holds under x ≡ true → is_system_there model.now s x ≡ true }
    requires names { NamesFeatures (length world.now) model.now }
    requires length { length world.now ≡ (W.algebra w.old).count }
{
    match check(alloc, model, 0, e, property, under, w) {
        Ok(f) => {
            let here = told(alloc, model, e, &f, property, world, w)?;
            Ok((here, sampled(alloc, &f)?))
        }
        Err(stop) => Ok((format!(in alloc; "{stop:?}")?, String::new(alloc))),
    }
}

/// Where the first system is there.
fn where_there<W: Worlds>(model: &Model, w: &mut W) -> Result<W::C, NodeLimit>
    requires there { 0 < length model.now.systems }
    requires names { NamesFeatures (W.algebra w.old).count model.now }
    ensures kept { Kept (W.algebra w.old) (W.algebra w.new) }
    ensures made { IfOk result (λ c. (s : _) → slice_get model.now.systems 0 ≡ Some s → HoldsWhere (W.algebra w.new) c (is_system_there model.now s)) }
{
    let element = usize::from(model.systems()[0].element);
    condition(&model.elements()[element].when, w)
}

/// The same with everything allowed where the system is there.
fn checked<W: Worlds>(
    alloc: Global,
    model: &Model,
    property: &Property,
    world: &[bool],
    w: &mut W,
) -> Result<(String, String), AllocError>
    requires there { 0 < length model.now.systems }
    requires labels { label_bound (property_view property.now) ≤ length model.now.labels }
    requires names { NamesFeatures (W.algebra w.old).count model.now }
    requires length { length world.now ≡ (W.algebra w.old).count }
{
    let under = match where_there(model, w) {
        Ok(under) => under,
        Err(stop) => return Ok((format!(in alloc; "{stop:?}")?, String::new(alloc))),
    };
    match explore(alloc, model, 0, w) {
        Ok(e) => judged(alloc, model, &e, property, under, world, w),
        Err(stop) => Ok((format!(in alloc; "{stop:?}")?, String::new(alloc))),
    }
}

/// What a check finds with that world alone, and with diagrams over all worlds; and the sample there.
fn at(
    alloc: Global,
    bundle: &str,
    never: &str,
    world: [bool; 3],
) -> Result<(String, String, String), Fail> {
    let model = model(alloc, bundle)?;
    let property = property(alloc, &model, never)?;
    if model.systems().is_empty() {
        return Ok((String::new(alloc), String::new(alloc), String::new(alloc)));
    }
    let (alone, _) = checked(alloc, &*model, &property, &world, &mut One::new(&world))?;
    let mut diagrams = Diagrams::new(alloc, 10_000, 3)?;
    let (among_all, sample) = checked(alloc, &*model, &property, &world, &mut diagrams)?;
    Ok((alone, among_all, sample))
}

/// Both verdicts are the wanted one, and the sample is.
fn expect(
    rt: &impl Abort,
    alloc: Global,
    bundle: &str,
    never: &str,
    world: [bool; 3],
    wanted: &str,
    sample: &str,
) -> Result<(), Fail> {
    let (alone, among_all, sampled) = at(alloc, bundle, never, world)?;
    assert_eq!(rt;
        (alone.as_str(), among_all.as_str(), sampled.as_str()),
        (wanted, wanted, sample)
    );
    Ok(())
}

#[test]
fn a_check_is_refuted_where_a_violating_state_is_reached(rt: HostRuntime) -> Result<(), Fail> {
    let alloc = rt.alloc();
    let (refuted, supported) = ("refuted 3: 0 0 2 ends 3, false", "supported: no run, true");
    let sample = "3 000 0 0 2";
    expect(
        &rt,
        alloc,
        SLIP,
        "bad",
        [true, false, false],
        refuted,
        sample,
    )?;
    expect(
        &rt,
        alloc,
        SLIP,
        "bad",
        [true, true, false],
        supported,
        sample,
    )
}

#[test]
fn the_first_transition_back_is_taken(rt: HostRuntime) -> Result<(), Fail> {
    let alloc = rt.alloc();
    let world = [true, false, false];
    let later = "refuted 3: 0 1 2 ends 3, false";
    let at_once = "refuted 0: 0 ends 0, false";
    expect(&rt, alloc, FORK, "bad", world, later, "3 000 0 1 2")?;
    expect(&rt, alloc, FORK, "bad | start", world, at_once, "0 000 0")
}

#[test]
fn a_deadlock_is_where_no_transition_is_present(rt: HostRuntime) -> Result<(), Fail> {
    let alloc = rt.alloc();
    let (refuted, supported) = ("refuted 0: 0 ends 0, false", "supported: no run, true");
    expect(
        &rt,
        alloc,
        HALT,
        "",
        [true, false, false],
        refuted,
        "0 000 0",
    )?;
    expect(
        &rt,
        alloc,
        HALT,
        "",
        [true, false, true],
        supported,
        "0 000 0",
    )
}

#[test]
fn the_nearest_violation_is_the_target_and_then_the_least(rt: HostRuntime) -> Result<(), Fail> {
    let alloc = rt.alloc();
    let (two_alike, nearer) = (
        "refuted 2: 0 0 2 ends 2, false",
        "refuted 4: 0 3 ends 4, false",
    );
    let sample = "2 4 001 0 0 2";
    expect(
        &rt,
        alloc,
        NEAR,
        "bad",
        [true, false, true],
        two_alike,
        sample,
    )?;
    expect(&rt, alloc, NEAR, "bad", [true, true, true], nearer, sample)
}

#[test]
fn nothing_is_found_where_the_element_is_absent(rt: HostRuntime) -> Result<(), Fail> {
    let absent = "absent: no run, false";
    expect(
        &rt,
        rt.alloc(),
        NEVER,
        "",
        [true, true, true],
        absent,
        "no sample",
    )
}

/// Whether a set of states shows that no state `bad` is reached.
fn shows(alloc: Global, bundle: &str, world: &[bool; 3], states: &[bool]) -> Result<bool, Fail> {
    let model = model(alloc, bundle)?;
    let property = property(alloc, &model, "bad")?;
    if model.systems().is_empty() || model.systems()[0].states.list().len() != states.len() {
        return Ok(false);
    }
    Ok(accepts(&model, 0, &property, world, states))
}

#[test]
fn an_invariant_is_initial_closed_and_without_violation(rt: HostRuntime) -> Result<(), Fail> {
    let alloc = rt.alloc();
    let world = [true, true, false];
    let closed = shows(alloc, SLIP, &world, &[true, true, true, false])?;
    let not_initial = shows(alloc, SLIP, &world, &[false, true, true, false])?;
    let not_closed = shows(alloc, SLIP, &world, &[true, true, false, false])?;
    let violating = shows(alloc, SLIP, &world, &[true, true, true, true])?;
    let slipping = shows(
        alloc,
        SLIP,
        &[true, false, false],
        &[true, true, true, false],
    )?;
    assert_eq!(&rt;
        (closed, not_initial, not_closed, violating, slipping),
        (true, false, false, false, false)
    );
    Ok(())
}

/// The end of a run, or why it is none.
fn replayed(
    alloc: Global,
    bundle: &str,
    world: &[bool; 3],
    start: u16,
    steps: &[u16],
) -> Result<String, Fail> {
    let model = model(alloc, bundle)?;
    if model.systems().is_empty() {
        return Ok(String::new(alloc));
    }
    Ok(end(alloc, &*model, world, start, steps)?)
}

#[test]
fn a_run_ends_or_its_first_fault_is_told(rt: HostRuntime) -> Result<(), Fail> {
    let alloc = rt.alloc();
    let (without, with) = ([true, false, false], [true, true, false]);
    let run = replayed(alloc, SLIP, &without, 0, &[0, 2])?;
    let absent = replayed(alloc, SLIP, &with, 0, &[0, 2])?;
    let apart = replayed(alloc, SLIP, &without, 0, &[2])?;
    let late = replayed(alloc, SLIP, &without, 1, &[])?;
    assert_eq!(&rt;
        (run.as_str(), absent.as_str()),
        ("ends 3", "NotPresent(1)")
    );
    assert_eq!(&rt;
        (apart.as_str(), late.as_str()),
        ("NotJoined(0)", "NotInitial")
    );
    Ok(())
}
