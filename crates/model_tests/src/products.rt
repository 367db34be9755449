//! The products of lines: the first rule that a world breaks, and the condition of a line.

use crate::lines::read;
use cond_text::truth;
use feature_model::{Line, LineRule};
use std::alloc::Global;
use std::process::Abort;
use std::test::Fail;

/// Whether a world is a product of the line, and else the first rule that it breaks. The line's condition is to say the same.
fn told(alloc: Global, line: &Line, world: &[bool]) -> Result<Result<(), LineRule>, Fail> {
    if world.len() != usize::from(line.count()) {
        return Err(Fail::from("not a world of the line"));
    }
    let Ok(condition) = line.expr(alloc) else {
        return Err(Fail::from("no memory"));
    };
    let told = line.valid(world);
    if truth(&condition, world) != told.is_ok() {
        return Err(Fail::from("the condition says otherwise"));
    }
    Ok(told)
}

/// A line with each kind of group and rule: the mandatory M, the optional O, M's or-group X, Y, and O's alternatives A, B.
const EACH_KIND: &str =
    r#"{"line":{"features":[{"name":"R"},{"name":"M","parent":"R","kind":"mandatory"},{"name":"O","parent":"R"},{"name":"X","parent":"M","kind":"or"},{"name":"Y","parent":"M","kind":"or"},{"name":"A","parent":"O","kind":"alternative"},{"name":"B","parent":"O","kind":"alternative"}],"rules":[{"requires":["A","X"]},{"excludes":["B","Y"]},{"holds":"X & Y => !O"}]}}"#;

/// The first rule that a world of that line breaks.
fn first_broken(world: [bool; 7]) -> Option<LineRule> {
    let [r, m, o, x, y, a, b] = world;
    if !r {
        Some(LineRule::Root)
    } else if !m {
        Some(LineRule::Mandatory(1))
    } else if !x && !y {
        Some(LineRule::OrGroup(1))
    } else if o && a == b {
        Some(LineRule::Alternative(2))
    } else if a && !o {
        Some(LineRule::Child(5))
    } else if b && !o {
        Some(LineRule::Child(6))
    } else if a && !x {
        Some(LineRule::Constraint(0))
    } else if b && y {
        Some(LineRule::Constraint(1))
    } else if x && y && o {
        Some(LineRule::Constraint(2))
    } else {
        None
    }
}

fn world_of_seven(number: u8) -> [bool; 7] {
    [
        number & 1 != 0,
        number & 2 != 0,
        number & 4 != 0,
        number & 8 != 0,
        number & 16 != 0,
        number & 32 != 0,
        number & 64 != 0,
    ]
}

#[test]
fn worlds_are_told_rule_by_rule(rt: HostRuntime) -> Result<(), Fail> {
    let line = read(rt.alloc(), EACH_KIND)?;
    for number in 0..128 {
        let world = world_of_seven(number);
        let want = first_broken(world);
        assert!(rt; told(rt.alloc(), &line, &world)?.err() == want, "{number}");
    }
    Ok(())
}

/// A line of tram doors: two kinds of doors, and sensors, a ramp, an interlock and the driver's panel.
const TRAM: &str =
    r#"{"line":{"features":[{"name":"Tram"},{"name":"Doors","parent":"Tram","kind":"mandatory"},{"name":"Sliding","parent":"Doors","kind":"alternative"},{"name":"Folding","parent":"Doors","kind":"alternative"},{"name":"Sensors","parent":"Tram"},{"name":"EdgeSensor","parent":"Sensors","kind":"or"},{"name":"LightCurtain","parent":"Sensors","kind":"or"},{"name":"Ramp","parent":"Tram"},{"name":"Interlock","parent":"Tram"},{"name":"DriverPanel","parent":"Tram","kind":"mandatory"},{"name":"Remote","parent":"DriverPanel"},{"name":"Night","parent":"Tram"}],"rules":[{"requires":["Ramp","Interlock"]},{"excludes":["Folding","LightCurtain"]},{"holds":"Remote => Sensors"}]}}"#;

/// Whether a tram has the doors, sensors and controls that go together.
fn is_tram(world: [bool; 12]) -> bool {
    let [
        tram,
        doors,
        sliding,
        folding,
        sensors,
        edge,
        curtain,
        ramp,
        interlock,
        panel,
        remote,
        _night,
    ] = world;
    tram && doors
        && panel
        && sliding != folding
        && sensors == (edge || curtain)
        && (!ramp || interlock)
        && !(folding && curtain)
        && (!remote || sensors)
}

fn world_of_twelve(number: u16) -> [bool; 12] {
    [
        number & 1 != 0,
        number & 2 != 0,
        number & 4 != 0,
        number & 8 != 0,
        number & 16 != 0,
        number & 32 != 0,
        number & 64 != 0,
        number & 128 != 0,
        number & 256 != 0,
        number & 512 != 0,
        number & 1024 != 0,
        number & 2048 != 0,
    ]
}

#[test]
fn there_are_sixty_trams(rt: HostRuntime) -> Result<(), Fail> {
    let line = read(rt.alloc(), TRAM)?;
    let mut trams = 0u32;
    for number in 0..4096 {
        let world = world_of_twelve(number);
        let want = is_tram(world);
        assert!(rt;
            told(rt.alloc(), &line, &world)?.is_ok() == want,
            "{number}"
        );
        trams = trams.wrapping_add(u32::from(want));
    }
    assert_eq!(rt; trams, 60);
    Ok(())
}
