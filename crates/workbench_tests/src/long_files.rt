//! Files past their limits.

use super::in_memory::{Ended, NONE, assert_ended, run_over};
use std::alloc::Global;
use std::test::Fail;

/// So many spaces.
fn spaces(alloc: Global, count: usize) -> Result<Vec<u8>, Fail> {
    let mut bytes = Vec::with_capacity(alloc, count)?;
    bytes.resize(count, b' ')?;
    Ok(bytes)
}

/// Runs a command over files of these sizes.
fn run_long(alloc: Global, command: &str, first: usize, second: usize) -> Result<Ended, Fail> {
    let bytes = spaces(alloc, first)?;
    let chosen = spaces(alloc, second)?;
    let words = [command, "first.json", "chosen.json"];
    let count = if command == "build" { 2 } else { 3 };
    let files: [(&str, &[u8]); 2] = [("first.json", &bytes), ("chosen.json", &chosen)];
    run_over(alloc, &words[..count], &files, (NONE, NONE, NONE), 100)
}

/// Commands with the sizes of their first file and their configuration, and the number of the file that is too long.
const LENGTHS: [(&str, usize, usize, &str); 5] = [
    ("build", 16_777_217, 1, "plcase: file 0 too long\n"),
    (
        "product",
        16_777_217,
        1_048_577,
        "plcase: file 0 too long\n",
    ),
    (
        "product",
        16_777_216,
        1_048_577,
        "plcase: file 1 too long\n",
    ),
    ("derive", 67_108_865, 1, "plcase: file 0 too long\n"),
    ("derive", 1, 1_048_577, "plcase: file 1 too long\n"),
];

#[test]
fn files_past_their_limits_are_too_long(rt: HostRuntime) -> Result<(), Fail> {
    for (command, first, second, line) in LENGTHS {
        let ended = run_long(rt.alloc(), command, first, second)?;
        assert_ended(&rt, &ended, 12, b"", line, command);
    }
    Ok(())
}
