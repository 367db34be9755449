//! Puts that take a few bytes each: an answer comes through piece by piece, up to the first piece that fails.

use super::in_memory::{BUNDLE, Ended, Failing, NONE, assert_ended, run_over};
use std::alloc::Global;
use std::test::Fail;

/// The case of the smallest bundle.
const CASE: &str =
    "{\"case\":1,\"features\":[\"R\"],\"nodes\":[{\"key\":\"0\",\"kind\":\"goal\",\"text\":[\"Safe\"],\"when\":2}],\"relations\":[],\"systems\":[],\"table\":[[0,0,1]],\"title\":\"T\",\"valid\":2}\n";

/// The text of its one product.
const TEXT: &str = "case T\nwith R\nG1 goal open\n  Safe\n";

/// Runs words over the smallest files, where calls fail and a put takes at most 10 bytes.
fn run_cut(alloc: Global, words: &[&str], failing: Failing) -> Result<Ended, Fail> {
    let files: [(&str, &[u8]); 3] = [
        ("bundle.json", BUNDLE.as_bytes()),
        ("case.json", CASE.as_bytes()),
        ("chosen.json", b"{\"features\":[\"R\"]}"),
    ];
    run_over(alloc, words, &files, failing, 10)
}

/// What fails, and what comes of it: the status, what came through of the case, and what was said.
const BUILD_FAULTS: [(Failing, u8, &str, &str); 7] = [
    ((0, NONE, NONE), 13, "", "plcase: file 0 not read\n"),
    ((1, NONE, NONE), 13, "", "plcase: file 0 not read\n"),
    ((2, NONE, NONE), 0, CASE, ""),
    ((NONE, 0, NONE), 14, "", "plcase: output not written\n"),
    (
        (NONE, 1, NONE),
        14,
        "{\"case\":1,",
        "plcase: output not written\n",
    ),
    ((NONE, 1, 0), 14, "{\"case\":1,", ""),
    ((0, NONE, 1), 13, "", "plcase: fi"),
];

#[test]
fn a_case_is_cut_where_a_put_fails(rt: HostRuntime) -> Result<(), Fail> {
    for (failing, code, through, line) in BUILD_FAULTS {
        let ended = run_cut(rt.alloc(), &["build", "bundle.json"], failing)?;
        assert_ended(&rt, &ended, code, through.as_bytes(), line, through);
    }
    Ok(())
}

/// The same of a command with two files, each of which takes two reads.
const TEXT_FAULTS: [(Failing, u8, &str, &str); 10] = [
    ((0, NONE, NONE), 13, "", "plcase: file 0 not read\n"),
    ((1, NONE, NONE), 13, "", "plcase: file 0 not read\n"),
    ((2, NONE, NONE), 13, "", "plcase: file 1 not read\n"),
    ((3, NONE, NONE), 13, "", "plcase: file 1 not read\n"),
    ((4, NONE, NONE), 0, TEXT, ""),
    ((NONE, 0, NONE), 14, "", "plcase: output not written\n"),
    (
        (NONE, 1, NONE),
        14,
        "case T\nwit",
        "plcase: output not written\n",
    ),
    (
        (NONE, 2, NONE),
        14,
        "case T\nwith R\nG1 goa",
        "plcase: output not written\n",
    ),
    ((NONE, 1, 0), 14, "case T\nwit", ""),
    ((2, NONE, 1), 13, "", "plcase: fi"),
];

#[test]
fn a_text_is_cut_where_a_put_fails(rt: HostRuntime) -> Result<(), Fail> {
    for (failing, code, through, line) in TEXT_FAULTS {
        for (command, first) in [("derive", "case.json"), ("product", "bundle.json")] {
            let ended = run_cut(rt.alloc(), &[command, first, "chosen.json"], failing)?;
            assert_ended(&rt, &ended, code, through.as_bytes(), line, through);
        }
    }
    Ok(())
}
