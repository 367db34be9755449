//! Runs of the top call over a shelf and sinks in memory.

ghost use Rattle.std.specs.Prelude.{◌<◌};

use conditions::Diagrams;
use outside::{MemShelf, MemSink};
use std::alloc::Global;
use std::process::Abort;
use std::test::Fail;
use workbench::run;

/// The smallest bundle.
pub(crate) const BUNDLE: &str =
    r##"{"bundle":1,"title":"T","line":{"features":[{"name":"R"}]},"templates":[{"name":"Top","nodes":[{"id":"g","kind":"goal","text":"Safe"}]}]}"##;

/// What a run ended in: the status's number, the output and the error output.
#[derive(Drop)]
pub(crate) struct Ended {
    code: u8,
    out: Vec<u8>,
    err: Vec<u8>,
}

/// The numbers of the read, of the put on the output and of the put on the error output that fail.
pub(crate) type Failing = (u64, u64, u64);

/// A number that no read or put of a test has.
pub(crate) const NONE: u64 = 1_000_000;

/// The words of a command line, which are these after the program's name.
fn line_of(alloc: Global, words: &[&str]) -> Result<Vec<String>, Fail> {
    let mut line = Vec::new(alloc);
    line.push(String::from_str(alloc, "plcase")?)?;
    for word in words {
        line.push(String::from_str(alloc, word)?)?;
    }
    Ok(line)
}

/// A shelf with these files, whose read of this number fails.
fn shelf_of(alloc: Global, files: &[(&str, &[u8])], failing: u64) -> Result<MemShelf, Fail> {
    let mut shelf = MemShelf::new([failing].to_vec(alloc)?);
    for (name, bytes) in files {
        shelf.add(name, bytes)?;
    }
    Ok(shelf)
}

/// Runs words after the program's name over a shelf with these files, where calls fail and each put takes at most `most` bytes.
pub(crate) fn run_over(
    alloc: Global,
    words: &[&str],
    files: &[(&str, &[u8])],
    failing: Failing,
    most: usize,
) -> Result<Ended, Fail>
    requires { 0 < most }
{
    let line = line_of(alloc, words)?;
    let mut shelf = shelf_of(alloc, files, failing.0)?;
    let mut out = MemSink::new(alloc, 1_000_000, most, [failing.1].to_vec(alloc)?)?;
    let mut err = MemSink::new(alloc, 1_000, most, [failing.2].to_vec(alloc)?)?;
    let mut d = Diagrams::shut();
    let status = run(alloc, &line, &mut shelf, &mut out, &mut err, &mut d);
    Ok(Ended {
        code: status.code(),
        out: out.bytes().to_vec(alloc)?,
        err: err.bytes().to_vec(alloc)?,
    })
}

/// A run ended in this status, with this output and this line.
pub(crate) fn assert_ended(
    rt: &impl Abort,
    ended: &Ended,
    code: u8,
    out: &[u8],
    line: &str,
    at: &str,
) {
    assert_eq!(rt; ended.err.as_slice(), line.as_bytes(), "at {at}");
    assert_eq!(rt; ended.out.as_slice(), out, "at {at}");
    assert_eq!(rt; ended.code, code, "at {at}");
}
