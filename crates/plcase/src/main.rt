//! The program: it makes the real shelf, the real sinks and shut diagrams, runs, and ends with the number of the status.
#![tactic(auto)]

use conditions::Diagrams;
use outside::{FileShelf, StreamSink};
use std::process::ExitCode;
use std::{env, io};
use workbench::run;

/// The words of the command line, the program's name first.
fn words(rt: &HostRuntime) -> io::Result<Vec<String>> {
    let mut words = Vec::new(rt.alloc());
    for word in env::args(rt)? {
        words.push(word)?;
    }
    Ok(words)
}

fn main(rt: HostRuntime) -> ExitCode {
    let mut shelf = FileShelf::new(&rt);
    let mut out = StreamSink::new(io::writer(&rt));
    let mut err = StreamSink::new(rt.stderr());
    // words that can't be had, as those that are no UTF-8, are none
    let words = match words(&rt) {
        Ok(words) => words,
        Err(_) => Vec::new(rt.alloc()),
    };
    let mut diagrams = Diagrams::shut();
    let status = run(
        rt.alloc(),
        &words,
        &mut shelf,
        &mut out,
        &mut err,
        &mut diagrams,
    );
    ExitCode::from(status.code())
}
