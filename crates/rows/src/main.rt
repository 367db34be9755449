//! The rows: what the top call answers to words and files, as data.
//!
//! Each word of the command line names a file of rows, a TOML document that the product's own reader reads. A row has a name, the words after the
//! program's name, the files on the shelf, and what is wanted: the status, the output, the error output, and where it says so the node limit and
//! the number of features of the diagrams afterwards (both 0 where they are shut). The program runs `workbench::run` for each row, over a shelf
//! and sinks in memory, and prints a line a row: `ok` and its name, or `WRONG`, its name and what was there in place of what is wanted.
//! `text.rt` has the forms of a text in a row, `row.rt` those of a row.
#![tactic(auto)]

mod compare;
mod file;
mod row;
mod text;
mod trouble;

use std::process::ExitCode;
use std::{env, io};
use trouble::Trouble;

/// Runs the rows of the files that the words after the program's name tell, and answers how many are wrong.
fn run_files(rt: &HostRuntime) -> Result<u64, Trouble> {
    let mut wrong: u64 = 0;
    let mut is_first = true;
    for word in env::args(rt)? {
        if !is_first {
            wrong = wrong.saturating_add(file::run_file(rt, word.as_str())?);
        }
        is_first = false;
    }
    Ok(wrong)
}

/// Prints how the run ended.
fn tell(rt: &HostRuntime, ended: &Result<u64, Trouble>) -> io::Result<()> {
    match ended {
        Ok(wrong) => println!(rt; "wrong rows: {wrong}"),
        Err(trouble) => println!(rt; "STOPPED: {trouble}"),
    }
}

fn main(rt: HostRuntime) -> ExitCode {
    let ended = run_files(&rt);
    let is_told = tell(&rt, &ended).is_ok();
    match ended {
        Ok(0) if is_told => ExitCode::SUCCESS,
        _ => ExitCode::FAILURE,
    }
}
