//! Rows: what they are written as, and what the top call answers to one.
//!
//! A row is a table: `name`, `words` (those after the program's name), `files` (a table of texts by their names), `status` (0 where it is absent),
//! `output` and `error` (texts, empty where they are absent), `limit` and `features` of the diagrams afterwards (not compared where they are
//! absent), `keep` (a name under which later rows of the file share the output, which is compared only where `output` stands too), and the number
//! of a read, of a put on the output or of one on the error output that fails (`failing_read`, `failing_put`, `failing_line`).

use crate::text::{Shared, bytes_of};
use crate::trouble::Trouble;
use conditions::Diagrams;
use doc_tree::Doc;
use outside::{MemShelf, MemSink};
use std::alloc::Global;
use workbench::run;
use worlds::Worlds;

/// What a run ended in.
#[derive(Drop)]
pub struct Ended {
    pub code: u8,
    pub out: MemSink,
    pub err: MemSink,
    pub limit: u32,
    pub features: u16,
}

/// The room of the output, enough for the greatest case.
const OUTPUT_ROOM: usize = 68_000_000;

/// The room of the error output.
const LINE_ROOM: usize = 10_000;

/// How many bytes a sink takes at once.
const PUT_SIZE: usize = 4_096;

/// The number of the read or put that fails, in a list.
fn failing(alloc: Global, row: &Doc, name: &str) -> Result<Vec<u64>, Trouble> {
    let mut numbers = Vec::new(alloc);
    if let Some(value) = row.member(name) {
        let number = value.as_number().ok_or(Trouble::BadForm)?;
        numbers.push(u64::try_from(number).map_err(|_| Trouble::BadForm)?)?;
    }
    Ok(numbers)
}

/// The words of a row, behind the program's name.
fn words_of(alloc: Global, row: &Doc) -> Result<Vec<String>, Trouble> {
    let mut words = Vec::new(alloc);
    words.push(String::from_str(alloc, "plcase")?)?;
    for word in row.list_at("words") {
        let word = word.as_text().ok_or(Trouble::BadForm)?;
        words.push(String::from_str(alloc, word)?)?;
    }
    Ok(words)
}

/// Puts a file on the shelf.
fn add_file(
    alloc: Global,
    shelf: &mut MemShelf,
    name: &str,
    text: &Doc,
    shared: &Shared,
) -> Result<(), Trouble> {
    let bytes = bytes_of(alloc, text, shared)?;
    shelf.add(name, bytes.as_slice())?;
    Ok(())
}

/// The shelf with the files of a row.
fn shelf_of(alloc: Global, row: &Doc, shared: &Shared) -> Result<MemShelf, Trouble> {
    let mut shelf = MemShelf::new(failing(alloc, row, "failing_read")?);
    if let Some(files) = row.member("files") {
        for (name, text) in files.entries().unwrap_or(&[]) {
            add_file(alloc, &mut shelf, name.text(), text, shared)?;
        }
    }
    Ok(shelf)
}

/// A sink of this room.
fn sink_of(alloc: Global, row: &Doc, name: &str, room: usize) -> Result<MemSink, Trouble> {
    Ok(MemSink::new(alloc, room, PUT_SIZE, failing(alloc, row, name)?)?)
}

/// Runs the top call over the shelf and the sinks.
fn ended_in(
    alloc: Global,
    words: &[String],
    shelf: &mut MemShelf,
    mut out: MemSink,
    mut err: MemSink,
) -> Ended {
    let mut diagrams = Diagrams::shut();
    let status = run(alloc, words, shelf, &mut out, &mut err, &mut diagrams);
    Ended {
        code: status.code(),
        out,
        err,
        limit: diagrams.limit(),
        features: diagrams.count(),
    }
}

/// What a row ended in.
pub fn run_row(alloc: Global, row: &Doc, shared: &Shared) -> Result<Ended, Trouble> {
    let words = words_of(alloc, row)?;
    let mut shelf = shelf_of(alloc, row, shared)?;
    let out = sink_of(alloc, row, "failing_put", OUTPUT_ROOM)?;
    let err = sink_of(alloc, row, "failing_line", LINE_ROOM)?;
    Ok(ended_in(alloc, words.as_slice(), &mut shelf, out, err))
}
