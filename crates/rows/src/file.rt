//! Files of rows: tables `text`, each with a `name` and what it `is`, which the rows of the file share, and tables `row`.

use crate::compare::difference;
use crate::row::{Ended, run_row};
use crate::text::{Shared, bytes_at};
use crate::trouble::Trouble;
use doc_tree::{Doc, DocStop, from_toml};
use outside::{FileShelf, ReadStop, read_whole};
use std::alloc::Global;

/// The most bytes of a file of rows.
const MOST_BYTES: u64 = 16_777_216;

/// The document of a file of rows.
fn document(rt: &HostRuntime, name: &str) -> Result<Box<Doc>, Trouble> {
    let mut shelf = FileShelf::new(rt);
    let bytes = match read_whole(rt.alloc(), &mut shelf, name, MOST_BYTES) {
        Ok(bytes) => bytes,
        Err(ReadStop::NoMemory) => return Err(Trouble::NoMemory),
        Err(_) => return Err(Trouble::NoFile),
    };
    match from_toml(rt.alloc(), bytes.as_slice()) {
        Ok(doc) => Ok(Box::new(rt.alloc(), doc)?),
        Err(DocStop::NoMemory) => Err(Trouble::NoMemory),
        Err(DocStop::NotDocument) => Err(Trouble::BadForm),
    }
}

/// Adds the shared texts of a file.
fn add_texts(alloc: Global, shared: &mut Shared, file: &Doc) -> Result<(), Trouble> {
    for text in file.list_at("text") {
        if !(text.needs_text("name") && text.has("is")) {
            return Err(Trouble::BadForm);
        }
        let bytes = bytes_at(alloc, text, "is", shared)?;
        shared.add(alloc, text.text_at("name"), bytes)?;
    }
    Ok(())
}

/// The output as far as it is text.
fn shown(bytes: &[u8]) -> &str {
    match std::str::from_utf8(bytes) {
        Ok(text) => text,
        Err(_) => "bytes that are no text",
    }
}

/// Prints what a row ended in, and whether it is right.
fn tell(
    rt: &HostRuntime,
    name: &str,
    ended: &Ended,
    difference: Option<&'static str>,
) -> Result<(), Trouble> {
    match difference {
        None => println!(rt; "ok: {name}")?,
        Some(member) => {
            println!(rt; "WRONG {member}: {name}")?;
            println!(rt;
                "  status {} limit {} features {}",
                ended.code, ended.limit, ended.features
            )?;
            println!(rt; "  error {}", shown(ended.err.bytes()))?;
            println!(rt; "  output {}", shown(ended.out.bytes()))?;
        }
    }
    Ok(())
}

/// Runs a row, tells how it ended, and answers whether it is wrong.
fn run_one(rt: &HostRuntime, row: &Doc, shared: &mut Shared) -> Result<bool, Trouble> {
    if !(row.needs_text("name") && row.needs_list("words")) {
        return Err(Trouble::BadForm);
    }
    let ended = run_row(rt.alloc(), row, shared)?;
    let difference = difference(rt.alloc(), row, &ended, shared)?;
    tell(rt, row.text_at("name"), &ended, difference)?;
    if row.needs_text("keep") {
        let output = ended.out.bytes().to_vec(rt.alloc())?;
        shared.add(rt.alloc(), row.text_at("keep"), output)?;
    }
    Ok(difference.is_some())
}

/// Runs the rows of a file, and answers how many are wrong.
pub fn run_file(rt: &HostRuntime, name: &str) -> Result<u64, Trouble> {
    let file = document(rt, name)?;
    let mut shared = Shared::new(rt.alloc());
    add_texts(rt.alloc(), &mut shared, &file)?;
    let mut wrong: u64 = 0;
    for row in file.list_at("row") {
        if run_one(rt, row, &mut shared)? {
            wrong = wrong.saturating_add(1);
        }
    }
    Ok(wrong)
}
