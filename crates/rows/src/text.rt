//! Texts of rows: what they are written as, and the bytes that they stand for.
//!
//! A text is written as itself, or as a list of parts that are joined. A part is a text written as itself, or a table:
//! - `{ of = "NAME" }`: a shared text, in which each pair of texts of a list `with` has its first one exchanged for its second, pair by pair; the
//!   first one stands there once;
//! - `{ repeat = "TEXT", times = N }`: the text so often; in each time a text that `number` gives is exchanged for the time's number, from `from`
//!   (0 where it is absent) on;
//! - `{ bytes = [N, ..] }`: bytes by their numbers.

use crate::trouble::Trouble;
use doc_tree::Doc;
use std::alloc::Global;
use std::str;

/// A text under its name.
#[derive(Drop)]
struct Named {
    name: String,
    bytes: Vec<u8>,
}

/// Texts that rows share.
#[derive(Drop)]
pub struct Shared {
    texts: Vec<Named>,
}

impl Shared {
    pub fn new(alloc: Global) -> Shared {
        Shared {
            texts: Vec::new(alloc),
        }
    }

    /// Adds a text. Of two of one name the later one counts.
    pub fn add(&mut self, alloc: Global, name: &str, bytes: Vec<u8>) -> Result<(), Trouble> {
        let name = String::from_str(alloc, name)?;
        self.texts.push(Named { name, bytes })?;
        Ok(())
    }

    /// The text of a name.
    pub fn text(&self, name: &str) -> Result<&[u8], Trouble> {
        let mut found = None;
        for text in &self.texts {
            if text.name.as_str() == name {
                found = Some(text.bytes.as_slice());
            }
        }
        found.ok_or(Trouble::BadForm)
    }
}

/// The number of a member, which is no number where it is absent.
fn number_at(doc: &Doc, name: &str) -> Option<u64> {
    let number = doc.member(name)?.as_number()?;
    u64::try_from(number).ok()
}

/// Appends a text with another one in place of one that stands in it once.
fn append_changed(out: &mut Vec<u8>, text: &str, old: &str, new: &str) -> Result<(), Trouble> {
    let (before, after) = match text.split_once(old) {
        Some(parts) => parts,
        None => return Err(Trouble::BadForm),
    };
    if old.is_empty() || after.find(old).is_some() {
        return Err(Trouble::BadForm);
    }
    out.extend_from_slice(before.as_bytes())?;
    out.extend_from_slice(new.as_bytes())?;
    out.extend_from_slice(after.as_bytes())?;
    Ok(())
}

/// The bytes with one change of a list `with`.
fn changed(alloc: Global, bytes: &[u8], change: &Doc) -> Result<Vec<u8>, Trouble> {
    let mut out = Vec::new(alloc);
    append_pair(&mut out, bytes, change.as_list().unwrap_or(&[]))?;
    Ok(out)
}

/// Appends bytes with the second text of a pair in place of the first.
fn append_pair(out: &mut Vec<u8>, bytes: &[u8], pair: &[Doc]) -> Result<(), Trouble> {
    let text = match str::from_utf8(bytes) {
        Ok(text) => text,
        Err(_) => return Err(Trouble::BadForm),
    };
    match pair {
        [Doc::Text(old), Doc::Text(new)] => append_changed(out, text, old.text(), new.text()),
        _ => Err(Trouble::BadForm),
    }
}

/// Appends a shared text with its changes.
fn append_shared(
    alloc: Global,
    out: &mut Vec<u8>,
    part: &Doc,
    shared: &Shared,
) -> Result<(), Trouble> {
    let mut bytes = shared.text(part.text_at("of"))?.to_vec(alloc)?;
    for change in part.list_at("with") {
        bytes = changed(alloc, bytes.as_slice(), change)?;
    }
    out.extend_from_slice(bytes.as_slice())?;
    Ok(())
}

/// Appends a text with a number in place of each mark.
fn append_numbered(out: &mut Vec<u8>, text: &str, mark: &str, number: &str) -> Result<(), Trouble> {
    let mut rest = text;
    for _ in 0..text.len() {
        match rest.split_once(mark) {
            Some((before, after)) => {
                out.extend_from_slice(before.as_bytes())?;
                out.extend_from_slice(number.as_bytes())?;
                rest = after;
            }
            None => break,
        }
    }
    out.extend_from_slice(rest.as_bytes())?;
    Ok(())
}

/// Appends a text so often, each time with its number.
fn append_repeated(alloc: Global, out: &mut Vec<u8>, part: &Doc) -> Result<(), Trouble> {
    let times = number_at(part, "times").ok_or(Trouble::BadForm)?;
    let first = number_at(part, "from").unwrap_or(0);
    let text = part.text_at("repeat");
    let mark = part.text_at("number");
    for time in 0..times {
        if mark.is_empty() {
            out.extend_from_slice(text.as_bytes())?;
        } else {
            let number = format!(in alloc; "{}", first.saturating_add(time))?;
            append_numbered(out, text, mark, number.as_str())?;
        }
    }
    Ok(())
}

/// Appends bytes that are told by their numbers.
fn append_bytes(out: &mut Vec<u8>, numbers: &[Doc]) -> Result<(), Trouble> {
    for number in numbers {
        let number = number.as_number().ok_or(Trouble::BadForm)?;
        match u8::try_from(number) {
            Ok(byte) => out.push(byte)?,
            Err(_) => return Err(Trouble::BadForm),
        }
    }
    Ok(())
}

/// Appends what a part stands for.
fn append_part(
    alloc: Global,
    out: &mut Vec<u8>,
    part: &Doc,
    shared: &Shared,
) -> Result<(), Trouble> {
    match part.as_text() {
        Some(text) => {
            out.extend_from_slice(text.as_bytes())?;
            Ok(())
        }
        None if part.has("of") => append_shared(alloc, out, part, shared),
        None if part.has("repeat") => append_repeated(alloc, out, part),
        None if part.needs_list("bytes") => append_bytes(out, part.list_at("bytes")),
        None => Err(Trouble::BadForm),
    }
}

/// Appends what a text stands for.
fn append(alloc: Global, out: &mut Vec<u8>, text: &Doc, shared: &Shared) -> Result<(), Trouble> {
    match text.as_list() {
        Some(parts) => {
            for part in parts {
                append_part(alloc, out, part, shared)?;
            }
            Ok(())
        }
        None => append_part(alloc, out, text, shared),
    }
}

/// The bytes that a text stands for.
pub fn bytes_of(alloc: Global, text: &Doc, shared: &Shared) -> Result<Vec<u8>, Trouble> {
    let mut out = Vec::new(alloc);
    append(alloc, &mut out, text, shared)?;
    Ok(out)
}

/// The bytes of a member, and none where it is absent.
pub fn bytes_at(alloc: Global, doc: &Doc, name: &str, shared: &Shared) -> Result<Vec<u8>, Trouble> {
    match doc.member(name) {
        Some(text) => bytes_of(alloc, text, shared),
        None => Ok(Vec::new(alloc)),
    }
}
