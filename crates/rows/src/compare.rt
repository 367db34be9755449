//! What is wanted of a row beside what it ended in.

use crate::row::Ended;
use crate::text::{Shared, bytes_at};
use crate::trouble::Trouble;
use doc_tree::Doc;
use std::alloc::Global;

/// Whether a number is the wanted one; where none is wanted, any is.
fn is_wanted(row: &Doc, name: &str, number: i64) -> bool {
    match row.member(name) {
        Some(wanted) => wanted.as_number() == Some(number),
        None => true,
    }
}

/// Whether the bytes are the wanted text; none are wanted where it is absent.
fn are_wanted(
    alloc: Global,
    row: &Doc,
    name: &str,
    bytes: &[u8],
    shared: &Shared,
) -> Result<bool, Trouble> {
    let wanted = bytes_at(alloc, row, name, shared)?;
    Ok(wanted.as_slice() == bytes)
}

/// What differs first from what is wanted, told by the name of its member.
pub fn difference(
    alloc: Global,
    row: &Doc,
    ended: &Ended,
    shared: &Shared,
) -> Result<Option<&'static str>, Trouble> {
    let status = ended.code as i64;
    if !(is_wanted(row, "status", status) && (row.has("status") || status == 0)) {
        return Ok(Some("status"));
    }
    if !are_wanted(alloc, row, "error", ended.err.bytes(), shared)? {
        return Ok(Some("error"));
    }
    let is_compared = row.has("output") || !row.has("keep");
    if is_compared && !are_wanted(alloc, row, "output", ended.out.bytes(), shared)? {
        return Ok(Some("output"));
    }
    if !is_wanted(row, "limit", ended.limit as i64) {
        return Ok(Some("limit"));
    }
    if !is_wanted(row, "features", ended.features as i64) {
        return Ok(Some("features"));
    }
    Ok(None)
}
