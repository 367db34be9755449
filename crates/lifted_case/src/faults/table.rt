//! The rows of the table.

ghost use Rattle.std.specs.Prelude.{◌≡◌, [], IfOk, IfErr};
ghost use Rattle.doc_tree.specs.View.{document};
ghost use Rattle.lifted_case.specs.ReadFaults.{Finds, table_faults_in};

use crate::faults::items::check_place;
use crate::members::size_at;
use crate::stop::ReadCaseStop;
use conditions::first_bad_row;
use doc_tree::{Doc, Part};
use std::alloc::Global;

/// Stops at the first row that breaks a rule of tables.
pub fn check_table(alloc: Global, doc: &Doc) -> Result<(), ReadCaseStop>
    ensures kept { IfOk result (λ _. table_faults_in (document doc.now) ≡ []) }
    ensures fault { IfErr result (Finds (table_faults_in (document doc.now))) }
{
    let row = first_bad_row(alloc, size_at(doc, "features"), doc.list_at("table"))?;
    check_place(5, Part::Table, place_of(row))
}

/// The place of a row, if there is one.
fn place_of(row: Option<u32>) -> Option<usize>
    ensures { result ≡ row }
{
    match row {
        Some(row) => Some(row as usize),
        None => None,
    }
}
