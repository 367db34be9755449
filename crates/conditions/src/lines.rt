//! Rows that were read, each once.

ghost use Rattle.std.specs.Prelude.{◌≡◌, ◌+◌, ◌<◌, [], ◌∷◌, ◌++◌, length, not, if◌then◌else◌, Some, None, option_map, option_and_then, slice_get, IsTrue, IfOk, IfErr, OnOk, ◌↔◌};
ghost use Rattle.std.specs.List.{list_any};
ghost use Rattle.meaning.specs.Documents.{as_natural};
ghost use Rattle.meaning.specs.CaseReading.{row_of, is_triple, variable_after, same_row};
ghost use Rattle.doc_tree.specs.View.{document};
ghost use Rattle.conditions.specs.declared.lines.RowStop.TheVariants.{NoMemory};
ghost use Rattle.conditions.specs.Tables.{case_row, case_rows};
ghost use Rattle.conditions.specs.TableRows.{is_row, is_ordered, broken_rule, TellsRow};

use doc_tree::Doc;
use indexmap::IndexSet;
use std::alloc::{AllocFailed, Global};
use std::marker::Model;

/// Different rows in their order, which contracts see as their list.
#[derive(Drop)]
pub struct Lines {
    rows: IndexSet<(u32, u32, u32)>,
}

impl Model for Lines {
    ghost use Rattle.std.specs.Prelude.{List};
    ghost use Rattle.conditions.specs.Tables.{TableRow};

    ghost Value = { List TableRow };

    ghost view = { λ lines. lines.rows.keys };
}

/// Why a row is not taken.
#[derive(Clone, Copy, Debug, PartialEq, Eq)]
pub enum RowStop {
    NotTriple,
    NotOrdered,
    NotReduced,
    Repeated,
    NoMemory,
}

impl<T: Drop> From<AllocFailed<T>> for RowStop {
    ghost from_gives = { λ e stop. stop ≡ NoMemory };

    fn from(_: AllocFailed<T>) -> RowStop {
        RowStop::NoMemory
    }
}

/// The whole number below 4,294,967,296 that a document is.
fn natural(item: &Doc) -> Option<u32>
    ensures { result ≡ as_natural (document item.now) }
{
    let number = item.as_number()?;
    u32::try_from(number).ok()
}

/// The row that a document is, if it has the form of one.
fn triple(item: &Doc) -> Option<(u32, u32, u32)>
    ensures { option_map case_row result ≡ (if is_triple (document item.now) then Some (row_of (document item.now)) else None) }
{
    match item.as_list()? {
        [variable, low, high] => Some((natural(variable)?, natural(low)?, natural(high)?)),
        _ => None,
    }
}

/// The row that a document is, if it has the form of one and its variable is a feature.
fn row(features: usize, item: &Doc) -> Option<(u32, u32, u32)>
    ensures { option_map case_row result ≡ (if is_row features (document item.now) then Some (row_of (document item.now)) else None) }
{
    let (variable, low, high) = triple(item)?;
    if (variable as usize) < features {
        Some((variable, low, high))
    } else {
        None
    }
}

impl Lines {
    /// No rows.
    pub fn new(alloc: Global) -> Lines
        ensures { result ≡ [] }
    {
        Lines {
            rows: IndexSet::new(alloc),
        }
    }

    /// The rows.
    pub fn list(&self) -> &[(u32, u32, u32)]
        ensures { result.now ≡ self.now }
    {
        self.rows.as_slice()
    }

    /// Adds a row behind the others, unless it is there.
    fn add(&mut self, row: (u32, u32, u32)) -> Result<bool, RowStop>
        ensures is_new { IfOk result (λ added. added ≡ not (list_any (same_row (case_row row)) (case_rows self.old))) }
        ensures added { IfOk result (λ added. IsTrue added → self.new ≡ self.old ++ row ∷ []) }
        ensures stop { IfErr result (λ stop. stop ≡ NoMemory) }
    {
        let added = self.rows.insert(row)?;
        Ok(added)
    }

    /// The variable of the row with an identifier; below every variable stands the number of features.
    fn variable_after(&self, features: usize, id: u32) -> usize
        requires { id < length self.now + 2 }
        ensures { result ≡ variable_after (case_rows self.now) features id }
    {
        if id < 2 {
            return features;
        }
        let (variable, _, _) = self.list()[id as usize - 2];
        variable as usize
    }

    /// Whether a row's children are earlier identifiers with later variables.
    fn is_ordered(&self, features: usize, row: (u32, u32, u32)) -> bool
        ensures { result ≡ is_ordered features (case_rows self.now) (length self.now, case_row row) }
    {
        let (variable, low, high) = row;
        let next = self.list().len().saturating_add(2);
        let variable = variable as usize;
        (low as usize) < next
            && (high as usize) < next
            && variable < self.variable_after(features, low)
            && variable < self.variable_after(features, high)
    }

    /// Adds the row that a document is behind the others, and answers the first rule that it breaks, if it breaks one.
    pub fn read(&mut self, features: usize, item: &Doc) -> Result<(), RowStop>
        ensures fits { OnOk result (broken_rule features (case_rows self.old) (length self.old, document item.now) ≡ None) }
        ensures added { OnOk result (case_rows self.new ≡ case_rows self.old ++ row_of (document item.now) ∷ []) }
        ensures stop { IfErr result (λ stop. TellsRow stop (broken_rule features (case_rows self.old) (length self.old, document item.now))) }
    {
        let Some(row) = row(features, item) else {
            return Err(RowStop::NotTriple);
        };
        if !self.is_ordered(features, row) {
            return Err(RowStop::NotOrdered);
        }
        if row.1 == row.2 {
            return Err(RowStop::NotReduced);
        }
        if self.add(row)? {
            Ok(())
        } else {
            Err(RowStop::Repeated)
        }
    }
}
