//! Tables that are read from documents.

ghost use Rattle.std.specs.Prelude.{◌≡◌, ◌<◌, [], ◌∷◌, ◌++◌, length, None, IfOk, IfErr, OnOk, option_map};
ghost use Rattle.std.specs.List.{All};
ghost use Rattle.meaning.specs.Counts.{capped};
ghost use Rattle.meaning.specs.CaseReading.{row_of};
ghost use Rattle.doc_tree.specs.View.{document, documents};
ghost use Rattle.conditions.specs.declared.reading.TableStop.TheVariants.{NoMemory};
ghost use Rattle.conditions.specs.Tables.{case_rows};
ghost use Rattle.conditions.specs.TableRows.{first_bad, broken_rule, at_row, AreRead, IsRead, Stops, Tells, TellsBroken, TellsOf};

use crate::export::push;
use crate::lines::{Lines, RowStop};
use crate::table::Table;
use doc_tree::Doc;
use node_pool::NoMemory;
use std::alloc::Global;

/// Why a document is no table: the first row that breaks a rule, with the first rule that it breaks, in this order. A row past 4,294,967,295 is
/// told as that number.
#[derive(Clone, Copy, Debug, PartialEq, Eq)]
pub enum TableStop {
    /// No list of three whole numbers of which the first is a feature; or the document is no list, and this is 0.
    NotTriple(u32),
    /// A child is no earlier identifier, or its variable isn't greater than the row's.
    NotOrdered(u32),
    /// The children are one.
    NotReduced(u32),
    /// The row stands before.
    Repeated(u32),
    NoMemory,
}

impl From<NoMemory> for TableStop {
    ghost from_gives = { λ e stop. stop ≡ NoMemory };

    fn from(_: NoMemory) -> TableStop {
        TableStop::NoMemory
    }
}

/// A row's number as it is told.
fn told(number: usize) -> u32
    ensures { result ≡ capped number }
{
    number.min(4_294_967_295) as u32
}

/// The row with a number is not taken.
fn stopped(stop: RowStop, number: u32) -> TableStop
    ensures { Stops stop number result }
{
    match stop {
        RowStop::NotTriple => TableStop::NotTriple(number),
        RowStop::NotOrdered => TableStop::NotOrdered(number),
        RowStop::NotReduced => TableStop::NotReduced(number),
        RowStop::Repeated => TableStop::Repeated(number),
        RowStop::NoMemory => TableStop::NoMemory,
    }
}

/// Adds the row that a document is behind the others.
fn read_row(lines: &mut Lines, features: usize, item: &Doc) -> Result<(), TableStop>
    ensures fits { OnOk result (broken_rule features (case_rows lines.old) (length lines.old, document item.now) ≡ None) }
    ensures added { OnOk result (case_rows lines.new ≡ case_rows lines.old ++ row_of (document item.now) ∷ []) }
    ensures stop { IfErr result (TellsBroken (option_map (at_row (capped (length lines.old))) (broken_rule features (case_rows lines.old) (length lines.old, document item.now)))) }
{
    let number = told(lines.list().len());
    match lines.read(features, item) {
        Ok(()) => Ok(()),
        Err(stop) => Err(stopped(stop, number)),
    }
}

/// The rows that the documents are, where no row breaks a rule.
fn read_rows(alloc: Global, features: usize, items: &[Doc]) -> Result<Lines, TableStop>
    ensures ok { IfOk result (AreRead features (documents items.now)) }
    ensures stop { IfErr result (TellsOf features (documents items.now)) }
{
    let mut lines = Lines::new(alloc);
    'items: for item in items {
        read_row(&mut lines, features, item)?;
    }
    Ok(lines)
}

/// The rows of a table.
fn narrow(
    alloc: Global,
    features: u16,
    lines: &[(u32, u32, u32)],
) -> Result<Vec<(u16, u32, u32)>, NoMemory>
    requires { All (λ row. row.0 < features) lines.now }
    ensures { IfOk result (λ rows. rows.items ≡ lines.now) }
{
    let mut rows = Vec::new(alloc);
    'lines: for line in lines {
        let (variable, low, high) = *line;
        push(&mut rows, (variable as u16, low, high))?;
    }
    Ok(rows)
}

/// The table of so many features whose rows the items of a list are, each a list of a variable and the identifiers of two children.
pub fn read_table(alloc: Global, doc: &Doc, features: u16) -> Result<Table, TableStop>
    ensures ok { IfOk result (IsRead features (document doc.now)) }
    ensures stop { IfErr result (Tells features (document doc.now)) }
{
    let Some(items) = doc.as_list() else {
        return Err(TableStop::NotTriple(0));
    };
    let lines = read_rows(alloc, usize::from(features), items)?;
    let rows = narrow(alloc, features, lines.list())?;
    Ok(Table::of(features, rows))
}

/// The first row that breaks a rule in a table of so many features. A row past 4,294,967,295 is told as that number.
pub fn first_bad_row(alloc: Global, features: usize, items: &[Doc]) -> Result<Option<u32>, NoMemory>
    ensures { IfOk result (λ bad. bad ≡ option_map capped (first_bad features (documents items.now))) }
{
    match read_rows(alloc, features, items) {
        Ok(_) => Ok(None),
        Err(
            TableStop::NotTriple(number)
            | TableStop::NotOrdered(number)
            | TableStop::NotReduced(number)
            | TableStop::Repeated(number),
        ) => Ok(Some(number)),
        Err(TableStop::NoMemory) => Err(NoMemory),
    }
}
