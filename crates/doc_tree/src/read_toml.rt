ghost use Rattle.std.specs.Prelude.{◌≡◌, IfOk, Err, None, Some, IsTrue};
ghost use Rattle.toml.specs.Data.{is_sorted, items_are_sorted, members_are_sorted};
ghost use Rattle.toml.specs.View.{view, items_view, table_view};
ghost use Rattle.meaning.specs.Documents.{Toml, document_of, of_toml, listed, entries, items_of_toml, members_of_toml};
ghost use Rattle.doc_tree.specs.View.{document, documents, members};
ghost use Rattle.doc_tree.specs.Order.{is_in_order};

use crate::doc::Doc;
use crate::read::DocStop;
use crate::row::Row;
use crate::word::{NoMemory, Word};
use std::alloc::Global;
use toml::{Table, Value};

/// The document that TOML bytes are, always a table. A date, a time and a number with a fraction
/// or an exponent are `Other`.
pub fn from_toml(alloc: Global, bytes: &[u8]) -> Result<Doc, DocStop>
    ensures ok { IfOk result (λ d. document_of Toml bytes.now ≡ Some (document d)) }
    ensures not { result ≡ Err DocStop.NotDocument → document_of Toml bytes.now ≡ None }
    ensures in_order { IfOk result (λ d. IsTrue (is_in_order (document d))) }
{
    match toml::table_from_slice(alloc, bytes) {
        Ok(table) => match entries_from(alloc, &table) {
            Ok(entries) => Ok(Doc::Table(entries)),
            Err(NoMemory) => Err(DocStop::NoMemory),
        },
        Err(error) => {
            if error.is_memory() {
                Err(DocStop::NoMemory)
            } else {
                Err(DocStop::NotDocument)
            }
        }
    }
}

#[cycle(reading)]
fn doc_from(alloc: Global, value: &Value) -> Result<Doc, NoMemory>
    ensures same { IfOk result (λ d. document d ≡ of_toml (view value.now)) }
    ensures sorted { IfOk result (λ _. IsTrue (is_sorted (view value.now))) }
{
    match value {
        Value::String(text) => Ok(Doc::Text(Word::of(alloc, text.as_str())?)),
        Value::Integer(whole) => Ok(Doc::Number(*whole)),
        Value::Float(_) => Ok(Doc::Other),
        Value::Boolean(truth) => Ok(Doc::Truth(*truth)),
        Value::Datetime(_) => Ok(Doc::Other),
        Value::Array(items) => Ok(Doc::List(items_from(alloc, items.as_slice())?)),
        Value::Table(table) => Ok(Doc::Table(entries_from(alloc, table)?)),
    }
}

#[cycle(reading)]
fn items_from(alloc: Global, items: &[Value]) -> Result<Row<Doc>, NoMemory>
    ensures same { IfOk result (λ docs. documents docs ≡ listed (items_of_toml (items_view items.now))) }
    ensures sorted { IfOk result (λ _. IsTrue (items_are_sorted (items_view items.now))) }
{
    let mut docs = Vec::new(alloc);
    'items: for item in items {
        docs.push(doc_from(alloc, item)?)?;
    }
    Ok(Row::of(docs))
}

#[cycle(reading)]
fn entries_from(alloc: Global, table: &Table) -> Result<Row<(Word, Doc)>, NoMemory>
    ensures same { IfOk result (λ es. members es ≡ entries (members_of_toml (table_view table.now))) }
    ensures sorted { IfOk result (λ _. IsTrue (members_are_sorted (table_view table.now))) }
{
    let mut entries = Vec::new(alloc);
    'members: for (name, value) in table.iter() {
        let name = Word::of(alloc, name.as_str())?;
        entries.push((name, doc_from(alloc, value)?))?;
    }
    Ok(Row::of(entries))
}
