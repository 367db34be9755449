ghost use Rattle.std.specs.Prelude.{◌≡◌, ◌≤◌, IfOk, Err, None, Some, IsTrue};
ghost use Rattle.serde_json.specs.View.{view, number_view, items_view, members_view};
ghost use Rattle.meaning.specs.Documents.{Json, document_of, of_json, of_number, listed, entries, items_of_json, members_of_json};
ghost use Rattle.doc_tree.specs.View.{document, documents, members};
ghost use Rattle.doc_tree.specs.Order.{is_in_order, nesting, most_nesting};

use crate::doc::Doc;
use crate::row::Row;
use crate::word::{NoMemory, Word};
use serde_json::{Category, Map, Number, Value};
use std::alloc::Global;

/// Why bytes gave no document.
#[derive(Clone, Copy, Debug, PartialEq, Eq)]
pub enum DocStop {
    /// The bytes are none. In both forms: not UTF-8. As JSON: outside RFC 8259, a number past the
    /// range of a float, or lists and tables that nest deeper than 127. As TOML: outside TOML 1.1,
    /// as where a name is given twice, a whole number outside 64 bits, a name of more than 80
    /// parts, or arrays and inline tables that nest deeper than 80.
    NotDocument,
    NoMemory,
}

/// The document that JSON bytes are. Of several members of one name the last one counts, and one
/// that is null is left out. A number with a fraction or an exponent, `-0`, and a whole number
/// outside 64 bits are `Other`.
pub fn from_json(alloc: Global, bytes: &[u8]) -> Result<Doc, DocStop>
    ensures ok { IfOk result (λ d. document_of Json bytes.now ≡ Some (document d)) }
    ensures not { result ≡ Err DocStop.NotDocument → document_of Json bytes.now ≡ None }
    ensures in_order { IfOk result (λ d. IsTrue (is_in_order (document d))) }
    ensures nests { IfOk result (λ d. nesting (document d) ≤ most_nesting) }
{
    match Value::from_slice(alloc, bytes) {
        Ok(value) => match doc_from(alloc, &value) {
            Ok(doc) => Ok(doc),
            Err(NoMemory) => Err(DocStop::NoMemory),
        },
        Err(error) => match error.classify() {
            Category::Memory => Err(DocStop::NoMemory),
            _ => Err(DocStop::NotDocument),
        },
    }
}

fn number_from(number: &Number) -> Doc
    ensures { document result ≡ of_number (number_view number.now) }
{
    match number.as_i64() {
        Some(whole) => Doc::Number(whole),
        None => Doc::Other,
    }
}

#[cycle(reading)]
fn doc_from(alloc: Global, value: &Value) -> Result<Doc, NoMemory>
    ensures { IfOk result (λ d. document d ≡ of_json (view value.now)) }
{
    match value {
        Value::Null => Ok(Doc::Other),
        Value::Bool(truth) => Ok(Doc::Truth(*truth)),
        Value::Number(number) => Ok(number_from(number)),
        Value::String(text) => Ok(Doc::Text(Word::of(alloc, text.as_str())?)),
        Value::Array(items) => Ok(Doc::List(items_from(alloc, items.as_slice())?)),
        Value::Object(members) => Ok(Doc::Table(entries_from(alloc, members)?)),
    }
}

#[cycle(reading)]
fn items_from(alloc: Global, items: &[Value]) -> Result<Row<Doc>, NoMemory>
    ensures { IfOk result (λ docs. documents docs ≡ listed (items_of_json (items_view items.now))) }
{
    let mut docs = Vec::new(alloc);
    'items: for item in items {
        docs.push(doc_from(alloc, item)?)?;
    }
    Ok(Row::of(docs))
}

#[cycle(reading)]
fn entries_from(alloc: Global, object: &Map<String, Value>) -> Result<Row<(Word, Doc)>, NoMemory>
    ensures { IfOk result
        (λ es. members es ≡ entries (members_of_json (members_view object.now.entries))) }
{
    let mut entries = Vec::new(alloc);
    'members: for (name, value) in object {
        if value.is_null() {
            continue;
        }
        let name = Word::of(alloc, name.as_str())?;
        entries.push((name, doc_from(alloc, value)?))?;
    }
    Ok(Row::of(entries))
}
