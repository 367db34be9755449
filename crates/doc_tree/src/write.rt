ghost use Rattle.std.specs.Prelude.{◌≡◌, ◌≤◌, ◌++◌, IfOk, IsTrue, Some, map};
ghost use Rattle.serde_json.specs.View.{view, members_view};
ghost use Rattle.meaning.specs.Cases.{newline};
ghost use Rattle.meaning.specs.Documents.{Json, document_of};
ghost use Rattle.doc_tree.specs.View.{document, documents, documents_of, members, members_of};
ghost use Rattle.doc_tree.specs.Order.{is_in_order, items_in_order, names_rise, values_in_order, has_no_other, items_have_no_other, values_have_no_other, nesting, most_nesting};
ghost use Rattle.doc_tree.specs.Written.{json_text, StandsFor, ItemsStandFor, MembersStandFor};

use crate::doc::Doc;
use crate::word::{NoMemory, Word};
use serde_json::{Map, Number, Value};
use std::alloc::Global;

impl Doc {
    /// The compact JSON text of the document. It reads back as the document, also with a newline
    /// after it.
    pub fn to_json(&self, alloc: Global) -> Result<Vec<u8>, NoMemory>
        requires no_other { IsTrue (has_no_other (document self.now)) }
        requires in_order { IsTrue (is_in_order (document self.now)) }
        requires nests { nesting (document self.now) ≤ most_nesting }
        ensures text { IfOk result (λ v. v.items ≡ json_text (document self.now)) }
        ensures reads_back { IfOk result
            (λ v. document_of Json v.items ≡ Some (document self.now)) }
        ensures reads_back_line { IfOk result
            (λ v. document_of Json (v.items ++ newline) ≡ Some (document self.now)) }
    {
        let value = value_from(alloc, self)?;
        let text = value.to_string(alloc)?;
        Ok(text.into_bytes())
    }
}

#[cycle(writing)]
fn value_from(alloc: Global, doc: &Doc) -> Result<Value, NoMemory>
    requires no_other { IsTrue (has_no_other (document doc.now)) }
    requires in_order { IsTrue (is_in_order (document doc.now)) }
    ensures { IfOk result (λ v. StandsFor (view v) (document doc.now)) }
{
    match doc {
        Doc::Text(text) => Ok(Value::String(String::from_str(alloc, text.text())?)),
        Doc::Number(number) => Ok(Value::Number(Number::from(*number))),
        Doc::Truth(truth) => Ok(Value::Bool(*truth)),
        Doc::List(items) => Ok(Value::Array(items_from(alloc, items.list())?)),
        Doc::Table(entries) => Ok(Value::Object(members_from(alloc, entries.list())?)),
        Doc::Other => unreachable!(),
    }
}

#[cycle(writing)]
fn items_from(alloc: Global, docs: &[Doc]) -> Result<Vec<Value>, NoMemory>
    requires no_other { IsTrue (items_have_no_other (documents_of (documents docs.now))) }
    requires in_order { IsTrue (items_in_order (documents_of (documents docs.now))) }
    ensures { IfOk result (λ values. ItemsStandFor (map view values.items) (documents docs.now)) }
{
    let mut values = Vec::new(alloc);
    'items: for doc in docs {
        values.push(value_from(alloc, doc)?)?;
    }
    Ok(values)
}

#[cycle(writing)]
fn members_from(alloc: Global, entries: &[(Word, Doc)]) -> Result<Map<String, Value>, NoMemory>
    requires rise { IsTrue (names_rise (members_of (members entries.now))) }
    requires no_other { IsTrue (values_have_no_other (members_of (members entries.now))) }
    requires in_order { IsTrue (values_in_order (members_of (members entries.now))) }
    ensures { IfOk result
        (λ written. MembersStandFor (members_view written.entries) (members entries.now)) }
{
    let mut members = Map::new(alloc);
    'members: for entry in entries {
        let (name, doc) = entry;
        let name = String::from_str(alloc, name.text())?;
        let value = value_from(alloc, doc)?;
        members.insert(name, value)?;
    }
    Ok(members)
}
