//! What a document of a case says of its members and items.

ghost use Rattle.std.specs.Prelude.{◌≡◌, ◌<◌, ◌^◌, [], Bool, option_map, option_and_then, unwrap_or, is_some};
ghost use Rattle.std.specs.Option.{option_copied};
ghost use Rattle.meaning.specs.Documents as documents;
ghost use Rattle.meaning.specs.CaseReading as reading;
ghost use Rattle.lifted_case.specs.ReadFaults.{size_at};
ghost use Rattle.doc_tree.specs.View.{document};
ghost use Rattle.doc_tree.specs.View.{documents as documents_of};

use doc_tree::Doc;

/// The whole number, if the value is one from 0 to 4,294,967,295.
pub fn as_natural(doc: &Doc) -> Option<u32>
    ensures { result ≡ documents.as_natural (document doc.now) }
{
    match doc.as_number() {
        Some(number) => natural(number),
        None => None,
    }
}

/// The number, if it is one from 0 to 4,294,967,295.
fn natural(number: i64) -> Option<u32>
    ensures { result ≡ documents.natural number }
{
    u32::try_from(number).ok()
}

/// The number of a member, and 0 where there is none.
pub fn natural_at(doc: &Doc, name: &str) -> u32
    ensures { result ≡ documents.natural_at name.now (document doc.now) }
{
    match doc.member(name) {
        Some(value) => as_natural(value).unwrap_or(0),
        None => 0,
    }
}

/// The item of a list.
pub fn nth(doc: &Doc, place: usize) -> Option<&Doc>
    ensures { option_map document (option_copied result) ≡ reading.nth place (document doc.now) }
{
    match doc.as_list() {
        Some(items) => items.get(place),
        None => None,
    }
}

/// The number at a place of a list.
pub fn nth_natural(doc: &Doc, place: usize) -> Option<u32>
    ensures { result ≡ reading.nth_natural place (document doc.now) }
{
    match nth(doc, place) {
        Some(item) => as_natural(item),
        None => None,
    }
}

/// The text at a place of a list.
pub fn nth_text(doc: &Doc, place: usize) -> Option<&str>
    ensures { option_copied result ≡ reading.nth_text place (document doc.now) }
{
    match nth(doc, place) {
        Some(item) => item.as_text(),
        None => None,
    }
}

/// Whether the member is a text.
pub fn has_text(doc: &Doc, name: &str) -> bool
    ensures { result ≡ reading.has_text name.now (document doc.now) }
{
    doc.text_member(name).is_some()
}

/// Whether the member is a list.
pub fn has_list(doc: &Doc, name: &str) -> bool
    ensures { result ≡ reading.has_list name.now (document doc.now) }
{
    match doc.member(name) {
        Some(value) => value.is_list(),
        None => false,
    }
}

/// Whether the member is a number from 0 to 4,294,967,295.
pub fn has_natural(doc: &Doc, name: &str) -> bool
    ensures { result ≡ reading.has_natural name.now (document doc.now) }
{
    match doc.member(name) {
        Some(value) => as_natural(value).is_some(),
        None => false,
    }
}

/// Whether it is a list of so many items.
pub fn has_length(doc: &Doc, length: usize) -> bool
    ensures { result ≡ reading.has_length length (document doc.now) }
{
    match doc.as_list() {
        Some(items) => items.len() == length,
        None => false,
    }
}

/// The text, and an empty one where the value is none.
pub fn text_of(doc: &Doc) -> &str
    ensures { result.now ≡ unwrap_or (documents.as_text (document doc.now)) [] }
{
    match doc.as_text() {
        Some(text) => text,
        None => "",
    }
}

/// The texts at the front of an item, and none where there is no list.
pub fn first_list(doc: &Doc) -> &[Doc]
    ensures { documents_of result.now ≡ unwrap_or (option_and_then documents.as_list (reading.nth 0 (document doc.now))) [] }
{
    match nth(doc, 0) {
        Some(item) => match item.as_list() {
            Some(items) => items,
            None => &[],
        },
        None => &[],
    }
}

/// How many items a member has that is a list.
pub fn size_at(doc: &Doc, list: &str) -> usize
    ensures small { result < 2 ^ 63 }
    ensures size { result ≡ size_at list.now (document doc.now) }
{
    doc.list_at(list).len()
}
