//! Documents and lists: each call with its answer.

ghost use Rattle.std.specs.Prelude.{◌≡◌};
ghost use Rattle.doc_tree.specs.View.{document, documents, documents_of, members, members_of};
ghost use Rattle.doc_tree.specs.Order.{has_no_other, items_have_no_other, values_have_no_other};

use doc_tree::{Doc, Part, Row, Word, from_json};
use std::test::Fail;

// ---- which documents can be written

#[cycle(testing)]
fn has_no_other(doc: &Doc) -> bool
    ensures { result ≡ has_no_other (document doc.now) }
{
    match doc {
        Doc::List(items) => items_have_no_other(items.list()),
        Doc::Table(entries) => values_have_no_other(entries.list()),
        Doc::Other => false,
        _ => true,
    }
}

#[cycle(testing)]
fn items_have_no_other(docs: &[Doc]) -> bool
    ensures { result ≡ items_have_no_other (documents_of (documents docs.now)) }
{
    'items: for doc in docs {
        if !has_no_other(doc) {
            return false;
        }
    }
    true
}

#[cycle(testing)]
fn values_have_no_other(entries: &[(Word, Doc)]) -> bool
    ensures { result ≡ values_have_no_other (members_of (members entries.now)) }
{
    'entries: for entry in entries {
        if !has_no_other(&entry.1) {
            return false;
        }
    }
    true
}

// ---- tests

const READ: &str =
    " {\"b\": [-9223372036854775808, [true, {}], false, []], \"é\": 9223372036854775807, \"\": \"\\u00e9\\n\\/\\\"\", \"a\": 1, \"c\": null, \"ab\": -7, \"B\": {\"a\": 1, \"a\": 2}} ";

/// The members in the byte order of their names, each with its last value.
const WRITTEN: &str =
    "{\"\":\"é\\n/\\\"\",\"B\":{\"a\":2},\"a\":1,\"ab\":-7,\"b\":[-9223372036854775808,[true,{}],false,[]],\"é\":9223372036854775807}";

#[test]
fn a_document_is_written_as_it_was_read(rt: HostRuntime) -> Result<(), Fail> {
    let doc = from_json(rt.alloc(), READ.as_bytes())?;
    if !has_no_other(&doc) {
        return Err(Fail::new("another kind of value"));
    }
    let text = doc.to_json(rt.alloc())?;
    assert_eq!(rt; text.as_slice(), WRITTEN.as_bytes());
    Ok(())
}

/// Which accessors answer: those of texts, numbers, truth values, lists, tables and members.
fn forms(doc: &Doc) -> [bool; 6] {
    [
        doc.as_text().is_some(),
        doc.as_number().is_some(),
        doc.as_truth().is_some(),
        doc.as_list().is_some(),
        doc.entries().is_some(),
        doc.member("a").is_some(),
    ]
}

#[test]
fn each_form_has_its_accessor(rt: HostRuntime) -> Result<(), Fail> {
    let bytes = b"[\"t\", -7, false, [], {}, 1.5, null, {\"a\": -3}]";
    let doc = from_json(rt.alloc(), bytes)?;
    let items = doc.as_list().unwrap_or(&[]);
    let mut found = String::new(rt.alloc());
    for item in items {
        for is_form in forms(item) {
            found.push(if is_form { '1' } else { '0' })?;
        }
        found.push(' ')?;
    }
    let want = "100000 010000 001000 000100 000010 000000 000000 000011 ";
    assert_eq!(rt; found.as_str(), want);
    Ok(())
}

#[test]
fn the_first_of_two_members_is_found(rt: HostRuntime) -> Result<(), Fail> {
    let alloc = rt.alloc();
    let mut entries = Vec::new(alloc);
    entries.push((Word::of(alloc, "a")?, Doc::Number(1)))?;
    entries.push((Word::of(alloc, "a")?, Doc::Truth(true)))?;
    let table = Doc::Table(Row::of(entries));
    assert_eq!(rt; table.member("a").and_then(Doc::as_number), Some(1));
    Ok(())
}

#[test]
fn rows_give_what_they_hold(rt: HostRuntime) -> Result<(), Fail> {
    let mut row = Row::of(vec![in rt.alloc(); 1u32, 2, 3]?);
    for item in row.list_mut() {
        *item = 7;
    }
    let word = Word::of(rt.alloc(), "été")?;
    let part = Part::Transitions.word();
    assert!(rt;
        word.text() == "été" && part == "transitions" && row.list() == [7, 7, 7].as_slice()
    );
    assert_eq!(rt; row.items().as_slice(), [7, 7, 7].as_slice());
    Ok(())
}
