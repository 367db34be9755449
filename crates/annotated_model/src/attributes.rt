//! The attributes of types, and the values that elements give for them.

ghost use Rattle.std.specs.Prelude.{◌≡◌, ◌≤◌, [], ◌++◌, IfOk, codes, map, length};
ghost use Rattle.std.specs.List.{list_all};
ghost use Rattle.meaning.specs.Documents.{texts_in, text_at, table_at};
ghost use Rattle.meaning.specs.Models as meaning;
ghost use Rattle.meaning.specs.BundlePlaces as places;
ghost use Rattle.meaning.specs.ModelRules as rules;
ghost use Rattle.doc_tree.specs.View.{document, documents, members};
ghost use Rattle.annotated_model.specs.View.{type_view};
ghost use Rattle.annotated_model.specs.Items.{values_told};

use crate::data::TypeDef;
use crate::names::is_known;
use crate::texts::{is_within, text_of};
use cond_text::Names;
use doc_tree::{Doc, NoMemory, Row, Word};
use std::alloc::Global;

/// The most bytes of a value.
const VALUE_LIMIT: usize = 128;

/// The attributes of the type with this number, and `none` where there is no such type.
pub fn attributes_at<'a>(types: &'a [TypeDef], number: Option<u16>, none: &'a Names) -> &'a Names
    requires { none.now ≡ [] }
    ensures { result.now ≡ meaning.inherited (map type_view types.now) number }
{
    match number {
        Some(number) => match types.get(usize::from(number)) {
            Some(found) => &found.attributes,
            None => none,
        },
        None => none,
    }
}

/// The attributes that an element gives, with their values.
pub fn values_given(element: &Doc) -> &[(Word, Doc)]
    ensures { members result.now ≡ rules.values_given (document element.now) }
{
    match element.member("attributes") {
        Some(attributes) => match attributes.entries() {
            Some(entries) => entries,
            None => &[],
        },
        None => &[],
    }
}

/// Whether each value is a text.
pub fn are_texts(values: &[(Word, Doc)]) -> bool
    ensures { result ≡ list_all (λ e. places.is_text_value e.1) (members values.now) }
{
    'values: for entry in values {
        let (_, value) = entry;
        if !value.is_text() {
            return false;
        }
    }
    true
}

/// Whether each value is a text within its limit.
pub fn values_fit(values: &[(Word, Doc)]) -> bool
    ensures { result ≡ list_all (λ e. places.text_within 128 (rules.label_text e.1)) (members values.now) }
{
    'values: for entry in values {
        let (_, value) = entry;
        if !is_within(VALUE_LIMIT, text_of(value)) {
            return false;
        }
    }
    true
}

/// Whether each attribute that is given is one of these.
fn are_known(attributes: &Names, values: &[(Word, Doc)]) -> bool
    ensures { result ≡ list_all (places.is_among attributes.now) (map (λ e. e.0) (members values.now)) }
{
    'values: for entry in values {
        let (name, _) = entry;
        if !is_known(attributes, name.text()) {
            return false;
        }
    }
    true
}

/// Whether an attribute is given.
fn is_given(attribute: &str, values: &[(Word, Doc)]) -> bool
    ensures { result ≡ places.is_among (map (λ e. e.0) (members values.now)) attribute.now }
{
    'values: for entry in values {
        let (name, _) = entry;
        if attribute == name.text() {
            return true;
        }
    }
    false
}

/// Whether each of these attributes is given.
fn are_given(attributes: &Names, values: &[(Word, Doc)]) -> bool
    ensures { result ≡ list_all (places.is_among (map (λ e. e.0) (members values.now))) attributes.now }
{
    'attributes: for number in 0..attributes.count() {
        if !is_given(attributes.name(number), values) {
            return false;
        }
    }
    true
}

/// Whether exactly these attributes are given.
pub fn gives_exactly(attributes: &Names, values: &[(Word, Doc)]) -> bool
    ensures { result ≡ rules.same_texts attributes.now (map (λ e. e.0) (members values.now)) }
{
    let known = are_known(attributes, values);
    known && are_given(attributes, values)
}

/// The value that an element gives for an attribute, and an empty one where it gives none.
fn value_of<'a>(element: &'a Doc, attribute: &str) -> &'a str
    ensures { result.now ≡ text_at attribute.now (table_at (codes "attributes") (document element.now)) }
{
    match element.member("attributes") {
        Some(attributes) => attributes.text_at(attribute),
        None => "",
    }
}

/// The values that an element gives for these attributes, in their order.
pub fn values_of(alloc: Global, attributes: &Names, element: &Doc) -> Result<Row<Word>, NoMemory>
    ensures { IfOk result (λ values. values ≡ values_told attributes.now (document element.now)) }
{
    let mut values = Vec::new(alloc);
    'attributes: for number in 0..attributes.count() {
        values.push(Word::of(alloc, value_of(element, attributes.name(number)))?)?;
    }
    Ok(Row::of(values))
}
