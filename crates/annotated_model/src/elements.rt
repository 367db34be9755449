//! Elements.

ghost use Rattle.std.specs.Prelude.{◌≡◌, ◌≤◌, ◌<◌, [], ◌∷◌, ◌++◌, IfOk, IfErr, OnOk, codes, map, false, true, length};
ghost use Rattle.meaning.specs.Documents.{list_at};
ghost use Rattle.meaning.specs.Models.{inherited};
ghost use Rattle.meaning.specs.BundlePlaces.{Elements, faults_at, name_in, is_among, member_within, may_have};
ghost use Rattle.meaning.specs.ModelRules as rules;
ghost use Rattle.cond_text.specs.View.{expression};
ghost use Rattle.doc_tree.specs.View.{document, documents};
ghost use Rattle.annotated_model.specs.View.{type_view, element_view};
ghost use Rattle.annotated_model.specs.Faults.{IsFirst};
ghost use Rattle.annotated_model.specs.Items.{part_faults, named_type, element_form_broken, attributes_given, element_broken, elements_broken, element_with, element_told};

use crate::attributes::{
    are_texts, attributes_at, gives_exactly, values_fit, values_given, values_of,
};
use crate::condition::read_condition;
use crate::data::{Element, TypeDef};
use crate::fault::{ModelStop, Place};
use crate::names::{add_new, is_known};
use crate::texts::{CONDITION_LIMIT, member_within};
use cond_text::{Expr, Names, is_name};
use doc_tree::{Doc, NoMemory, Part, Row, Word};
use std::alloc::Global;

/// The most elements of a model.
const LIMIT: usize = 2048;

/// Whether the member is a table whose members are texts, if it is there.
fn may_have_table_of_texts(element: &Doc, name: &str) -> bool
    ensures { result ≡ may_have rules.is_table_of_texts name.now (document element.now) }
{
    match element.member(name) {
        Some(value) => match value.entries() {
            Some(entries) => are_texts(entries),
            None => false,
        },
        None => true,
    }
}

fn has_form(element: &Doc) -> bool
    ensures { result ≡ rules.element_has_form (document element.now) }
{
    element.is_table()
        && element.needs_text("name")
        && element.needs_text("type")
        && element.may_have_text("when")
        && may_have_table_of_texts(element, "attributes")
}

/// The rules of form at the element with this number.
fn check_form(before: &Names, number: usize, element: &Doc) -> Result<(), ModelStop>
    requires { number ≤ 2048 }
    ensures none { IfOk result (λ _. element_form_broken before.now number (document element.now) ≡ []) }
    ensures short { IfOk result (λ _. member_within 4096 (codes "when") (document element.now) ≡ true) }
    ensures new { IfOk result (λ _. is_among before.now (name_in (document element.now)) ≡ false) }
    ensures within { IfOk result (λ _. number < 2048) }
    ensures fault { IfErr result (IsFirst (faults_at Elements number 0 (element_form_broken before.now number (document element.now)))) }
{
    let place = Place::item(Part::Elements, number);
    let name = element.text_at("name");
    let short = member_within(CONDITION_LIMIT, "when", element);
    let fit = short && values_fit(values_given(element));
    let new = !is_known(before, name);
    place.require_texts(has_form(element), is_name(name), fit, new, number != LIMIT)
}

/// The number of the element's type among these, if it names one.
fn type_of(types: &Names, element: &Doc) -> Option<u16>
    ensures { result ≡ named_type types.now (codes "type") (document element.now) }
{
    match element.text_member("type") {
        Some(name) => types.find(name),
        None => None,
    }
}

/// Whether an element gives exactly the attributes of its type, if that is known.
fn gives_its_attributes(alloc: Global, names: &Names, types: &[TypeDef], element: &Doc) -> bool
    ensures { result ≡ attributes_given names.now (map type_view types.now) (document element.now) }
{
    let none = Names::new(alloc);
    match type_of(names, element) {
        Some(number) => gives_exactly(
            attributes_at(types, Some(number), &none),
            values_given(element),
        ),
        None => true,
    }
}

/// The element that a document gives, with its condition.
fn value_of(
    alloc: Global,
    names: &Names,
    types: &[TypeDef],
    when: Expr,
    element: &Doc,
) -> Result<Element, NoMemory>
    ensures { IfOk result (λ e. element_view e ≡ element_with names.now (map type_view types.now) (expression when) (document element.now)) }
{
    let none = Names::new(alloc);
    let of_type = names.find(element.text_at("type")).unwrap_or(0);
    let attributes = attributes_at(types, Some(of_type), &none);
    Ok(Element {
        name: Word::of(alloc, element.text_at("name"))?,
        of_type,
        when,
        attributes: values_of(alloc, attributes, element)?,
        system: None,
    })
}

/// The element with this number, where it breaks no rule.
fn read_element(
    alloc: Global,
    features: &Names,
    names: &Names,
    types: &[TypeDef],
    before: &Names,
    number: usize,
    element: &Doc,
) -> Result<Element, ModelStop>
    requires { number ≤ 2048 }
    ensures value { IfOk result (λ e. element_view e ≡ element_told features.now names.now (map type_view types.now) (document element.now)) }
    ensures none { IfOk result (λ e. element_broken features.now names.now (map type_view types.now) before.now number (document element.now) ≡ []) }
    ensures new { IfOk result (λ e. is_among before.now (name_in (document element.now)) ≡ false) }
    ensures within { IfOk result (λ e. number < 2048) }
    ensures fault { IfErr result (IsFirst (faults_at Elements number 0
        (element_broken features.now names.now (map type_view types.now) before.now number (document element.now)))) }
{
    let place = Place::item(Part::Elements, number);
    check_form(before, number, element)?;
    let when = read_condition(alloc, features, place, element)?;
    place.require(15, is_known(names, element.text_at("type")))?;
    place.require(16, gives_its_attributes(alloc, names, types, element))?;
    Ok(value_of(alloc, names, types, when, element)?)
}

/// Reads the element with this number behind the earlier ones, whose names are given, where it breaks no rule.
fn read_next(
    alloc: Global,
    features: &Names,
    names: &Names,
    types: &[TypeDef],
    number: usize,
    element: &Doc,
    given: &mut Names,
    values: &mut Vec<Element>,
) -> Result<(), ModelStop>
    requires number { number ≤ 2048 }
    requires few { length given.old ≤ 2048 }
    ensures value { OnOk result (map element_view values.new.items
        ≡ map element_view values.old.items ++ element_told features.now names.now (map type_view types.now) (document element.now) ∷ []) }
    ensures name { OnOk result (given.new ≡ given.old ++ name_in (document element.now) ∷ []) }
    ensures none { OnOk result (element_broken features.now names.now (map type_view types.now) given.old number (document element.now) ≡ []) }
    ensures within { OnOk result (number < 2048) }
    ensures fault { IfErr result (IsFirst (faults_at Elements number 0
        (element_broken features.now names.now (map type_view types.now) given.old number (document element.now)))) }
{
    let value = read_element(alloc, features, names, types, given, number, element)?;
    values.push(value)?;
    add_new(given, element.text_at("name"))
}

/// The elements and their names, where these break no rule.
fn elements_of(
    alloc: Global,
    features: &Names,
    names: &Names,
    types: &[TypeDef],
    elements: &[Doc],
) -> Result<(Row<Element>, Names), ModelStop>
    ensures values { IfOk result (λ r. map element_view r.0 ≡ map (element_told features.now names.now (map type_view types.now)) (documents elements.now)) }
    ensures names { IfOk result (λ r. r.1 ≡ map name_in (documents elements.now)) }
    ensures few { IfOk result (λ r. length r.1 ≤ 2048) }
    ensures none { IfOk result (λ r. elements_broken features.now names.now (map type_view types.now) (documents elements.now) ≡ []) }
    ensures fault { IfErr result (IsFirst (elements_broken features.now names.now (map type_view types.now) (documents elements.now))) }
{
    let mut given = Names::new(alloc);
    let mut values = Vec::new(alloc);
    'elements: for (number, element) in elements.iter().enumerate() {
        read_next(
            alloc,
            features,
            names,
            types,
            number,
            element,
            &mut given,
            &mut values,
        )?;
    }
    Ok((Row::of(values), given))
}

/// The elements of a model table over the names of features and its types, and their names.
pub fn read_elements(
    alloc: Global,
    features: &Names,
    names: &Names,
    types: &[TypeDef],
    model: &Doc,
) -> Result<(Row<Element>, Names), ModelStop>
    ensures values { IfOk result (λ r. map element_view r.0
        ≡ map (element_told features.now names.now (map type_view types.now)) (list_at (codes "elements") (document model.now))) }
    ensures names { IfOk result (λ r. r.1 ≡ map name_in (list_at (codes "elements") (document model.now))) }
    ensures few { IfOk result (λ r. length r.1 ≤ 2048) }
    ensures none { IfOk result (λ r. part_faults Elements (codes "elements") (elements_broken features.now names.now (map type_view types.now)) (document model.now) ≡ []) }
    ensures fault { IfErr result (IsFirst (part_faults Elements (codes "elements") (elements_broken features.now names.now (map type_view types.now)) (document model.now))) }
{
    Place::item(Part::Elements, 0).require(2, model.may_have_list("elements"))?;
    elements_of(alloc, features, names, types, model.list_at("elements"))
}
