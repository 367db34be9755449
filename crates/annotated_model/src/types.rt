//! Types with inheritance.

ghost use Rattle.std.specs.Prelude.{◌≡◌, ◌≤◌, ◌<◌, ◌+◌, [], ◌∷◌, ◌++◌, IfOk, IfErr, OnOk, codes, map, false, true, length};
ghost use Rattle.std.specs.List.{list_all};
ghost use Rattle.meaning.specs.Texts as texts;
ghost use Rattle.meaning.specs.Documents.{list_at, texts_in};
ghost use Rattle.meaning.specs.Models as meaning;
ghost use Rattle.meaning.specs.BundlePlaces.{Types, faults_at, name_in, is_among, if_some, text_of_member};
ghost use Rattle.meaning.specs.BundlePlaces as places;
ghost use Rattle.meaning.specs.ModelRules as rules;
ghost use Rattle.doc_tree.specs.View.{document, documents};
ghost use Rattle.annotated_model.specs.View.{type_view};
ghost use Rattle.annotated_model.specs.declared.fault.ModelStop.TheVariants.{NoMemory};
ghost use Rattle.annotated_model.specs.Faults.{IsFirst};
ghost use Rattle.annotated_model.specs.Items.{part_faults, named_type, type_rules_over, type_broken, types_broken, types_told};

use crate::attributes::attributes_at;
use crate::data::TypeDef;
use crate::fault::{ModelStop, Place};
use crate::names::{add_new, is_known};
use crate::new_texts::are_new;
use crate::texts::text_of;
use cond_text::{Names, is_name};
use doc_tree::{Doc, Part, Row, Word};
use std::alloc::Global;

/// The most attributes of a type, with those that it inherits.
const ATTRIBUTE_LIMIT: usize = 32;

fn has_form(item: &Doc) -> bool
    ensures { result ≡ rules.type_has_form (document item.now) }
{
    item.is_table()
        && item.needs_text("name")
        && item.may_have_text("parent")
        && item.may_have_texts("attributes")
        && item.may_have_truth("system")
}

fn are_names(items: &[Doc]) -> bool
    ensures { result ≡ list_all texts.is_name (texts_in (documents items.now)) }
{
    'items: for item in items {
        if !is_name(text_of(item)) {
            return false;
        }
    }
    true
}

/// Whether the type's name and those of its own attributes are names.
fn gives_names(item: &Doc) -> bool
    ensures { result ≡ rules.type_gives_names (document item.now) }
{
    is_name(item.text_at("name")) && are_names(item.list_at("attributes"))
}

/// The number of the parent among these types, if the type names one.
fn parent_of(names: &Names, item: &Doc) -> Option<u16>
    ensures { result ≡ named_type names.now (codes "parent") (document item.now) }
{
    match item.text_member("parent") {
        Some(name) => names.find(name),
        None => None,
    }
}

/// Whether the parent is one of these types, if the type names one.
fn parent_is_known(names: &Names, item: &Doc) -> bool
    ensures { result ≡ if_some (is_among names.now) (text_of_member (codes "parent") (document item.now)) }
{
    match item.text_member("parent") {
        Some(name) => is_known(names, name),
        None => true,
    }
}

/// Whether the elements of the type with this number have systems.
pub fn system_at(types: &[TypeDef], number: Option<u16>) -> bool
    ensures { result ≡ meaning.inherits_system (map type_view types.now) number }
{
    match number {
        Some(number) => match types.get(usize::from(number)) {
            Some(found) => found.system,
            None => false,
        },
        None => false,
    }
}

/// The rules at the type with this number, after these types, which inherits these attributes.
fn check(
    alloc: Global,
    names: &Names,
    inherited: &Names,
    number: usize,
    item: &Doc,
) -> Result<(), ModelStop>
    requires { number ≤ 256 }
    ensures none { IfOk result (λ _. type_rules_over names.now inherited.now number (document item.now) ≡ []) }
    ensures new { IfOk result (λ _. is_among names.now (name_in (document item.now)) ≡ false) }
    ensures new_attributes { IfOk result (λ _. places.are_new inherited.now (rules.own_attributes (document item.now)) ≡ true) }
    ensures within { IfOk result (λ _. number < 256) }
    ensures few { IfOk result (λ _. length (inherited.now ++ rules.own_attributes (document item.now)) ≤ 32) }
    ensures fault { IfErr result (IsFirst (faults_at Types number 0 (type_rules_over names.now inherited.now number (document item.now)))) }
{
    let place = Place::item(Part::Types, number);
    let own = item.list_at("attributes");
    let new_attributes = are_new(alloc, inherited, own)?;
    let new = !is_known(names, item.text_at("name")) && new_attributes;
    let count = usize::from(inherited.count()) + own.len();
    let within = number != 256 && count <= ATTRIBUTE_LIMIT;
    place.require_named(has_form(item), gives_names(item), new, within)?;
    place.require(13, parent_is_known(names, item))
}

/// The same names.
fn copy_of(alloc: Global, names: &Names) -> Result<Names, ModelStop>
    ensures same { IfOk result (λ copy. copy ≡ names.now) }
    ensures stop { IfErr result (λ stop. stop ≡ NoMemory) }
{
    let mut copy = Names::new(alloc);
    'names: for number in 0..names.count() {
        add_new(&mut copy, names.name(number))?;
    }
    Ok(copy)
}

/// The inherited attributes, then the type's own.
fn attributes_of(alloc: Global, inherited: &Names, own: &[Doc]) -> Result<Names, ModelStop>
    requires new { places.are_new inherited.now (texts_in (documents own.now)) ≡ true }
    requires few { length (inherited.now ++ texts_in (documents own.now)) ≤ 32 }
    ensures all { IfOk result (λ names. names ≡ inherited.now ++ texts_in (documents own.now)) }
    ensures stop { IfErr result (λ stop. stop ≡ NoMemory) }
{
    let mut names = copy_of(alloc, inherited)?;
    'own: for attribute in own {
        add_new(&mut names, text_of(attribute))?;
    }
    Ok(names)
}

/// The type with this number, where it breaks no rule after these types.
fn read_type(
    alloc: Global,
    names: &Names,
    types: &[TypeDef],
    number: usize,
    item: &Doc,
) -> Result<TypeDef, ModelStop>
    requires { number ≤ 256 }
    ensures value { IfOk result (λ t. type_view t ≡ meaning.type_of names.now (map type_view types.now) (document item.now)) }
    ensures none { IfOk result (λ _. type_broken names.now (map type_view types.now) number (document item.now) ≡ []) }
    ensures new { IfOk result (λ _. is_among names.now (name_in (document item.now)) ≡ false) }
    ensures within { IfOk result (λ _. number < 256) }
    ensures fault { IfErr result (IsFirst (faults_at Types number 0 (type_broken names.now (map type_view types.now) number (document item.now)))) }
{
    let none = Names::new(alloc);
    let parent = parent_of(names, item);
    let inherited = attributes_at(types, parent, &none);
    read_below(alloc, names, types, parent, inherited, number, item)
}

/// The type with this number and parent, which inherits these attributes, where it breaks no rule after these types.
fn read_below(
    alloc: Global,
    names: &Names,
    types: &[TypeDef],
    parent: Option<u16>,
    inherited: &Names,
    number: usize,
    item: &Doc,
) -> Result<TypeDef, ModelStop>
    requires number { number ≤ 256 }
    requires parent { parent ≡ named_type names.now (codes "parent") (document item.now) }
    requires inherited { inherited.now ≡ meaning.inherited (map type_view types.now) parent }
    ensures value { IfOk result (λ t. type_view t ≡ meaning.type_of names.now (map type_view types.now) (document item.now)) }
    ensures none { IfOk result (λ _. type_broken names.now (map type_view types.now) number (document item.now) ≡ []) }
    ensures new { IfOk result (λ _. is_among names.now (name_in (document item.now)) ≡ false) }
    ensures within { IfOk result (λ _. number < 256) }
    ensures fault { IfErr result (IsFirst (faults_at Types number 0 (type_broken names.now (map type_view types.now) number (document item.now)))) }
{
    check(alloc, names, inherited, number, item)?;
    let name = Word::of(alloc, item.text_at("name"))?;
    let attributes = attributes_of(alloc, inherited, item.list_at("attributes"))?;
    Ok(TypeDef {
        name,
        parent,
        attributes,
        system: item.truth_at("system") || system_at(types, parent),
    })
}

/// Reads the type with this number behind the earlier ones, which have these names, where it breaks no rule.
fn read_next(
    alloc: Global,
    number: usize,
    item: &Doc,
    names: &mut Names,
    types: &mut Vec<TypeDef>,
) -> Result<(), ModelStop>
    requires number { number ≤ 256 }
    requires few { length names.old ≤ 256 }
    ensures value { OnOk result (map type_view types.new.items
        ≡ map type_view types.old.items ++ meaning.type_of names.old (map type_view types.old.items) (document item.now) ∷ []) }
    ensures name { OnOk result (names.new ≡ names.old ++ name_in (document item.now) ∷ []) }
    ensures none { OnOk result (type_broken names.old (map type_view types.old.items) number (document item.now) ≡ []) }
    ensures within { OnOk result (number < 256) }
    ensures fault { IfErr result (IsFirst (faults_at Types number 0 (type_broken names.old (map type_view types.old.items) number (document item.now)))) }
{
    let value = read_type(alloc, names, types.as_slice(), number, item)?;
    types.push(value)?;
    add_new(names, item.text_at("name"))
}

/// The types and their names, where these break no rule.
fn types_of(alloc: Global, items: &[Doc]) -> Result<(Vec<TypeDef>, Names), ModelStop>
    ensures values { IfOk result (λ r. map type_view r.0.items ≡ types_told [] [] (documents items.now)) }
    ensures names { IfOk result (λ r. r.1 ≡ map name_in (documents items.now)) }
    ensures few { IfOk result (λ r. length r.1 ≤ 256) }
    ensures none { IfOk result (λ r. types_broken (documents items.now) ≡ []) }
    ensures fault { IfErr result (IsFirst (types_broken (documents items.now))) }
{
    let mut names = Names::new(alloc);
    let mut types = Vec::new(alloc);
    'types: for (number, item) in items.iter().enumerate() {
        read_next(alloc, number, item, &mut names, &mut types)?;
    }
    Ok((types, names))
}

/// The types of a model table, and their names.
pub fn read_types(alloc: Global, model: &Doc) -> Result<(Row<TypeDef>, Names), ModelStop>
    ensures values { IfOk result (λ r. map type_view r.0 ≡ types_told [] [] (list_at (codes "types") (document model.now))) }
    ensures names { IfOk result (λ r. r.1 ≡ map name_in (list_at (codes "types") (document model.now))) }
    ensures few { IfOk result (λ r. length r.1 ≤ 256) }
    ensures none { IfOk result (λ r. part_faults Types (codes "types") types_broken (document model.now) ≡ []) }
    ensures fault { IfErr result (IsFirst (part_faults Types (codes "types") types_broken (document model.now))) }
{
    Place::item(Part::Types, 0).require(2, model.may_have_list("types"))?;
    let (types, names) = types_of(alloc, model.list_at("types"))?;
    Ok((Row::of(types), names))
}
