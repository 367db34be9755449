//! Link kinds.

ghost use Rattle.std.specs.Prelude.{◌≡◌, ◌≤◌, ◌<◌, [], ◌++◌, IfOk, IfErr, codes, map, false, length};
ghost use Rattle.meaning.specs.Documents.{list_at};
ghost use Rattle.meaning.specs.BundlePlaces.{Kinds, faults_at, name_in, is_among};
ghost use Rattle.meaning.specs.BundlePlaces as places;
ghost use Rattle.meaning.specs.Models.{kind_of};
ghost use Rattle.meaning.specs.ModelRules as rules;
ghost use Rattle.doc_tree.specs.View.{document, documents};
ghost use Rattle.annotated_model.specs.View.{kind_view};
ghost use Rattle.annotated_model.specs.Faults.{IsFirst};
ghost use Rattle.annotated_model.specs.Items.{part_faults, end_types_known, kind_broken, kinds_broken};

use crate::data::LinkKind;
use crate::fault::{ModelStop, Place};
use crate::names::{add_new, is_known};
use cond_text::{Names, is_name};
use doc_tree::{Doc, NoMemory, Part, Row, Word};
use std::alloc::Global;

fn has_form(kind: &Doc) -> bool
    ensures { result ≡ rules.kind_has_form (document kind.now) }
{
    kind.is_table() && kind.needs_text("name") && kind.needs_text("from") && kind.needs_text("to")
}

fn ends_are_known(types: &Names, kind: &Doc) -> bool
    ensures { result ≡ end_types_known types.now (document kind.now) }
{
    is_known(types, kind.text_at("from")) && is_known(types, kind.text_at("to"))
}

/// The rules at the link kind with this number.
fn check(types: &Names, before: &Names, number: usize, kind: &Doc) -> Result<(), ModelStop>
    requires { number ≤ 256 }
    ensures none { IfOk result (λ _. kind_broken types.now before.now number (document kind.now) ≡ []) }
    ensures new { IfOk result (λ _. is_among before.now (name_in (document kind.now)) ≡ false) }
    ensures within { IfOk result (λ _. number < 256) }
    ensures fault { IfErr result (IsFirst (faults_at Kinds number 0 (kind_broken types.now before.now number (document kind.now)))) }
{
    let place = Place::item(Part::Kinds, number);
    let name = kind.text_at("name");
    let new = !is_known(before, name);
    place.require_named(has_form(kind), is_name(name), new, number != 256)?;
    place.require(14, ends_are_known(types, kind))
}

/// The names of the link kinds, where these break no rule.
fn names_of(alloc: Global, types: &Names, kinds: &[Doc]) -> Result<Names, ModelStop>
    ensures names { IfOk result (λ names. names ≡ map name_in (documents kinds.now)) }
    ensures few { IfOk result (λ names. length names ≤ 256) }
    ensures none { IfOk result (λ names. kinds_broken types.now (documents kinds.now) ≡ []) }
    ensures fault { IfErr result (IsFirst (kinds_broken types.now (documents kinds.now))) }
{
    let mut names = Names::new(alloc);
    'kinds: for (number, kind) in kinds.iter().enumerate() {
        check(types, &names, number, kind)?;
        add_new(&mut names, kind.text_at("name"))?;
    }
    Ok(names)
}

fn value_of(alloc: Global, types: &Names, kind: &Doc) -> Result<LinkKind, NoMemory>
    ensures { IfOk result (λ k. kind_view k ≡ kind_of types.now (document kind.now)) }
{
    Ok(LinkKind {
        name: Word::of(alloc, kind.text_at("name"))?,
        from: types.find(kind.text_at("from")).unwrap_or(0),
        to: types.find(kind.text_at("to")).unwrap_or(0),
    })
}

fn values_of(alloc: Global, types: &Names, kinds: &[Doc]) -> Result<Row<LinkKind>, NoMemory>
    ensures { IfOk result (λ ks. map kind_view ks ≡ map (kind_of types.now) (documents kinds.now)) }
{
    let mut values = Vec::new(alloc);
    'kinds: for kind in kinds {
        values.push(value_of(alloc, types, kind)?)?;
    }
    Ok(Row::of(values))
}

/// The link kinds of a model table over the names of its types, and their names.
pub fn read_kinds(
    alloc: Global,
    types: &Names,
    model: &Doc,
) -> Result<(Row<LinkKind>, Names), ModelStop>
    ensures values { IfOk result (λ r. map kind_view r.0 ≡ map (kind_of types.now) (list_at (codes "kinds") (document model.now))) }
    ensures names { IfOk result (λ r. r.1 ≡ map name_in (list_at (codes "kinds") (document model.now))) }
    ensures few { IfOk result (λ r. length r.1 ≤ 256) }
    ensures none { IfOk result (λ r. part_faults Kinds (codes "kinds") (kinds_broken types.now) (document model.now) ≡ []) }
    ensures fault { IfErr result (IsFirst (part_faults Kinds (codes "kinds") (kinds_broken types.now) (document model.now))) }
{
    Place::item(Part::Kinds, 0).require(2, model.may_have_list("kinds"))?;
    let kinds = model.list_at("kinds");
    let names = names_of(alloc, types, kinds)?;
    Ok((values_of(alloc, types, kinds)?, names))
}
