//! Parameters of templates.

ghost use Rattle.std.specs.Prelude.{◌≡◌, ◌≤◌, ◌<◌, ◌^◌, [], Some, IfOk, IfErr, OnOk, codes, map, false, length};
ghost use Rattle.std.specs.List.{All};
ghost use Rattle.meaning.specs.Documents.{text_at, list_at};
ghost use Rattle.meaning.specs.QueryTexts as queries;
ghost use Rattle.meaning.specs.TemplateTexts.{parameter_of};
ghost use Rattle.meaning.specs.BundlePlaces.{Params, faults_at, name_in, is_among};
ghost use Rattle.meaning.specs.TemplateRules as rules;
ghost use Rattle.doc_tree.specs.View.{document, documents};
ghost use Rattle.templates.specs.Faults.{IsFirst};
ghost use Rattle.templates.specs.ListRules.{parameter_broken, parameters_broken, template_parameters_broken, all_parameters_broken, parameters_in, types_named, types_known};

use crate::fault::{Place, TemplateStop};
use crate::names::{add_new, is_known};
use crate::words::type_number;
use annotated_model::Model;
use cond_text::{Names, is_name};
use doc_tree::{Doc, Part, Row, Word};
use std::alloc::Global;

/// The most parameters of a template.
const LIMIT: usize = 8;

fn has_form(parameter: &Doc) -> bool
    ensures { result ≡ rules.parameter_has_form (document parameter.now) }
{
    parameter.is_table() && parameter.needs_text("name") && parameter.needs_text("type")
}

/// The parameter of a number in a template, after parameters with these names.
fn read_parameter(
    alloc: Global,
    model: &Model,
    before: &Names,
    template: usize,
    number: usize,
    parameter: &Doc,
) -> Result<(Word, u16), TemplateStop>
    requires types { length model.now.types ≤ 65536 }
    requires template { template < 2 ^ 32 }
    requires few { number ≤ 8 }
    ensures value { IfOk result (λ p. p ≡ parameter_of model.now (document parameter.now)) }
    ensures known { IfOk result (λ p. queries.type_number model.now (text_at (codes "type") (document parameter.now)) ≡ Some p.1) }
    ensures new { IfOk result (λ p. is_among before.now (name_in (document parameter.now)) ≡ false) }
    ensures within { IfOk result (λ p. number < 8) }
    ensures none { IfOk result (λ p. parameter_broken model.now before.now number (document parameter.now) ≡ []) }
    ensures fault { IfErr result (IsFirst (faults_at Params template number (parameter_broken model.now before.now number (document parameter.now)))) }
{
    let place = Place::inside(Part::Params, template, number);
    let name = parameter.text_at("name");
    let new = !is_known(before, name);
    place.require_named(has_form(parameter), is_name(name), new, number != LIMIT)?;
    match type_number(model, parameter.text_at("type")) {
        Some(found) => Ok((Word::of(alloc, name)?, found)),
        None => Err(place.broken_at(23, 0)),
    }
}

/// Adds the parameters of a template, and their names.
fn add_items(
    alloc: Global,
    model: &Model,
    template: usize,
    items: &[Doc],
    names: &mut Names,
    row: &mut Vec<(Word, u16)>,
) -> Result<(), TemplateStop>
    requires types { length model.now.types ≤ 65536 }
    requires template { template < 2 ^ 32 }
    requires names { names.old ≡ [] }
    requires row { row.old.items ≡ [] }
    ensures value { OnOk result (row.new.items ≡ map (parameter_of model.now) (documents items.now)) }
    ensures known { OnOk result (types_named model.now (documents items.now) ≡ types_known row.new.items) }
    ensures few { OnOk result (length row.new.items ≤ 8) }
    ensures none { OnOk result (parameters_broken model.now template [] 0 (documents items.now) ≡ []) }
    ensures fault { IfErr result (IsFirst (parameters_broken model.now template [] 0 (documents items.now))) }
{
    'items: for (number, item) in items.iter().enumerate() {
        row.push(read_parameter(alloc, model, names, template, number, item)?)?;
        add_new(names, item.text_at("name"))?;
    }
    Ok(())
}

fn read_items(
    alloc: Global,
    model: &Model,
    template: usize,
    items: &[Doc],
) -> Result<Row<(Word, u16)>, TemplateStop>
    requires types { length model.now.types ≤ 65536 }
    requires template { template < 2 ^ 32 }
    ensures value { IfOk result (λ row. row ≡ map (parameter_of model.now) (documents items.now)) }
    ensures known { IfOk result (λ row. types_named model.now (documents items.now) ≡ types_known row) }
    ensures few { IfOk result (λ row. length row ≤ 8) }
    ensures none { IfOk result (λ row. parameters_broken model.now template [] 0 (documents items.now) ≡ []) }
    ensures fault { IfErr result (IsFirst (parameters_broken model.now template [] 0 (documents items.now))) }
{
    let mut names = Names::new(alloc);
    let mut row = Vec::new(alloc);
    add_items(alloc, model, template, items, &mut names, &mut row)?;
    Ok(Row::of(row))
}

/// The parameters of the template with this number.
fn read_template(
    alloc: Global,
    model: &Model,
    number: usize,
    template: &Doc,
) -> Result<Row<(Word, u16)>, TemplateStop>
    requires types { length model.now.types ≤ 65536 }
    requires number { number < 2 ^ 32 }
    ensures value { IfOk result (λ row. row ≡ parameters_in model.now (document template.now)) }
    ensures known { IfOk result (λ row. types_named model.now (list_at (codes "params") (document template.now)) ≡ types_known row) }
    ensures few { IfOk result (λ row. length row ≤ 8) }
    ensures none { IfOk result (λ row. template_parameters_broken model.now number (document template.now) ≡ []) }
    ensures fault { IfErr result (IsFirst (template_parameters_broken model.now number (document template.now))) }
{
    Place::item(Part::Params, number).require(2, template.may_have_list("params"))?;
    read_items(alloc, model, number, template.list_at("params"))
}

/// The parameters of each template.
pub fn read_parameters(
    alloc: Global,
    model: &Model,
    templates: &[Doc],
) -> Result<Vec<Row<(Word, u16)>>, TemplateStop>
    requires types { length model.now.types ≤ 65536 }
    requires few { length templates.now ≤ 256 }
    ensures values { IfOk result (λ rows. rows.items ≡ map (parameters_in model.now) (documents templates.now)) }
    ensures known { IfOk result (λ rows. map (λ d. types_named model.now (list_at (codes "params") d)) (documents templates.now) ≡ map types_known rows.items) }
    ensures few { IfOk result (λ rows. All (λ row. length row ≤ 8) rows.items) }
    ensures none { IfOk result (λ rows. all_parameters_broken model.now 0 (documents templates.now) ≡ []) }
    ensures fault { IfErr result (IsFirst (all_parameters_broken model.now 0 (documents templates.now))) }
{
    let mut rows = Vec::new(alloc);
    'templates: for (number, template) in templates.iter().enumerate() {
        rows.push(read_template(alloc, model, number, template)?)?;
    }
    Ok(rows)
}
