//! The list of templates: their names, which all differ, and that each has nodes.

ghost use Rattle.std.specs.Prelude.{◌≡◌, ◌≤◌, ◌<◌, ◌^◌, [], IfOk, IfErr, map, false, length};
ghost use Rattle.meaning.specs.BundlePlaces.{Templates, faults_at, name_in, is_among};
ghost use Rattle.meaning.specs.TemplateRules as rules;
ghost use Rattle.doc_tree.specs.View.{document, documents};
ghost use Rattle.templates.specs.Faults.{IsFirst};
ghost use Rattle.templates.specs.ListRules.{last_is_plain, template_broken, templates_broken, list_broken};

use crate::fault::{Place, TemplateStop};
use crate::names::{add_new, is_known};
use cond_text::{Names, is_name};
use doc_tree::{Doc, Part};
use std::alloc::Global;

/// The most templates of a bundle.
const LIMIT: usize = 256;

fn has_form(template: &Doc) -> bool
    ensures { result ≡ rules.template_has_form (document template.now) }
{
    template.is_table() && template.needs_text("name")
}

/// Whether the template has a node; where its nodes are no list, another rule speaks of that.
fn has_nodes(template: &Doc) -> bool
    ensures { result ≡ rules.has_nodes (document template.now) }
{
    !template.may_have_list("nodes") || template.list_at("nodes").len() != 0
}

/// Whether the template with this number has no parameters, where it is the last of so many.
fn last_has_no_parameters(count: usize, number: usize, template: &Doc) -> bool
    requires { number < 2 ^ 32 }
    ensures { result ≡ last_is_plain count number (document template.now) }
{
    number + 1 != count || template.list_at("params").len() == 0
}

/// The rules at the template with this number of so many, after templates with these names.
fn check(before: &Names, count: usize, number: usize, template: &Doc) -> Result<(), TemplateStop>
    requires { number ≤ 256 }
    ensures none { IfOk result (λ _. template_broken count before.now number (document template.now) ≡ []) }
    ensures new { IfOk result (λ _. is_among before.now (name_in (document template.now)) ≡ false) }
    ensures within { IfOk result (λ _. number < 256) }
    ensures fault { IfErr result (IsFirst (faults_at Templates number 0 (template_broken count before.now number (document template.now)))) }
{
    let place = Place::item(Part::Templates, number);
    let name = template.text_at("name");
    let new = !is_known(before, name);
    place.require_named(has_form(template), is_name(name), new, number != LIMIT)?;
    place.require(23, last_has_no_parameters(count, number, template))?;
    place.require(24, has_nodes(template))
}

/// The names of the templates, where these break no rule.
fn names_of(alloc: Global, templates: &[Doc]) -> Result<Names, TemplateStop>
    ensures names { IfOk result (λ names. names ≡ map name_in (documents templates.now)) }
    ensures few { IfOk result (λ names. length names ≤ 256) }
    ensures none { IfOk result (λ names. templates_broken (documents templates.now) ≡ []) }
    ensures fault { IfErr result (IsFirst (templates_broken (documents templates.now))) }
{
    let mut names = Names::new(alloc);
    'templates: for (number, template) in templates.iter().enumerate() {
        check(&names, templates.len(), number, template)?;
        add_new(&mut names, template.text_at("name"))?;
    }
    Ok(names)
}

/// The names of the templates of a bundle.
pub fn read_names(alloc: Global, bundle: &Doc) -> Result<Names, TemplateStop>
    ensures names { IfOk result (λ names. names ≡ map name_in (rules.templates_in (document bundle.now))) }
    ensures few { IfOk result (λ names. length names ≤ 256) }
    ensures none { IfOk result (λ names. list_broken (document bundle.now) ≡ []) }
    ensures fault { IfErr result (IsFirst (list_broken (document bundle.now))) }
{
    let place = Place::item(Part::Templates, 0);
    let listed = bundle.may_have_list("templates");
    let templates = bundle.list_at("templates");
    place.require(2, listed)?;
    place.require(23, !listed || templates.len() != 0)?;
    names_of(alloc, templates)
}
