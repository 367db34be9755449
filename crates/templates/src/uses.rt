//! Uses of earlier templates.

ghost use Rattle.std.specs.Prelude.{◌≡◌, ◌≤◌, ◌<◌, [], codes, length, map, take, IfOk};
ghost use Rattle.meaning.specs.Documents.{text_at, list_at, texts_in};
ghost use Rattle.meaning.specs.QueryTexts.{Scope};
ghost use Rattle.meaning.specs.BundlePlaces.{name_in};
ghost use Rattle.meaning.specs.ModelRules.{label_text};
ghost use Rattle.meaning.specs.TemplateTexts as texts;
ghost use Rattle.meaning.specs.TemplateRules as rules;
ghost use Rattle.doc_tree.specs.View.{document, documents};
ghost use Rattle.templates.specs.View.{kind_view};
ghost use Rattle.templates.specs.ListRules.{types_named, types_known};
ghost use Rattle.templates.specs.NodeRules.{seeing};
ghost use Rattle.templates.specs.UseReads.{fits_type, all_fit, arguments_in};

use crate::checks::{type_of_variable, variable_of};
use crate::data::TKind;
use crate::kinds::{NodeWord, node_kind, node_word};
use annotated_model::Model;
use cond_text::Names;
use doc_tree::{Doc, NoMemory, Row, Word};
use std::alloc::Global;

/// The text that a value is, and an empty one else.
fn text_of(value: &Doc) -> &str
    ensures { result.now ≡ label_text (document value.now) }
{
    match value.as_text() {
        Some(text) => text,
        None => "",
    }
}

/// Whether the type of a variable is this one or below it.
fn argument_fits(model: &Model, scope: &[(Word, u16)], variable: &str, of: u16) -> bool
    requires { length scope.now ≤ 65536 }
    ensures { result ≡ fits_type model.now scope.now variable.now of }
{
    match type_of_variable(scope, variable) {
        Some(found) => model.is_a(found, of),
        None => false,
    }
}

/// Whether there is one argument for each parameter, and each fits.
fn arguments_fit(
    model: &Model,
    scope: &[(Word, u16)],
    arguments: &[Doc],
    parameters: &[(Word, u16)],
) -> bool
    requires { length scope.now ≤ 65536 }
    ensures { result ≡ all_fit model.now scope.now (texts_in (documents arguments.now)) (map (λ p. p.1) parameters.now) }
{
    if arguments.len() != parameters.len() {
        return false;
    }
    'arguments: for (number, argument) in arguments.iter().enumerate() {
        let parameter = &parameters[number];
        if !argument_fits(model, scope, text_of(argument), parameter.1) {
            return false;
        }
    }
    true
}

/// Whether a node names an earlier template than the one of a number, and its arguments fit.
fn uses_earlier(
    model: &Model,
    docs: &[Doc],
    names: &Names,
    parameters: &[Row<(Word, u16)>],
    number: usize,
    scope: &[(Word, u16)],
    node: &Doc,
) -> bool
    requires few { length scope.now ≤ 65536 }
    requires names { names.now ≡ map name_in (documents docs.now) }
    requires types { map (λ d. types_named model.now (list_at (codes "params") d)) (documents docs.now) ≡ map types_known parameters.now }
    ensures { result ≡ rules.holds_for_some
        (λ t. rules.arguments_fit (seeing model.now (documents (take number docs.now)) scope.now) 0 (texts_in (list_at (codes "args") (document node.now))) (list_at (codes "params") t))
        (rules.earlier_template (seeing model.now (documents (take number docs.now)) scope.now) (text_at (codes "template") (document node.now))) }
{
    match names.find(node.text_at("template")) {
        Some(found) if usize::from(found) < number => match parameters.get(usize::from(found)) {
            Some(row) => arguments_fit(model, scope, node.list_at("args"), row.list()),
            None => false,
        },
        _ => false,
    }
}

/// Whether a node of a template of this number is no use, or uses an earlier one.
pub fn use_is_right(
    model: &Model,
    docs: &[Doc],
    names: &Names,
    parameters: &[Row<(Word, u16)>],
    number: usize,
    scope: &[(Word, u16)],
    node: &Doc,
) -> bool
    requires few { length scope.now ≤ 65536 }
    requires names { names.now ≡ map name_in (documents docs.now) }
    requires types { map (λ d. types_named model.now (list_at (codes "params") d)) (documents docs.now) ≡ map types_known parameters.now }
    ensures { result ≡ rules.use_is_right (seeing model.now (documents (take number docs.now)) scope.now) (0, document node.now) }
{
    node_word(node) != NodeWord::Use
        || uses_earlier(model, docs, names, parameters, number, scope, node)
}

/// The variables that a node gives as arguments.
pub fn arguments_of(alloc: Global, scope: &[(Word, u16)], node: &Doc) -> Result<Row<u16>, NoMemory>
    requires { length scope.now ≤ 65536 }
    ensures { IfOk result (λ row. row ≡ arguments_in scope.now (document node.now)) }
{
    let mut row = Vec::new(alloc);
    let arguments = node.list_at("args");
    'arguments: for argument in arguments {
        row.push(variable_of(scope, text_of(argument)))?;
    }
    Ok(Row::of(row))
}

/// A node's kind, or the template that it uses, by its number among these.
pub fn kind_of(names: &Names, node: &Doc) -> TKind
    ensures { (scope : Scope) → kind_view (arguments_in scope (document node.now)) result ≡ texts.kind_of names.now scope (document node.now) }
{
    let text = node.text_at("kind");
    if text == "use" {
        TKind::Uses(names.find(node.text_at("template")).unwrap_or(0))
    } else {
        TKind::Node(node_kind(text))
    }
}
