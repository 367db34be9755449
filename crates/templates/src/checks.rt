//! The check of a node.

ghost use Rattle.std.specs.Prelude.{◌≡◌, ◌≤◌, [], true, codes, length, option_map, option_and_then, unwrap_or, if◌then◌else◌, IfOk, IfErr};
ghost use Rattle.meaning.specs.Documents.{member_of};
ghost use Rattle.meaning.specs.Expressions.{Top, expression_of};
ghost use Rattle.meaning.specs.BundlePlaces.{member_within, text_of_member};
ghost use Rattle.meaning.specs.LineRules.{expression_rules};
ghost use Rattle.meaning.specs.TemplateTexts as texts;
ghost use Rattle.meaning.specs.TemplateRules as rules;
ghost use Rattle.cond_text.specs.View.{expression};
ghost use Rattle.doc_tree.specs.View.{document};
ghost use Rattle.templates.specs.Faults.{IsFirst, faults_here};
ghost use Rattle.templates.specs.View.{check_view};
ghost use Rattle.templates.specs.NodeRules.{seeing};
ghost use Rattle.templates.specs.QueryReads.{parsed};
ghost use Rattle.templates.specs.CheckReads.{never_in, told_without};

use crate::data::Check;
use crate::fault::{Place, TemplateStop};
use crate::node_form::check_table;
use crate::queries::CheckQueries;
use crate::words::variable_number;
use annotated_model::Model;
use cond_text::{Expr, ExprStop, Names, parse};
use doc_tree::{Doc, Word};
use std::alloc::Global;

/// The expression that a check says is never true, if it has one.
fn read_expression(
    alloc: Global,
    place: Place,
    labels: &Names,
    check: &Doc,
) -> Result<Option<Expr>, TemplateStop>
    requires { member_within 4096 (codes "never") (document check.now) ≡ true }
    ensures value { IfOk result (λ e. option_map expression e ≡ never_in labels.now (document check.now)) }
    ensures none { IfOk result (λ e. expression_rules labels.now (codes "never") (document check.now) ≡ []) }
    ensures fault { IfErr result (IsFirst (faults_here place (expression_rules labels.now (codes "never") (document check.now)))) }
{
    match check.text_member("never") {
        Some(text) => match parse(alloc, text, labels) {
            Ok(condition) => Ok(Some(condition)),
            Err(ExprStop::Syntax(at)) => Err(place.broken_at(11, at)),
            Err(ExprStop::TooMany(at)) => Err(place.broken_at(11, at)),
            Err(ExprStop::UnknownName(at)) => Err(place.broken_at(12, at)),
            Err(ExprStop::NoMemory) => Err(TemplateStop::NoMemory),
        },
        None => Ok(None),
    }
}

/// The expression that the check of a node says is never true, if it has one.
pub fn read_never(
    alloc: Global,
    place: Place,
    labels: &Names,
    node: &Doc,
) -> Result<Option<Expr>, TemplateStop>
    requires { member_within 4096 (codes "never") (rules.check_in (document node.now)) ≡ true }
    ensures value { IfOk result (λ e. option_map expression e ≡ never_in labels.now (rules.check_in (document node.now))) }
    ensures none { IfOk result (λ e. expression_rules labels.now (codes "never") (rules.check_in (document node.now)) ≡ []) }
    ensures fault { IfErr result (IsFirst (faults_here place (expression_rules labels.now (codes "never") (rules.check_in (document node.now))))) }
{
    match check_table(node) {
        Some(check) => read_expression(alloc, place, labels, check),
        None => Ok(None),
    }
}

/// The number of the type of a variable in scope.
pub fn type_of_variable(scope: &[(Word, u16)], name: &str) -> Option<u16>
    requires { length scope.now ≤ 65536 }
    ensures { result ≡ rules.type_of_variable scope.now name.now }
{
    match variable_number(scope, name) {
        Some(number) => match scope.get(usize::from(number)) {
            Some((_, found)) => Some(*found),
            None => None,
        },
        None => None,
    }
}

/// Whether elements of the type with a number have systems.
fn is_system_type(model: &Model, number: u16) -> bool
    ensures { result ≡ rules.is_system_type model.now number }
{
    match model.types().get(usize::from(number)) {
        Some(found) => found.system,
        None => false,
    }
}

/// Whether the member names a variable in scope that is of a system type.
fn names_system_variable(model: &Model, scope: &[(Word, u16)], name: &str, check: &Doc) -> bool
    requires { length scope.now ≤ 65536 }
    ensures { result ≡ rules.names_system_variable (seeing model.now [] scope.now) 0 name.now (document check.now) }
{
    match check.text_member(name) {
        Some(variable) => match type_of_variable(scope, variable) {
            Some(found) => is_system_type(model, found),
            None => false,
        },
        None => false,
    }
}

fn one_if(there: bool) -> u8
    ensures value { result ≡ rules.one_if there }
    ensures one { result ≤ 1 }
{
    if there { 1 } else { 0 }
}

/// How many of the four forms a check has.
fn forms_of(check: &Doc) -> u8
    ensures { result ≡ rules.forms_of_check (document check.now) }
{
    one_if(check.has("never"))
        + one_if(check.has("deadlock"))
        + one_if(check.has("none"))
        + one_if(check.has("some"))
}

/// Whether a check has exactly one form, with what belongs to it.
fn is_check(model: &Model, scope: &[(Word, u16)], check: &Doc) -> bool
    requires { length scope.now ≤ 65536 }
    ensures { result ≡ rules.is_check (seeing model.now [] scope.now) 0 (document check.now) }
{
    let never = !check.has("never")
        || (check.needs_text("never") && names_system_variable(model, scope, "of", check));
    let deadlock = !check.has("deadlock") || names_system_variable(model, scope, "deadlock", check);
    forms_of(check) == 1
        && never
        && deadlock
        && check.may_have_text("none")
        && check.may_have_text("some")
}

/// Whether the check of a node is one, if there is one.
pub fn check_is_right(model: &Model, scope: &[(Word, u16)], node: &Doc) -> bool
    requires { length scope.now ≤ 65536 }
    ensures { result ≡ rules.check_is_right (seeing model.now [] scope.now) (0, document node.now) }
{
    if !node.has("check") {
        return true;
    }
    match check_table(node) {
        Some(check) => is_check(model, scope, check),
        None => false,
    }
}

/// The number of a variable, and 0 where it isn't in scope.
pub fn variable_of(scope: &[(Word, u16)], name: &str) -> u16
    requires { length scope.now ≤ 65536 }
    ensures { result ≡ texts.variable_of scope.now name.now }
{
    variable_number(scope, name).unwrap_or(0)
}

/// What a check of no expression checks: a variable's system, or a query.
fn check_without_expression(
    scope: &[(Word, u16)],
    queries: CheckQueries,
    check: &Doc,
) -> Option<Check>
    requires { length scope.now ≤ 65536 }
    ensures { option_map check_view result ≡ told_without scope.now queries (document check.now) }
{
    let CheckQueries { absent, demanded } = queries;
    match check.text_member("deadlock") {
        Some(variable) => Some(Check::NoDeadlock(variable_of(scope, variable))),
        None => match absent {
            Some((_, query)) => Some(Check::NoAnswer(query)),
            None => match demanded {
                Some((_, query)) => Some(Check::SomeAnswer(query)),
                None => None,
            },
        },
    }
}

/// What the check of a node checks, by its expression and its queries, which were read before.
pub fn check_of(
    model: &Model,
    scope: &[(Word, u16)],
    never: Option<Expr>,
    queries: CheckQueries,
    node: &Doc,
) -> Option<Check>
    requires few { length scope.now ≤ 65536 }
    requires never { option_map expression never ≡ never_in model.now.labels (rules.check_in (document node.now)) }
    requires absent { option_map parsed queries.absent ≡ texts.query_at model.now scope.now (codes "none") (rules.check_in (document node.now)) }
    requires demanded { option_map parsed queries.demanded ≡ texts.query_at model.now scope.now (codes "some") (rules.check_in (document node.now)) }
    ensures { option_map check_view result ≡ option_and_then (texts.check_of model.now scope.now) (member_of (codes "check") (document node.now)) }
{
    match node.member("check") {
        Some(check) => match never {
            Some(condition) => Some(Check::Never(
                variable_of(scope, check.text_at("of")),
                condition,
            )),
            None => check_without_expression(scope, queries, check),
        },
        None => None,
    }
}
