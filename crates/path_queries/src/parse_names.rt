//! Types, variables and attributes by their names.

ghost use Rattle.std.specs.Prelude.{◌≡◌, ◌++◌, ◌+◌, ◌<◌, ◌≤◌, length, position, bytes_eq, slice_get, option_map, option_and_then, Some, None, IfOk, IfErr, IfSome};
ghost use Rattle.meaning.specs.Texts.{place_of};
ghost use Rattle.meaning.specs.QueryTexts as meaning;
ghost use Rattle.path_queries.specs.Tokens.{rest_at};
ghost use Rattle.path_queries.specs.Lookups.{looked_up, lookup_stop};

use crate::fault::{QueryStop, place_at, stop_at};
use crate::token::Tokens;
use crate::token_at::name_at;
use annotated_model::{Model, TypeDef};
use doc_tree::Word;

/// The place of the type with this name.
fn type_place(types: &[TypeDef], name: &str) -> Option<usize>
    ensures place { result ≡ position (λ t. bytes_eq name.now t.name) types.now }
    ensures inside { IfSome result (λ place. place < length types.now) }
{
    types.iter().position(|of_type| name == of_type.name.text())
}

/// The number of a type.
fn type_number(model: &Model, name: &str) -> Option<u16>
    requires { length model.now.types ≤ 65536 }
    ensures { result ≡ meaning.type_number model.now name.now }
{
    match type_place(model.types(), name) {
        Some(place) => Some(place as u16),
        None => None,
    }
}

/// The number of the type at a place.
pub fn type_at(model: &Model, tokens: &Tokens, at: usize) -> Result<u16, QueryStop>
    requires { length model.now.types ≤ 65536 }
    ensures number { IfOk result (λ number. looked_up (meaning.type_number model.now) at (rest_at tokens.now at) ≡ Some number) }
    ensures none { IfErr result (λ stop. looked_up (meaning.type_number model.now) at (rest_at tokens.now at) ≡ None) }
    ensures stop { IfErr result (λ stop. stop ≡ lookup_stop tokens.now.end at (rest_at tokens.now at)) }
{
    match name_at(tokens, at) {
        Some(name) => match type_number(model, name) {
            Some(number) => Ok(number),
            None => Err(QueryStop::UnknownName(place_at(tokens, at))),
        },
        None => Err(stop_at(tokens, at)),
    }
}

/// The place of the variable with this name.
fn variable_place(variables: &[(Word, u16)], name: &str) -> Option<usize>
    ensures place { result ≡ position (λ v. bytes_eq name.now v.0) variables.now }
    ensures inside { IfSome result (λ place. place < length variables.now) }
{
    variables
        .iter()
        .position(|variable| name == variable.0.text())
}

/// The number of a variable: those in scope come first, then the new ones.
pub fn variable_number(scope: &[(Word, u16)], new: &[(Word, u16)], name: &str) -> Option<u16>
    requires scope { length scope.now ≤ 65532 }
    requires new { length new.now ≤ 3 }
    ensures { result ≡ meaning.variable_number (scope.now ++ new.now) name.now }
{
    match variable_place(scope, name) {
        Some(place) => Some(place as u16),
        None => match variable_place(new, name) {
            Some(place) => Some((scope.len() + place) as u16),
            None => None,
        },
    }
}

/// The number of the variable at a place.
pub fn variable_at(
    scope: &[(Word, u16)],
    new: &[(Word, u16)],
    tokens: &Tokens,
    at: usize,
) -> Result<u16, QueryStop>
    requires scope { length scope.now ≤ 65532 }
    requires new { length new.now ≤ 3 }
    ensures number { IfOk result (λ number. looked_up (meaning.variable_number (scope.now ++ new.now)) at (rest_at tokens.now at) ≡ Some number) }
    ensures none { IfErr result (λ stop. looked_up (meaning.variable_number (scope.now ++ new.now)) at (rest_at tokens.now at) ≡ None) }
    ensures stop { IfErr result (λ stop. stop ≡ lookup_stop tokens.now.end at (rest_at tokens.now at)) }
{
    match name_at(tokens, at) {
        Some(name) => match variable_number(scope, new, name) {
            Some(number) => Ok(number),
            None => Err(QueryStop::UnknownName(place_at(tokens, at))),
        },
        None => Err(stop_at(tokens, at)),
    }
}

/// The type of a variable.
fn type_of(scope: &[(Word, u16)], new: &[(Word, u16)], variable: u16) -> Option<u16>
    ensures { result ≡ option_map (λ v. v.1) (slice_get (scope.now ++ new.now) variable) }
{
    let place = usize::from(variable);
    if place < scope.len() {
        Some(scope[place].1)
    } else {
        match new.get(place - scope.len()) {
            Some(variable) => Some(variable.1),
            None => None,
        }
    }
}

/// The number of an attribute of a type.
fn attribute_of_type(model: &Model, number: u16, name: &str) -> Option<u16>
    ensures { result ≡ option_and_then (λ t. place_of name.now t.attributes) (slice_get model.now.types number) }
{
    match model.types().get(usize::from(number)) {
        Some(of_type) => of_type.attributes.find(name),
        None => None,
    }
}

/// The number of an attribute of a variable's type.
fn attribute_number(
    model: &Model,
    scope: &[(Word, u16)],
    new: &[(Word, u16)],
    variable: u16,
    name: &str,
) -> Option<u16>
    ensures { result ≡ meaning.attribute_number model.now (scope.now ++ new.now) variable name.now }
{
    match type_of(scope, new, variable) {
        Some(number) => attribute_of_type(model, number, name),
        None => None,
    }
}

/// The number of the attribute at a place, of a variable's type.
pub fn attribute_at(
    model: &Model,
    scope: &[(Word, u16)],
    new: &[(Word, u16)],
    variable: u16,
    tokens: &Tokens,
    at: usize,
) -> Result<u16, QueryStop>
    ensures number { IfOk result (λ number.
        looked_up (meaning.attribute_number model.now (scope.now ++ new.now) variable) at (rest_at tokens.now at) ≡ Some number) }
    ensures none { IfErr result (λ stop.
        looked_up (meaning.attribute_number model.now (scope.now ++ new.now) variable) at (rest_at tokens.now at) ≡ None) }
    ensures stop { IfErr result (λ stop. stop ≡ lookup_stop tokens.now.end at (rest_at tokens.now at)) }
{
    match name_at(tokens, at) {
        Some(name) => match attribute_number(model, scope, new, variable, name) {
            Some(number) => Ok(number),
            None => Err(QueryStop::UnknownName(place_at(tokens, at))),
        },
        None => Err(stop_at(tokens, at)),
    }
}
