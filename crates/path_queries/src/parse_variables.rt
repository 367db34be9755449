//! New variables from the tokens of a text.

ghost use Rattle.std.specs.Prelude.{◌≡◌, ◌++◌, ◌<◌, ◌≤◌, length, codes, false, true, option_map, IfOk, IfErr};
ghost use Rattle.meaning.specs.QueryTexts as meaning;
ghost use Rattle.path_queries.specs.Tokens.{rest_at};
ghost use Rattle.path_queries.specs.Signs.{shown, name_first};
ghost use Rattle.path_queries.specs.Stops.{place_told};
ghost use Rattle.path_queries.specs.VariableReading.{declared, undeclared, new_stop, begins_conditions, ReadsVariable, VariableStops, ReadsVariables, VariablesStop, ReadsNew, NewStops};

use crate::fault::{QueryStop, place_at, stop_at};
use crate::parse_constraint::is_word_at;
use crate::parse_names::{type_at, variable_number};
use crate::token::Tokens;
use crate::token_at::{Sign, name_at, sign_at};
use annotated_model::Model;
use doc_tree::Word;
use std::alloc::Global;

/// The most new variables of a query.
const MOST_VARIABLES: usize = 3;

/// The name at a place that a colon follows.
fn declared_at(tokens: &Tokens, at: usize) -> Option<&str>
    requires { at ≤ 256 }
    ensures { option_map (λ w. w.now) result ≡ declared tokens.now at }
{
    match sign_at(tokens, at + 1) {
        Sign::Colon => name_at(tokens, at),
        _ => None,
    }
}

/// The fault where no name stands, or no colon behind it.
fn undeclared_at(tokens: &Tokens, at: usize) -> QueryStop
    requires { at ≤ 256 }
    ensures { result ≡ undeclared tokens.now at }
{
    match name_at(tokens, at) {
        Some(_) => stop_at(tokens, at + 1),
        None => stop_at(tokens, at),
    }
}

/// The fault at the name of a new variable, if there are too many or the name stands for another variable.
fn new_fault(
    scope: &[(Word, u16)],
    new: &[(Word, u16)],
    tokens: &Tokens,
    at: usize,
    name: &str,
) -> Option<QueryStop>
    requires scope { length scope.now ≤ 65532 }
    requires new { length new.now ≤ 3 }
    ensures { result ≡ new_stop (length new.now) (meaning.variable_number (scope.now ++ new.now) name.now) (place_told tokens.now.end (rest_at tokens.now at)) }
{
    if new.len() >= MOST_VARIABLES {
        return Some(QueryStop::TooMany(place_at(tokens, at)));
    }
    match variable_number(scope, new, name) {
        Some(_) => Some(QueryStop::Repeated(place_at(tokens, at))),
        None => None,
    }
}

/// The new variable at a place, with its type.
fn parse_variable(
    alloc: Global,
    model: &Model,
    scope: &[(Word, u16)],
    new: &[(Word, u16)],
    tokens: &Tokens,
    at: usize,
) -> Result<(Word, u16), QueryStop>
    requires types { length model.now.types ≤ 65536 }
    requires scope { length scope.now ≤ 65532 }
    requires new { length new.now ≤ 3 }
    requires short { at ≤ 12 }
    ensures reads { IfOk result (λ v. ReadsVariable model.now scope.now new.now tokens.now at v) }
    ensures stop { IfErr result (VariableStops model.now scope.now new.now tokens.now at) }
{
    match declared_at(tokens, at) {
        Some(name) => match new_fault(scope, new, tokens, at, name) {
            Some(stop) => Err(stop),
            None => {
                let of_type = type_at(model, tokens, at + 2)?;
                Ok((Word::of(alloc, name)?, of_type))
            }
        },
        None => Err(undeclared_at(tokens, at)),
    }
}

/// The new variables from the first token on, and the place after them.
fn parse_variables(
    alloc: Global,
    model: &Model,
    scope: &[(Word, u16)],
    tokens: &Tokens,
) -> Result<(Vec<(Word, u16)>, usize), QueryStop>
    requires types { length model.now.types ≤ 65536 }
    requires scope { length scope.now ≤ 65532 }
    ensures reads { IfOk result (λ read. ReadsVariables model.now scope.now tokens.now read.1 read.0.items) }
    ensures stop { IfErr result (VariablesStop model.now scope.now tokens.now) }
{
    let mut new = Vec::new(alloc);
    let first = parse_variable(alloc, model, scope, &new, tokens, 0)?;
    new.push(first)?;
    let mut next = 3;
    'commas: while let Sign::Comma = sign_at(tokens, next) {
        let variable = parse_variable(alloc, model, scope, &new, tokens, next + 1)?;
        new.push(variable)?;
        next += 4;
    }
    Ok((new, next))
}

/// Whether the text ends at a place, or `with` stands there.
fn begins_conditions_at(tokens: &Tokens, at: usize) -> bool
    ensures { result ≡ begins_conditions tokens.now at }
{
    match sign_at(tokens, at) {
        Sign::End => true,
        _ => is_word_at(tokens, at, "with"),
    }
}

/// The new variables of a query, and the place after them, which is the end of the text or `with`.
pub fn parse_new(
    alloc: Global,
    model: &Model,
    scope: &[(Word, u16)],
    tokens: &Tokens,
) -> Result<(Vec<(Word, u16)>, usize), QueryStop>
    requires types { length model.now.types ≤ 65536 }
    requires scope { length scope.now ≤ 65532 }
    ensures reads { IfOk result (λ read. ReadsNew model.now scope.now tokens.now read.1 read.0.items) }
    ensures stop { IfErr result (NewStops model.now scope.now tokens.now) }
{
    if begins_conditions_at(tokens, 0) {
        return Ok((Vec::new(alloc), 0));
    }
    let (new, next) = parse_variables(alloc, model, scope, tokens)?;
    if !begins_conditions_at(tokens, next) {
        return Err(stop_at(tokens, next));
    }
    Ok((new, next))
}
