//! Constraints from the tokens of a text.

ghost use Rattle.std.specs.Prelude.{◌≡◌, ◌++◌, ◌<◌, ◌≤◌, length, map, codes, true, false, Some, None, IfOk, IfErr};
ghost use Rattle.meaning.specs.QueryFaults.{a_step, an_attribute, a_negated_walk, a_comparison};
ghost use Rattle.path_queries.specs.View.{path, constraint};
ghost use Rattle.path_queries.specs.Tokens.{rest_at};
ghost use Rattle.path_queries.specs.Signs.{word_first, compared};
ghost use Rattle.path_queries.specs.Stops.{refusal};
ghost use Rattle.path_queries.specs.ConstraintReading.{says, ReadsWalk, ReadsTest, ReadsNegated, ReadsConstraint, ReadsConstraints, StopsAt, ConstraintStops, ConstraintsStop};

use crate::data::{Constraint, Path};
use crate::fault::{QueryStop, seventeenth_at, stop_at};
use crate::parse_names::{attribute_at, variable_at};
use crate::parse_path::parse_path;
use crate::token::Tokens;
use crate::token_at::{Sign, quoted_at, sign_at, word_at};
use annotated_model::Model;
use doc_tree::Word;
use std::alloc::Global;

/// The most constraints of a query.
const MOST_CONSTRAINTS: usize = 16;

/// Whether this word stands at a place.
pub fn is_word_at(tokens: &Tokens, at: usize, word: &str) -> bool
    ensures { result ≡ says word.now (word_first at (rest_at tokens.now at)) }
{
    match word_at(tokens, at) {
        Some(found) => found == word,
        None => false,
    }
}

/// The path behind an opening bracket, the variable at its other end, and the place after it.
fn parse_walk(
    alloc: Global,
    model: &Model,
    scope: &[(Word, u16)],
    new: &[(Word, u16)],
    tokens: &Tokens,
    at: usize,
) -> Result<(Path, u16, usize), QueryStop>
    requires kinds { length model.now.kinds ≤ 65536 }
    requires scope { length scope.now ≤ 65532 }
    requires new { length new.now ≤ 3 }
    requires short { at ≤ 256 }
    ensures reads { IfOk result (λ read. ReadsWalk model.now (scope.now ++ new.now) tokens.now at read.2 (path read.0) read.1) }
    ensures stop { IfErr result (StopsAt model.now (scope.now ++ new.now) tokens.now at (a_step 0)) }
{
    let (walked, next) = parse_path(alloc, model, tokens, at)?;
    match sign_at(tokens, next) {
        Sign::CloseBracket => {
            let target = variable_at(scope, new, tokens, next + 1)?;
            Ok((walked, target, next + 2))
        }
        _ => Err(stop_at(tokens, next)),
    }
}

/// Whether a comparison is `=` or `!=`.
fn comparison_at(tokens: &Tokens, at: usize) -> Result<bool, QueryStop>
    ensures equal { IfOk result (λ equal. compared at (rest_at tokens.now at) ≡ Some equal) }
    ensures none { IfErr result (λ stop. compared at (rest_at tokens.now at) ≡ None) }
    ensures stop { IfErr result (λ stop. stop ≡ refusal tokens.now.end at (rest_at tokens.now at)) }
{
    match sign_at(tokens, at) {
        Sign::Equals => Ok(true),
        Sign::Differs => Ok(false),
        _ => Err(stop_at(tokens, at)),
    }
}

/// The attribute and the comparison behind a dot, and the place after them.
fn parse_test(
    alloc: Global,
    model: &Model,
    scope: &[(Word, u16)],
    new: &[(Word, u16)],
    tokens: &Tokens,
    at: usize,
    var: u16,
) -> Result<(Constraint, usize), QueryStop>
    requires short { at ≤ 256 }
    ensures reads { IfOk result (λ read. ReadsTest model.now (scope.now ++ new.now) tokens.now at read.1 var (constraint read.0)) }
    ensures stop { IfErr result (StopsAt model.now (scope.now ++ new.now) tokens.now at (an_attribute var)) }
{
    let attr = attribute_at(model, scope, new, var, tokens, at)?;
    let equal = comparison_at(tokens, at + 1)?;
    match quoted_at(tokens, at + 2) {
        Some(text) => {
            let text = Word::of(alloc, text)?;
            Ok((
                Constraint::Attr {
                    var,
                    attr,
                    text,
                    equal,
                },
                at + 3,
            ))
        }
        None => Err(stop_at(tokens, at + 2)),
    }
}

/// The walk behind `not`, and the place after it.
fn parse_negated(
    alloc: Global,
    model: &Model,
    scope: &[(Word, u16)],
    new: &[(Word, u16)],
    tokens: &Tokens,
    at: usize,
) -> Result<(Constraint, usize), QueryStop>
    requires kinds { length model.now.kinds ≤ 65536 }
    requires scope { length scope.now ≤ 65532 }
    requires new { length new.now ≤ 3 }
    requires short { at ≤ 256 }
    ensures reads { IfOk result (λ read. ReadsNegated model.now (scope.now ++ new.now) tokens.now at read.1 (constraint read.0)) }
    ensures stop { IfErr result (StopsAt model.now (scope.now ++ new.now) tokens.now at a_negated_walk) }
{
    let from = variable_at(scope, new, tokens, at)?;
    match sign_at(tokens, at + 1) {
        Sign::OpenBracket => {
            let (path, to, next) = parse_walk(alloc, model, scope, new, tokens, at + 2)?;
            let walk = Constraint::Walk {
                from,
                path,
                to,
                negated: true,
            };
            Ok((walk, next))
        }
        _ => Err(stop_at(tokens, at + 1)),
    }
}

/// The constraint from a variable on, and the place after it.
fn parse_plain(
    alloc: Global,
    model: &Model,
    scope: &[(Word, u16)],
    new: &[(Word, u16)],
    tokens: &Tokens,
    at: usize,
) -> Result<(Constraint, usize), QueryStop>
    requires kinds { length model.now.kinds ≤ 65536 }
    requires scope { length scope.now ≤ 65532 }
    requires new { length new.now ≤ 3 }
    requires short { at ≤ 256 }
    requires plain { says (codes "not") (word_first at (rest_at tokens.now at)) ≡ false }
    ensures reads { IfOk result (λ read. ReadsConstraint model.now (scope.now ++ new.now) tokens.now at read.1 (constraint read.0)) }
    ensures stop { IfErr result (ConstraintStops model.now (scope.now ++ new.now) tokens.now at) }
{
    let from = variable_at(scope, new, tokens, at)?;
    match sign_at(tokens, at + 1) {
        Sign::OpenBracket => {
            let (path, to, next) = parse_walk(alloc, model, scope, new, tokens, at + 2)?;
            let walk = Constraint::Walk {
                from,
                path,
                to,
                negated: false,
            };
            Ok((walk, next))
        }
        Sign::Dot => parse_test(alloc, model, scope, new, tokens, at + 2, from),
        _ => Err(stop_at(tokens, at + 1)),
    }
}

/// The constraint from a place on, and the place after it.
fn parse_constraint(
    alloc: Global,
    model: &Model,
    scope: &[(Word, u16)],
    new: &[(Word, u16)],
    tokens: &Tokens,
    at: usize,
) -> Result<(Constraint, usize), QueryStop>
    requires kinds { length model.now.kinds ≤ 65536 }
    requires scope { length scope.now ≤ 65532 }
    requires new { length new.now ≤ 3 }
    requires short { at ≤ 256 }
    ensures reads { IfOk result (λ read. ReadsConstraint model.now (scope.now ++ new.now) tokens.now at read.1 (constraint read.0)) }
    ensures stop { IfErr result (ConstraintStops model.now (scope.now ++ new.now) tokens.now at) }
{
    if is_word_at(tokens, at, "not") {
        parse_negated(alloc, model, scope, new, tokens, at + 1)
    } else {
        parse_plain(alloc, model, scope, new, tokens, at)
    }
}

/// The constraints from a place on, to the end of the text.
pub fn parse_constraints(
    alloc: Global,
    model: &Model,
    scope: &[(Word, u16)],
    new: &[(Word, u16)],
    tokens: &Tokens,
    at: usize,
) -> Result<Vec<Constraint>, QueryStop>
    requires kinds { length model.now.kinds ≤ 65536 }
    requires scope { length scope.now ≤ 65532 }
    requires new { length new.now ≤ 3 }
    requires short { at ≤ 256 }
    ensures reads { IfOk result (λ list. ReadsConstraints model.now (scope.now ++ new.now) tokens.now at (map constraint list.items)) }
    ensures stop { IfErr result (ConstraintsStop model.now (scope.now ++ new.now) tokens.now at) }
{
    let mut list = Vec::new(alloc);
    let (first, mut next) = parse_constraint(alloc, model, scope, new, tokens, at)?;
    list.push(first)?;
    'commas: while let Sign::Comma = sign_at(tokens, next) {
        if list.len() >= MOST_CONSTRAINTS {
            return Err(seventeenth_at(tokens, next + 1));
        }
        let (read, after) = parse_constraint(alloc, model, scope, new, tokens, next + 1)?;
        list.push(read)?;
        next = after;
    }
    match sign_at(tokens, next) {
        Sign::End => Ok(list),
        _ => Err(stop_at(tokens, next)),
    }
}
