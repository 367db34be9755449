//! Paths from the tokens of a text.

ghost use Rattle.std.specs.Prelude.{◌≡◌, ◌<◌, ◌≤◌, length, position, bytes_eq, Some, None, IfOk, IfErr, IfSome};
ghost use Rattle.meaning.specs.Texts.{place_of};
ghost use Rattle.meaning.specs.QueryTexts.{kind_names, read_path, read_sequence, read_step, read_atom};
ghost use Rattle.path_queries.specs.View.{path};
ghost use Rattle.path_queries.specs.Tokens.{rest_at};
ghost use Rattle.path_queries.specs.Lookups.{looked_up, lookup_stop};
ghost use Rattle.path_queries.specs.PathReading.{ReadsPath, PathStops};

use crate::data::Path;
use crate::fault::{QueryStop, place_at, stop_at};
use crate::token::Tokens;
use crate::token_at::{Sign, name_at, sign_at};
use annotated_model::{LinkKind, Model};
use std::alloc::Global;

/// The place of the kind with this name.
fn kind_place(kinds: &[LinkKind], name: &str) -> Option<usize>
    ensures place { result ≡ position (λ kind. bytes_eq name.now kind.name) kinds.now }
    ensures inside { IfSome result (λ place. place < length kinds.now) }
{
    kinds.iter().position(|kind| name == kind.name.text())
}

/// The number of a link kind.
fn kind_number(model: &Model, name: &str) -> Option<u16>
    requires { length model.now.kinds ≤ 65536 }
    ensures { result ≡ place_of name.now (kind_names model.now) }
{
    match kind_place(model.kinds(), name) {
        Some(place) => Some(place as u16),
        None => None,
    }
}

/// The number of the link kind at a place.
fn kind_at(model: &Model, tokens: &Tokens, at: usize) -> Result<u16, QueryStop>
    requires { length model.now.kinds ≤ 65536 }
    ensures kind { IfOk result (λ kind. looked_up (λ w. place_of w (kind_names model.now)) at (rest_at tokens.now at) ≡ Some kind) }
    ensures none { IfErr result (λ stop. looked_up (λ w. place_of w (kind_names model.now)) at (rest_at tokens.now at) ≡ None) }
    ensures stop { IfErr result (λ stop. stop ≡ lookup_stop tokens.now.end at (rest_at tokens.now at)) }
{
    match name_at(tokens, at) {
        Some(name) => match kind_number(model, name) {
            Some(number) => Ok(number),
            None => Err(QueryStop::UnknownName(place_at(tokens, at))),
        },
        None => Err(stop_at(tokens, at)),
    }
}

/// The path from a place on, as far as it goes, and the place after it.
#[cycle(paths)]
pub fn parse_path(
    alloc: Global,
    model: &Model,
    tokens: &Tokens,
    at: usize,
) -> Result<(Path, usize), QueryStop>
    requires kinds { length model.now.kinds ≤ 65536 }
    requires short { at ≤ 256 }
    ensures reads { IfOk result (λ read. ReadsPath (read_path (kind_names model.now)) 6 1 model.now tokens.now at read.1 (path read.0)) }
    ensures stop { IfErr result (PathStops model.now tokens.now at) }
{
    let (mut left, mut next) = parse_sequence(alloc, model, tokens, at)?;
    'bars: while let Sign::Bar = sign_at(tokens, next) {
        let (right, after) = parse_sequence(alloc, model, tokens, next + 1)?;
        left = Path::Either(Box::new(alloc, left)?, Box::new(alloc, right)?);
        next = after;
    }
    Ok((left, next))
}

/// Steps after one another.
#[cycle(paths)]
fn parse_sequence(
    alloc: Global,
    model: &Model,
    tokens: &Tokens,
    at: usize,
) -> Result<(Path, usize), QueryStop>
    requires kinds { length model.now.kinds ≤ 65536 }
    requires short { at ≤ 256 }
    ensures reads { IfOk result (λ read. ReadsPath (read_sequence (kind_names model.now)) 4 2 model.now tokens.now at read.1 (path read.0)) }
    ensures stop { IfErr result (PathStops model.now tokens.now at) }
{
    let (mut left, mut next) = parse_step(alloc, model, tokens, at)?;
    'slashes: while let Sign::Slash = sign_at(tokens, next) {
        let (right, after) = parse_step(alloc, model, tokens, next + 1)?;
        left = Path::Then(Box::new(alloc, left)?, Box::new(alloc, right)?);
        next = after;
    }
    Ok((left, next))
}

/// A link or a group, and the signs of repetition behind it.
#[cycle(paths)]
fn parse_step(
    alloc: Global,
    model: &Model,
    tokens: &Tokens,
    at: usize,
) -> Result<(Path, usize), QueryStop>
    requires kinds { length model.now.kinds ≤ 65536 }
    requires short { at ≤ 256 }
    ensures reads { IfOk result (λ read. ReadsPath (read_step (kind_names model.now)) 2 3 model.now tokens.now at read.1 (path read.0)) }
    ensures stop { IfErr result (PathStops model.now tokens.now at) }
{
    let (mut left, mut next) = parse_atom(alloc, model, tokens, at)?;
    'pluses: while let Sign::Plus = sign_at(tokens, next) {
        left = Path::Chain(Box::new(alloc, left)?);
        next += 1;
    }
    Ok((left, next))
}

/// A link, a link backwards, or a path in parentheses.
#[cycle(paths)]
fn parse_atom(
    alloc: Global,
    model: &Model,
    tokens: &Tokens,
    at: usize,
) -> Result<(Path, usize), QueryStop>
    requires kinds { length model.now.kinds ≤ 65536 }
    requires short { at ≤ 256 }
    ensures reads { IfOk result (λ read. ReadsPath (read_atom (kind_names model.now)) 0 4 model.now tokens.now at read.1 (path read.0)) }
    ensures stop { IfErr result (PathStops model.now tokens.now at) }
{
    match sign_at(tokens, at) {
        Sign::Caret => {
            let kind = kind_at(model, tokens, at + 1)?;
            Ok((Path::Back(kind), at + 2))
        }
        Sign::OpenParen => {
            let (inner, next) = parse_path(alloc, model, tokens, at + 1)?;
            match sign_at(tokens, next) {
                Sign::CloseParen => Ok((inner, next + 1)),
                _ => Err(stop_at(tokens, next)),
            }
        }
        _ => {
            let kind = kind_at(model, tokens, at)?;
            Ok((Path::Link(kind), at + 1))
        }
    }
}
