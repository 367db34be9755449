//! Expressions from tokens without a fault.

ghost use Rattle.std.specs.Prelude.{◌≡◌, ◌<◌, ◌≤◌, length, drop, Some, None, IfOk, IfErr};
ghost use Rattle.meaning.specs.Expressions.{IsSame, IsImp, IsOr, IsAnd, IsNeg, name_bound, expression_of};
ghost use Rattle.meaning.specs.Expressions as meaning;
ghost use Rattle.meaning.specs.ExpressionFaults.{expression_fault};
ghost use Rattle.cond_text.specs.View.{expression};
ghost use Rattle.cond_text.specs.Phrases.{first_token, CanRead, ReadsFrom};
ghost use Rattle.cond_text.specs.Readings.{IsPhrase};
ghost use Rattle.cond_text.specs.Stops.{Tells};

use crate::expr::Expr;
use crate::names::Names;
use crate::scan::{ExprStop, scan_text};
use crate::token::Token;
use std::alloc::{AllocError, Global};

/// The token at a place, and `End` behind the last.
fn token_at(tokens: &[Token], at: usize) -> Token
    ensures { result ≡ first_token (drop at tokens.now) }
{
    match tokens.get(at) {
        Some(token) => *token,
        None => Token::End,
    }
}

fn same(alloc: Global, left: Expr, right: Expr) -> Result<Expr, AllocError>
    ensures { IfOk result (λ e. expression e ≡ meaning.Same (expression left) (expression right)) }
{
    Ok(Expr::Same(Box::new(alloc, left)?, Box::new(alloc, right)?))
}

fn implies(alloc: Global, left: Expr, right: Expr) -> Result<Expr, AllocError>
    ensures { IfOk result (λ e. expression e ≡ meaning.Implies (expression left) (expression right)) }
{
    Ok(Expr::Implies(Box::new(alloc, left)?, Box::new(alloc, right)?))
}

fn either(alloc: Global, left: Expr, right: Expr) -> Result<Expr, AllocError>
    ensures { IfOk result (λ e. expression e ≡ meaning.Either (expression left) (expression right)) }
{
    Ok(Expr::Either(Box::new(alloc, left)?, Box::new(alloc, right)?))
}

fn both(alloc: Global, left: Expr, right: Expr) -> Result<Expr, AllocError>
    ensures { IfOk result (λ e. expression e ≡ meaning.Both (expression left) (expression right)) }
{
    Ok(Expr::Both(Box::new(alloc, left)?, Box::new(alloc, right)?))
}

/// The expression from a place on, as far as it goes, and the place after it.
#[cycle(phrases)]
fn parse_same(alloc: Global, tokens: &[Token], at: usize) -> Result<(Expr, usize), AllocError>
    requires inside { at < length tokens.now }
    requires goes { CanRead tokens.now at }
    ensures next { IfOk result (λ read. at < read.1) }
    ensures within { IfOk result (λ read. read.1 ≤ length tokens.now) }
    ensures phrase { IfOk result (λ read. ReadsFrom IsSame 1 tokens.now at read.1 (expression read.0)) }
{
    let (mut left, mut next) = parse_imp(alloc, tokens, at)?;
    'sames: while let Token::Same = token_at(tokens, next) {
        let (right, after) = parse_imp(alloc, tokens, next + 1)?;
        left = same(alloc, left, right)?;
        next = after;
    }
    Ok((left, next))
}

#[cycle(phrases)]
fn parse_imp(alloc: Global, tokens: &[Token], at: usize) -> Result<(Expr, usize), AllocError>
    requires inside { at < length tokens.now }
    requires goes { CanRead tokens.now at }
    ensures next { IfOk result (λ read. at < read.1) }
    ensures within { IfOk result (λ read. read.1 ≤ length tokens.now) }
    ensures phrase { IfOk result (λ read. ReadsFrom IsImp 2 tokens.now at read.1 (expression read.0)) }
{
    let (left, next) = parse_or(alloc, tokens, at)?;
    match token_at(tokens, next) {
        Token::Implies => {
            let (consequence, after) = parse_imp(alloc, tokens, next + 1)?;
            Ok((implies(alloc, left, consequence)?, after))
        }
        _ => Ok((left, next)),
    }
}

#[cycle(phrases)]
fn parse_or(alloc: Global, tokens: &[Token], at: usize) -> Result<(Expr, usize), AllocError>
    requires inside { at < length tokens.now }
    requires goes { CanRead tokens.now at }
    ensures next { IfOk result (λ read. at < read.1) }
    ensures within { IfOk result (λ read. read.1 ≤ length tokens.now) }
    ensures phrase { IfOk result (λ read. ReadsFrom IsOr 3 tokens.now at read.1 (expression read.0)) }
{
    let (mut left, mut next) = parse_and(alloc, tokens, at)?;
    'ors: while let Token::Or = token_at(tokens, next) {
        let (right, after) = parse_and(alloc, tokens, next + 1)?;
        left = either(alloc, left, right)?;
        next = after;
    }
    Ok((left, next))
}

#[cycle(phrases)]
fn parse_and(alloc: Global, tokens: &[Token], at: usize) -> Result<(Expr, usize), AllocError>
    requires inside { at < length tokens.now }
    requires goes { CanRead tokens.now at }
    ensures next { IfOk result (λ read. at < read.1) }
    ensures within { IfOk result (λ read. read.1 ≤ length tokens.now) }
    ensures phrase { IfOk result (λ read. ReadsFrom IsAnd 4 tokens.now at read.1 (expression read.0)) }
{
    let (mut left, mut next) = parse_neg(alloc, tokens, at)?;
    'ands: while let Token::And = token_at(tokens, next) {
        let (right, after) = parse_neg(alloc, tokens, next + 1)?;
        left = both(alloc, left, right)?;
        next = after;
    }
    Ok((left, next))
}

/// An operand: a word, a negation, or an expression in parentheses.
#[cycle(phrases)]
fn parse_neg(alloc: Global, tokens: &[Token], at: usize) -> Result<(Expr, usize), AllocError>
    requires inside { at < length tokens.now }
    requires goes { CanRead tokens.now at }
    ensures next { IfOk result (λ read. at < read.1) }
    ensures within { IfOk result (λ read. read.1 ≤ length tokens.now) }
    ensures phrase { IfOk result (λ read. ReadsFrom IsNeg 5 tokens.now at read.1 (expression read.0)) }
{
    match token_at(tokens, at) {
        Token::True => Ok((Expr::Top, at + 1)),
        Token::False => Ok((Expr::Bottom, at + 1)),
        Token::Name(number) => Ok((Expr::Name(number), at + 1)),
        Token::Not => {
            let (inner, next) = parse_neg(alloc, tokens, at + 1)?;
            Ok((Expr::Not(Box::new(alloc, inner)?), next))
        }
        Token::Open => {
            // The scan has seen that the parenthesis closes behind the expression.
            let (inner, next) = parse_same(alloc, tokens, at + 1)?;
            Ok((inner, next + 1))
        }
        _ => unreachable!(),
    }
}

/// The expression that a text is.
///
/// The first fault of the text is the one that is told. A token's fault is `TooMany` where it is the 513th, else `Syntax`, else `UnknownName`.
pub fn parse(alloc: Global, text: &str, names: &Names) -> Result<Expr, ExprStop>
    ensures read { IfOk result (λ e. expression_of names.now text.now ≡ Some (expression e)) }
    ensures phrase { IfOk result (λ e. IsPhrase names.now text.now (expression e)) }
    ensures names { IfOk result (λ e. name_bound (expression e) ≤ length names.now) }
    ensures no_fault { IfOk result (λ e. expression_fault names.now text.now ≡ None) }
    ensures fault { IfErr result (λ stop. Tells stop (expression_fault names.now text.now)) }
{
    let tokens = scan_text(alloc, text, names)?;
    let (e, _) = parse_same(alloc, &tokens, 0)?;
    Ok(e)
}
