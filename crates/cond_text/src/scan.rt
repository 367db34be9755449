//! The tokens of a text, up to its first fault.

ghost use Rattle.std.specs.Prelude.{◌≡◌, ◌+◌, ◌<◌, ◌≤◌, length, Some, None, IfOk, IfErr, option_map};
ghost use Rattle.meaning.specs.Expressions as meaning;
ghost use Rattle.meaning.specs.ExpressionFaults.{an_operand, may_end, expression_fault};
ghost use Rattle.cond_text.specs.Tokens.{follow, with_words, Runs};
ghost use Rattle.cond_text.specs.Scans.{next_of, opened_in, Steps, StopsAt, unknown_stop};
ghost use Rattle.meaning.specs.Counts.{capped};
ghost use Rattle.cond_text.specs.Stops.{Tells};
ghost use Rattle.cond_text.specs.declared.scan.ExprStop.TheVariants.{NoMemory};

use crate::lexeme::{Lexeme, lexeme_at};
use crate::names::Names;
use crate::token::Token;
use std::alloc::{AllocError, AllocFailed, Global};

/// Why a text is no expression. A place is a byte of the text; one above 4,294,967,295 is told as that number.
#[derive(Clone, Copy, Debug, PartialEq, Eq)]
pub enum ExprStop {
    /// The tokens up to this one begin no expression, the byte starts no token, or the text ends too early.
    Syntax(u32),
    /// The name isn't in the list.
    UnknownName(u32),
    /// It is the 513th token.
    TooMany(u32),
    NoMemory,
}

impl From<AllocError> for ExprStop {
    ghost from_gives = { λ e stop. stop ≡ NoMemory };

    fn from(_: AllocError) -> ExprStop {
        ExprStop::NoMemory
    }
}

impl<T: Drop> From<AllocFailed<T>> for ExprStop {
    ghost from_gives = { λ e stop. stop ≡ NoMemory };

    fn from(_: AllocFailed<T>) -> ExprStop {
        ExprStop::NoMemory
    }
}

/// What may come next, with the number of open parentheses.
#[derive(Clone, Copy, Debug)]
enum Next {
    Operand(usize),
    AfterOperand(usize),
}

/// What a byte of a text is to the scan.
#[derive(Clone, Copy, Debug)]
enum Step {
    /// A space.
    Blank,
    /// A token that may stand here, the byte behind it, and what may come then.
    Token(Token, usize, Next),
}

/// The most tokens of an expression.
const MOST_TOKENS: usize = 512;

/// The place as it is told.
fn told(at: usize) -> u32
    ensures { result ≡ capped at }
{
    at.min(4_294_967_295) as u32
}

/// What may come after a token, if it may stand here.
fn after(next: Next, token: Token) -> Option<Next>
    requires { opened_in (next_of next) < 512 }
    ensures follow { option_map next_of result ≡ follow (next_of next) token }
{
    match next {
        Next::Operand(opened) => match token {
            Token::True | Token::False | Token::Name(_) => Some(Next::AfterOperand(opened)),
            Token::Not => Some(next),
            Token::Open => Some(Next::Operand(opened + 1)),
            _ => None,
        },
        Next::AfterOperand(opened) => match token {
            Token::And | Token::Or | Token::Implies | Token::Same => Some(Next::Operand(opened)),
            Token::Close if opened > 0 => Some(Next::AfterOperand(opened - 1)),
            _ => None,
        },
    }
}

/// Whether the text may end here.
fn can_end(next: Next) -> bool
    ensures { result ≡ may_end (next_of next) }
{
    matches!(next, Next::AfterOperand(0))
}

/// The fault at a name that isn't in the list.
fn unknown(next: Next, at: usize) -> ExprStop
    ensures { result ≡ unknown_stop (next_of next) at }
{
    match next {
        Next::Operand(_) => ExprStop::UnknownName(told(at)),
        Next::AfterOperand(_) => ExprStop::Syntax(told(at)),
    }
}

/// What stands at a byte behind `count` tokens, or its fault.
fn next_step(
    text: &str,
    at: usize,
    names: &Names,
    count: usize,
    next: Next,
) -> Result<Step, ExprStop>
    requires inside { at < length text.now }
    requires count { count ≤ 512 }
    requires opened { opened_in (next_of next) ≤ count }
    ensures step { IfOk result (λ step. Steps names.now text.now at count (next_of next) step) }
    ensures fault { IfErr result (λ stop. StopsAt names.now text.now at count (next_of next) stop) }
{
    let lexeme = lexeme_at(text, at, names);
    if let Lexeme::Blank = lexeme {
        return Ok(Step::Blank);
    }
    if count >= MOST_TOKENS {
        return Err(ExprStop::TooMany(told(at)));
    }
    match lexeme {
        Lexeme::Token(token, end) => match after(next, token) {
            Some(then) => Ok(Step::Token(token, end, then)),
            None => Err(ExprStop::Syntax(told(at))),
        },
        Lexeme::Unknown => Err(unknown(next, at)),
        Lexeme::Stray | Lexeme::Blank => Err(ExprStop::Syntax(told(at))),
    }
}

/// The tokens of a text, or its first fault.
pub fn scan_text(alloc: Global, text: &str, names: &Names) -> Result<Vec<Token>, ExprStop>
    ensures no_fault { IfOk result (λ tokens. expression_fault names.now text.now ≡ None) }
    ensures tokens { IfOk result (λ tokens. meaning.tokens_of (meaning.pieces_of text.now) ≡ Some (with_words names.now tokens.items)) }
    ensures runs { IfOk result (λ tokens. Runs names.now (an_operand 0) tokens.items) }
    ensures fault { IfErr result (λ stop. Tells stop (expression_fault names.now text.now)) }
{
    let mut tokens = Vec::new(alloc);
    let mut next = Next::Operand(0);
    let mut at = 0;
    'text: while at < text.len() {
        match next_step(text, at, names, tokens.len(), next)? {
            Step::Blank => at += 1,
            Step::Token(token, end, then) => {
                tokens.push(token)?;
                next = then;
                at = end;
            }
        }
    }
    if !can_end(next) {
        return Err(ExprStop::Syntax(told(text.len())));
    }
    Ok(tokens)
}
