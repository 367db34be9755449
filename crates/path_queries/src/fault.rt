//! Why a text is no query, with the byte of the first fault.

ghost use Rattle.std.specs.Prelude.{◌≡◌, min};
ghost use Rattle.meaning.specs.QueryFaults as faults;
ghost use Rattle.cond_text.specs.Stops.{capped};
ghost use Rattle.path_queries.specs.Tokens as meaning;
ghost use Rattle.path_queries.specs.Tokens.{rest_at};
ghost use Rattle.path_queries.specs.Stops.{place_told, refusal};
ghost use Rattle.path_queries.specs.ConstraintReading.{seventeenth};
ghost use Rattle.path_queries.specs.declared.fault.QueryStop.TheVariants.{NoMemory};

use crate::token::{Token, Tokens};
use doc_tree::NoMemory;
use std::alloc::{AllocError, AllocFailed};

/// Why a text is no query. A place is a byte of the text; one above 4,294,967,295 is told as that number.
#[derive(Clone, Copy, Debug, PartialEq, Eq)]
pub enum QueryStop {
    /// The tokens up to this one begin no query, the byte starts no token, or the text ends too early.
    Syntax(u32),
    /// There is no type, variable, link kind or attribute with this name.
    UnknownName(u32),
    /// A new variable has the name of another variable.
    Repeated(u32),
    /// It is the 257th token, the name of the fourth new variable, or the first token of the 17th constraint.
    TooMany(u32),
    NoMemory,
}

impl From<AllocError> for QueryStop {
    ghost from_gives = { λ e stop. stop ≡ NoMemory };

    fn from(_: AllocError) -> QueryStop {
        QueryStop::NoMemory
    }
}

impl<T: Drop> From<AllocFailed<T>> for QueryStop {
    ghost from_gives = { λ e stop. stop ≡ NoMemory };

    fn from(_: AllocFailed<T>) -> QueryStop {
        QueryStop::NoMemory
    }
}

impl From<NoMemory> for QueryStop {
    ghost from_gives = { λ e stop. stop ≡ NoMemory };

    fn from(_: NoMemory) -> QueryStop {
        QueryStop::NoMemory
    }
}

/// The most tokens of a query.
pub const MOST_TOKENS: usize = 256;

/// The place as it is told.
fn told(at: usize) -> u32
    ensures { result ≡ capped at }
{
    at.min(4_294_967_295) as u32
}

/// The byte of a token, or the length of the text behind the last.
pub fn place_at(tokens: &Tokens, at: usize) -> u32
    ensures { result ≡ place_told tokens.now.end (rest_at tokens.now at) }
{
    match tokens.list.list().get(at) {
        Some(placed) => told(placed.place),
        None => told(tokens.end),
    }
}

/// The fault at a token that may not stand there, or at the end of a text that may not end there.
pub fn stop_at(tokens: &Tokens, at: usize) -> QueryStop
    ensures { result ≡ refusal tokens.now.end at (rest_at tokens.now at) }
{
    match tokens.list.list().get(at) {
        Some(placed) => {
            if at >= MOST_TOKENS {
                QueryStop::TooMany(told(placed.place))
            } else {
                QueryStop::Syntax(told(placed.place))
            }
        }
        None => QueryStop::Syntax(told(tokens.end)),
    }
}

/// Whether it starts no token.
fn is_stray(token: &Token) -> bool
    ensures { result ≡ faults.is_stray (meaning.token token.now) }
{
    matches!(token, Token::Stray)
}

/// The fault where a 17th constraint would begin.
pub fn seventeenth_at(tokens: &Tokens, at: usize) -> QueryStop
    ensures { result ≡ seventeenth tokens.now.end at (rest_at tokens.now at) }
{
    match tokens.list.list().get(at) {
        Some(placed) => {
            if at < MOST_TOKENS && is_stray(&placed.token) {
                QueryStop::Syntax(told(placed.place))
            } else {
                QueryStop::TooMany(told(placed.place))
            }
        }
        None => QueryStop::Syntax(told(tokens.end)),
    }
}
