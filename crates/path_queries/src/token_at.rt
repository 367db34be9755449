//! What stands at a place among the tokens of a text.

ghost use Rattle.std.specs.Prelude.{◌≡◌, option_map};
ghost use Rattle.path_queries.specs.Tokens.{token, rest_at};
ghost use Rattle.path_queries.specs.Signs.{sign, shown, word_in, word_first, name_first, quoted_in, quoted_first};

use crate::fault::MOST_TOKENS;
use crate::token::{Token, Tokens};
use cond_text::is_name;

/// The sign that a token is.
#[derive(Clone, Copy, Debug)]
pub enum Sign {
    Word,
    Quoted,
    Colon,
    Comma,
    OpenBracket,
    CloseBracket,
    OpenParen,
    CloseParen,
    Dot,
    Equals,
    Differs,
    Bar,
    Slash,
    Plus,
    Caret,
    Stray,
    /// It is the 257th token or a later one.
    Excess,
    /// What stands behind the last token.
    End,
}

fn sign_of(item: &Token) -> Sign
    ensures { result ≡ sign (token item.now) }
{
    match item {
        Token::Word(_) => Sign::Word,
        Token::Quoted(_) => Sign::Quoted,
        Token::Colon => Sign::Colon,
        Token::Comma => Sign::Comma,
        Token::OpenBracket => Sign::OpenBracket,
        Token::CloseBracket => Sign::CloseBracket,
        Token::OpenParen => Sign::OpenParen,
        Token::CloseParen => Sign::CloseParen,
        Token::Dot => Sign::Dot,
        Token::Equals => Sign::Equals,
        Token::Differs => Sign::Differs,
        Token::Bar => Sign::Bar,
        Token::Slash => Sign::Slash,
        Token::Plus => Sign::Plus,
        Token::Caret => Sign::Caret,
        Token::Stray => Sign::Stray,
    }
}

/// The sign at a place.
pub fn sign_at(tokens: &Tokens, at: usize) -> Sign
    ensures { result ≡ shown at (rest_at tokens.now at) }
{
    match tokens.list.list().get(at) {
        Some(placed) => {
            if at >= MOST_TOKENS {
                Sign::Excess
            } else {
                sign_of(&placed.token)
            }
        }
        None => Sign::End,
    }
}

/// The word that a token is.
fn word_of(item: &Token) -> Option<&str>
    ensures { option_map (λ w. w.now) result ≡ word_in (token item.now) }
{
    match item {
        Token::Word(word) => Some(word.text()),
        _ => None,
    }
}

/// The word at a place.
pub fn word_at(tokens: &Tokens, at: usize) -> Option<&str>
    ensures { option_map (λ w. w.now) result ≡ word_first at (rest_at tokens.now at) }
{
    match tokens.list.list().get(at) {
        Some(placed) => {
            if at >= MOST_TOKENS {
                None
            } else {
                word_of(&placed.token)
            }
        }
        None => None,
    }
}

/// The name at a place.
pub fn name_at(tokens: &Tokens, at: usize) -> Option<&str>
    ensures { option_map (λ w. w.now) result ≡ name_first at (rest_at tokens.now at) }
{
    match word_at(tokens, at) {
        Some(word) => { if is_name(word) { Some(word) } else { None } }
        None => None,
    }
}

/// The text between quotes that a token is.
fn quoted_of(item: &Token) -> Option<&str>
    ensures { option_map (λ s. s.now) result ≡ quoted_in (token item.now) }
{
    match item {
        Token::Quoted(text) => Some(text.text()),
        _ => None,
    }
}

/// The text between quotes at a place.
pub fn quoted_at(tokens: &Tokens, at: usize) -> Option<&str>
    ensures { option_map (λ s. s.now) result ≡ quoted_first at (rest_at tokens.now at) }
{
    match tokens.list.list().get(at) {
        Some(placed) => {
            if at >= MOST_TOKENS {
                None
            } else {
                quoted_of(&placed.token)
            }
        }
        None => None,
    }
}
