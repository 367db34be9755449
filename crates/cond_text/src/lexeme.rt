//! What stands at a byte of a text.

ghost use Rattle.std.specs.Prelude.{◌≡◌, ◌<◌, length, slice_index, drop, true};
ghost use Rattle.meaning.specs.Texts as meaning;
ghost use Rattle.cond_text.specs.Lexemes.{begins_with, Lexes};

use crate::names::Names;
use crate::token::Token;
use crate::word::{is_letter, is_name, run_len};

/// What stands at a byte of a text.
#[derive(Clone, Copy, Debug)]
pub enum Lexeme {
    /// A space.
    Blank,
    /// A token that ends before this byte.
    Token(Token, usize),
    /// A name that isn't in the list.
    Unknown,
    /// A byte that starts no token, or a word that is neither a name nor `true` nor `false`.
    Stray,
}

/// What stands at a byte.
pub fn lexeme_at(text: &str, at: usize, names: &Names) -> Lexeme
    requires { at < length text.now }
    ensures { Lexes names.now text.now at result }
{
    let bytes = text.as_bytes();
    match bytes[at] {
        b' ' => Lexeme::Blank,
        b'!' => Lexeme::Token(Token::Not, at + 1),
        b'&' => Lexeme::Token(Token::And, at + 1),
        b'|' => Lexeme::Token(Token::Or, at + 1),
        b'(' => Lexeme::Token(Token::Open, at + 1),
        b')' => Lexeme::Token(Token::Close, at + 1),
        b'=' => arrow_at(bytes, at, names),
        b'<' => double_arrow_at(bytes, at, names),
        byte => {
            if is_letter(byte) {
                word_at(text, at, names)
            } else {
                Lexeme::Stray
            }
        }
    }
}

/// Whether the byte stands at the place.
fn is_at(text: &[u8], at: usize, byte: u8) -> bool
    ensures { result ≡ begins_with byte (drop at text.now) }
{
    at < text.len() && text[at] == byte
}

/// What stands at a `=`.
fn arrow_at(text: &[u8], at: usize, names: &Names) -> Lexeme
    requires inside { at < length text.now }
    requires equals { slice_index text.now at ≡ 61 }
    ensures { Lexes names.now text.now at result }
{
    if is_at(text, at + 1, b'>') {
        Lexeme::Token(Token::Implies, at + 2)
    } else {
        Lexeme::Stray
    }
}

/// What stands at a `<`.
fn double_arrow_at(text: &[u8], at: usize, names: &Names) -> Lexeme
    requires inside { at < length text.now }
    requires less { slice_index text.now at ≡ 60 }
    ensures { Lexes names.now text.now at result }
{
    if is_at(text, at + 1, b'=') && is_at(text, at + 2, b'>') {
        Lexeme::Token(Token::Same, at + 3)
    } else {
        Lexeme::Stray
    }
}

/// The word at a letter.
fn word_at(text: &str, at: usize, names: &Names) -> Lexeme
    requires inside { at < length text.now }
    requires letter { meaning.is_letter (slice_index text.now at) ≡ true }
    ensures { Lexes names.now text.now at result }
{
    let end = at + run_len(&text.as_bytes()[at..]);
    let word = &text[at..end];
    if word == "true" {
        return Lexeme::Token(Token::True, end);
    }
    if word == "false" {
        return Lexeme::Token(Token::False, end);
    }
    if !is_name(word) {
        return Lexeme::Stray;
    }
    match names.find(word) {
        Some(number) => Lexeme::Token(Token::Name(number), end),
        None => Lexeme::Unknown,
    }
}
