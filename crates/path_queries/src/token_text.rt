//! The tokens of a text.

ghost use Rattle.std.specs.Prelude.{◌≡◌, ◌+◌, ◌<◌, ◌≤◌, length, slice_index, drop, true, IfOk};
ghost use Rattle.std.specs.List.{prefix_len};
ghost use Rattle.meaning.specs.Texts as meaning;
ghost use Rattle.meaning.specs.QueryTexts.{cut_at_quotes};
ghost use Rattle.meaning.specs.QueryTexts as texts;
ghost use Rattle.meaning.specs.QueryFaults.{placed_tokens};
ghost use Rattle.cond_text.specs.Lexemes.{begins_with};
ghost use Rattle.path_queries.specs.Tokens.{token, placed_all};
ghost use Rattle.path_queries.specs.Lexing.{is_no_quote, alone, Stands};

use crate::token::{Placed, Token, Tokens};
use doc_tree::{NoMemory, Row, Word};
use std::alloc::Global;

/// What stands at a byte of a text.
#[derive(Debug, Drop)]
pub enum Piece {
    /// A space.
    Blank,
    /// A token that ends before this byte.
    Token(Token, usize),
}

/// Whether the byte is an ASCII letter.
fn is_letter(byte: u8) -> bool
    ensures { result ≡ meaning.is_letter byte }
{
    matches!(byte, b'A'..=b'Z' | b'a'..=b'z')
}

/// Whether the byte is a letter, a digit or `_`.
fn is_word_byte(byte: u8) -> bool
    ensures { result ≡ meaning.is_word_byte byte }
{
    is_letter(byte) || matches!(byte, b'0'..=b'9' | b'_')
}

/// How many letters, digits and `_` stand at the front.
fn run_len(text: &[u8]) -> usize
    ensures { result ≡ prefix_len meaning.is_word_byte text.now }
{
    text.iter().take_while(|byte| is_word_byte(**byte)).count()
}

/// How many bytes stand in front of the first quote.
fn quoted_len(text: &[u8]) -> usize
    ensures { result ≡ prefix_len is_no_quote text.now }
{
    text.iter().take_while(|byte| **byte != b'\'').count()
}

/// Whether the byte stands at the place.
fn is_at(text: &[u8], at: usize, byte: u8) -> bool
    ensures { result ≡ begins_with byte (drop at text.now) }
{
    at < text.len() && text[at] == byte
}

/// The token that is a single byte other than a space.
fn sign_of(byte: u8) -> Token
    requires { (byte ≡ 32) → ⊥ }
    ensures { token result ≡ alone (texts.sign_of byte) }
{
    match byte {
        b':' => Token::Colon,
        b',' => Token::Comma,
        b'[' => Token::OpenBracket,
        b']' => Token::CloseBracket,
        b'(' => Token::OpenParen,
        b')' => Token::CloseParen,
        b'.' => Token::Dot,
        b'=' => Token::Equals,
        b'|' => Token::Bar,
        b'/' => Token::Slash,
        b'+' => Token::Plus,
        b'^' => Token::Caret,
        _ => Token::Stray,
    }
}

/// The text between quotes that begins at a quote; a quote that isn't closed starts no token.
fn quoted_at(alloc: Global, text: &str, at: usize) -> Result<Piece, NoMemory>
    requires inside { at < length text.now }
    requires quote { slice_index text.now at ≡ 39 }
    ensures { IfOk result (Stands text.now at) }
{
    let close = at + 1 + quoted_len(&text.as_bytes()[at + 1..]);
    if close < text.len() {
        let inner = Word::of(alloc, &text[at + 1..close])?;
        Ok(Piece::Token(Token::Quoted(inner), close + 1))
    } else {
        Ok(Piece::Token(Token::Stray, close))
    }
}

/// The run of letters, digits and `_` at a byte.
fn run_at(alloc: Global, text: &str, at: usize) -> Result<Piece, NoMemory>
    requires inside { at < length text.now }
    requires run { meaning.is_word_byte (slice_index text.now at) ≡ true }
    ensures { IfOk result (Stands text.now at) }
{
    let bytes = text.as_bytes();
    let end = at + run_len(&bytes[at..]);
    if is_letter(bytes[at]) {
        let word = Word::of(alloc, &text[at..end])?;
        Ok(Piece::Token(Token::Word(word), end))
    } else {
        Ok(Piece::Token(Token::Stray, end))
    }
}

/// What stands at a byte.
fn piece_at(alloc: Global, text: &str, at: usize) -> Result<Piece, NoMemory>
    requires { at < length text.now }
    ensures { IfOk result (Stands text.now at) }
{
    let bytes = text.as_bytes();
    let byte = bytes[at];
    if byte == b' ' {
        return Ok(Piece::Blank);
    }
    if byte == b'\'' {
        return quoted_at(alloc, text, at);
    }
    if is_word_byte(byte) {
        return run_at(alloc, text, at);
    }
    if byte == b'!' && is_at(bytes, at + 1, b'=') {
        return Ok(Piece::Token(Token::Differs, at + 2));
    }
    Ok(Piece::Token(sign_of(byte), at + 1))
}

/// The tokens of a text.
pub fn tokens_of(alloc: Global, text: &str) -> Result<Tokens, NoMemory>
    ensures list { IfOk result (λ tokens. placed_all tokens.list ≡ placed_tokens 0 (cut_at_quotes text.now)) }
    ensures end { IfOk result (λ tokens. tokens.end ≡ length text.now) }
{
    let mut list = Vec::new(alloc);
    let mut at = 0;
    'text: while at < text.len() {
        match piece_at(alloc, text, at)? {
            Piece::Blank => at += 1,
            Piece::Token(token, end) => {
                list.push(Placed { place: at, token })?;
                at = end;
            }
        }
    }
    Ok(Tokens {
        list: Row::of(list),
        end: text.len(),
    })
}
