//! The front of what is left of a template text: words, a hole, or a brace that may not stand there.

ghost use Rattle.std.specs.Prelude.{◌≡◌, ◌<◌, length, drop, slice_index, true, false};
ghost use Rattle.std.specs.List.{prefix_len};
ghost use Rattle.cond_text.specs.Lexemes.{begins_with};
ghost use Rattle.templates.specs.TextReading.{is_plain, BeginsWith};

/// What a text begins with.
#[derive(Clone, Copy, Debug)]
pub enum Step<'a> {
    /// Words, and what follows them. A doubled brace is one brace of the words.
    Words(&'a str, &'a str),
    /// What stands between the braces of a hole, and what follows it.
    Hole(&'a str, &'a str),
    /// A brace that begins and ends no hole.
    Fault,
}

/// How many bytes stand in front of the first brace.
fn plain_len(text: &[u8]) -> usize
    ensures { result ≡ prefix_len is_plain text.now }
{
    text.iter()
        .take_while(|byte| **byte != b'{' && **byte != b'}')
        .count()
}

/// Whether the byte stands at the place.
fn is_at(text: &[u8], at: usize, byte: u8) -> bool
    ensures { result ≡ begins_with byte (drop at text.now) }
{
    at < text.len() && text[at] == byte
}

/// What a text begins with whose first byte is a brace that opens and is not doubled.
fn hole_step(text: &str) -> Step<'_>
    requires inside { 0 < length text.now }
    requires opened { slice_index text.now 0 ≡ 123 }
    requires single { begins_with 123 (drop 1 text.now) ≡ false }
    ensures { BeginsWith text.now result }
{
    let bytes = text.as_bytes();
    let close = 1 + plain_len(&bytes[1..]);
    if is_at(bytes, close, b'}') {
        Step::Hole(&text[1..close], &text[close + 1..])
    } else {
        Step::Fault
    }
}

/// What a text begins with whose first byte is no brace.
fn word_step(text: &str) -> Step<'_>
    requires inside { 0 < length text.now }
    requires plain { is_plain (slice_index text.now 0) ≡ true }
    ensures { BeginsWith text.now result }
{
    let end = plain_len(text.as_bytes());
    Step::Words(&text[..end], &text[end..])
}

/// What a text begins with whose first byte is a brace that opens.
fn opened_step(text: &str) -> Step<'_>
    requires inside { 0 < length text.now }
    requires opened { slice_index text.now 0 ≡ 123 }
    ensures { BeginsWith text.now result }
{
    if is_at(text.as_bytes(), 1, b'{') {
        Step::Words(&text[..1], &text[2..])
    } else {
        hole_step(text)
    }
}

/// What a text begins with whose first byte is a brace that closes.
fn closed_step(text: &str) -> Step<'_>
    requires inside { 0 < length text.now }
    requires closed { slice_index text.now 0 ≡ 125 }
    ensures { BeginsWith text.now result }
{
    if is_at(text.as_bytes(), 1, b'}') {
        Step::Words(&text[..1], &text[2..])
    } else {
        Step::Fault
    }
}

/// What a text begins with that is not empty.
pub fn first_step(text: &str) -> Step<'_>
    requires { 0 < length text.now }
    ensures { BeginsWith text.now result }
{
    match text.as_bytes()[0] {
        b'{' => opened_step(text),
        b'}' => closed_step(text),
        _ => word_step(text),
    }
}
