//! Words of a text, and which of them are names.

ghost use Rattle.std.specs.Prelude.{◌≡◌, ◌+◌, ◌<◌, length, slice_index, drop, true};
ghost use Rattle.std.specs.List.{list_all, prefix_len};
ghost use Rattle.meaning.specs.Texts as meaning;

/// Whether the byte is an ASCII letter.
pub fn is_letter(byte: u8) -> bool
    ensures { result ≡ meaning.is_letter byte }
{
    matches!(byte, b'A'..=b'Z' | b'a'..=b'z')
}

/// Whether the byte is a letter, a digit or `_`.
pub fn is_word_byte(byte: u8) -> bool
    ensures { result ≡ meaning.is_word_byte byte }
{
    is_letter(byte) || matches!(byte, b'0'..=b'9' | b'_')
}

/// Whether the text is a word that has a meaning of its own in some text of a bundle.
fn is_reserved(text: &[u8]) -> bool
    ensures { result ≡ meaning.is_reserved text.now }
{
    text == b"true".as_slice()
        || text == b"false".as_slice()
        || text == b"with".as_slice()
        || text == b"not".as_slice()
        || text == b"name".as_slice()
}

/// Whether the text is a name: 1 to 64 letters, digits and `_`, a letter first, and not reserved.
pub fn is_name(text: &str) -> bool
    ensures { result ≡ meaning.is_name text.now }
{
    are_a_name(text.as_bytes())
}

/// Whether the bytes are those of a name.
pub fn are_a_name(text: &[u8]) -> bool
    ensures { result ≡ meaning.is_name text.now }
{
    begins_with_letter(text) && all_word_bytes(text) && text.len() <= 64 && !is_reserved(text)
}

fn all_word_bytes(text: &[u8]) -> bool
    ensures { result ≡ list_all meaning.is_word_byte text.now }
{
    text.iter().all(|byte| is_word_byte(*byte))
}

fn begins_with_letter(text: &[u8]) -> bool
    ensures { result ≡ meaning.begins_with_letter text.now }
{
    match text.first() {
        Some(byte) => is_letter(*byte),
        None => false,
    }
}

/// How many letters, digits and `_` stand at the front.
pub fn run_len(text: &[u8]) -> usize
    ensures { result ≡ prefix_len meaning.is_word_byte text.now }
{
    text.iter().take_while(|byte| is_word_byte(**byte)).count()
}
