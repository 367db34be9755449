//! Words, and the numbers of variables, attributes and types.

ghost use Rattle.std.specs.Prelude.{◌≡◌, ◌≤◌, length};
ghost use Rattle.std.specs.List.{list_all};
ghost use Rattle.meaning.specs.Texts as texts;
ghost use Rattle.meaning.specs.HoleFaults as holes;
ghost use Rattle.meaning.specs.QueryTexts as queries;

use annotated_model::Model;
use doc_tree::Word;

/// Whether the byte is an ASCII letter.
fn is_letter(byte: u8) -> bool
    ensures { result ≡ texts.is_letter byte }
{
    matches!(byte, b'A'..=b'Z' | b'a'..=b'z')
}

/// Whether the byte is a letter, a digit or `_`.
fn is_word_byte(byte: u8) -> bool
    ensures { result ≡ texts.is_word_byte byte }
{
    is_letter(byte) || matches!(byte, b'0'..=b'9' | b'_')
}

fn all_word_bytes(text: &[u8]) -> bool
    ensures { result ≡ list_all texts.is_word_byte text.now }
{
    text.iter().all(|byte| is_word_byte(*byte))
}

fn begins_with_letter(text: &[u8]) -> bool
    ensures { result ≡ texts.begins_with_letter text.now }
{
    match text.first() {
        Some(byte) => is_letter(*byte),
        None => false,
    }
}

/// Whether the text is a letter, then letters, digits and `_`.
pub fn is_word(text: &str) -> bool
    ensures { result ≡ holes.is_word text.now }
{
    begins_with_letter(text.as_bytes()) && all_word_bytes(text.as_bytes())
}

/// The number of a variable in scope.
pub fn variable_number(scope: &[(Word, u16)], name: &str) -> Option<u16>
    requires { length scope.now ≤ 65536 }
    ensures { result ≡ queries.variable_number scope.now name.now }
{
    'variables: for (number, variable) in scope.iter().enumerate() {
        if name == variable.0.text() {
            return Some(number as u16);
        }
    }
    None
}

/// The number of an attribute in the type of the variable with a number.
pub fn attribute_number(
    model: &Model,
    scope: &[(Word, u16)],
    variable: u16,
    name: &str,
) -> Option<u16>
    ensures { result ≡ queries.attribute_number model.now scope.now variable name.now }
{
    match scope.get(usize::from(variable)) {
        Some((_, number)) => match model.types().get(usize::from(*number)) {
            Some(found) => found.attributes.find(name),
            None => None,
        },
        None => None,
    }
}

/// The number of a type.
pub fn type_number(model: &Model, name: &str) -> Option<u16>
    requires { length model.now.types ≤ 65536 }
    ensures { result ≡ queries.type_number model.now name.now }
{
    let types = model.types();
    'all: for (number, found) in types.iter().enumerate() {
        if name == found.name.text() {
            return Some(number as u16);
        }
    }
    None
}
