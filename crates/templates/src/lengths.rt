//! Texts of a document: their lengths and characters.

ghost use Rattle.std.specs.Prelude.{◌≡◌};
ghost use Rattle.meaning.specs.Texts as texts;
ghost use Rattle.meaning.specs.BundlePlaces as places;
ghost use Rattle.doc_tree.specs.View.{document};

use doc_tree::Doc;

/// Whether a text has no control character.
fn has_no_control(text: &str) -> bool
    ensures { result ≡ texts.is_text text.now }
{
    text.as_bytes()
        .iter()
        .all(|byte| 32 <= *byte && *byte != 127)
}

/// Whether a text has no control character, and no more bytes than this.
fn is_within(limit: usize, text: &str) -> bool
    ensures { result ≡ places.text_within limit text.now }
{
    has_no_control(text) && text.len() <= limit
}

/// Whether the text of a member is within its limit, if it is a text.
pub fn member_within(limit: usize, name: &str, item: &Doc) -> bool
    ensures { result ≡ places.member_within limit name.now (document item.now) }
{
    is_within(limit, item.text_at(name))
}
