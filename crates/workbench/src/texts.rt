//! Texts within their limits.

ghost use Rattle.std.specs.Prelude.{◌≡◌};
ghost use Rattle.meaning.specs.Texts as texts;
ghost use Rattle.meaning.specs.BundlePlaces.{text_within};

/// Whether the text has no control character.
pub fn is_text(text: &str) -> bool
    ensures { result ≡ texts.is_text text.now }
{
    text.as_bytes()
        .iter()
        .all(|byte| 32 <= *byte && *byte != 127)
}

/// Whether the text has no control character and at most so many bytes.
pub fn is_text_within(limit: usize, text: &str) -> bool
    ensures { result ≡ text_within limit text.now }
{
    is_text(text) && text.len() <= limit
}
