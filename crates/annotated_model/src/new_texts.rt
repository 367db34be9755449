//! Whether texts are new: none stands twice, nor among those given before.

ghost use Rattle.std.specs.Prelude.{◌≡◌, ◌++◌, ◌∷◌, [], IfOk, not, true};
ghost use Rattle.meaning.specs.Documents.{texts_in};
ghost use Rattle.meaning.specs.BundlePlaces as places;
ghost use Rattle.doc_tree.specs.View.{documents};

use crate::names::is_known;
use crate::texts::text_of;
use cond_text::Names;
use doc_tree::Doc;
use indexmap::IndexSet;
use std::alloc::{AllocError, AllocFailed, Global};
use std::marker::Model;

/// A set of texts, however many. Contracts see it as the list of its texts.
#[derive(Drop)]
pub struct Texts {
    texts: IndexSet<String>,
}

impl Model for Texts {
    ghost use Rattle.std.specs.Prelude.{List, ℕ, map, string_bytes};

    ghost Value = { List (List ℕ) };

    ghost view = { λ set. map string_bytes set.texts.keys };
}

impl Texts {
    pub fn new(alloc: Global) -> Texts
        ensures { result ≡ [] }
    {
        Texts {
            texts: IndexSet::new(alloc),
        }
    }

    /// Adds a text, and answers whether it was new.
    pub fn add(&mut self, text: &str) -> Result<bool, AllocError>
        ensures new { IfOk result (λ new. new ≡ not (places.is_among self.old text.now)) }
        ensures added { IfOk result (λ new. new ≡ true → self.new ≡ self.old ++ text.now ∷ []) }
    {
        let text = String::from_str(*self.texts.allocator(), text)?;
        let (_, new) = self.texts.insert_full(text)?;
        Ok(new)
    }
}

/// Whether no text of the items stands twice, nor among the names.
pub fn are_new(alloc: Global, before: &Names, items: &[Doc]) -> Result<bool, AllocError>
    ensures { IfOk result (λ new. new ≡ places.are_new before.now (texts_in (documents items.now))) }
{
    let mut texts = Texts::new(alloc);
    'items: for item in items {
        let text = text_of(item);
        if is_known(before, text) {
            return Ok(false);
        }
        if !texts.add(text)? {
            return Ok(false);
        }
    }
    Ok(true)
}
