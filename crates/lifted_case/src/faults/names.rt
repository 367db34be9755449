//! The names of a list: which is the first that is none, or stood before.

ghost use Rattle.std.specs.Prelude.{◌≡◌, ◌++◌, ◌∷◌, [], not, true, bytes_eq, IfOk, IfErr};
ghost use Rattle.std.specs.List.{list_any};
ghost use Rattle.meaning.specs.Documents.{texts_in};
ghost use Rattle.doc_tree.specs.View.{documents};
ghost use Rattle.lifted_case.specs.ReadFaults.{first_bad_after};

use crate::members::text_of;
use cond_text::is_name;
use doc_tree::{Doc, NoMemory};
use indexmap::IndexSet;
use std::alloc::Global;
use std::marker::Model;

/// The names so far, as many as memory holds. Contracts see it as the list of its texts.
#[derive(Drop)]
struct SeenNames {
    texts: IndexSet<String>,
}

impl Model for SeenNames {
    ghost use Rattle.std.specs.Prelude.{List, ℕ, map, string_bytes};

    ghost Value = { List (List ℕ) };

    ghost view = { λ names. map string_bytes names.texts.keys };
}

impl SeenNames {
    fn new(alloc: Global) -> SeenNames
        ensures { result ≡ [] }
    {
        SeenNames {
            texts: IndexSet::new(alloc),
        }
    }

    /// Adds a name behind the others if it is new, and answers whether it is.
    fn insert(&mut self, name: &str) -> Result<bool, NoMemory>
        ensures added { IfOk result (λ new. new ≡ not (list_any (bytes_eq name.now) self.old)) }
        ensures names { IfOk result (λ new. new ≡ true → self.new ≡ self.old ++ name.now ∷ []) }
    {
        let text = String::from_str(*self.texts.allocator(), name)?;
        Ok(self.texts.insert(text)?)
    }
}

/// The place of the first item that is no name, or stood before.
pub fn first_bad_name(alloc: Global, items: &[Doc]) -> Result<Option<usize>, NoMemory>
    ensures { IfOk result (λ place. place ≡ first_bad_after [] 0 (texts_in (documents items.now))) }
{
    let mut seen = SeenNames::new(alloc);
    first_bad_behind(&mut seen, items)
}

/// The same behind the names that were seen.
fn first_bad_behind(seen: &mut SeenNames, items: &[Doc]) -> Result<Option<usize>, NoMemory>
    ensures { IfOk result (λ place. place ≡ first_bad_after seen.old 0 (texts_in (documents items.now))) }
{
    'items: for (i, item) in items.iter().enumerate() {
        let name = text_of(item);
        if !is_name(name) {
            return Ok(Some(i));
        }
        if !seen.insert(name)? {
            return Ok(Some(i));
        }
    }
    Ok(None)
}
