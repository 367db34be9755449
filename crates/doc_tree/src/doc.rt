ghost use Rattle.std.specs.Prelude.{◌≡◌, ℕ, IfSome, option_map, option_and_then};
ghost use Rattle.std.specs.Option.{option_copied};
ghost use Rattle.meaning.specs.Documents.{as_text, as_list, as_truth, as_table, as_natural, natural, member_of};
ghost use Rattle.meaning.specs.Documents as meaning;
ghost use Rattle.doc_tree.specs.View.{document, documents, members, members_of, as_number};

use crate::row::Row;
use crate::word::Word;

/// A document, whatever format it was written in. What was read has the members of each table in
/// the byte order of their names, each name once.
#[derive(Drop)]
pub enum Doc {
    Text(Word),
    Number(i64),
    Truth(bool),
    List(Row<Doc>),
    Table(Row<(Word, Doc)>),
    /// A value of another kind, which no document of this project has: a fraction, a date, a null
    /// that is no member of a table.
    Other,
}

impl Doc {
    /// The text, if the value is one.
    pub fn as_text(&self) -> Option<&str>
        ensures { option_copied result ≡ as_text (document self.now) }
    {
        match self {
            Doc::Text(text) => Some(text.text()),
            _ => None,
        }
    }

    /// The items, if the value is a list.
    pub fn as_list(&self) -> Option<&[Doc]>
        ensures { option_map documents (option_copied result) ≡ as_list (document self.now) }
    {
        match self {
            Doc::List(items) => Some(items.list()),
            _ => None,
        }
    }

    /// The truth value, if the value is one.
    pub fn as_truth(&self) -> Option<bool>
        ensures { result ≡ as_truth (document self.now) }
    {
        match self {
            Doc::Truth(truth) => Some(*truth),
            _ => None,
        }
    }

    /// The whole number, if the value is one.
    pub fn as_number(&self) -> Option<i64>
        ensures whole { result ≡ as_number (document self.now) }
        ensures natural { option_and_then natural result ≡ as_natural (document self.now) }
    {
        match self {
            Doc::Number(number) => Some(*number),
            _ => None,
        }
    }

    /// The members in the order in which they stand, if the value is a table.
    pub fn entries(&self) -> Option<&[(Word, Doc)]>
        ensures { option_map members (option_copied result)
            ≡ option_map meaning.entries (as_table (document self.now)) }
    {
        match self {
            Doc::Table(entries) => Some(entries.list()),
            _ => None,
        }
    }

    /// The value of the first member with this name, if the value is a table that has one.
    pub fn member(&self, name: &str) -> Option<&Doc>
        ensures { option_map document (option_copied result) ≡ member_of name.now (document self.now) }
    {
        match self {
            Doc::Table(entries) => first_value(entries.list(), name),
            _ => None,
        }
    }
}

/// The value of the first entry with this name.
fn first_value<'a>(entries: &'a [(Word, Doc)], name: &str) -> Option<&'a Doc>
    ensures { option_map document (option_copied result)
        ≡ meaning.value_of name.now (members_of (members entries.now)) }
{
    'entries: for entry in entries {
        let (word, value) = entry;
        if name == word.text() {
            return Some(value);
        }
    }
    None
}
