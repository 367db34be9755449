ghost use Rattle.std.specs.Prelude.{◌≡◌};
ghost use Rattle.std.specs.Option.{option_copied};
ghost use Rattle.std.specs.List.{list_all};
ghost use Rattle.meaning.specs.Documents as meaning;
ghost use Rattle.meaning.specs.BundlePlaces as places;
ghost use Rattle.doc_tree.specs.View.{document, documents};

use crate::doc::Doc;

/// What a table says of a member that may be absent.
impl Doc {
    /// Whether the value is a table that has the member.
    pub fn has(&self, name: &str) -> bool
        ensures { result ≡ places.has name.now (document self.now) }
    {
        self.member(name).is_some()
    }

    /// The text of a member, and an empty one where there is none.
    pub fn text_at(&self, name: &str) -> &str
        ensures { result.now ≡ meaning.text_at name.now (document self.now) }
    {
        match self.member(name) {
            Some(value) => match value.as_text() {
                Some(text) => text,
                None => "",
            },
            None => "",
        }
    }

    /// The text of a member, if the value is a table that has it and it is a text.
    pub fn text_member(&self, name: &str) -> Option<&str>
        ensures { option_copied result ≡ places.text_of_member name.now (document self.now) }
    {
        match self.member(name) {
            Some(value) => value.as_text(),
            None => None,
        }
    }

    /// The items of a member that is a list, and none where there is no such member.
    pub fn list_at(&self, name: &str) -> &[Doc]
        ensures { documents result.now ≡ meaning.list_at name.now (document self.now) }
    {
        match self.member(name) {
            Some(value) => match value.as_list() {
                Some(items) => items,
                None => &[],
            },
            None => &[],
        }
    }

    /// The truth value of a member, and false where there is none.
    pub fn truth_at(&self, name: &str) -> bool
        ensures { result ≡ meaning.truth_at name.now (document self.now) }
    {
        match self.member(name) {
            Some(value) => value.as_truth().unwrap_or(false),
            None => false,
        }
    }

    /// Whether the value is a text.
    pub fn is_text(&self) -> bool
        ensures { result ≡ places.is_text_value (document self.now) }
    {
        self.as_text().is_some()
    }

    /// Whether the value is a list.
    pub fn is_list(&self) -> bool
        ensures { result ≡ places.is_list_value (document self.now) }
    {
        self.as_list().is_some()
    }

    /// Whether the value is a table.
    pub fn is_table(&self) -> bool
        ensures { result ≡ places.is_table_value (document self.now) }
    {
        self.entries().is_some()
    }

    /// Whether the value is a truth value.
    pub fn is_truth(&self) -> bool
        ensures { result ≡ places.is_truth_value (document self.now) }
    {
        self.as_truth().is_some()
    }

    /// Whether the value is a list of texts.
    pub fn is_list_of_texts(&self) -> bool
        ensures { result ≡ places.is_list_of_texts (document self.now) }
    {
        match self.as_list() {
            Some(items) => are_texts(items),
            None => false,
        }
    }

    /// Whether the member is there and a text.
    pub fn needs_text(&self, name: &str) -> bool
        ensures { result ≡ places.needs places.is_text_value name.now (document self.now) }
    {
        match self.member(name) {
            Some(value) => value.is_text(),
            None => false,
        }
    }

    /// Whether the member is there and a list.
    pub fn needs_list(&self, name: &str) -> bool
        ensures { result ≡ places.needs places.is_list_value name.now (document self.now) }
    {
        match self.member(name) {
            Some(value) => value.is_list(),
            None => false,
        }
    }

    /// Whether the member is there and a table.
    pub fn needs_table(&self, name: &str) -> bool
        ensures { result ≡ places.needs places.is_table_value name.now (document self.now) }
    {
        match self.member(name) {
            Some(value) => value.is_table(),
            None => false,
        }
    }

    /// Whether the member is a text, if it is there.
    pub fn may_have_text(&self, name: &str) -> bool
        ensures { result ≡ places.may_have places.is_text_value name.now (document self.now) }
    {
        match self.member(name) {
            Some(value) => value.is_text(),
            None => true,
        }
    }

    /// Whether the member is a list, if it is there.
    pub fn may_have_list(&self, name: &str) -> bool
        ensures { result ≡ places.may_have places.is_list_value name.now (document self.now) }
    {
        match self.member(name) {
            Some(value) => value.is_list(),
            None => true,
        }
    }

    /// Whether the member is a table, if it is there.
    pub fn may_have_table(&self, name: &str) -> bool
        ensures { result ≡ places.may_have places.is_table_value name.now (document self.now) }
    {
        match self.member(name) {
            Some(value) => value.is_table(),
            None => true,
        }
    }

    /// Whether the member is a truth value, if it is there.
    pub fn may_have_truth(&self, name: &str) -> bool
        ensures { result ≡ places.may_have places.is_truth_value name.now (document self.now) }
    {
        match self.member(name) {
            Some(value) => value.is_truth(),
            None => true,
        }
    }

    /// Whether the member is a list of texts, if it is there.
    pub fn may_have_texts(&self, name: &str) -> bool
        ensures { result ≡ places.may_have places.is_list_of_texts name.now (document self.now) }
    {
        match self.member(name) {
            Some(value) => value.is_list_of_texts(),
            None => true,
        }
    }
}

fn are_texts(items: &[Doc]) -> bool
    ensures { result ≡ list_all places.is_text_value (documents items.now) }
{
    'items: for item in items {
        if !item.is_text() {
            return false;
        }
    }
    true
}
