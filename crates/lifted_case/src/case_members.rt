//! Lists and members of the documents that a case is written as.

ghost use Rattle.std.specs.Prelude.{◌≡◌, [], ◌∷◌, true, List, IfOk, OnOk, ℕ, map};
ghost use Rattle.serde_json.specs.Data.{Data, string, boolean, array};
ghost use Rattle.meaning.specs.CaseBytes.{natural_data, items_of, list_data};
ghost use Rattle.doc_tree.specs.View.{document, members};
ghost use Rattle.lifted_case.specs.Written.{IsWritten};
ghost use Rattle.lifted_case.specs.CaseWritten.{AddsMembers, id_in};

use crate::case_ids::CaseIds;
use crate::tables::{add, list, number, text};
use cond_text::Names;
use conditions::Cond;
use doc_tree::{Doc, NoMemory, Word};
use std::alloc::Global;

/// Adds a member to those of a table.
pub fn put(
    alloc: Global,
    entries: &mut Vec<(Word, Doc)>,
    name: &str,
    value: Doc,
) -> Result<(), NoMemory>
    ensures { OnOk result ((v : Data) → IsWritten (document value) v
        → AddsMembers entries.old.items entries.new.items ((name.now, v) ∷ [])) }
{
    add(alloc, entries, name, value)?;
    Ok(())
}

/// Adds a text to the members of a table.
pub fn put_text(
    alloc: Global,
    entries: &mut Vec<(Word, Doc)>,
    name: &str,
    words: &str,
) -> Result<(), NoMemory>
    ensures { OnOk result (AddsMembers entries.old.items entries.new.items ((name.now, string words.now) ∷ [])) }
{
    let value = text(alloc, words)?;
    put(alloc, entries, name, value)?;
    Ok(())
}

/// The truth value true.
pub fn mark() -> Doc
    ensures { IsWritten (document result) (boolean true) }
{
    Doc::Truth(true)
}

/// A list of two.
pub fn pair(alloc: Global, first: Doc, second: Doc) -> Result<Doc, NoMemory>
    ensures { IfOk result (λ d. (v w : Data) → IsWritten (document first) v → IsWritten (document second) w
        → IsWritten (document d) (array (items_of (v ∷ w ∷ [])))) }
{
    let docs = vec![in alloc; first, second]?;
    Ok(list(docs))
}

/// A list of three.
pub fn triple(alloc: Global, first: Doc, second: Doc, third: Doc) -> Result<Doc, NoMemory>
    ensures { IfOk result (λ d. (u v w : Data) → IsWritten (document first) u → IsWritten (document second) v
        → IsWritten (document third) w → IsWritten (document d) (array (items_of (u ∷ v ∷ w ∷ [])))) }
{
    let docs = vec![in alloc; first, second, third]?;
    Ok(list(docs))
}

/// The names, in their order.
pub fn names(alloc: Global, names: &Names) -> Result<Doc, NoMemory>
    ensures { IfOk result (λ d. IsWritten (document d) (list_data string names.now)) }
{
    let mut docs = Vec::new(alloc);
    'names: for no in 0..names.count() {
        docs.push(text(alloc, names.name(no))?)?;
    }
    Ok(list(docs))
}

/// The identifiers of conditions.
pub fn ids(alloc: Global, ids: &CaseIds, conditions: &[Cond]) -> Result<Doc, NoMemory>
    ensures { IfOk result (λ d. IsWritten (document d)
        (list_data natural_data (map (id_in ids.now) conditions.now))) }
{
    let mut docs = Vec::new(alloc);
    'conditions: for condition in conditions {
        docs.push(number(ids.id(*condition)))?;
    }
    Ok(list(docs))
}
