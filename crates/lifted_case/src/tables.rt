ghost use Rattle.std.specs.Prelude.{◌≡◌, [], ◌∷◌, ◌++◌, List, IfOk, OnOk, ℕ};
ghost use Rattle.serde_json.specs.Data.{Data, string, array, object};
ghost use Rattle.meaning.specs.CaseBytes.{natural_data, items_of, members_of, list_data};
ghost use Rattle.doc_tree.specs.View.{document, documents, members};
ghost use Rattle.lifted_case.specs.Written.{IsWritten, AreWritten, MembersWritten};

use doc_tree::{Doc, NoMemory, Row, Word};
use std::alloc::Global;

pub fn number(number: u32) -> Doc
    ensures { IsWritten (document result) (natural_data number) }
{
    Doc::Number(i64::from(number))
}

pub fn text(alloc: Global, text: &str) -> Result<Doc, NoMemory>
    ensures { IfOk result (λ d. IsWritten (document d) (string text.now)) }
{
    Ok(Doc::Text(Word::of(alloc, text)?))
}

pub fn texts(alloc: Global, words: &[Word]) -> Result<Doc, NoMemory>
    ensures { IfOk result (λ d. IsWritten (document d) (list_data string words.now)) }
{
    let mut docs = Vec::new(alloc);
    'words: for word in words {
        docs.push(text(alloc, word.text())?)?;
    }
    Ok(list(docs))
}

pub fn list(docs: Vec<Doc>) -> Doc
    ensures { (vs : List Data) → AreWritten (documents docs.items) vs
        → IsWritten (document result) (array (items_of vs)) }
{
    Doc::List(Row::of(docs))
}

pub fn table(entries: Vec<(Word, Doc)>) -> Doc
    ensures { (ms : List (List ℕ × Data)) → MembersWritten (members entries.items) ms
        → IsWritten (document result) (object (members_of ms)) }
{
    Doc::Table(Row::of(entries))
}

/// Adds a member to those of a table.
pub fn add(
    alloc: Global,
    entries: &mut Vec<(Word, Doc)>,
    name: &str,
    value: Doc,
) -> Result<(), NoMemory>
    ensures { OnOk result (entries.new.items ≡ entries.old.items ++ (name.now, value) ∷ []) }
{
    let name = Word::of(alloc, name)?;
    entries.push((name, value))?;
    Ok(())
}
