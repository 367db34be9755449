//! The systems of a case.

ghost use Rattle.std.specs.Prelude.{◌≡◌, IfOk, map};
ghost use Rattle.std.specs.List.{All};
ghost use Rattle.meaning.specs.CaseReading as reading;
ghost use Rattle.doc_tree.specs.View.{document, documents};
ghost use Rattle.lifted_case.specs.CaseView.{case_system_of};
ghost use Rattle.lifted_case.specs.SmallNumbers.{SystemIsNarrow};

use crate::lifted::LSystem;
use crate::values::lists::{naturals, transitions, words};
use doc_tree::{Doc, NoMemory, Row, Word};
use std::alloc::Global;

fn system(alloc: Global, doc: &Doc) -> Result<LSystem<u32>, NoMemory>
    requires { SystemIsNarrow (document doc.now) }
    ensures { IfOk result (λ system. case_system_of system ≡ reading.system_of (document doc.now)) }
{
    Ok(LSystem {
        element: Word::of(alloc, doc.text_at("element"))?,
        states: words(alloc, doc.list_at("states"))?,
        reached: naturals(alloc, doc.list_at("reached"))?,
        transitions: transitions(alloc, doc.list_at("transitions"))?,
        parents: naturals(alloc, doc.list_at("parents"))?,
    })
}

pub fn systems(alloc: Global, docs: &[Doc]) -> Result<Row<LSystem<u32>>, NoMemory>
    requires { All (λ doc. SystemIsNarrow (document doc)) docs.now }
    ensures { IfOk result (λ systems. map case_system_of systems ≡ map reading.system_of (documents docs.now)) }
{
    let mut systems = Vec::new(alloc);
    'docs: for doc in docs {
        systems.push(system(alloc, doc)?)?;
    }
    Ok(Row::of(systems))
}
