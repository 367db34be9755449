//! From the bytes of a case and of a configuration to the text that the case derives to.

ghost use Rattle.std.specs.Prelude.{◌≡◌, ℕ, List, IfOk, IfErr, length};
ghost use Rattle.meaning.specs.Answers.{Prints, of_derivation};
ghost use Rattle.meaning.specs.CaseReading.{Is, read_case};
ghost use Rattle.meaning.specs.Derivation.{derived_at};
ghost use Rattle.lifted_case.specs.CaseView.{case_document_of_read};
ghost use Rattle.lifted_case.specs.CaseRules.{KeepsCaseRules};
ghost use Rattle.workbench.specs.Run.{Refuses};
ghost use Rattle.workbench.specs.Readings.{AnswersDerive};

use crate::status::Status;
use crate::world::read_world;
use case_derive::cut;
use case_text::text;
use lifted_case::{ReadCase, read_case};
use std::alloc::Global;

/// The text that the case derives to at the configuration in a file of this name, or why there is none.
pub fn derive(alloc: Global, bytes: &[u8], name: &str, chosen: &[u8]) -> Result<Vec<u8>, Status>
    ensures derived { IfOk result (λ v. AnswersDerive bytes.now name.now chosen.now (Prints v.items)) }
    ensures refused { IfErr result (Refuses (AnswersDerive bytes.now name.now chosen.now)) }
{
    let case = read_case(alloc, bytes)?;
    text_at(alloc, &case, name, chosen)
}

/// The text that a case derives to at the configuration in a file of this name, or why there is none, whatever bytes the case was read from.
fn text_at(alloc: Global, case: &ReadCase, name: &str, chosen: &[u8]) -> Result<Vec<u8>, Status>
    requires { KeepsCaseRules case.now }
    ensures derived { IfOk result (λ v. (bytes : List ℕ) → read_case bytes ≡ Is (case_document_of_read case.now)
        → AnswersDerive bytes name.now chosen.now (Prints v.items)) }
    ensures refused { IfErr result (λ status. (bytes : List ℕ) → read_case bytes ≡ Is (case_document_of_read case.now)
        → Refuses (AnswersDerive bytes name.now chosen.now) status) }
{
    let world = read_world(alloc, name, chosen, &case.lifted.features)?;
    derived_text(alloc, case, world.list())
}

/// The text of the case at a world, which has one truth value for each of its features.
fn derived_text(alloc: Global, case: &ReadCase, world: &[bool]) -> Result<Vec<u8>, Status>
    requires rules { KeepsCaseRules case.now }
    requires world { length world.now ≡ length case.now.lifted.features }
    ensures derived { IfOk result (λ v. of_derivation (derived_at (case_document_of_read case.now) world.now) ≡ Prints v.items) }
    ensures refused { IfErr result (Refuses (λ a. of_derivation (derived_at (case_document_of_read case.now) world.now) ≡ a)) }
{
    let product = cut(alloc, case, world)?;
    let title = case.lifted.title.text();
    let bytes = text(alloc, &product, title, &case.lifted.features, world)?;
    Ok(bytes)
}
