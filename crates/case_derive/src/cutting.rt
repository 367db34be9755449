//! The case at one world.

ghost use Rattle.std.specs.Prelude.{◌≡◌, IfOk, [], true, false, length};
ghost use Rattle.meaning.specs.CaseFiles as files;
ghost use Rattle.meaning.specs.CaseFiles.{holds};
ghost use Rattle.gsn.specs.View.{case_of, EndsInRange};
ghost use Rattle.lifted_case.specs.CaseView.{case_document_of_read};
ghost use Rattle.case_derive.specs.AtWorld.{case_at};
ghost use Rattle.case_derive.specs.Keys.{unkeyed};
ghost use Rattle.case_derive.specs.OneWorld.{document_at_one};
ghost use Rattle.case_derive.specs.declared.cutting.CutStop.TheVariants as stop;

use crate::nodes::{marks, nodes};
use crate::places::Places;
use crate::relations::relations;
use crate::truth::{Told, Truth};
use crate::truths::Truths;
use doc_tree::{NoMemory, Row};
use gsn::Case;
use lifted_case::{Lifted, ReadCase};
use std::alloc::Global;

/// Why there is no case at a world: it isn't valid, or there is no memory.
#[derive(Clone, Copy, Debug, PartialEq, Eq)]
pub enum CutStop {
    NotValid,
    NoMemory,
}

impl From<NoMemory> for CutStop {
    ghost from_gives = { λ _ e. e ≡ stop.NoMemory };

    fn from(_: NoMemory) -> CutStop {
        CutStop::NoMemory
    }
}

/// The nodes that are there, and the relations between them that are.
fn at_world<T: Truth>(alloc: Global, case: &Lifted<T::C>, truth: &T) -> Result<Case, NoMemory>
    ensures cut { IfOk result (λ c. case_of c ≡ case_at (T.holds truth.now) case.now) }
    ensures ends { IfOk result EndsInRange }
{
    let marks = marks(alloc, case.nodes.list(), truth)?;
    let places = Places::of(alloc, marks)?;
    let nodes = nodes(alloc, case.nodes.list(), truth)?;
    let relations = relations(alloc, case.relations.list(), &places, truth)?;
    Ok(Case {
        nodes: Row::of(nodes),
        relations: Row::of(relations),
    })
}

/// The case at a world, which has one truth value for each feature of the case: the nodes whose conditions hold there, with their texts and
/// verdicts, and the relations whose conditions hold there and whose ends are there.
///
/// `NotValid` where the case says that the world is no valid one.
pub fn cut(alloc: Global, case: &ReadCase, world: &[bool]) -> Result<Case, CutStop>
    requires { length world.now ≡ length case.now.lifted.features }
    ensures cut { IfOk result (λ c. case_of c ≡ unkeyed (files.cut (case_document_of_read case.now) world.now)) }
    ensures valid { IfOk result (λ _. holds (case_document_of_read case.now) world.now case.now.lifted.valid ≡ true) }
    ensures ends { IfOk result EndsInRange }
    ensures not_valid { result ≡ Err CutStop.NotValid → holds (case_document_of_read case.now) world.now case.now.lifted.valid ≡ false }
{
    let truths = Truths::of(alloc, case.table.rows(), world)?;
    if !truths.at(case.lifted.valid) {
        return Err(CutStop::NotValid);
    }
    Ok(at_world(alloc, &case.lifted, &truths)?)
}

/// The case at the one world at which each condition is its truth: the nodes and relations whose conditions are true, as in [`cut`].
pub fn plain(alloc: Global, case: &Lifted<bool>) -> Result<Case, NoMemory>
    ensures cut { IfOk result (λ c. case_of c ≡ unkeyed (files.cut (document_at_one case.now) [])) }
    ensures ends { IfOk result EndsInRange }
{
    at_world(alloc, case, &Told)
}
