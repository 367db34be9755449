//! From the bytes of a bundle and of a configuration to the text of the product that the configuration names.

ghost use Rattle.std.specs.Prelude.{◌≡◌, ◌∷◌, [], IfOk, IfErr, true, length};
ghost use Rattle.meaning.specs.Features.{is_valid};
ghost use Rattle.meaning.specs.Cases.{text_of_case};
ghost use Rattle.meaning.specs.CaseFiles.{cut};
ghost use Rattle.meaning.specs.Words.{Product};
ghost use Rattle.meaning.specs.Answers.{Prints, IsAnswer, product_answer};
ghost use Rattle.feature_model.specs.Contents.{line_view};
ghost use Rattle.case_derive.specs.Keys.{unkeyed};
ghost use Rattle.case_derive.specs.OneWorld.{document_at_one};
ghost use Rattle.workbench.specs.BuildingStage.{building_cases};
ghost use Rattle.workbench.specs.BundleView.{bundle_view, IsReadBundle};
ghost use Rattle.workbench.specs.Run.{Refuses};
ghost use Rattle.workbench.specs.Readings.{AnswersProduct};

use crate::bundle::{Bundle, read_bundle};
use crate::status::Status;
use crate::world::read_world;
use case_derive::plain;
use case_text::text;
use lifted_case::Lifted;
use lifting::instantiate;
use std::alloc::Global;
use worlds::One;

/// The text of the product of a bundle that the configuration in a file of this name names, or why there is none.
pub fn product(
    alloc: Global,
    bundle_name: &str,
    bytes: &[u8],
    name: &str,
    chosen: &[u8],
) -> Result<Vec<u8>, Status>
    ensures text { IfOk result (λ v. IsAnswer building_cases (Product bundle_name.now name.now) (bytes.now ∷ chosen.now ∷ []) (Prints v.items)) }
    ensures refused { IfErr result (Refuses (IsAnswer building_cases (Product bundle_name.now name.now) (bytes.now ∷ chosen.now ∷ []))) }
{
    let bundle = read_bundle(alloc, bundle_name, bytes)?;
    product_of(alloc, &bundle, name, chosen)
}

/// The text of the product of a bundle that the configuration names.
fn product_of(alloc: Global, bundle: &Bundle, name: &str, chosen: &[u8]) -> Result<Vec<u8>, Status>
    requires { IsReadBundle bundle.now }
    ensures text { IfOk result (λ v. AnswersProduct (bundle_view bundle.now) name.now chosen.now (Prints v.items)) }
    ensures refused { IfErr result (Refuses (AnswersProduct (bundle_view bundle.now) name.now chosen.now)) }
{
    let world = read_world(alloc, name, chosen, bundle.line.features())?;
    if bundle.line.valid(world.list()).is_err() {
        return Err(Status::NotValid);
    }
    product_text(alloc, bundle, world.list())
}

/// The text of the product at a valid world.
fn product_text(alloc: Global, bundle: &Bundle, world: &[bool]) -> Result<Vec<u8>, Status>
    requires read { IsReadBundle bundle.now }
    requires length { length world.now ≡ length bundle.now.line.features }
    requires valid { is_valid (line_view bundle.now.line) world.now ≡ true }
    ensures text { IfOk result (λ v. product_answer building_cases (bundle_view bundle.now) world.now ≡ Prints v.items) }
    ensures refused { IfErr result (Refuses (λ a. product_answer building_cases (bundle_view bundle.now) world.now ≡ a)) }
{
    let _few = bundle.line.count();
    let mut one = One::new(world);
    let case = instantiate(
        alloc,
        bundle.title.text(),
        bundle.line.features(),
        &bundle.model,
        &bundle.templates,
        &mut one,
    )?;
    text_of(alloc, &case, world)
}

/// The text of a case at the one world that it is over.
fn text_of(alloc: Global, case: &Lifted<bool>, world: &[bool]) -> Result<Vec<u8>, Status>
    requires { length world.now ≡ length case.now.features }
    ensures text { IfOk result (λ v. v.items ≡ text_of_case (unkeyed (cut (document_at_one case.now) [])) case.now.title case.now.features world.now) }
    ensures stopped { IfErr result (λ status. status ≡ Status.NoMemory) }
{
    let product = plain(alloc, case)?;
    let bytes = text(alloc, &product, case.title.text(), &case.features, world)?;
    Ok(bytes)
}
