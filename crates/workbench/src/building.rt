//! From the bytes of a bundle to the bytes of its case, over diagrams that are opened for it.

ghost use Rattle.std.specs.Prelude.{◌≡◌, ◌∷◌, [], true, IfOk, IfErr, OnOk, length};
ghost use Rattle.meaning.specs.Features.{feature_names};
ghost use Rattle.meaning.specs.Words.{Build};
ghost use Rattle.meaning.specs.Answers.{Prints, IsAnswer, IsBuildAnswer, ShowsCase};
ghost use Rattle.meaning.specs.TopCall.{open_under};
ghost use Rattle.workbench.specs.StatusView.{status_view};
ghost use Rattle.workbench.specs.BuildingStage.{building_cases};
ghost use Rattle.workbench.specs.BundleView.{bundle_view, IsReadBundle};
ghost use Rattle.workbench.specs.Limits.{IsLimit, IfOpen, LeftAs, OpenedOver, OpenedForFiles, diagrams_of};
ghost use Rattle.workbench.specs.Products.{HasProducts, SameLimits, StopsOver};
ghost use Rattle.workbench.specs.Run.{StopsBuilding};

use crate::bundle::{Bundle, read_bundle};
use crate::bundle_rules::NO_VALID_WORLD;
use crate::status::Status;
use conditions::Diagrams;
use lifted_case::write_case;
use lifting::instantiate;
use std::alloc::Global;
use worlds::{Worlds, condition};

/// The case of the bundle in a file of this name, or why there is none. The diagrams are opened with the limit once the bundle has kept its
/// rules.
pub fn build(
    alloc: Global,
    name: &str,
    bytes: &[u8],
    limit: u32,
    d: &mut Diagrams,
) -> Result<Vec<u8>, Status>
    requires limit { IsLimit limit }
    requires shut { d.old.region.limit ≡ 0 }
    ensures built { IfOk result (λ v. IsAnswer building_cases (Build name.now) (bytes.now ∷ []) (Prints v.items)) }
    ensures stopped { IfErr result (StopsBuilding (diagrams_of d.old) (diagrams_of d.new) (IsAnswer building_cases (Build name.now) (bytes.now ∷ []))) }
    ensures opened { IfOpen (diagrams_of d.new) (OpenedForFiles (Build name.now) (bytes.now ∷ []) limit (diagrams_of d.new)) }
    ensures open { OnOk result ((diagrams_of d.new).is_open ≡ true) }
    ensures left { IfErr result (λ s. LeftAs (open_under (status_view s)) (diagrams_of d.new)) }
{
    let bundle = read_bundle(alloc, name, bytes)?;
    build_bundle(alloc, &bundle, limit, d)
}

/// The bytes of the case of a bundle.
fn build_bundle(
    alloc: Global,
    bundle: &Bundle,
    limit: u32,
    d: &mut Diagrams,
) -> Result<Vec<u8>, Status>
    requires read { IsReadBundle bundle.now }
    requires limit { IsLimit limit }
    requires shut { d.old.region.limit ≡ 0 }
    ensures built { IfOk result (λ v. IsBuildAnswer building_cases (bundle_view bundle.now) ShowsCase (Prints v.items)) }
    ensures stopped { IfErr result (StopsBuilding (diagrams_of d.old) (diagrams_of d.new) (IsBuildAnswer building_cases (bundle_view bundle.now) ShowsCase)) }
    ensures opened { IfOpen (diagrams_of d.new) (OpenedOver limit (length (feature_names (bundle_view bundle.now).line)) (diagrams_of d.new)) }
    ensures open { OnOk result ((diagrams_of d.new).is_open ≡ true) }
    ensures left { IfErr result (λ s. LeftAs (open_under (status_view s)) (diagrams_of d.new)) }
{
    d.start(alloc, limit, bundle.line.count())?;
    let answer = built_over(alloc, bundle, d);
    let _refused = d.refused();
    answer
}

/// The bytes of the case, over diagrams that have been opened for the features of the line.
fn built_over(alloc: Global, bundle: &Bundle, d: &mut Diagrams) -> Result<Vec<u8>, Status>
    requires read { IsReadBundle bundle.now }
    requires all_worlds { d.old.valid ≡ record { 0 = 1 } }
    requires features { d.old.region.vars ≡ length bundle.now.line.features }
    ensures built { IfOk result (λ v. IsBuildAnswer building_cases (bundle_view bundle.now) ShowsCase (Prints v.items)) }
    ensures stopped { IfErr result (StopsOver (bundle_view bundle.now) d.old d.new) }
    ensures kept { SameLimits d.old d.new }
{
    restrict_to_products(alloc, bundle, d)?;
    case_bytes(alloc, bundle, d)
}

/// Leaves the valid worlds of the line.
fn restrict_to_products(alloc: Global, bundle: &Bundle, d: &mut Diagrams) -> Result<(), Status>
    requires all_worlds { d.old.valid ≡ record { 0 = 1 } }
    requires features { d.old.region.vars ≡ length bundle.now.line.features }
    ensures products { OnOk result (HasProducts (bundle_view bundle.now) d.new) }
    ensures stopped { IfErr result (StopsOver (bundle_view bundle.now) d.old d.new) }
    ensures kept { SameLimits d.old d.new }
{
    let expression = bundle.line.expr(alloc)?;
    let valid = condition(&expression, d)?;
    if d.is_never(valid) {
        return Err(Status::BadBundle(NO_VALID_WORLD));
    }
    d.restrict(valid);
    Ok(())
}

/// The bytes of the case, whose conditions are made in diagrams over the products of the line.
fn case_bytes(alloc: Global, bundle: &Bundle, d: &mut Diagrams) -> Result<Vec<u8>, Status>
    requires read { IsReadBundle bundle.now }
    requires products { HasProducts (bundle_view bundle.now) d.old }
    ensures built { IfOk result (λ v. IsBuildAnswer building_cases (bundle_view bundle.now) ShowsCase (Prints v.items)) }
    ensures stopped { IfErr result (StopsOver (bundle_view bundle.now) d.old d.new) }
    ensures kept { SameLimits d.old d.new }
{
    let case = instantiate(
        alloc,
        bundle.title.text(),
        bundle.line.features(),
        &bundle.model,
        &bundle.templates,
        d,
    )?;
    // The nodes are a region, so that a table has fewer rows than there are numbers.
    let _nodes = d.used();
    let bytes = write_case(alloc, &case, d)?;
    Ok(bytes)
}
