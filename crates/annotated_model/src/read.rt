//! Reading the model of a bundle.

ghost use Rattle.std.specs.Prelude.{◌≡◌, [], length, IfOk, IfErr};
ghost use Rattle.meaning.specs.Models.{model_from, model_of};
ghost use Rattle.meaning.specs.ModelRules.{context_of, faults_of_context, model_faults};
ghost use Rattle.doc_tree.specs.View.{document};
ghost use Rattle.annotated_model.specs.Faults.{IsFirst};
ghost use Rattle.annotated_model.specs.Joined.{joined_view, CanJoin};
ghost use Rattle.annotated_model.specs.Known.{Knows};
ghost use Rattle.annotated_model.specs.ModelFacts.{NamesFeatures};
ghost use Rattle.annotated_model.specs.Parts.{known_faults};

use crate::data::{Link, System};
use crate::fault::ModelStop;
use crate::known::{Known, read_known};
use crate::links::read_links;
use crate::model::{Model, empty, joined, model_table};
use crate::owners::check_owners;
use crate::systems::read_systems;
use cond_text::Names;
use doc_tree::{Doc, Row};
use std::alloc::Global;

/// Reads the table of a model.
fn read_table(alloc: Global, features: &Names, model: &Doc) -> Result<Model, ModelStop>
    ensures value { IfOk result (λ m. m ≡ model_from features.now (document model.now)) }
    ensures none { IfOk result (λ _. faults_of_context (context_of features.now (document model.now)) ≡ []) }
    ensures fault { IfErr result (IsFirst (faults_of_context (context_of features.now (document model.now)))) }
{
    let known = read_known(alloc, features, model)?;
    let (links, systems, owners) = read_later(alloc, features, &known, model)?;
    Ok(joined(known, links, systems, &owners))
}

/// The links and the systems of the table of a model, over its earlier parts, and the names of the elements that the systems belong to.
fn read_later(
    alloc: Global,
    features: &Names,
    known: &Known,
    model: &Doc,
) -> Result<(Row<Link>, Row<System>, Names), ModelStop>
    requires knows { Knows known.now features.now (document model.now) }
    requires none { known_faults features.now (document model.now) ≡ [] }
    ensures fit { IfOk result (λ r. CanJoin known.now r.0 r.1 r.2) }
    ensures value { IfOk result (λ r. joined_view known.now r.0 r.1 ≡ model_from features.now (document model.now)) }
    ensures none { IfOk result (λ _. faults_of_context (context_of features.now (document model.now)) ≡ []) }
    ensures fault { IfErr result (IsFirst (faults_of_context (context_of features.now (document model.now)))) }
{
    let links = read_links(alloc, features, known, model)?;
    let (systems, owners) = read_systems(alloc, features, known, model)?;
    check_owners(known.types.list(), &owners, known.elements.list())?;
    Ok((links, systems, owners))
}

impl Model {
    /// The model that a bundle holds, over the names of its features, which is empty where it has no table of a model.
    ///
    /// What is told of a model with a fault is the first one, part by part from the types to the owners of systems, and in each part item by item.
    pub fn read(alloc: Global, doc: &Doc, features: &Names) -> Result<Model, ModelStop>
        ensures ok { IfOk result (λ m. (m ≡ model_of features.now (document doc.now)) × (model_faults features.now (document doc.now) ≡ [])) }
        ensures bounded { IfOk result (λ m. NamesFeatures (length features.now) m) }
        ensures fault { IfErr result (IsFirst (model_faults features.now (document doc.now))) }
    {
        match model_table(doc) {
            Some(model) => read_table(alloc, features, model),
            None => Ok(empty(alloc)),
        }
    }
}
