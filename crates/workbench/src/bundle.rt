//! Bundles: from the bytes of a file to its line, model and templates.

ghost use Rattle.std.specs.Prelude.{◌≡◌, [], IfOk, IfErr, length};
ghost use Rattle.meaning.specs.Answers.{bundle_in};
ghost use Rattle.meaning.specs.BundleRules.{top_faults, faults_of_readers};
ghost use Rattle.meaning.specs.Features.{line_of};
ghost use Rattle.meaning.specs.LineRules.{line_faults};
ghost use Rattle.meaning.specs.Models.{model_of};
ghost use Rattle.meaning.specs.ModelRules.{model_faults};
ghost use Rattle.meaning.specs.TemplateTexts.{templates_of};
ghost use Rattle.meaning.specs.TemplateRules.{template_faults};
ghost use Rattle.doc_tree.specs.View.{document};
ghost use Rattle.feature_model.specs.Contents.{line_view};
ghost use Rattle.annotated_model.specs.ModelFacts.{NamesFeatures};
ghost use Rattle.workbench.specs.BuildingStage.{building_cases};
ghost use Rattle.workbench.specs.BundleView.{IsBundleOf, IsReadBundle};
ghost use Rattle.workbench.specs.Readings.{IsGoodBundle, StopsBundle, IsReadFrom, StopsDocument, TellsFirst};

use crate::bundle_rules::{NO_TABLE, has_no_solutions, top_fault};
use crate::documents::read_document;
use crate::status::Status;
use annotated_model::Model;
use cond_text::Names;
use doc_tree::{Doc, DocStop, Word};
use feature_model::Line;
use std::alloc::Global;
use templates::Templates;

/// A bundle that breaks no rule of documents, and whose templates have no solution.
#[derive(Drop)]
pub struct Bundle {
    pub title: Word,
    pub line: Line,
    pub model: Model,
    pub templates: Templates,
}

/// The bundle in a file of this name, or why there is none that is built.
pub fn read_bundle(alloc: Global, name: &str, bytes: &[u8]) -> Result<Box<Bundle>, Status>
    ensures good { IfOk result (λ b. IsGoodBundle (bundle_in building_cases name.now bytes.now) b.value) }
    ensures stopped { IfErr result (StopsBundle (bundle_in building_cases name.now bytes.now)) }
{
    match read_document(alloc, name, bytes) {
        Ok(bundle) => bundle_of(alloc, &bundle),
        Err(DocStop::NotDocument) => Err(Status::BadBundle(NO_TABLE)),
        Err(DocStop::NoMemory) => Err(Status::NoMemory),
    }
}

/// The bundle of a document, or the first rule that the document breaks.
fn bundle_of(alloc: Global, bundle: &Doc) -> Result<Box<Bundle>, Status>
    ensures read { IfOk result (λ b. IsReadFrom (document bundle.now) b.value) }
    ensures stopped { IfErr result (StopsDocument (document bundle.now)) }
{
    match top_fault(bundle) {
        Some(fault) => Err(Status::BadBundle(fault)),
        None => without_solutions(alloc, bundle),
    }
}

/// The bundle of a document that keeps its own rules, if no template of it has a solution.
fn without_solutions(alloc: Global, bundle: &Doc) -> Result<Box<Bundle>, Status>
    requires { top_faults (document bundle.now) ≡ [] }
    ensures read { IfOk result (λ b. IsReadFrom (document bundle.now) b.value) }
    ensures stopped { IfErr result (StopsDocument (document bundle.now)) }
{
    let parts = read_parts(alloc, bundle)?;
    if !has_no_solutions(bundle) {
        return Err(Status::Unsupported);
    }
    Ok(parts)
}

/// The line, the model and the templates of a bundle document, or the first rule that one of them breaks.
fn read_parts(alloc: Global, bundle: &Doc) -> Result<Box<Bundle>, Status>
    ensures is { IfOk result (λ b. IsBundleOf (document bundle.now) b.value) }
    ensures rules { IfOk result (λ _. faults_of_readers (document bundle.now) ≡ []) }
    ensures stopped { IfErr result (TellsFirst (faults_of_readers (document bundle.now))) }
{
    let line = read_line(alloc, bundle)?;
    let model = read_model(alloc, bundle, line.features())?;
    let templates = read_templates(alloc, bundle, &model)?;
    let title = Word::of(alloc, bundle.text_at("title"))?;
    joined(alloc, title, line, model, templates)
}

/// The bundle of these parts.
fn joined(
    alloc: Global,
    title: Word,
    line: Box<Line>,
    model: Box<Model>,
    templates: Box<Templates>,
) -> Result<Box<Bundle>, Status>
    ensures is { IfOk result (λ b. b.value ≡ record { title = title; line = line.value; model = model.value; templates = templates.value }) }
    ensures stopped { IfErr result (λ status. status ≡ Status.NoMemory) }
{
    let bundle = Bundle {
        title,
        line: Box::into_inner(line),
        model: Box::into_inner(model),
        templates: Box::into_inner(templates),
    };
    Ok(Box::new(alloc, bundle)?)
}

/// The line of a bundle document, or the first rule that it breaks.
fn read_line(alloc: Global, bundle: &Doc) -> Result<Box<Line>, Status>
    ensures is { IfOk result (λ line. line_view line.value ≡ line_of (document bundle.now)) }
    ensures rules { IfOk result (λ _. line_faults (document bundle.now) ≡ []) }
    ensures stopped { IfErr result (TellsFirst (line_faults (document bundle.now))) }
{
    Ok(Box::new(alloc, Line::read(alloc, bundle)?)?)
}

/// The model of a bundle document over these features, or the first rule that it breaks.
fn read_model(alloc: Global, bundle: &Doc, features: &Names) -> Result<Box<Model>, Status>
    ensures is { IfOk result (λ model. model.value ≡ model_of features.now (document bundle.now)) }
    ensures names { IfOk result (λ model. NamesFeatures (length features.now) model.value) }
    ensures rules { IfOk result (λ _. model_faults features.now (document bundle.now) ≡ []) }
    ensures stopped { IfErr result (TellsFirst (model_faults features.now (document bundle.now))) }
{
    Ok(Box::new(alloc, Model::read(alloc, bundle, features)?)?)
}

/// The templates of a bundle document over this model, or the first rule that one of them breaks.
fn read_templates(alloc: Global, bundle: &Doc, model: &Model) -> Result<Box<Templates>, Status>
    ensures is { IfOk result (λ templates. templates.value ≡ templates_of model.now (document bundle.now)) }
    ensures rules { IfOk result (λ _. template_faults model.now (document bundle.now) ≡ []) }
    ensures stopped { IfErr result (TellsFirst (template_faults model.now (document bundle.now))) }
{
    Ok(Box::new(alloc, Templates::read(alloc, bundle, model)?)?)
}
