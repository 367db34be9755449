//! The rules that a document keeps as a whole before its parts are read.

ghost use Rattle.std.specs.Prelude.{◌≡◌, codes, option_map, true};
ghost use Rattle.std.specs.List.{list_all};
ghost use Rattle.meaning.specs.Texts.{first_of_list};
ghost use Rattle.meaning.specs.BundlePlaces as places;
ghost use Rattle.meaning.specs.BundleRules as rules;
ghost use Rattle.meaning.specs.BuiltForms.{has_no_solution, has_no_solutions};
ghost use Rattle.meaning.specs.TemplateRules.{is_solution, kind_in};
ghost use Rattle.doc_tree.specs.Places.{fault_of};
ghost use Rattle.doc_tree.specs.View.{document, documents};

use crate::texts::is_text_within;
use doc_tree::{BundleFault, Doc, Part};

/// The rule that a file is a document with a table at the top.
pub const NO_TABLE: BundleFault = BundleFault {
    rule: 1,
    part: Part::Document,
    item: 0,
    sub: 0,
    at: 0,
};

/// The rule that some world is valid.
pub const NO_VALID_WORLD: BundleFault = BundleFault {
    rule: 30,
    part: Part::Line,
    item: 0,
    sub: 0,
    at: 0,
};

/// The first rule that the document or the bundle itself breaks, if it breaks one.
#[tactic(auto, unfolding(meaning::specs::BundleRules::top_faults))]
pub fn top_fault(bundle: &Doc) -> Option<BundleFault>
    ensures { option_map fault_of result ≡ first_of_list (rules.top_faults (document bundle.now)) }
{
    if !bundle.is_table() {
        return Some(NO_TABLE);
    }
    if !has_form(bundle) {
        return Some(at_bundle(2));
    }
    if !is_text_within(512, bundle.text_at("title")) {
        return Some(at_bundle(4));
    }
    if !is_version_one(bundle) {
        return Some(at_bundle(7));
    }
    None
}

/// A broken rule at the bundle itself.
fn at_bundle(rule: u8) -> BundleFault
    ensures { result ≡ record { rule = rule; part = Part.Bundle; item = 0; sub = 0; at = 0 } }
{
    BundleFault {
        rule,
        part: Part::Bundle,
        item: 0,
        sub: 0,
        at: 0,
    }
}

fn has_form(bundle: &Doc) -> bool
    ensures { result ≡ rules.bundle_has_form (document bundle.now) }
{
    needs_number(bundle, "bundle")
        && bundle.needs_text("title")
        && bundle.needs_table("line")
        && bundle.may_have_table("model")
}

fn needs_number(table: &Doc, name: &str) -> bool
    ensures { result ≡ places.needs rules.is_number_value name.now (document table.now) }
{
    match table.member(name) {
        Some(value) => value.as_number().is_some(),
        None => false,
    }
}

fn is_version_one(bundle: &Doc) -> bool
    ensures { result ≡ places.may_have rules.is_one (codes "bundle") (document bundle.now) }
{
    match bundle.member("bundle") {
        Some(version) => match version.as_number() {
            Some(number) => number == 1,
            None => true,
        },
        None => true,
    }
}

/// Whether no template of the bundle has a solution.
#[tactic(auto, unfolding(meaning::specs::BuiltForms::has_no_solutions))]
pub fn has_no_solutions(bundle: &Doc) -> bool
    ensures { result ≡ has_no_solutions (document bundle.now) }
{
    'templates: for template in bundle.list_at("templates") {
        if !has_no_solution(template) {
            return false;
        }
    }
    true
}

fn has_no_solution(template: &Doc) -> bool
    ensures { result ≡ has_no_solution (document template.now) }
{
    'nodes: for node in template.list_at("nodes") {
        if is_solution(node) {
            return false;
        }
    }
    true
}

fn is_solution(node: &Doc) -> bool
    ensures { result ≡ is_solution (kind_in (document node.now)) }
{
    node.text_at("kind") == "solution"
}
