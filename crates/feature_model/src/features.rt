//! The features of a line, as a document lists them.

ghost use Rattle.std.specs.Prelude.{◌≡◌, ◌≤◌, ◌++◌, ◌∷◌, [], length, map, codes, option_map, option_and_then, IfOk, IfErr};
ghost use Rattle.meaning.specs.Texts.{first_of_list, place_of};
ghost use Rattle.meaning.specs.Features.{feature_names, feature_of, group_of, text_member};
ghost use Rattle.meaning.specs.BundlePlaces.{faults_at, faults_of_items, name_in};
ghost use Rattle.meaning.specs.BundlePlaces as places;
ghost use Rattle.meaning.specs.LineRules.{feature_has_form, feature_rules, is_group_word};
ghost use Rattle.doc_tree.specs.View.{document, documents};
ghost use Rattle.feature_model.specs.Groups.{group_view};
ghost use Rattle.feature_model.specs.Contents.{line_view, IsBelow};
ghost use Rattle.feature_model.specs.Line.{feature_with};
ghost use Rattle.feature_model.specs.Reading.{TellsFault, rules_at, has_its_parent, has_its_kind};

use crate::known::is_known;
use crate::line::{Group, Line, Placed};
use crate::read::LineStop;
use cond_text::{Names, is_name};
use doc_tree::{BundleFault, Doc, Part};
use std::alloc::Global;

/// The line of these features alone.
pub fn read_features(alloc: Global, features: &[Doc]) -> Result<Line, LineStop>
    ensures features { IfOk result (λ line. line.features ≡ map (feature_of (map name_in (documents features.now))) (documents features.now)) }
    ensures constraints { IfOk result (λ line. line.constraints ≡ []) }
    ensures no_fault { IfOk result (λ line. faults_of_items places.Features (feature_rules (map name_in (documents features.now))) (documents features.now) ≡ []) }
    ensures fault { IfErr result (λ stop. TellsFault stop
        (first_of_list (faults_of_items places.Features (feature_rules (map name_in (documents features.now))) (documents features.now)))) }
{
    let mut line = Line::new(alloc);
    'features: for (no, feature) in features.iter().enumerate() {
        line = with_read_feature(alloc, line, no, feature)?;
    }
    Ok(line)
}

/// The line with one more feature.
fn with_read_feature(alloc: Global, line: Line, no: usize, feature: &Doc) -> Result<Line, LineStop>
    requires number { length line.features ≡ no }
    requires few { no ≤ 256 }
    ensures added { IfOk result (λ read. read ≡ record line { features = line.features ++ feature_of (feature_names (line_view line)) (document feature.now) ∷ [] }) }
    ensures no_fault { IfOk result (λ read. rules_at (feature_names (line_view line)) no (document feature.now) ≡ []) }
    ensures fault { IfErr result (λ stop. TellsFault stop
        (first_of_list (faults_at places.Features no 0 (rules_at (feature_names (line_view line)) no (document feature.now))))) }
{
    let placed = read_feature(line.features(), no, feature)?;
    Ok(line.with_feature(alloc, feature.text_at("name"), placed)?)
}

/// Where a feature stands behind those of these names.
fn read_feature(before: &Names, no: usize, feature: &Doc) -> Result<Placed, LineStop>
    requires { no ≤ 256 }
    ensures value { IfOk result (λ placed. feature_with (name_in (document feature.now)) placed ≡ feature_of before.now (document feature.now)) }
    ensures below { IfOk result (λ placed. IsBelow (length before.now) placed.parent) }
    ensures no_fault { IfOk result (λ placed. rules_at before.now no (document feature.now) ≡ []) }
    ensures fault { IfErr result (λ stop. TellsFault stop
        (first_of_list (faults_at places.Features no 0 (rules_at before.now no (document feature.now))))) }
{
    match broken_rule(before, no, feature) {
        Some(rule) => Err(LineStop::Fault(BundleFault {
            rule,
            part: Part::Features,
            item: no as u32,
            sub: 0,
            at: 0,
        })),
        None => Ok(Placed {
            parent: parent_of(before, feature),
            group: group_of(feature),
        }),
    }
}

/// The first rule that is broken at a feature.
fn broken_rule(before: &Names, no: usize, feature: &Doc) -> Option<u8>
    ensures { option_map (λ rule. (rule, 0)) result ≡ first_of_list (rules_at before.now no (document feature.now)) }
{
    let name = feature.text_at("name");
    if !feature_has_form(feature) {
        Some(2)
    } else if !is_name(name) {
        Some(3)
    } else if is_known(before, name) {
        Some(5)
    } else if no == 256 {
        Some(6)
    } else if !has_its_parent(before, no, feature) {
        Some(8)
    } else if !has_its_kind(no, feature) {
        Some(9)
    } else {
        None
    }
}

fn feature_has_form(feature: &Doc) -> bool
    ensures { result ≡ feature_has_form (document feature.now) }
{
    feature.is_table()
        && feature.needs_text("name")
        && feature.may_have_text("parent")
        && feature.may_have_text("kind")
}

/// Whether the first feature has no parent, and another one has one of those before it.
fn has_its_parent(before: &Names, no: usize, feature: &Doc) -> bool
    ensures { result ≡ has_its_parent before.now no (document feature.now) }
{
    if no == 0 {
        !feature.has("parent")
    } else {
        feature.has("parent") && is_known(before, feature.text_at("parent"))
    }
}

/// Whether the first feature has no kind, and another one has none or one of the four.
fn has_its_kind(no: usize, feature: &Doc) -> bool
    ensures { result ≡ has_its_kind no (document feature.now) }
{
    if no == 0 {
        return !feature.has("kind");
    }
    match feature.text_member("kind") {
        Some(kind) => is_group_word(kind),
        None => true,
    }
}

fn is_group_word(word: &str) -> bool
    ensures { result ≡ is_group_word word.now }
{
    word == "mandatory" || word == "optional" || word == "or" || word == "alternative"
}

/// The number of the parent, if there is one.
#[tactic(auto, using(crate::proofs::Places::below_placed))]
fn parent_of(before: &Names, feature: &Doc) -> Option<u16>
    ensures value { result ≡ option_and_then (λ p. place_of p before.now) (text_member (codes "parent") (document feature.now)) }
    ensures below { IsBelow (length before.now) result }
{
    match feature.text_member("parent") {
        Some(parent) => before.find(parent),
        None => None,
    }
}

fn group_of(feature: &Doc) -> Group
    ensures { group_view result ≡ group_of (text_member (codes "kind") (document feature.now)) }
{
    match feature.text_member("kind") {
        Some(kind) => {
            if kind == "mandatory" {
                Group::Mandatory
            } else if kind == "or" {
                Group::Or
            } else if kind == "alternative" {
                Group::Alternative
            } else {
                Group::Optional
            }
        }
        None => Group::Optional,
    }
}
