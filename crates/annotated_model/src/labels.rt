//! Labels of states.

ghost use Rattle.std.specs.Prelude.{◌≡◌, ◌≤◌, ◌<◌, [], ◌++◌, IfOk, IfErr, codes, map, false, length};
ghost use Rattle.meaning.specs.Documents.{list_at, texts_in};
ghost use Rattle.meaning.specs.BundlePlaces.{Labels, faults_at, is_among};
ghost use Rattle.meaning.specs.ModelRules.{label_text};
ghost use Rattle.doc_tree.specs.View.{document, documents};
ghost use Rattle.annotated_model.specs.Faults.{IsFirst};
ghost use Rattle.annotated_model.specs.Items.{part_faults, label_broken, labels_broken};

use crate::fault::{ModelStop, Place};
use crate::names::{add_new, is_known};
use crate::texts::text_of;
use cond_text::{Names, is_name};
use doc_tree::{Doc, Part};
use std::alloc::Global;

/// The rules at the label with this number.
fn check(before: &Names, number: usize, label: &Doc) -> Result<(), ModelStop>
    requires { number ≤ 256 }
    ensures none { IfOk result (λ _. label_broken before.now number (document label.now) ≡ []) }
    ensures new { IfOk result (λ _. is_among before.now (label_text (document label.now)) ≡ false) }
    ensures within { IfOk result (λ _. number < 256) }
    ensures fault { IfErr result (IsFirst (faults_at Labels number 0 (label_broken before.now number (document label.now)))) }
{
    let place = Place::item(Part::Labels, number);
    let text = text_of(label);
    let new = !is_known(before, text);
    place.require_named(label.is_text(), is_name(text), new, number != 256)
}

/// The labels, where these break no rule.
fn names_of(alloc: Global, labels: &[Doc]) -> Result<Names, ModelStop>
    ensures names { IfOk result (λ names. names ≡ texts_in (documents labels.now)) }
    ensures few { IfOk result (λ names. length names ≤ 256) }
    ensures none { IfOk result (λ names. labels_broken (documents labels.now) ≡ []) }
    ensures fault { IfErr result (IsFirst (labels_broken (documents labels.now))) }
{
    let mut names = Names::new(alloc);
    'labels: for (number, label) in labels.iter().enumerate() {
        check(&names, number, label)?;
        add_new(&mut names, text_of(label))?;
    }
    Ok(names)
}

/// The labels of a model table.
pub fn read_labels(alloc: Global, model: &Doc) -> Result<Names, ModelStop>
    ensures names { IfOk result (λ names. names ≡ texts_in (list_at (codes "labels") (document model.now))) }
    ensures few { IfOk result (λ names. length names ≤ 256) }
    ensures none { IfOk result (λ names. part_faults Labels (codes "labels") labels_broken (document model.now) ≡ []) }
    ensures fault { IfErr result (IsFirst (part_faults Labels (codes "labels") labels_broken (document model.now))) }
{
    Place::item(Part::Labels, 0).require(2, model.may_have_list("labels"))?;
    names_of(alloc, model.list_at("labels"))
}
