//! The first rule of case files that a document breaks.

ghost use Rattle.std.specs.Prelude.{◌≡◌, [], IfOk, IfErr};
ghost use Rattle.doc_tree.specs.View.{document};
ghost use Rattle.lifted_case.specs.ReadFaults.{Finds, version_faults_in, faults_in, faults_within_in};

mod ends;
mod findings;
mod forms;
mod ids;
mod items;
mod limits;
mod names;
mod table;
mod texts;
mod words;

use crate::faults::ends::{check_ends, check_systems};
use crate::faults::findings::check_findings;
use crate::faults::forms::check_forms;
use crate::faults::ids::check_ids;
use crate::faults::items::check_that;
use crate::faults::limits::check_limits;
use crate::faults::table::check_table;
use crate::faults::texts::check_texts;
use crate::faults::words::check_words;
use crate::members::natural_at;
use crate::stop::ReadCaseStop;
use doc_tree::{Doc, Part};
use std::alloc::Global;

/// Stops at the first rule that a document breaks, whose members may have any form.
pub fn check(alloc: Global, doc: &Doc) -> Result<(), ReadCaseStop>
    ensures kept { IfOk result (λ _. faults_in (document doc.now) ≡ []) }
    ensures fault { IfErr result (Finds (faults_in (document doc.now))) }
{
    check_forms(doc)?;
    check_within(alloc, doc)
}

/// Stops at the first of the rules on what the members say.
fn check_within(alloc: Global, doc: &Doc) -> Result<(), ReadCaseStop>
    ensures kept { IfOk result (λ _. faults_within_in (document doc.now) ≡ []) }
    ensures fault { IfErr result (Finds (faults_within_in (document doc.now))) }
{
    check_version(doc)?;
    check_texts(alloc, doc)?;
    check_table(alloc, doc)?;
    check_ids(doc)?;
    check_words(doc)?;
    check_ends(doc)?;
    check_systems(doc)?;
    check_findings(alloc, doc)?;
    check_limits(doc)
}

/// Stops unless this is version 1 of case files.
fn check_version(doc: &Doc) -> Result<(), ReadCaseStop>
    ensures kept { IfOk result (λ _. version_faults_in (document doc.now) ≡ []) }
    ensures fault { IfErr result (Finds (version_faults_in (document doc.now))) }
{
    check_that(3, Part::Document, natural_at(doc, "case") == 1)
}
