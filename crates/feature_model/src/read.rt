//! The line of a bundle document.

ghost use Rattle.std.specs.Prelude.{◌≡◌, ◌≤◌, ◌+◌, ◌*◌, ◌++◌, [], length, IfOk, IfErr, codes};
ghost use Rattle.meaning.specs.Texts.{first_of_list};
ghost use Rattle.meaning.specs.Documents.{table, no_members};
ghost use Rattle.meaning.specs.Features.{feature_names, line_of, line_from};
ghost use Rattle.meaning.specs.BundlePlaces.{least_fault};
ghost use Rattle.meaning.specs.LineRules.{line_in, has_features, line_faults};
ghost use Rattle.meaning.specs.Bounds.{line_asks};
ghost use Rattle.doc_tree.specs.View.{document};
ghost use Rattle.feature_model.specs.Contents.{line_view, constraints_size};
ghost use Rattle.feature_model.specs.Reading.{TellsFault, names_told, features_broken, rules_broken};
ghost use Rattle.feature_model.specs.declared.read.LineStop.TheVariants as stop;
ghost use Rattle.doc_tree.specs.declared.fault.Part.{Part};

use crate::features::read_features;
use crate::line::Line;
use crate::rules::read_rules;
use doc_tree::{BundleFault, Doc, NoMemory, Part, Row};
use std::alloc::Global;

/// Why a document has no line.
#[derive(Clone, Copy, Debug, PartialEq, Eq)]
pub enum LineStop {
    /// The first rule that is broken in the parts `features` and `rules`, with its place.
    Fault(BundleFault),
    NoMemory,
}

impl From<NoMemory> for LineStop {
    ghost from_gives = { λ e s. s ≡ stop.NoMemory };

    fn from(_: NoMemory) -> LineStop {
        LineStop::NoMemory
    }
}

impl Line {
    /// The line of a bundle document. A `line` that is absent or no table is read as an empty one.
    ///
    /// The fault that is told is the least by part, item, sub and rule. The last clause ties the size of [`Line::expr`] to the document: 16 times the square of the features and one more, and 8 for each rule beside
    /// the size of its expression.
    #[tactic(auto, unfolding(meaning::specs::Features::line_of, meaning::specs::LineRules::line_faults))]
    pub fn read(alloc: Global, doc: &Doc) -> Result<Line, LineStop>
        ensures ok { IfOk result (λ line. (line_view line ≡ line_of (document doc.now)) × (line_faults (document doc.now) ≡ [])) }
        ensures fault { IfErr result (λ stop. TellsFault stop (first_of_list (line_faults (document doc.now)))) }
        ensures least { IfErr result (λ stop. TellsFault stop (least_fault (line_faults (document doc.now)))) }
        ensures small { IfOk result (λ line. 1 + 40 * length line.features + constraints_size line
            ≤ line_asks (feature_names (line_view line)) (document doc.now)) }
    {
        let none = Doc::Table(Row::of(Vec::new(alloc)));
        read_table(alloc, line_in(doc, &none))
    }
}

/// The line that the table `line` of a bundle document tells.
fn read_table(alloc: Global, table: &Doc) -> Result<Line, LineStop>
    ensures line { IfOk result (λ line. line_view line ≡ line_from (names_told (document table.now)) (document table.now)) }
    ensures no_fault { IfOk result (λ line. features_broken (document table.now) ++ rules_broken (document table.now) ≡ []) }
    ensures fault { IfErr result (λ stop. TellsFault stop (first_of_list (features_broken (document table.now) ++ rules_broken (document table.now)))) }
{
    if !has_features(table) {
        return Err(fault(2, Part::Features));
    }
    let line = read_features(alloc, table.list_at("features"))?;
    if !table.may_have_list("rules") {
        return Err(fault(2, Part::Rules));
    }
    read_rules(alloc, line, table.list_at("rules"))
}

/// A broken rule at the first item of a part.
fn fault(rule: u8, part: Part) -> LineStop
    ensures { result ≡ stop.Fault (record { rule = rule; part = part; item = 0; sub = 0; at = 0 }) }
{
    LineStop::Fault(BundleFault {
        rule,
        part,
        item: 0,
        sub: 0,
        at: 0,
    })
}

/// The table `line`, and an empty one where there is none.
fn line_in<'a>(doc: &'a Doc, none: &'a Doc) -> &'a Doc
    requires { document none.now ≡ table no_members }
    ensures { document result.now ≡ line_in (document doc.now) }
{
    match doc.member("line") {
        Some(line) => { if line.is_table() { line } else { none } }
        None => none,
    }
}

/// Whether the line has a list of features, and at least one.
fn has_features(line: &Doc) -> bool
    ensures { result ≡ has_features (document line.now) }
{
    line.needs_list("features") && !line.list_at("features").is_empty()
}
