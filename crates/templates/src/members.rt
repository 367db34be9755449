//! Which members a node has, and where it stands.

ghost use Rattle.std.specs.Prelude.{◌≡◌, ◌≤◌, ◌<◌, ◌&&◌, ◌||◌, not, [], true, None, codes, length, map, IfOk, IfErr};
ghost use Rattle.meaning.specs.Documents.{text_at, truth_at};
ghost use Rattle.meaning.specs.BundlePlaces.{broken_at, member_within};
ghost use Rattle.meaning.specs.BundlePlaces as places;
ghost use Rattle.meaning.specs.TemplateTexts.{parts_of};
ghost use Rattle.meaning.specs.TemplateRules as rules;
ghost use Rattle.doc_tree.specs.View.{document, documents};
ghost use Rattle.templates.specs.Faults.{IsFirst, faults_here};
ghost use Rattle.templates.specs.View.{piece_view};
ghost use Rattle.templates.specs.NodeRules.{among, seeing};

use crate::data::Piece;
use crate::fault::{Place, TemplateStop};
use crate::holes::{HoleStop, read_text};
use crate::kinds::{NodeWord, node_word};
use annotated_model::Model;
use doc_tree::{Doc, Row, Word};
use std::alloc::Global;

/// Whether a node has the members that its kind needs.
pub fn has_what_it_needs(node: &Doc) -> bool
    ensures { result ≡ rules.has_what_it_needs (document node.now) }
{
    let kind = node_word(node);
    (kind == NodeWord::Use || node.has("text"))
        && (kind != NodeWord::Solution || node.has("check"))
        && (kind != NodeWord::Use || node.has("template"))
}

/// Whether a member is there only where it may be.
fn only_if(may: bool, name: &str, node: &Doc) -> bool
    ensures { result ≡ rules.only_if may name.now (document node.now) }
{
    may || !node.has(name)
}

/// Whether a node has no `each`, no check and no template that its kind doesn't have.
fn tells_its_kind(node: &Doc) -> bool
    ensures { result ≡ (rules.only_if (rules.is_strategy (rules.kind_in (document node.now))) (codes "each") (document node.now)
        && rules.only_if (rules.is_solution (rules.kind_in (document node.now))) (codes "check") (document node.now)
        && rules.only_if (rules.is_use (rules.kind_in (document node.now))) (codes "template") (document node.now)) }
{
    let kind = node_word(node);
    only_if(kind == NodeWord::Strategy, "each", node)
        && only_if(kind == NodeWord::Solution, "check", node)
        && only_if(kind == NodeWord::Use, "template", node)
}

/// Whether the node of a number has no member that its kind doesn't have.
pub fn has_nothing_else(number: usize, node: &Doc) -> bool
    ensures { result ≡ rules.has_nothing_else (number, document node.now) }
{
    let used = node_word(node) == NodeWord::Use;
    tells_its_kind(node)
        && only_if(used, "args", node)
        && only_if(!used, "text", node)
        && only_if(number != 0, "guard", node)
}

/// Whether a node that is supported or not may be as developed as it says.
pub fn is_developed_enough(supported: bool, node: &Doc) -> bool
    ensures { result ≡ (not (truth_at (codes "undeveloped") (document node.now)) || (rules.is_goal_or_strategy (rules.kind_in (document node.now)) && not supported)) }
{
    !node.truth_at("undeveloped") || (node_word(node).argues() && !supported)
}

/// Whether the first node is a goal under nothing.
fn begins(node: &Doc) -> bool
    ensures { result ≡ (rules.is_goal (rules.kind_in (document node.now)) && not (places.has (codes "under") (document node.now))) }
{
    node_word(node) == NodeWord::Goal && !node.has("under")
}

/// Whether the node of a number stands in its place, where this is the node above it.
pub fn stands_in_place(nodes: &[Doc], above: Option<u16>, number: usize, node: &Doc) -> bool
    requires above { above ≡ rules.number_above (among 0 (documents nodes.now)) (number, document node.now) }
    ensures { result ≡ rules.stands_in_place (among 0 (documents nodes.now)) (number, document node.now) }
{
    if number == 0 {
        return begins(node);
    }
    match above {
        Some(upper) => match nodes.get(usize::from(upper)) {
            Some(found) => node_word(node).may_stand_under(node_word(found)),
            None => false,
        },
        None => false,
    }
}

/// Whether the number of answers may stand in the text of a node.
fn has_answers(node: &Doc) -> bool
    ensures { result ≡ (rules.is_strategy (rules.kind_in (document node.now)) && places.has (codes "each") (document node.now)) }
{
    node_word(node) == NodeWord::Strategy && node.has("each")
}

/// The pieces of the text of a node; without a text there are none.
pub fn read_words(
    alloc: Global,
    place: Place,
    model: &Model,
    scope: &[(Word, u16)],
    node: &Doc,
) -> Result<Row<Piece>, TemplateStop>
    requires few { length scope.now ≤ 65536 }
    requires fits { member_within 512 (codes "text") (document node.now) ≡ true }
    ensures value { IfOk result (λ pieces. map piece_view pieces ≡ parts_of model.now scope.now (text_at (codes "text") (document node.now))) }
    ensures none { IfOk result (λ pieces. rules.hole_fault_of_node (seeing model.now [] scope.now) (0, document node.now) ≡ None) }
    ensures fault { IfErr result (IsFirst (faults_here place (broken_at 27 (rules.hole_fault_of_node (seeing model.now [] scope.now) (0, document node.now))))) }
{
    let text = node.text_at("text");
    match read_text(alloc, model, scope, has_answers(node), text) {
        Ok(pieces) => Ok(pieces),
        Err(HoleStop::Fault(at)) => Err(place.broken_at(27, at)),
        Err(HoleStop::NoMemory) => Err(TemplateStop::NoMemory),
    }
}
