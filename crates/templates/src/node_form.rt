//! The form of a node of a template.

ghost use Rattle.std.specs.Prelude.{◌≡◌, ◌&&◌, [], true, codes, IfOk, IfErr, IfSome, IfNone};
ghost use Rattle.meaning.specs.Documents.{table, no_members};
ghost use Rattle.meaning.specs.ModelRules as model_rules;
ghost use Rattle.meaning.specs.TemplateRules as rules;
ghost use Rattle.meaning.specs.BundlePlaces as places;
ghost use Rattle.doc_tree.specs.View.{document};
ghost use Rattle.templates.specs.Faults.{IsFirst, faults_here};
ghost use Rattle.templates.specs.NodeRules.{form_with};

use crate::fault::{Place, TemplateStop};
use crate::lengths::member_within;
use cond_text::is_name;
use doc_tree::Doc;

/// The most bytes of the text of a node.
const TEXT_LIMIT: usize = 512;

/// The most bytes of a query or an expression.
const QUERY_LIMIT: usize = 4096;

/// The table of the check of a node, if it has one.
pub fn check_table(node: &Doc) -> Option<&Doc>
    ensures there { IfSome result (λ check. document check.now ≡ rules.check_in (document node.now)) }
    ensures none { IfNone result (rules.check_in (document node.now) ≡ table no_members) }
{
    match node.member("check") {
        Some(check) => { if check.is_table() { Some(check) } else { None } }
        None => None,
    }
}

fn has_form(node: &Doc) -> bool
    ensures { result ≡ rules.node_has_form (document node.now) }
{
    node.is_table()
        && node.needs_text("id")
        && node.needs_text("kind")
        && node.may_have_text("under")
        && node.may_have_text("text")
        && node.may_have_text("each")
        && node.may_have_text("guard")
        && node.may_have_table("check")
        && node.may_have_text("template")
        && node.may_have_texts("args")
        && node.may_have_truth("undeveloped")
}

/// Whether the expression and the queries of a check are within their limits.
fn check_fits(check: &Doc) -> bool
    ensures { result ≡ (places.member_within 4096 (codes "never") (document check.now) && places.member_within 4096 (codes "none") (document check.now)
        && places.member_within 4096 (codes "some") (document check.now)) }
{
    member_within(QUERY_LIMIT, "never", check)
        && member_within(QUERY_LIMIT, "none", check)
        && member_within(QUERY_LIMIT, "some", check)
}

/// Whether the text of a node, its queries and those of its check are within their limits.
fn texts_fit(node: &Doc) -> bool
    ensures { result ≡ rules.node_texts_fit (document node.now) }
{
    let own = member_within(TEXT_LIMIT, "text", node)
        && member_within(QUERY_LIMIT, "each", node)
        && member_within(QUERY_LIMIT, "guard", node);
    match check_table(node) {
        Some(check) => own && check_fits(check),
        None => own,
    }
}

/// The rules of form at a node whose identifier is new or not, and which stands within the limit or not.
pub fn check_form(place: Place, new: bool, within: bool, node: &Doc) -> Result<(), TemplateStop>
    ensures fit { IfOk result (λ _. rules.node_texts_fit (document node.now) ≡ true) }
    ensures new { IfOk result (λ _. new ≡ true) }
    ensures within { IfOk result (λ _. within ≡ true) }
    ensures none { IfOk result (λ _. form_with new within (document node.now) ≡ []) }
    ensures fault { IfErr result (IsFirst (faults_here place (form_with new within (document node.now)))) }
{
    place.require_texts(
        has_form(node),
        is_name(node.text_at("id")),
        texts_fit(node),
        new,
        within,
    )
}

/// Whether a node has its form, where its identifier is new or not, and it stands within the limit or not.
#[tactic(auto, using(crate::proofs::FormLaws::formed_is))]
pub fn is_formed(new: bool, within: bool, node: &Doc) -> bool
    ensures formed { result ≡ model_rules.is_formed (form_with new within (document node.now)) }
    ensures new { result ≡ true → new ≡ true }
    ensures within { result ≡ true → within ≡ true }
{
    has_form(node) && is_name(node.text_at("id")) && texts_fit(node) && new && within
}
