//! The rules of a line, as a document lists them.

ghost use Rattle.std.specs.Prelude.{◌≡◌, ◌≤◌, ◌++◌, ◌∷◌, [], length, map, codes, is_some, option_map, IfOk, IfErr, IfSome, None, true};
ghost use Rattle.meaning.specs.Texts.{first_of_list};
ghost use Rattle.meaning.specs.Texts as texts;
ghost use Rattle.meaning.specs.Documents.{texts_in};
ghost use Rattle.meaning.specs.Expressions.{name_bound};
ghost use Rattle.meaning.specs.Features.{feature_names, constraint_of, constraint_from, text_member};
ghost use Rattle.meaning.specs.BundlePlaces.{faults_at, faults_of_items, text_within, member_within};
ghost use Rattle.meaning.specs.BundlePlaces as places;
ghost use Rattle.meaning.specs.LineRules.{line_rule_has_form, line_rule_rules, line_rule_is_one, expression_rules};
ghost use Rattle.cond_text.specs.View.{expression};
ghost use Rattle.doc_tree.specs.View.{document, documents};
ghost use Rattle.feature_model.specs.Contents.{line_view};
ghost use Rattle.feature_model.specs.Reading.{TellsFault, rule_form_at, two_places, IsClaimed};
ghost use Rattle.feature_model.specs.declared.read.LineStop.TheVariants as stop;
ghost use Rattle.doc_tree.specs.declared.fault.Part.TheVariants as part;

use crate::condition::{both, implies, not};
use crate::config::text_of;
use crate::line::Line;
use crate::read::LineStop;
use cond_text::{Expr, ExprStop, Names, parse};
use doc_tree::{BundleFault, Doc, Part};
use std::alloc::Global;

/// The line, which has no constraints, with those of the rules.
pub fn read_rules(alloc: Global, line: Line, rules: &[Doc]) -> Result<Line, LineStop>
    requires { line.constraints ≡ [] }
    ensures features { IfOk result (λ read. read.features ≡ line.features) }
    ensures constraints { IfOk result (λ read. map expression read.constraints ≡ map (constraint_of (feature_names (line_view line))) (documents rules.now)) }
    ensures no_fault { IfOk result (λ read. faults_of_items places.Rules (line_rule_rules (feature_names (line_view line))) (documents rules.now) ≡ []) }
    ensures fault { IfErr result (λ stop. TellsFault stop
        (first_of_list (faults_of_items places.Rules (line_rule_rules (feature_names (line_view line))) (documents rules.now)))) }
{
    let mut line = line;
    'rules: for (no, rule) in rules.iter().enumerate() {
        line = with_read_rule(alloc, line, no, rule)?;
    }
    Ok(line)
}

/// The line with one more constraint.
fn with_read_rule(alloc: Global, line: Line, no: usize, rule: &Doc) -> Result<Line, LineStop>
    requires number { length line.constraints ≡ no }
    requires few { no ≤ 1024 }
    ensures features { IfOk result (λ read. read.features ≡ line.features) }
    ensures added { IfOk result (λ read. map expression read.constraints
        ≡ map expression line.constraints ++ constraint_of (feature_names (line_view line)) (document rule.now) ∷ []) }
    ensures no_fault { IfOk result (λ read. line_rule_rules (feature_names (line_view line)) (no, document rule.now) ≡ []) }
    ensures fault { IfErr result (λ stop. TellsFault stop
        (first_of_list (faults_at places.Rules no 0 (line_rule_rules (feature_names (line_view line)) (no, document rule.now))))) }
{
    let constraint = read_rule(alloc, line.features(), no, rule)?;
    Ok(line.with_constraint(constraint)?)
}

/// The constraint that a rule tells.
fn read_rule(alloc: Global, names: &Names, no: usize, rule: &Doc) -> Result<Expr, LineStop>
    requires { no ≤ 1024 }
    ensures value { IfOk result (λ e. expression e ≡ constraint_of names.now (document rule.now)) }
    ensures bound { IfOk result (λ e. name_bound (expression e) ≤ length names.now) }
    ensures no_fault { IfOk result (λ e. line_rule_rules names.now (no, document rule.now) ≡ []) }
    ensures fault { IfErr result (λ stop. TellsFault stop (first_of_list (faults_at places.Rules no 0 (line_rule_rules names.now (no, document rule.now))))) }
{
    if let Some(broken) = broken_form(no, rule) {
        return Err(fault(broken, no, 0));
    }
    match claimed(names, rule) {
        Some(Claim::Requires(a, b)) => Ok(implies(alloc, Expr::Name(a), Expr::Name(b))?),
        Some(Claim::Excludes(a, b)) => {
            let together = both(alloc, Expr::Name(a), Expr::Name(b))?;
            Ok(not(alloc, together)?)
        }
        Some(Claim::Holds) => holds(alloc, names, no, rule),
        None => Err(fault(10, no, 0)),
    }
}

/// A broken rule at an item of the rules.
fn fault(rule: u8, no: usize, at: u32) -> LineStop
    requires { no ≤ 1024 }
    ensures { result ≡ stop.Fault (record { rule = rule; part = part.Rules; item = no; sub = 0; at = at }) }
{
    LineStop::Fault(BundleFault {
        rule,
        part: Part::Rules,
        item: no as u32,
        sub: 0,
        at,
    })
}

/// The first rule of form that is broken at a rule of the line.
fn broken_form(no: usize, rule: &Doc) -> Option<u8>
    ensures { option_map (λ broken. (broken, 0)) result ≡ first_of_list (rule_form_at no (document rule.now)) }
{
    if !has_form(rule) {
        Some(2)
    } else if !is_text_within(4096, rule.text_at("holds")) {
        Some(4)
    } else if no == 1024 {
        Some(6)
    } else {
        None
    }
}

fn has_form(rule: &Doc) -> bool
    ensures { result ≡ line_rule_has_form (document rule.now) }
{
    rule.is_table()
        && rule.may_have_texts("requires")
        && rule.may_have_texts("excludes")
        && rule.may_have_text("holds")
}

/// Whether the text has no control character and at most so many bytes.
fn is_text_within(limit: usize, text: &str) -> bool
    ensures { result ≡ text_within limit text.now }
{
    is_text(text) && text.len() <= limit
}

fn is_text(text: &str) -> bool
    ensures { result ≡ texts.is_text text.now }
{
    text.as_bytes()
        .iter()
        .all(|byte| 32 <= *byte && *byte != 127)
}

/// What a rule of the line tells.
enum Claim {
    /// The first feature needs the second.
    Requires(u16, u16),
    /// The two features are not together.
    Excludes(u16, u16),
    /// An expression holds.
    Holds,
}

/// What the rule tells, if that is one thing, and of two features where it names features.
fn claimed(names: &Names, rule: &Doc) -> Option<Claim>
    ensures is_one { is_some result ≡ line_rule_is_one names.now (document rule.now) }
    ensures claim { IfSome result (λ t. IsClaimed names.now (document rule.now) t) }
{
    let needs = rule.has("requires");
    let bars = rule.has("excludes");
    let holds = rule.has("holds");
    if needs && !bars && !holds {
        let (a, b) = two_features(names, rule.list_at("requires"))?;
        Some(Claim::Requires(a, b))
    } else if !needs && bars && !holds {
        let (a, b) = two_features(names, rule.list_at("excludes"))?;
        Some(Claim::Excludes(a, b))
    } else if !needs && !bars && holds {
        Some(Claim::Holds)
    } else {
        None
    }
}

/// The numbers of two features, if the items name two.
fn two_features(names: &Names, items: &[Doc]) -> Option<(u16, u16)>
    ensures { result ≡ two_places names.now (texts_in (documents items.now)) }
{
    if items.len() != 2 {
        return None;
    }
    let first = names.find(text_of(&items[0]))?;
    let second = names.find(text_of(&items[1]))?;
    Some((first, second))
}

/// The constraint of a rule that tells an expression.
fn holds(alloc: Global, names: &Names, no: usize, rule: &Doc) -> Result<Expr, LineStop>
    requires few { no ≤ 1024 }
    requires within { member_within 4096 (codes "holds") (document rule.now) ≡ true }
    ensures value { IfOk result (λ e. expression e ≡ constraint_from names.now None None (text_member (codes "holds") (document rule.now))) }
    ensures bound { IfOk result (λ e. name_bound (expression e) ≤ length names.now) }
    ensures no_fault { IfOk result (λ e. expression_rules names.now (codes "holds") (document rule.now) ≡ []) }
    ensures fault { IfErr result (λ stop. TellsFault stop (first_of_list (faults_at places.Rules no 0 (expression_rules names.now (codes "holds") (document rule.now))))) }
{
    match rule.text_member("holds") {
        Some(text) => match parse(alloc, text, names) {
            Ok(e) => Ok(e),
            Err(ExprStop::UnknownName(at)) => Err(fault(12, no, at)),
            Err(ExprStop::Syntax(at)) => Err(fault(11, no, at)),
            Err(ExprStop::TooMany(at)) => Err(fault(11, no, at)),
            Err(ExprStop::NoMemory) => Err(LineStop::NoMemory),
        },
        None => Ok(Expr::Top),
    }
}
