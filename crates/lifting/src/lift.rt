//! Lifted nodes of templates, one below the other.

ghost use Rattle.std.specs.Prelude.{◌≡◌, ◌+◌, ◌≤◌, ◌++◌, [], ◌∷◌, ◌&&◌, ⊤, suc, not, true, false, Bool, cond, length, map, List, None, Some, option_map, IfOk, IfErr, OnOk};
ghost use Rattle.std.specs.List.{All};
ghost use Rattle.std.specs.Bool.{OnTrue, OnFalse};
ghost use Rattle.worlds.specs.Algebra.{Kept, HoldsWhere, HoldsNowhere};
ghost use Rattle.meaning.specs.Models.{model_at};
ghost use Rattle.meaning.specs.Queries.{element_of_variable};
ghost use Rattle.meaning.specs.Templates as meaning;
ghost use Rattle.meaning.specs.Templates.{is_guarded_off, instance_within, first_node};
ghost use Rattle.meaning.specs.Tidy.{whole_model, keys_within, first_keys};
ghost use Rattle.lifting.specs.FittingTemplates.{FewVariables};
ghost use Rattle.lifting.specs.Overflows.{Overflows, RowsOverflow};
ghost use Rattle.meaning.proofs.CutTrees.{Each};
ghost use Rattle.annotated_model.specs.ModelFacts.{NamesFeatures};
ghost use Rattle.gsn.specs.View.{kind_of};
ghost use Rattle.path_queries.specs.View.{query};
ghost use Rattle.path_queries.specs.Answering.{Somewhere, tuples_of, tuples_at};
ghost use Rattle.templates.specs.View.{template_view, node_view, kind_view};
ghost use Rattle.templates.specs.declared.data.TKind.TheVariants.{Node};
ghost use Rattle.lifting.specs.Stops.{Halts};
ghost use Rattle.lifting.specs.ThereElements.{IsThere, PartFits};
ghost use Rattle.lifting.specs.Sites.{templates_of, Site, FirstSite, SiteBelow, RowSites, stands_below, below_among, LiesBelow, instances_below, keys_below, instances_of_tuples, keys_of_tuples, AreRows, AddsOne, AddsNode, AddsFirst, AddsBelow};

use crate::growing::Growing;
use crate::keys::{below_key, branch_key, numbered_key};
use crate::stop::LiftStop;
use crate::texts::{element_of, text_parts};
use annotated_model::Model;
use doc_tree::{NoMemory, Row, Word};
use gsn::NodeKind;
use lifted_case::LNode;
use path_queries::{Query, answers, some};
use std::alloc::Global;
use templates::{TKind, TNode, Template};
use worlds::Worlds;

/// The condition of a node: that of the place, where the guard has an answer too.
fn guarded<W: Worlds>(
    alloc: Global,
    model: &Model,
    guard: &Option<Query>,
    bound: &[u16],
    under: W::C,
    w: &mut W,
) -> Result<W::C, LiftStop>
    requires names { NamesFeatures (W.algebra w.old).count model.now }
    requires live { (W.algebra w.old).live under }
    requires few { FewVariables (option_map query guard.now) }
    ensures kept { Kept (W.algebra w.old) (W.algebra w.new) }
    ensures made { IfOk result (λ c. HoldsWhere (W.algebra w.new) c (λ x. (W.algebra w.old).holds under x && not (is_guarded_off (model_at model.now x) bound.now (option_map query guard.now)))) }
    ensures stops { IfErr result (Halts (W.algebra w.old) (W.algebra w.new) ⊥) }
{
    match guard {
        None => Ok(under),
        Some(query) => Ok(some(alloc, model, query, bound, under, w)?),
    }
}

/// The tuples that the node ranges over, each with its condition.
fn rows<W: Worlds>(
    alloc: Global,
    model: &Model,
    each: &Option<Query>,
    bound: &[u16],
    under: W::C,
    w: &mut W,
    most: u32,
) -> Result<Row<(Row<u16>, W::C)>, LiftStop>
    requires names { NamesFeatures (W.algebra w.old).count model.now }
    requires live { (W.algebra w.old).live under }
    requires few { FewVariables (option_map query each.now) }
    ensures kept { Kept (W.algebra w.old) (W.algebra w.new) }
    ensures rows { IfOk result (λ rows. AreRows (W.algebra w.new) model.now (option_map query each.now) bound.now ((W.algebra w.old).holds under) rows) }
    ensures few { IfOk result (λ rows. length rows ≤ most) }
    ensures stops { IfErr result (Halts (W.algebra w.old) (W.algebra w.new) (RowsOverflow (W.algebra w.old) model.now (option_map query each.now) bound.now ((W.algebra w.old).holds under) (most + 1))) }
{
    match each {
        None => Ok(Row::of(Vec::new(alloc))),
        Some(query) => {
            let answers = answers(alloc, model, query, bound, under, w, most)?;
            Ok(answers.tuples)
        }
    }
}

/// The conditions of the rows.
fn conditions<C: Copy>(alloc: Global, rows: &[(Row<u16>, C)]) -> Result<Row<C>, NoMemory>
    ensures { IfOk result (λ all. all ≡ map (λ r. r.1) rows.now) }
{
    let mut all = Vec::new(alloc);
    'rows: for row in rows {
        all.push(row.1)?;
    }
    Ok(Row::of(all))
}

/// The number of elements of a model.
pub fn element_count(model: &Model) -> usize
    ensures { result ≡ length model.now.elements }
{
    model.elements().len()
}

/// The elements that a use gives to the parameters.
fn arguments(alloc: Global, variables: &[u16], bound: &[u16]) -> Result<Vec<u16>, NoMemory>
    ensures { IfOk result (λ elements. elements.items ≡ map (element_of_variable bound.now) variables.now) }
{
    let mut elements = Vec::new(alloc);
    'variables: for variable in variables {
        elements.push(element_of(bound, *variable))?;
    }
    Ok(elements)
}

/// The elements that are bound in the branch of an answer.
fn both_bound(alloc: Global, bound: &[u16], answer: &[u16]) -> Result<Vec<u16>, NoMemory>
    ensures { IfOk result (λ elements. elements.items ≡ bound.now ++ answer.now) }
{
    let mut elements = Vec::new(alloc);
    elements.extend_from_slice(bound)?;
    elements.extend_from_slice(answer)?;
    Ok(elements)
}

/// Whether a node stands directly under another and annotates it, or supports it.
fn stands_under(node: &TNode, above: usize, annotating: bool) -> bool
    ensures { result ≡ stands_below above annotating (node_view node.now) }
{
    let annotates = annotates(node.kind);
    match node.under {
        Some(number) => {
            usize::from(number) == above && (if annotating { annotates } else { !annotates })
        }
        None => false,
    }
}

/// Whether a node of this kind annotates the one above it.
fn annotates(kind: TKind) -> bool
    ensures { (args : List _) → result ≡ meaning.annotates (kind_view args kind) }
{
    matches!(
        kind,
        TKind::Node(NodeKind::Context | NodeKind::Assumption | NodeKind::Justification)
    )
}

/// Whether the condition holds at some world.
fn holds_somewhere<W: Worlds>(condition: W::C, w: &W) -> bool
    requires { (W.algebra w.now).live condition }
    ensures somewhere { OnTrue result (Somewhere (W.algebra w.now) condition) }
    ensures nowhere { OnFalse result (HoldsNowhere (W.algebra w.now) condition) }
{
    // Each world is a list of so many truth values, so that all of them can be tried.
    let _features = w.count();
    !w.is_never(condition)
}

/// Lifts a node under a key, where the elements are bound.
#[cycle(lifting)]
pub fn lift_node<W: Worlds>(
    alloc: Global,
    model: &Model,
    templates: &[Template],
    levels: usize,
    template: &Template,
    number: usize,
    node: &TNode,
    key: &str,
    bound: &[u16],
    under: W::C,
    above: Option<u32>,
    out: &mut Growing<W::C>,
    w: &mut W,
) -> Result<(), LiftStop>
    requires site { Site (W.algebra w.old) model.now (templates_of templates.now) (template_view template.now) number (node_view node.now) bound.now under }
    requires names { NamesFeatures (W.algebra w.old).count model.now }
    requires live { (W.algebra w.old).live under }
    requires room { length out.old.nodes.items + out.old.left ≤ 32768 }
    ensures kept { Kept (W.algebra w.old) (W.algebra w.new) }
    ensures room { OnOk result (length out.new.nodes.items + out.new.left ≤ 32768) }
    ensures adds { OnOk result (AddsNode (W.algebra w.new) model.now (templates_of templates.now) levels (template_view template.now) key.now bound.now (number, node_view node.now) ((W.algebra w.old).holds under) above out.old out.new) }
    ensures stops { IfErr result (Halts (W.algebra w.old) (W.algebra w.new) (Overflows (W.algebra w.new)
        (λ x. cond ((W.algebra w.old).holds under x) (instance_within levels (length model.now.labels) (model_at model.now x) (templates_of templates.now) (template_view template.now) key.now bound.now (number, node_view node.now) ∷ []) [])
        (keys_within levels (whole_model model.now) (templates_of templates.now) (template_view template.now) key.now (number, node_view node.now)) out.old.left)) }
{
    if levels == 0 {
        return Ok(());
    }
    let under = guarded(alloc, model, &node.guard, bound, under, w)?;
    if !holds_somewhere(under, w) {
        return Ok(());
    }
    match node.kind {
        TKind::Node(kind) => lift_plain(
            alloc,
            model,
            templates,
            levels - 1,
            template,
            number,
            node,
            kind,
            key,
            bound,
            under,
            above,
            out,
            w,
        ),
        TKind::Uses(used) => {
            let elements = arguments(alloc, node.args.list(), bound)?;
            match templates.get(usize::from(used)) {
                None => Ok(()),
                Some(used) => lift_first(
                    alloc,
                    model,
                    templates,
                    levels - 1,
                    used,
                    key,
                    elements.as_slice(),
                    under,
                    above,
                    out,
                    w,
                ),
            }
        }
    }
}

/// Lifts the first node of a template, if there is one.
#[cycle(lifting)]
pub fn lift_first<W: Worlds>(
    alloc: Global,
    model: &Model,
    templates: &[Template],
    levels: usize,
    template: &Template,
    key: &str,
    bound: &[u16],
    under: W::C,
    above: Option<u32>,
    out: &mut Growing<W::C>,
    w: &mut W,
) -> Result<(), LiftStop>
    requires site { FirstSite (W.algebra w.old) model.now (templates_of templates.now) (Some (template_view template.now)) bound.now under }
    requires names { NamesFeatures (W.algebra w.old).count model.now }
    requires live { (W.algebra w.old).live under }
    requires room { length out.old.nodes.items + out.old.left ≤ 32768 }
    ensures kept { Kept (W.algebra w.old) (W.algebra w.new) }
    ensures room { OnOk result (length out.new.nodes.items + out.new.left ≤ 32768) }
    ensures adds { OnOk result (AddsFirst (W.algebra w.new) model.now (templates_of templates.now) levels (Some (template_view template.now)) key.now bound.now ((W.algebra w.old).holds under) above out.old out.new) }
    ensures stops { IfErr result (Halts (W.algebra w.old) (W.algebra w.new) (Overflows (W.algebra w.new)
        (λ x. cond ((W.algebra w.old).holds under x) (first_node (instance_within levels (length model.now.labels) (model_at model.now x) (templates_of templates.now)) (Some (template_view template.now)) key.now bound.now ∷ []) [])
        (first_keys (keys_within levels (whole_model model.now) (templates_of templates.now)) (Some (template_view template.now)) key.now) out.old.left)) }
{
    match template.nodes.list().first() {
        None => Ok(()),
        Some(node) => lift_node(
            alloc, model, templates, levels, template, 0, node, key, bound, under, above, out, w,
        ),
    }
}

/// Lifts a node of a kind, what annotates it, and what supports it.
#[cycle(lifting)]
fn lift_plain<W: Worlds>(
    alloc: Global,
    model: &Model,
    templates: &[Template],
    levels: usize,
    template: &Template,
    number: usize,
    node: &TNode,
    kind: NodeKind,
    key: &str,
    bound: &[u16],
    under: W::C,
    above: Option<u32>,
    out: &mut Growing<W::C>,
    w: &mut W,
) -> Result<(), LiftStop>
    requires site { Site (W.algebra w.old) model.now (templates_of templates.now) (template_view template.now) number (node_view node.now) bound.now under }
    requires kind { node.now.kind ≡ Node kind }
    requires occurs { Somewhere (W.algebra w.old) under }
    requires names { NamesFeatures (W.algebra w.old).count model.now }
    requires live { (W.algebra w.old).live under }
    requires room { length out.old.nodes.items + out.old.left ≤ 32768 }
    ensures kept { Kept (W.algebra w.old) (W.algebra w.new) }
    ensures room { OnOk result (length out.new.nodes.items + out.new.left ≤ 32768) }
    ensures adds { OnOk result ((before : List Bool → Bool) → ((x : _) → (W.algebra w.new).is_world x ≡ true → (W.algebra w.old).holds under x ≡ (before x && not (is_guarded_off (model_at model.now x) bound.now (node_view node.now).guard)))
        → AddsNode (W.algebra w.new) model.now (templates_of templates.now) (suc levels) (template_view template.now) key.now bound.now (number, node_view node.now) before above out.old out.new) }
    ensures stops { IfErr result (Halts (W.algebra w.old) (W.algebra w.new) (
        (before : List Bool → Bool) → ((x : _) → (W.algebra w.new).is_world x ≡ true → (W.algebra w.old).holds under x ≡ (before x && not (is_guarded_off (model_at model.now x) bound.now (node_view node.now).guard)))
        → Overflows (W.algebra w.new)
        (λ x. cond (before x) (instance_within (suc levels) (length model.now.labels) (model_at model.now x) (templates_of templates.now) (template_view template.now) key.now bound.now (number, node_view node.now) ∷ []) [])
        (keys_within (suc levels) (whole_model model.now) (templates_of templates.now) (template_view template.now) key.now (number, node_view node.now)) out.old.left)) }
{
    let place = out.nodes.len() as u32;
    let rows = place_node(alloc, model, node, kind, key, bound, under, above, out, w)?;
    let below = below_key(alloc, key)?;
    let front = below.as_str();
    lift_below(
        alloc, model, templates, levels, template, number, true, front, bound, under, place, out, w,
    )?;
    match node.each {
        None => lift_below(
            alloc, model, templates, levels, template, number, false, front, bound, under, place,
            out, w,
        ),
        Some(_) => {
            // The numbers of elements are small, so that no two keys are equal.
            let _elements = element_count(model);
            lift_rows(
                alloc,
                model,
                templates,
                levels,
                template,
                number,
                key,
                bound,
                rows.list(),
                place,
                out,
                w,
            )
        }
    }
}

/// Adds a node of a kind, and gives the rows that it ranges over.
fn place_node<W: Worlds>(
    alloc: Global,
    model: &Model,
    node: &TNode,
    kind: NodeKind,
    key: &str,
    bound: &[u16],
    under: W::C,
    above: Option<u32>,
    out: &mut Growing<W::C>,
    w: &mut W,
) -> Result<Row<(Row<u16>, W::C)>, LiftStop>
    requires few { FewVariables (node_view node.now).each }
    requires unchecked { (node_view node.now).check ≡ None }
    requires as_many { Each (PartFits (length bound.now)) (node_view node.now).words }
    requires there { (x : _) → (W.algebra w.old).is_world x ≡ true → (W.algebra w.old).holds under x ≡ true → Each (IsThere model.now x) bound.now }
    requires occurs { Somewhere (W.algebra w.old) under }
    requires names { NamesFeatures (W.algebra w.old).count model.now }
    requires live { (W.algebra w.old).live under }
    requires room { length out.old.nodes.items + out.old.left ≤ 32768 }
    ensures kept { Kept (W.algebra w.old) (W.algebra w.new) }
    ensures room { IfOk result (λ _. length out.new.nodes.items + out.new.left ≤ 32768) }
    ensures rows { IfOk result (λ rows. AreRows (W.algebra w.new) model.now (node_view node.now).each bound.now ((W.algebra w.old).holds under) rows) }
    ensures adds { IfOk result (λ rows. AddsOne (W.algebra w.new) model.now (node_view node.now) (kind_of kind) key.now bound.now ((W.algebra w.old).holds under) rows above out.old out.new) }
    ensures stops { IfErr result (Halts (W.algebra w.old) (W.algebra w.new) (RowsOverflow (W.algebra w.old) model.now (node_view node.now).each bound.now ((W.algebra w.old).holds under) out.old.left)) }
{
    if out.left == 0 {
        return Err(LiftStop::BigCase);
    }
    let rows = rows(alloc, model, &node.each, bound, under, w, out.left - 1)?;
    let text = text_parts(alloc, model, bound, node.text.list())?;
    let made = LNode {
        key: Word::of(alloc, key)?,
        kind,
        text,
        when: under,
        undeveloped: node.undeveloped,
        branches: conditions(alloc, rows.list())?,
        finding: None,
    };
    out.add(made, above)?;
    out.left -= 1 + rows.list().len() as u32;
    Ok(rows)
}

/// Lifts what supports a node in the branch of each row.
#[cycle(lifting)]
fn lift_rows<W: Worlds>(
    alloc: Global,
    model: &Model,
    templates: &[Template],
    levels: usize,
    template: &Template,
    number: usize,
    key: &str,
    bound: &[u16],
    rows: &[(Row<u16>, W::C)],
    place: u32,
    out: &mut Growing<W::C>,
    w: &mut W,
) -> Result<(), LiftStop>
    requires sites { RowSites (W.algebra w.old) model.now (templates_of templates.now) (template_view template.now) number bound.now rows.now }
    requires names { NamesFeatures (W.algebra w.old).count model.now }
    requires live { All (λ r. (W.algebra w.old).live r.1) rows.now }
    requires room { length out.old.nodes.items + out.old.left ≤ 32768 }
    ensures kept { Kept (W.algebra w.old) (W.algebra w.new) }
    ensures room { OnOk result (length out.new.nodes.items + out.new.left ≤ 32768) }
    ensures adds { OnOk result (AddsBelow (W.algebra w.new) key.now place
        (λ x. instances_of_tuples model.now (templates_of templates.now) levels (template_view template.now) key.now bound.now (below_among (template_view template.now).nodes number false) (tuples_at (W.algebra w.old) rows.now x) x)
        (keys_of_tuples model.now (templates_of templates.now) levels (template_view template.now) key.now (below_among (template_view template.now).nodes number false) (tuples_of rows.now)) out.old out.new) }
    ensures stops { IfErr result (Halts (W.algebra w.old) (W.algebra w.new) (Overflows (W.algebra w.new)
        (λ x. instances_of_tuples model.now (templates_of templates.now) levels (template_view template.now) key.now bound.now (below_among (template_view template.now).nodes number false) (tuples_at (W.algebra w.old) rows.now x) x)
        (keys_of_tuples model.now (templates_of templates.now) levels (template_view template.now) key.now (below_among (template_view template.now).nodes number false) (tuples_of rows.now)) out.old.left)) }
{
    'rows: for row in rows {
        let front = branch_key(alloc, key, row.0.list())?;
        let elements = both_bound(alloc, bound, row.0.list())?;
        lift_below(
            alloc,
            model,
            templates,
            levels,
            template,
            number,
            false,
            front.as_str(),
            elements.as_slice(),
            row.1,
            place,
            out,
            w,
        )?;
    }
    Ok(())
}

/// Lifts the nodes that annotate a node, or those that support it.
#[cycle(lifting)]
fn lift_below<W: Worlds>(
    alloc: Global,
    model: &Model,
    templates: &[Template],
    levels: usize,
    template: &Template,
    number: usize,
    annotating: bool,
    front: &str,
    bound: &[u16],
    under: W::C,
    place: u32,
    out: &mut Growing<W::C>,
    w: &mut W,
) -> Result<(), LiftStop>
    requires site { SiteBelow (W.algebra w.old) model.now (templates_of templates.now) (template_view template.now) number annotating bound.now under }
    requires names { NamesFeatures (W.algebra w.old).count model.now }
    requires live { (W.algebra w.old).live under }
    requires room { length out.old.nodes.items + out.old.left ≤ 32768 }
    ensures kept { Kept (W.algebra w.old) (W.algebra w.new) }
    ensures room { OnOk result (length out.new.nodes.items + out.new.left ≤ 32768) }
    ensures adds { OnOk result ((upper : List _) → LiesBelow front.now upper → AddsBelow (W.algebra w.new) upper place
        (λ x. cond ((W.algebra w.old).holds under x) (instances_below model.now (templates_of templates.now) levels (template_view template.now) front.now bound.now (below_among (template_view template.now).nodes number annotating) x) [])
        (keys_below model.now (templates_of templates.now) levels (template_view template.now) front.now (below_among (template_view template.now).nodes number annotating)) out.old out.new) }
    ensures stops { IfErr result (Halts (W.algebra w.old) (W.algebra w.new) (Overflows (W.algebra w.new)
        (λ x. cond ((W.algebra w.old).holds under x) (instances_below model.now (templates_of templates.now) levels (template_view template.now) front.now bound.now (below_among (template_view template.now).nodes number annotating) x) [])
        (keys_below model.now (templates_of templates.now) levels (template_view template.now) front.now (below_among (template_view template.now).nodes number annotating)) out.old.left)) }
{
    let nodes = template.nodes.list();
    let mut other = 0;
    'nodes: for node in nodes {
        if stands_under(node, number, annotating) {
            let key = numbered_key(alloc, front, other)?;
            lift_node(
                alloc,
                model,
                templates,
                levels,
                template,
                other,
                node,
                key.as_str(),
                bound,
                under,
                Some(place),
                out,
                w,
            )?;
        }
        other += 1;
    }
    Ok(())
}
