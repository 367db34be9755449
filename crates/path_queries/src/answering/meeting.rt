//! Where the elements of a tuple meet the constraints of a query.

ghost use Rattle.std.specs.Prelude.{◌≡◌, ◌<◌, ◌^◌, ◌++◌, ◌&&◌, not, length, bytes_eq, IfOk, IfErr};
ghost use Rattle.meaning.specs.Models.{model_at, attribute_at};
ghost use Rattle.meaning.specs.Queries.{element_of_variable, alike};
ghost use Rattle.worlds.specs.Algebra.{Worked, HoldsWhere, IsRefusal};
ghost use Rattle.path_queries.specs.View.{query};
ghost use Rattle.path_queries.specs.Matrices.{relation_at, IsMatrix};
ghost use Rattle.path_queries.specs.Presence.{TellElements};
ghost use Rattle.path_queries.specs.Searching.{IsReady, value_at, leads_within, meets_number};
ghost use Rattle.path_queries.specs.Tuples.{accepts};

use crate::answering::preparation::Search;
use crate::data::Constraint;
use annotated_model::Model;
use worlds::{NodeLimit, Worlds};

/// The element of a variable: one in scope, or a later one. It is 0 where there is no such variable.
fn element_of(bound: &[u16], given: &[u16], variable: u16) -> u16
    ensures { result ≡ element_of_variable (bound.now ++ given.now) variable }
{
    let place = usize::from(variable);
    if place < bound.len() {
        return bound[place];
    }
    let later = place - bound.len();
    if later < given.len() { given[later] } else { 0 }
}

/// The value of an element's attribute. It is empty where the model has none.
fn value_of(model: &Model, e: u16, attribute: u16) -> &str
    ensures { result.now ≡ value_at model.now e attribute }
{
    match model.elements().get(usize::from(e)) {
        Some(element) => match element.attributes.list().get(usize::from(attribute)) {
            Some(value) => value.text(),
            None => "",
        },
        None => "",
    }
}

/// Whether the value equals the text, or differs from it.
fn agrees(value: &str, text: &str, equal: bool) -> bool
    ensures { result ≡ alike equal (bytes_eq value.now text.now) }
{
    (value == text) == equal
}

/// The condition, or one that never holds.
fn under_if<W: Worlds>(kept: bool, under: W::C, w: &W) -> W::C
    requires { (W.algebra w.now).live under }
    ensures { HoldsWhere (W.algebra w.now) result (λ x. (W.algebra w.now).holds under x && kept) }
{
    if kept { under } else { w.never() }
}

/// Holds where the condition does, and the value of the element's attribute equals the text, or differs from it.
/// Where the element isn't there, its value is empty.
fn meets_attribute<W: Worlds>(
    model: &Model,
    elements: &[W::C],
    e: u16,
    attribute: u16,
    text: &str,
    equal: bool,
    under: W::C,
    w: &mut W,
) -> Result<W::C, NodeLimit>
    requires elements { TellElements (W.algebra w.old) model.now elements.now }
    requires under { (W.algebra w.old).live under }
    ensures worked { Worked 1 (W.algebra w.old) (W.algebra w.new) }
    ensures made { IfOk result (λ c. HoldsWhere (W.algebra w.new) c (λ x. (W.algebra w.old).holds under x && alike equal (bytes_eq (attribute_at (model_at model.now x) e attribute) text.now))) }
    ensures refused { IfErr result (IsRefusal (W.algebra w.old) (W.algebra w.new)) }
{
    let there = agrees(value_of(model, e, attribute), text, equal);
    let absent = agrees("", text, equal);
    let place = usize::from(e);
    if place >= elements.len() || there == absent {
        return Ok(under_if(absent, under, w));
    }
    if there {
        w.both(under, elements[place])
    } else {
        w.without(under, elements[place])
    }
}

/// Holds where the condition does, and the relation leads from one element to the other, or doesn't.
fn meets_walk<W: Worlds>(
    n: usize,
    cells: &[W::C],
    from: u16,
    to: u16,
    negated: bool,
    under: W::C,
    w: &mut W,
) -> Result<W::C, NodeLimit>
    requires bound { n < 2 ^ 16 }
    requires cells { IsMatrix (W.algebra w.old) n cells.now }
    requires under { (W.algebra w.old).live under }
    ensures worked { Worked 1 (W.algebra w.old) (W.algebra w.new) }
    ensures made { IfOk result (λ c. HoldsWhere (W.algebra w.new) c (λ x. (W.algebra w.old).holds under x && not (alike negated (leads_within n (relation_at (W.algebra w.old) n cells.now x) from to)))) }
    ensures refused { IfErr result (IsRefusal (W.algebra w.old) (W.algebra w.new)) }
{
    let (i, j) = (usize::from(from), usize::from(to));
    if i >= n || j >= n {
        return Ok(under_if(negated, under, w));
    }
    if negated {
        w.without(under, cells[i * n + j])
    } else {
        w.both(under, cells[i * n + j])
    }
}

/// Holds where the condition does and the elements meet the constraint of a number.
fn meets<W: Worlds>(
    search: &Search<W::C>,
    number: usize,
    given: &[u16],
    under: W::C,
    w: &mut W,
) -> Result<W::C, NodeLimit>
    requires ready { IsReady (W.algebra w.old) search.now }
    requires number { number < length search.now.query.now.constraints }
    requires under { (W.algebra w.old).live under }
    ensures worked { Worked 1 (W.algebra w.old) (W.algebra w.new) }
    ensures made { IfOk result (λ c. HoldsWhere (W.algebra w.new) c (λ x. (W.algebra w.old).holds under x && meets_number (model_at search.now.model.now x) (query search.now.query.now) (search.now.bound.now ++ given.now) number)) }
    ensures refused { IfErr result (IsRefusal (W.algebra w.old) (W.algebra w.new)) }
{
    match &search.query.constraints.list()[number] {
        Constraint::Walk {
            from,
            path: _,
            to,
            negated,
        } => {
            let from = element_of(search.bound, given, *from);
            let to = element_of(search.bound, given, *to);
            let cells = search.relations.list()[number].list();
            meets_walk(
                search.model.elements().len(),
                cells,
                from,
                to,
                *negated,
                under,
                w,
            )
        }
        Constraint::Attr {
            var,
            attr,
            text,
            equal,
        } => {
            let e = element_of(search.bound, given, *var);
            meets_attribute(
                search.model,
                search.elements.list(),
                e,
                *attr,
                text.text(),
                *equal,
                under,
                w,
            )
        }
    }
}

/// Holds where the condition does and the elements meet all constraints.
pub fn meets_all<W: Worlds>(
    search: &Search<W::C>,
    given: &[u16],
    under: W::C,
    w: &mut W,
) -> Result<W::C, NodeLimit>
    requires ready { IsReady (W.algebra w.old) search.now }
    requires under { (W.algebra w.old).live under }
    ensures worked { Worked (length search.now.query.now.constraints) (W.algebra w.old) (W.algebra w.new) }
    ensures made { IfOk result (λ c. HoldsWhere (W.algebra w.new) c (λ x. (W.algebra w.old).holds under x && accepts (model_at search.now.model.now x) (query search.now.query.now) search.now.bound.now given.now)) }
    ensures refused { IfErr result (IsRefusal (W.algebra w.old) (W.algebra w.new)) }
{
    let mut here = under;
    for number in 0..search.query.constraints.list().len() {
        if w.is_never(here) {
            return Ok(here);
        }
        here = meets(search, number, given, here, w)?;
    }
    Ok(here)
}
