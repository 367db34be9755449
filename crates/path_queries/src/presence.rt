//! Where elements and links are there.

ghost use Rattle.std.specs.Prelude.{◌≡◌, ◌≤◌, ◌<◌, ◌+◌, ◌*◌, ◌&&◌, length, map, IfOk, IfErr};
ghost use Rattle.std.specs.List.{sum_by, slice_get};
ghost use Rattle.meaning.specs.Expressions.{size_of};
ghost use Rattle.meaning.specs.Models.{has_element};
ghost use Rattle.worlds.specs.Algebra.{Worked, HoldsWhere, IsRefusal, Stops};
ghost use Rattle.annotated_model.specs.ModelFacts.{NamesFeatures};
ghost use Rattle.path_queries.specs.Presence.{element_size, keeps_link, link_size, link_asks, IsEdge, TellElements, TellsLink, TellLinks};

use annotated_model::{Link, Model};
use std::alloc::Global;
use worlds::{NodeLimit, QStop, Worlds, condition};

/// A link of a kind between two elements, and where it is there with both of them.
#[derive(Clone, Copy)]
pub struct Edge<C> {
    pub kind: u16,
    pub from: u16,
    pub to: u16,
    pub when: C,
}

/// Holds where the element is there. At most 16 conditions are asked for per node of its expression.
pub fn element_when<W: Worlds>(model: &Model, e: u16, w: &mut W) -> Result<W::C, NodeLimit>
    requires there { e < length model.now.elements }
    requires names { NamesFeatures (W.algebra w.old).count model.now }
    ensures worked { Worked (16 * element_size model.now e) (W.algebra w.old) (W.algebra w.new) }
    ensures made { IfOk result (λ c. HoldsWhere (W.algebra w.new) c (λ x. has_element model.now.elements x e)) }
    ensures refused { IfErr result (IsRefusal (W.algebra w.old) (W.algebra w.new)) }
{
    let elements = model.elements();
    condition(&elements[usize::from(e)].when, w)
}

/// Holds where the link is there, with both its ends. At most 16 conditions are asked for per node of its expression and of theirs.
pub fn link_when<W: Worlds>(model: &Model, l: u16, w: &mut W) -> Result<W::C, NodeLimit>
    requires there { l < length model.now.links }
    requires names { NamesFeatures (W.algebra w.old).count model.now }
    ensures worked { Worked (16 * link_size model.now l) (W.algebra w.old) (W.algebra w.new) }
    ensures made { IfOk result (λ c. HoldsWhere (W.algebra w.new) c (λ x. keeps_link model.now x l)) }
    ensures refused { IfErr result (IsRefusal (W.algebra w.old) (W.algebra w.new)) }
{
    let links = model.links();
    let link = &links[usize::from(l)];
    let itself = condition(&link.when, w)?;
    let from = element_when(model, link.from, w)?;
    let to = element_when(model, link.to, w)?;
    all_three(itself, from, to, w)
}

/// Holds where all three hold.
fn all_three<W: Worlds>(a: W::C, b: W::C, c: W::C, w: &mut W) -> Result<W::C, NodeLimit>
    requires a_live { (W.algebra w.old).live a }
    requires b_live { (W.algebra w.old).live b }
    requires c_live { (W.algebra w.old).live c }
    ensures worked { Worked 2 (W.algebra w.old) (W.algebra w.new) }
    ensures made { IfOk result (λ all. HoldsWhere (W.algebra w.new) all (λ x. (W.algebra w.old).holds a x && (W.algebra w.old).holds b x && (W.algebra w.old).holds c x)) }
    ensures refused { IfErr result (IsRefusal (W.algebra w.old) (W.algebra w.new)) }
{
    let both = w.both(a, b)?;
    w.both(both, c)
}

/// Where each element is there.
pub fn elements_when<W: Worlds>(alloc: Global, model: &Model, w: &mut W) -> Result<Vec<W::C>, QStop>
    requires names { NamesFeatures (W.algebra w.old).count model.now }
    ensures worked { Worked (8 * sum_by (λ e. size_of e.presence) model.now.elements) (W.algebra w.old) (W.algebra w.new) }
    ensures made { IfOk result (λ cs. TellElements (W.algebra w.new) model.now cs.items) }
    ensures stops { IfErr result (Stops (W.algebra w.old) (W.algebra w.new)) }
{
    let elements = model.elements();
    let mut conditions = Vec::new(alloc);
    for element in elements {
        let here = condition(&element.when, w)?;
        conditions.push(here)?;
    }
    Ok(conditions)
}

/// The link of a number, with the condition that it is there, by those of all elements.
fn edge_of<W: Worlds>(
    model: &Model,
    l: usize,
    elements: &[W::C],
    w: &mut W,
) -> Result<Edge<W::C>, NodeLimit>
    requires there { l < length model.now.links }
    requires names { NamesFeatures (W.algebra w.old).count model.now }
    requires elements { TellElements (W.algebra w.old) model.now elements.now }
    ensures worked { Worked (link_asks (slice_get model.now.links l)) (W.algebra w.old) (W.algebra w.new) }
    ensures made { IfOk result (λ e. IsEdge (W.algebra w.new) (length model.now.elements) e) }
    ensures arrow { IfOk result (λ e. TellsLink (W.algebra w.new) model.now l e) }
    ensures refused { IfErr result (IsRefusal (W.algebra w.old) (W.algebra w.new)) }
{
    let links = model.links();
    let link = &links[l];
    let itself = condition(&link.when, w)?;
    let source = elements[usize::from(link.from)];
    let target = elements[usize::from(link.to)];
    let when = all_three(itself, source, target, w)?;
    Ok(Edge {
        kind: link.kind,
        from: link.from,
        to: link.to,
        when,
    })
}

/// Where each link is there, by the conditions of all elements.
pub fn links_when<W: Worlds>(
    alloc: Global,
    model: &Model,
    elements: &[W::C],
    w: &mut W,
) -> Result<Vec<Edge<W::C>>, QStop>
    requires names { NamesFeatures (W.algebra w.old).count model.now }
    requires elements { TellElements (W.algebra w.old) model.now elements.now }
    ensures worked { Worked (sum_by (λ l. 8 * size_of l.presence + 2) model.now.links) (W.algebra w.old) (W.algebra w.new) }
    ensures made { IfOk result (λ es. TellLinks (W.algebra w.new) model.now es.items) }
    ensures stops { IfErr result (Stops (W.algebra w.old) (W.algebra w.new)) }
{
    let mut edges = Vec::new(alloc);
    for l in 0..model.links().len() {
        let made = edge_of(model, l, elements, w)?;
        edges.push(made)?;
    }
    Ok(edges)
}
