//! What is asked once for a query, before its tuples are tried.

ghost use Rattle.std.specs.Prelude.{◌≡◌, ◌+◌, ◌*◌, ◌<◌, ◌^◌, length, map, IfOk, IfErr};
ghost use Rattle.std.specs.List.{All, sum_by};
ghost use Rattle.meaning.specs.Texts.{flat};
ghost use Rattle.meaning.specs.Bounds.{path_of, path_size};
ghost use Rattle.worlds.specs.Algebra.{Worked, Stops};
ghost use Rattle.annotated_model.specs.ModelFacts.{NamesFeatures};
ghost use Rattle.path_queries.specs.View.{query};
ghost use Rattle.path_queries.specs.Presence.{IsEdge, TellLinks};
ghost use Rattle.path_queries.specs.Searching.{IsReady, TellConstraints, TellsWalks, walk_asks, asks_before};

use crate::data::{Constraint, Query};
use crate::presence::{Edge, elements_when, links_when};
use crate::walks::walks;
use annotated_model::Model;
use doc_tree::Row;
use std::alloc::Global;
use worlds::{QStop, Worlds};

/// A query over a model, the elements of the variables in scope, and what is asked once for all tuples.
#[derive(Drop)]
pub struct Search<'a, C> {
    pub model: &'a Model,
    pub query: &'a Query,
    pub bound: &'a [u16],
    /// Where each element is there.
    pub elements: Row<C>,
    /// For each constraint on walks the matrix of its path, and no cell for another one.
    pub relations: Row<Row<C>>,
}

/// The matrix of the walks that a constraint speaks of, and no cell where it speaks of none.
fn relation<W: Worlds>(
    alloc: Global,
    model: &Model,
    edges: &[Edge<W::C>],
    constraint: &Constraint,
    w: &mut W,
) -> Result<Row<W::C>, QStop>
    requires few { length model.now.elements < 2 ^ 16 }
    requires edges { TellLinks (W.algebra w.old) model.now edges.now }
    ensures worked { Worked (walk_asks model.now constraint.now) (W.algebra w.old) (W.algebra w.new) }
    ensures made { IfOk result (λ cells. TellsWalks (W.algebra w.new) model.now cells constraint.now) }
    ensures stops { IfErr result (Stops (W.algebra w.old) (W.algebra w.new)) }
{
    match constraint {
        Constraint::Walk {
            from: _,
            path,
            to: _,
            negated: _,
        } => {
            let cells = walks(alloc, model.elements().len(), edges, path, w)?;
            Ok(Row::of(cells))
        }
        Constraint::Attr {
            var: _,
            attr: _,
            text: _,
            equal: _,
        } => Ok(Row::of(Vec::new(alloc))),
    }
}

/// The matrices of all constraints.
fn relations<W: Worlds>(
    alloc: Global,
    model: &Model,
    edges: &[Edge<W::C>],
    constraints: &[Constraint],
    w: &mut W,
) -> Result<Row<Row<W::C>>, QStop>
    requires few { length model.now.elements < 2 ^ 16 }
    requires edges { TellLinks (W.algebra w.old) model.now edges.now }
    ensures worked { Worked (sum_by (walk_asks model.now) constraints.now) (W.algebra w.old) (W.algebra w.new) }
    ensures made { IfOk result (λ rows. TellConstraints (W.algebra w.new) model.now rows constraints.now) }
    ensures stops { IfErr result (Stops (W.algebra w.old) (W.algebra w.new)) }
{
    let mut rows = Vec::new(alloc);
    for constraint in constraints {
        let cells = relation(alloc, model, edges, constraint, w)?;
        rows.push(cells)?;
    }
    Ok(Row::of(rows))
}

/// Asks once where elements and links are there, and where walks lead.
pub fn prepare<'a, W: Worlds>(
    alloc: Global,
    model: &'a Model,
    query: &'a Query,
    bound: &'a [u16],
    w: &mut W,
) -> Result<Search<'a, W::C>, QStop>
    requires names { NamesFeatures (W.algebra w.old).count model.now }
    ensures worked { Worked (asks_before model.now query.now) (W.algebra w.old) (W.algebra w.new) }
    ensures ready { IfOk result (λ s. IsReady (W.algebra w.new) s) }
    ensures model { IfOk result (λ s. s.model.now ≡ model.now) }
    ensures query { IfOk result (λ s. s.query.now ≡ query.now) }
    ensures bound { IfOk result (λ s. s.bound.now ≡ bound.now) }
    ensures stops { IfErr result (Stops (W.algebra w.old) (W.algebra w.new)) }
{
    // A model has at most 2,048 elements, so that each has a number of 16 bits.
    let _types = model.types();
    let elements = elements_when(alloc, model, w)?;
    let edges = links_when(alloc, model, &elements, w)?;
    let relations = relations(alloc, model, &edges, query.constraints.list(), w)?;
    Ok(Search {
        model,
        query,
        bound,
        elements: Row::of(elements),
        relations,
    })
}
