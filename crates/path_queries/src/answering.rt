//! The answers of a query at all worlds at once.

ghost use Rattle.std.specs.Prelude.{◌≡◌, ◌≤◌, ◌&&◌, length, true, All, IfOk, IfErr};
ghost use Rattle.meaning.specs.Bounds.{asks_of_query};
ghost use Rattle.meaning.specs.Models.{model_at};
ghost use Rattle.meaning.specs.Queries.{tuples, has_answer};
ghost use Rattle.meaning.specs.Tidy.{Among, whole_model};
ghost use Rattle.worlds.specs.Algebra.{Worked, HoldsWhere, Stops};
ghost use Rattle.annotated_model.specs.ModelFacts.{NamesFeatures};
ghost use Rattle.path_queries.specs.View.{query as query_view};
ghost use Rattle.path_queries.specs.Answering.{Somewhere, tuples_of, tuples_at, answers_at, ManyAnswers, StopsWith};

mod existence;
mod meeting;
mod preparation;
mod tuples;

use crate::data::{AnswerRows, Query};
use annotated_model::Model;
use doc_tree::Row;
use existence::any_answer;
use preparation::prepare;
use std::alloc::Global;
use tuples::add_all;
use worlds::{QStop, Worlds};

/// The tuples that answer the query somewhere where the condition holds, in the order of their elements' numbers, each with the condition of
/// exactly the worlds where the condition holds and the tuple answers in the model there.
///
/// `bound` has the elements of the variables in scope. It is refused with [`QStop::TooMany`] exactly where more than `most` tuples answer.
pub fn answers<W: Worlds>(
    alloc: Global,
    model: &Model,
    query: &Query,
    bound: &[u16],
    under: W::C,
    w: &mut W,
    most: u32,
) -> Result<AnswerRows<W::C>, QStop>
    requires names { NamesFeatures (W.algebra w.old).count model.now }
    requires variables { length query.now.vars ≤ 3 }
    requires under { (W.algebra w.old).live under }
    ensures worked { Worked (asks_of_query model.now (query_view query.now)) (W.algebra w.old) (W.algebra w.new) }
    ensures live { IfOk result (λ rows. All (λ r. (W.algebra w.new).live r.1) rows.tuples) }
    ensures answers { IfOk result (λ rows. (x : _) → (W.algebra w.new).is_world x ≡ true → tuples_at (W.algebra w.new) rows.tuples x ≡ answers_at (W.algebra w.old) model.now (query_view query.now) bound.now under x) }
    ensures somewhere { IfOk result (λ rows. All (λ r. Somewhere (W.algebra w.new) r.1) rows.tuples) }
    ensures order { IfOk result (λ rows. Among (tuples_of rows.tuples) (tuples (whole_model model.now) query.now.vars)) }
    ensures few { IfOk result (λ rows. length rows.tuples ≤ most) }
    ensures stops { IfErr result (StopsWith (W.algebra w.old) (W.algebra w.new) (ManyAnswers (W.algebra w.old) model.now (query_view query.now) bound.now under most)) }
{
    let asked = prepare(alloc, model, query, bound, w)?;
    let mut tuples = Vec::new(alloc);
    add_all(alloc, &asked, &[], under, &mut tuples, most, w)?;
    Ok(AnswerRows {
        tuples: Row::of(tuples),
    })
}

/// Holds where the condition does and the query has an answer. It is never refused with [`QStop::TooMany`].
pub fn some<W: Worlds>(
    alloc: Global,
    model: &Model,
    query: &Query,
    bound: &[u16],
    under: W::C,
    w: &mut W,
) -> Result<W::C, QStop>
    requires names { NamesFeatures (W.algebra w.old).count model.now }
    requires variables { length query.now.vars ≤ 3 }
    requires under { (W.algebra w.old).live under }
    ensures worked { Worked (asks_of_query model.now (query_view query.now)) (W.algebra w.old) (W.algebra w.new) }
    ensures made { IfOk result (λ c. HoldsWhere (W.algebra w.new) c (λ x. (W.algebra w.old).holds under x && has_answer (model_at model.now x) (query_view query.now) bound.now)) }
    ensures stops { IfErr result (Stops (W.algebra w.old) (W.algebra w.new)) }
{
    let asked = prepare(alloc, model, query, bound, w)?;
    any_answer(alloc, &asked, &[], under, w)
}
