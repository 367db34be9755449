//! Tuples, element by element, with the conditions that they answer.

ghost use Rattle.std.specs.Prelude.{◌≡◌, ◌<◌, ◌≤◌, ◌++◌, ◌∷◌, [], length, Some, IfOk, IfErr};
ghost use Rattle.std.specs.Bool.{OnTrue, OnFalse};
ghost use Rattle.std.specs.List.{slice_get};
ghost use Rattle.worlds.specs.Algebra.{Worked, HoldsNowhere};
ghost use Rattle.meaning.specs.Models.{is_a};
ghost use Rattle.path_queries.specs.Answering.{Somewhere, StopsWith};
ghost use Rattle.path_queries.specs.Tuples.{type_at, Adds, Overflows};
ghost use Rattle.path_queries.specs.Searching.{IsReady, asks_left, asks_with_one, found_below, found_with, possible_below, possible_next};

use crate::answering::meeting::meets_all;
use crate::answering::preparation::Search;
use annotated_model::Model;
use doc_tree::Row;
use std::alloc::{AllocError, Global};
use worlds::{QStop, Worlds};

/// The elements, and one more.
pub fn with_one_more(alloc: Global, given: &[u16], e: u16) -> Result<Vec<u16>, AllocError>
    ensures { IfOk result (λ longer. longer.items ≡ given.now ++ e ∷ []) }
{
    let mut longer = Vec::from_slice(alloc, given)?;
    longer.push(e)?;
    Ok(longer)
}

/// Whether the element answers for the type.
pub fn is_of_type(model: &Model, e: u16, of_type: u16) -> bool
    requires { e < length model.now.elements }
    ensures { result ≡ is_a model.now.types (type_at model.now e) of_type }
{
    let elements = model.elements();
    model.is_a(elements[usize::from(e)].of_type, of_type)
}

/// The type of the next variable, if there is one.
pub fn next_type<C>(search: &Search<C>, given: &[u16]) -> Option<u16>
    ensures { result ≡ slice_get search.now.query.now.vars (length given.now) }
{
    let vars = search.query.vars.list();
    let next = given.len();
    if next < vars.len() {
        Some(vars[next])
    } else {
        None
    }
}

/// Whether the condition holds at some world.
fn holds_somewhere<W: Worlds>(c: W::C, w: &W) -> bool
    requires { (W.algebra w.now).live c }
    ensures somewhere { OnTrue result (Somewhere (W.algebra w.now) c) }
    ensures nowhere { OnFalse result (HoldsNowhere (W.algebra w.now) c) }
{
    // Each world is a list of so many truth values, so that all of them can be tried.
    let _features = w.count();
    !w.is_never(c)
}

/// Adds the tuple to the rows, if it answers somewhere.
fn add<W: Worlds>(
    alloc: Global,
    search: &Search<W::C>,
    given: &[u16],
    under: W::C,
    rows: &mut Vec<(Row<u16>, W::C)>,
    most: u32,
    w: &mut W,
) -> Result<(), QStop>
    requires ready { IsReady (W.algebra w.old) search.now }
    requires last { length search.now.query.now.vars ≤ length given.now }
    requires under { (W.algebra w.old).live under }
    requires few { length rows.old.items ≤ most }
    ensures worked { Worked (length search.now.query.now.constraints) (W.algebra w.old) (W.algebra w.new) }
    ensures added { IfOk result (λ _. Adds (W.algebra w.new) rows.old.items rows.new.items (found_below (W.algebra w.old) search.now given.now under) (possible_below search.now given.now)) }
    ensures few { IfOk result (λ _. length rows.new.items ≤ most) }
    ensures stops { IfErr result (StopsWith (W.algebra w.old) (W.algebra w.new) (Overflows (W.algebra w.new) rows.old.items (found_below (W.algebra w.old) search.now given.now under) (possible_below search.now given.now) most)) }
{
    let here = meets_all(search, given, under, w)?;
    if !holds_somewhere(here, w) {
        return Ok(());
    }
    if rows.len() >= most as usize {
        return Err(QStop::TooMany);
    }
    let tuple = Vec::from_slice(alloc, given)?;
    rows.push((Row::of(tuple), here))?;
    Ok(())
}

/// Adds the tuples that begin with these elements and answer somewhere.
#[cycle(tuples)]
pub fn add_all<W: Worlds>(
    alloc: Global,
    search: &Search<W::C>,
    given: &[u16],
    under: W::C,
    rows: &mut Vec<(Row<u16>, W::C)>,
    most: u32,
    w: &mut W,
) -> Result<(), QStop>
    requires ready { IsReady (W.algebra w.old) search.now }
    requires under { (W.algebra w.old).live under }
    requires few { length rows.old.items ≤ most }
    ensures worked { Worked (asks_left search.now given.now) (W.algebra w.old) (W.algebra w.new) }
    ensures added { IfOk result (λ _. Adds (W.algebra w.new) rows.old.items rows.new.items (found_below (W.algebra w.old) search.now given.now under) (possible_below search.now given.now)) }
    ensures few { IfOk result (λ _. length rows.new.items ≤ most) }
    ensures stops { IfErr result (StopsWith (W.algebra w.old) (W.algebra w.new) (Overflows (W.algebra w.new) rows.old.items (found_below (W.algebra w.old) search.now given.now under) (possible_below search.now given.now) most)) }
{
    match next_type(search, given) {
        None => add(alloc, search, given, under, rows, most, w),
        Some(of_type) => {
            for e in 0..search.model.elements().len() as u16 {
                add_with(alloc, search, given, of_type, e, under, rows, most, w)?;
            }
            Ok(())
        }
    }
}

/// Adds the tuples that begin with these elements, go on with one for the type, and answer somewhere.
#[cycle(tuples)]
fn add_with<W: Worlds>(
    alloc: Global,
    search: &Search<W::C>,
    given: &[u16],
    of_type: u16,
    e: u16,
    under: W::C,
    rows: &mut Vec<(Row<u16>, W::C)>,
    most: u32,
    w: &mut W,
) -> Result<(), QStop>
    requires ready { IsReady (W.algebra w.old) search.now }
    requires next { slice_get search.now.query.now.vars (length given.now) ≡ Some of_type }
    requires there { e < length search.now.model.now.elements }
    requires under { (W.algebra w.old).live under }
    requires few { length rows.old.items ≤ most }
    ensures worked { Worked (asks_with_one search.now given.now) (W.algebra w.old) (W.algebra w.new) }
    ensures added { IfOk result (λ _. Adds (W.algebra w.new) rows.old.items rows.new.items (found_with (W.algebra w.old) search.now given.now under of_type e) (possible_next search.now given.now of_type e)) }
    ensures few { IfOk result (λ _. length rows.new.items ≤ most) }
    ensures stops { IfErr result (StopsWith (W.algebra w.old) (W.algebra w.new) (Overflows (W.algebra w.new) rows.old.items (found_with (W.algebra w.old) search.now given.now under of_type e) (possible_next search.now given.now of_type e) most)) }
{
    if !is_of_type(search.model, e, of_type) {
        return Ok(());
    }
    let here = w.both(under, search.elements.list()[usize::from(e)])?;
    if w.is_never(here) {
        return Ok(());
    }
    let longer = with_one_more(alloc, given, e)?;
    add_all(alloc, search, &longer, here, rows, most, w)
}
