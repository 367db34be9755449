//! Where there is an answer at all.

ghost use Rattle.std.specs.Prelude.{◌≡◌, ◌<◌, ◌++◌, ◌∷◌, [], not, length, Some, IfOk, IfErr};
ghost use Rattle.std.specs.List.{slice_get};
ghost use Rattle.meaning.specs.Queries.{is_empty};
ghost use Rattle.worlds.specs.Algebra.{Worked, HoldsWhere, Stops};
ghost use Rattle.path_queries.specs.Searching.{IsReady, asks_left, asks_with_one, found_below, found_with};

use crate::answering::meeting::meets_all;
use crate::answering::preparation::Search;
use crate::answering::tuples::{is_of_type, next_type, with_one_more};
use std::alloc::Global;
use worlds::{QStop, Worlds};

/// Holds where the condition does and a tuple that begins with these elements answers.
#[cycle(existence)]
pub fn any_answer<W: Worlds>(
    alloc: Global,
    search: &Search<W::C>,
    given: &[u16],
    under: W::C,
    w: &mut W,
) -> Result<W::C, QStop>
    requires ready { IsReady (W.algebra w.old) search.now }
    requires under { (W.algebra w.old).live under }
    ensures worked { Worked (asks_left search.now given.now) (W.algebra w.old) (W.algebra w.new) }
    ensures made { IfOk result (λ c. HoldsWhere (W.algebra w.new) c (λ x. not (is_empty (found_below (W.algebra w.old) search.now given.now under x)))) }
    ensures stops { IfErr result (Stops (W.algebra w.old) (W.algebra w.new)) }
{
    match next_type(search, given) {
        None => {
            let here = meets_all(search, given, under, w)?;
            Ok(here)
        }
        Some(of_type) => {
            let mut found = w.never();
            for e in 0..search.model.elements().len() as u16 {
                let here = any_with(alloc, search, given, of_type, e, under, w)?;
                found = w.either(found, here)?;
            }
            Ok(found)
        }
    }
}

/// Holds where the condition does and a tuple answers that begins with these elements and goes on with one for the type.
#[cycle(existence)]
fn any_with<W: Worlds>(
    alloc: Global,
    search: &Search<W::C>,
    given: &[u16],
    of_type: u16,
    e: u16,
    under: W::C,
    w: &mut W,
) -> Result<W::C, QStop>
    requires ready { IsReady (W.algebra w.old) search.now }
    requires next { slice_get search.now.query.now.vars (length given.now) ≡ Some of_type }
    requires there { e < length search.now.model.now.elements }
    requires under { (W.algebra w.old).live under }
    ensures worked { Worked (asks_with_one search.now given.now) (W.algebra w.old) (W.algebra w.new) }
    ensures made { IfOk result (λ c. HoldsWhere (W.algebra w.new) c (λ x. not (is_empty (found_with (W.algebra w.old) search.now given.now under of_type e x)))) }
    ensures stops { IfErr result (Stops (W.algebra w.old) (W.algebra w.new)) }
{
    if !is_of_type(search.model, e, of_type) {
        return Ok(w.never());
    }
    let here = w.both(under, search.elements.list()[usize::from(e)])?;
    if w.is_never(here) {
        return Ok(here);
    }
    let longer = with_one_more(alloc, given, e)?;
    any_answer(alloc, search, &longer, here, w)
}
