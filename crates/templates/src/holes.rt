//! The pieces of a template text: its words and its holes.

ghost use Rattle.std.specs.Prelude.{◌≡◌, ◌+◌, ◌<◌, ◌≤◌, ◌^◌, ◌++◌, ◌∷◌, [], None, Some, length, map, IfOk, IfErr, OnOk, string_bytes, unwrap_or};
ghost use Rattle.meaning.specs.QueryTexts as queries;
ghost use Rattle.meaning.specs.TemplateTexts.{variable_part, hole_part, parts_of};
ghost use Rattle.meaning.specs.HoleFaults.{variable_hole_fault, hole_fault, text_hole_fault};
ghost use Rattle.templates.specs.View.{piece_view};
ghost use Rattle.templates.specs.TextReading.{in_front};
ghost use Rattle.templates.specs.HoleStops.{TellsHole};

use crate::data::Piece;
use crate::texts::{Step, first_step};
use crate::words::{attribute_number, is_word, variable_number};
use annotated_model::Model;
use doc_tree::{NoMemory, Row, Word};
use std::alloc::{AllocError, AllocFailed, Global};

/// The most holes of a text.
const HOLE_LIMIT: u32 = 8;

/// Why a text is no template text.
#[derive(Clone, Copy, Debug, PartialEq, Eq)]
pub enum HoleStop {
    /// The first brace or name that may not stand there, with its byte.
    Fault(u32),
    NoMemory,
}

impl From<AllocError> for HoleStop {
    ghost use Rattle.templates.specs.declared.holes.HoleStop.TheVariants.{NoMemory};
    ghost use Rattle.std.specs.Prelude.{◌≡◌};

    ghost from_gives = { λ e stop. stop ≡ NoMemory };

    fn from(_: AllocError) -> HoleStop {
        HoleStop::NoMemory
    }
}

impl<T: Drop> From<AllocFailed<T>> for HoleStop {
    ghost use Rattle.templates.specs.declared.holes.HoleStop.TheVariants.{NoMemory};
    ghost use Rattle.std.specs.Prelude.{◌≡◌};

    ghost from_gives = { λ e stop. stop ≡ NoMemory };

    fn from(_: AllocFailed<T>) -> HoleStop {
        HoleStop::NoMemory
    }
}

impl From<NoMemory> for HoleStop {
    ghost use Rattle.templates.specs.declared.holes.HoleStop.TheVariants.{NoMemory};
    ghost use Rattle.std.specs.Prelude.{◌≡◌};

    ghost from_gives = { λ e stop. stop ≡ NoMemory };

    fn from(_: NoMemory) -> HoleStop {
        HoleStop::NoMemory
    }
}

/// The pieces of a text so far, and the words behind them that may go on.
#[derive(Drop)]
struct Pieces {
    done: Vec<Piece>,
    words: String,
}

impl Pieces {
    fn new(alloc: Global) -> Pieces
        ensures done { result.done.items ≡ [] }
        ensures words { string_bytes result.words ≡ [] }
    {
        Pieces {
            done: Vec::new(alloc),
            words: String::new(alloc),
        }
    }

    /// Makes the words a piece, if there are any.
    fn close_words(&mut self, alloc: Global) -> Result<(), NoMemory>
        ensures done { OnOk result (map piece_view self.new.done.items ≡ map piece_view self.old.done.items ++ in_front (string_bytes self.old.words) []) }
        ensures words { OnOk result (string_bytes self.new.words ≡ []) }
    {
        if !self.words.is_empty() {
            let words = Word::of(alloc, self.words.as_str())?;
            self.done.push(Piece::Words(words))?;
            self.words.clear();
        }
        Ok(())
    }

    /// Adds a hole behind the words.
    fn add_hole(&mut self, alloc: Global, hole: Piece) -> Result<(), NoMemory>
        ensures done { OnOk result (map piece_view self.new.done.items ≡ map piece_view self.old.done.items ++ in_front (string_bytes self.old.words) [] ++ piece_view hole ∷ []) }
        ensures words { OnOk result (string_bytes self.new.words ≡ []) }
    {
        self.close_words(alloc)?;
        self.done.push(hole)?;
        Ok(())
    }
}

/// The piece of a hole of a variable and its name or attribute, whose brace stands at a byte, after so many holes; or the byte of its fault.
fn read_variable(
    model: &Model,
    scope: &[(Word, u16)],
    holes: u32,
    brace: u32,
    variable: &str,
    attribute: &str,
) -> Result<Piece, u32>
    requires few { length scope.now ≤ 65536 }
    requires place { brace + length variable.now + 2 < 2 ^ 32 }
    ensures none { IfOk result (λ piece. variable_hole_fault model.now scope.now holes brace variable.now attribute.now ≡ None) }
    ensures part { IfOk result (λ piece. piece_view piece
        ≡ variable_part model.now scope.now (unwrap_or (queries.variable_number scope.now variable.now) 0) attribute.now) }
    ensures fault { IfErr result (λ at. variable_hole_fault model.now scope.now holes brace variable.now attribute.now ≡ Some at) }
{
    if !(is_word(variable) && is_word(attribute)) || holes >= HOLE_LIMIT {
        return Err(brace);
    }
    let Some(number) = variable_number(scope, variable) else {
        return Err(brace + 1);
    };
    if attribute == "name" {
        return Ok(Piece::NameOf(number));
    }
    match attribute_number(model, scope, number, attribute) {
        Some(found) => Ok(Piece::Attr(number, found)),
        None => Err(brace + variable.len() as u32 + 2),
    }
}

/// The piece of a hole, whose brace stands at a byte, after so many holes; or the byte of its fault.
fn read_hole(
    model: &Model,
    scope: &[(Word, u16)],
    counts: bool,
    holes: u32,
    brace: u32,
    inner: &str,
) -> Result<Piece, u32>
    requires few { length scope.now ≤ 65536 }
    requires place { brace + length inner.now + 2 ≤ 2 ^ 32 }
    ensures none { IfOk result (λ piece. hole_fault model.now scope.now counts holes brace inner.now ≡ None) }
    ensures part { IfOk result (λ piece. piece_view piece ≡ hole_part model.now scope.now inner.now) }
    ensures fault { IfErr result (λ at. hole_fault model.now scope.now counts holes brace inner.now ≡ Some at) }
{
    if inner == "#" {
        if counts && holes < HOLE_LIMIT {
            return Ok(Piece::Count);
        }
        return Err(brace);
    }
    match inner.split_once('.') {
        Some((variable, attribute)) => {
            read_variable(model, scope, holes, brace, variable, attribute)
        }
        None => Err(brace),
    }
}

/// The pieces of a text over the variables in scope, where the number of answers may stand in it or not; or its first fault.
pub fn read_text(
    alloc: Global,
    model: &Model,
    scope: &[(Word, u16)],
    counts: bool,
    text: &str,
) -> Result<Row<Piece>, HoleStop>
    requires few { length scope.now ≤ 65536 }
    requires short { length text.now < 2 ^ 31 }
    ensures parts { IfOk result (λ pieces. map piece_view pieces ≡ parts_of model.now scope.now text.now) }
    ensures none { IfOk result (λ pieces. text_hole_fault model.now scope.now counts text.now ≡ None) }
    ensures fault { IfErr result (TellsHole (text_hole_fault model.now scope.now counts text.now)) }
{
    let mut pieces = Pieces::new(alloc);
    let mut holes = 0;
    let mut rest = text;
    'rest: while !rest.is_empty() {
        let at = (text.len() - rest.len()) as u32;
        match first_step(rest) {
            Step::Words(words, after) => {
                pieces.words.push_str(words)?;
                rest = after;
            }
            Step::Hole(inner, after) => {
                match read_hole(model, scope, counts, holes, at, inner) {
                    Ok(hole) => pieces.add_hole(alloc, hole)?,
                    Err(at) => return Err(HoleStop::Fault(at)),
                }
                holes += 1;
                rest = after;
            }
            Step::Fault => return Err(HoleStop::Fault(at)),
        }
    }
    pieces.close_words(alloc)?;
    let Pieces { done, words: _ } = pieces;
    Ok(Row::of(done))
}
