//! The texts of nodes, with the number of branches left open.

ghost use Rattle.std.specs.Prelude.{◌≡◌, ◌++◌, [], ◌∷◌, List, map, IfOk, OnOk, string_bytes};
ghost use Rattle.meaning.specs.Models.{element_name, attribute_at};
ghost use Rattle.meaning.specs.Queries.{element_of_variable};
ghost use Rattle.meaning.specs.Templates.{in_front};
ghost use Rattle.meaning.specs.Tidy.{whole_model};
ghost use Rattle.lifted_case.specs.CaseView.{case_part_of};
ghost use Rattle.templates.specs.declared.data.Piece.{Piece};
ghost use Rattle.lifting.specs.TextParts.{parts_of};

use annotated_model::Model;
use doc_tree::{NoMemory, Row, Word};
use lifted_case::LPart;
use std::alloc::Global;
use templates::Piece;

/// The element of a variable, and element 0 where the variable is not bound.
pub fn element_of(bound: &[u16], variable: u16) -> u16
    ensures { result ≡ element_of_variable bound.now variable }
{
    match bound.get(usize::from(variable)) {
        Some(element) => *element,
        None => 0,
    }
}

/// The name of an element.
fn name_of(model: &Model, element: u16) -> &str
    ensures { result.now ≡ element_name (whole_model model.now) element }
{
    match model.elements().get(usize::from(element)) {
        Some(element) => element.name.text(),
        None => "",
    }
}

/// The value of an attribute of an element.
fn attribute_of(model: &Model, element: u16, attribute: u16) -> &str
    ensures { result.now ≡ attribute_at (whole_model model.now) element attribute }
{
    match model.elements().get(usize::from(element)) {
        Some(element) => match element.attributes.list().get(usize::from(attribute)) {
            Some(value) => value.text(),
            None => "",
        },
        None => "",
    }
}

/// Ends the words so far, if there are any.
fn end_words(alloc: Global, words: &str, parts: &mut Vec<LPart>) -> Result<(), NoMemory>
    ensures { OnOk result (map case_part_of parts.new.items ≡ map case_part_of parts.old.items ++ in_front words.now []) }
{
    if words.is_empty() {
        return Ok(());
    }
    parts.push(LPart::Words(Word::of(alloc, words)?))?;
    Ok(())
}

/// Adds a piece: words to those that were not ended, and a count after they are.
fn add_piece(
    alloc: Global,
    model: &Model,
    bound: &[u16],
    parts: &mut Vec<LPart>,
    words: &mut String,
    piece: &Piece,
) -> Result<(), NoMemory>
    ensures { OnOk result ((rest : List Piece) →
        map case_part_of parts.new.items ++ in_front (string_bytes words.new) (parts_of model.now bound.now rest)
        ≡ map case_part_of parts.old.items ++ in_front (string_bytes words.old) (parts_of model.now bound.now (piece.now ∷ rest))) }
{
    match piece {
        Piece::Words(text) => words.push_str(text.text())?,
        Piece::NameOf(variable) => words.push_str(name_of(model, element_of(bound, *variable)))?,
        Piece::Attr(variable, attribute) => {
            words.push_str(attribute_of(model, element_of(bound, *variable), *attribute))?;
        }
        Piece::Count => {
            end_words(alloc, words.as_str(), parts)?;
            parts.push(LPart::Count)?;
            words.clear();
        }
    }
    Ok(())
}

/// The parts of a text: its words as long as possible, with names and attributes filled in.
pub fn text_parts(
    alloc: Global,
    model: &Model,
    bound: &[u16],
    pieces: &[Piece],
) -> Result<Row<LPart>, NoMemory>
    ensures { IfOk result (λ parts. map case_part_of parts ≡ parts_of model.now bound.now pieces.now) }
{
    let mut parts = Vec::new(alloc);
    let mut words = String::new(alloc);
    'pieces: for piece in pieces {
        add_piece(alloc, model, bound, &mut parts, &mut words, piece)?;
    }
    end_words(alloc, words.as_str(), &mut parts)?;
    Ok(Row::of(parts))
}
