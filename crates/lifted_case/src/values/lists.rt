//! The lists of a case: names, texts, identifiers, and the pairs of findings and systems.

ghost use Rattle.std.specs.Prelude.{◌≡◌, ◌<◌, ◌≤◌, [], ◌∷◌, ◌++◌, false, None, IfOk, OnOk, length, map, bytes_eq};
ghost use Rattle.std.specs.List.{All, list_any};
ghost use Rattle.meaning.specs.Documents.{texts_in};
ghost use Rattle.meaning.specs.CaseReading as reading;
ghost use Rattle.doc_tree.specs.View.{document, documents};
ghost use Rattle.lifted_case.specs.CaseView.{case_part_of};
ghost use Rattle.lifted_case.specs.ReadFaults.{first_bad_after};
ghost use Rattle.lifted_case.specs.SmallNumbers.{IsNarrow, TargetIsNarrow, TransitionIsNarrow};

use crate::lifted::LPart;
use crate::members::{as_natural, first_list, nth_natural, nth_text, text_of};
use cond_text::{NameStop, Names};
use doc_tree::{Doc, NoMemory, Row, Word};
use std::alloc::Global;

/// Adds a name behind the others, which is none of them.
fn add_new(names: &mut Names, name: &str) -> Result<(), NoMemory>
    requires few { length names.old < 65535 }
    requires new { list_any (bytes_eq name.now) names.old ≡ false }
    ensures { OnOk result (names.new ≡ names.old ++ name.now ∷ []) }
{
    match names.add(name) {
        Ok(_) => Ok(()),
        Err(NameStop::Repeated(_)) => unreachable!(),
        Err(NameStop::NoMemory) => Err(NoMemory),
    }
}

/// The names of the features, each of which stands once.
pub fn names(alloc: Global, items: &[Doc]) -> Result<Names, NoMemory>
    requires few { length items.now ≤ 256 }
    requires new { first_bad_after [] 0 (texts_in (documents items.now)) ≡ None }
    ensures { IfOk result (λ names. names ≡ texts_in (documents items.now)) }
{
    let mut names = Names::new(alloc);
    'items: for item in items {
        add_new(&mut names, text_of(item))?;
    }
    Ok(names)
}

/// The texts of a list.
pub fn words(alloc: Global, items: &[Doc]) -> Result<Row<Word>, NoMemory>
    ensures { IfOk result (λ words. words ≡ texts_in (documents items.now)) }
{
    let mut words = Vec::new(alloc);
    'items: for item in items {
        words.push(Word::of(alloc, text_of(item))?)?;
    }
    Ok(Row::of(words))
}

/// The numbers of a list.
pub fn naturals(alloc: Global, items: &[Doc]) -> Result<Row<u32>, NoMemory>
    ensures { IfOk result (λ numbers. numbers ≡ reading.naturals_in (documents items.now)) }
{
    let mut numbers = Vec::new(alloc);
    'items: for item in items {
        numbers.push(as_natural(item).unwrap_or(0))?;
    }
    Ok(Row::of(numbers))
}

/// A piece of a node's text.
fn piece(alloc: Global, item: &Doc) -> Result<LPart, NoMemory>
    ensures { IfOk result (λ piece. case_part_of piece ≡ reading.part_of (document item.now)) }
{
    match item.as_text() {
        Some(words) => Ok(LPart::Words(Word::of(alloc, words)?)),
        None => Ok(LPart::Count),
    }
}

/// The pieces of a node's text.
pub fn pieces(alloc: Global, items: &[Doc]) -> Result<Row<LPart>, NoMemory>
    ensures { IfOk result (λ pieces. map case_part_of pieces ≡ map reading.part_of (documents items.now)) }
{
    let mut pieces = Vec::new(alloc);
    'items: for item in items {
        pieces.push(piece(alloc, item)?)?;
    }
    Ok(Row::of(pieces))
}

/// The number of a state or a system as one of 16 bits.
pub fn narrow(number: u32) -> u16
    requires { IsNarrow number }
    ensures { result ≡ number }
{
    number as u16
}

/// A target of a finding.
fn target(item: &Doc) -> (u16, u32)
    requires { TargetIsNarrow (document item.now) }
    ensures { result ≡ reading.target_of (document item.now) }
{
    let state = narrow(nth_natural(item, 0).unwrap_or(0));
    (state, nth_natural(item, 1).unwrap_or(0))
}

/// The targets of a finding.
pub fn targets(alloc: Global, items: &[Doc]) -> Result<Row<(u16, u32)>, NoMemory>
    requires { All (λ item. TargetIsNarrow (document item)) items.now }
    ensures { IfOk result (λ targets. targets ≡ map reading.target_of (documents items.now)) }
{
    let mut targets = Vec::new(alloc);
    'items: for item in items {
        targets.push(target(item))?;
    }
    Ok(Row::of(targets))
}

/// A witness of a finding.
fn witness(alloc: Global, item: &Doc) -> Result<(Row<Word>, u32), NoMemory>
    ensures { IfOk result (λ witness. witness ≡ reading.witness_of (document item.now)) }
{
    let names = words(alloc, first_list(item))?;
    Ok((names, nth_natural(item, 1).unwrap_or(0)))
}

/// The witnesses of a finding.
pub fn witnesses(alloc: Global, items: &[Doc]) -> Result<Row<(Row<Word>, u32)>, NoMemory>
    ensures { IfOk result (λ witnesses. witnesses ≡ map reading.witness_of (documents items.now)) }
{
    let mut witnesses = Vec::new(alloc);
    'items: for item in items {
        witnesses.push(witness(alloc, item)?)?;
    }
    Ok(Row::of(witnesses))
}

/// A transition of a system.
fn transition(alloc: Global, item: &Doc) -> Result<(u16, u16, Word), NoMemory>
    requires { TransitionIsNarrow (document item.now) }
    ensures { IfOk result (λ transition. transition ≡ reading.transition_of (document item.now)) }
{
    let from = narrow(nth_natural(item, 0).unwrap_or(0));
    let to = narrow(nth_natural(item, 1).unwrap_or(0));
    let action = Word::of(alloc, nth_text(item, 2).unwrap_or(""))?;
    Ok((from, to, action))
}

/// The transitions of a system.
pub fn transitions(alloc: Global, items: &[Doc]) -> Result<Row<(u16, u16, Word)>, NoMemory>
    requires { All (λ item. TransitionIsNarrow (document item)) items.now }
    ensures { IfOk result (λ transitions. transitions ≡ map reading.transition_of (documents items.now)) }
{
    let mut transitions = Vec::new(alloc);
    'items: for item in items {
        transitions.push(transition(alloc, item)?)?;
    }
    Ok(Row::of(transitions))
}
