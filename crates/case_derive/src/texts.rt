//! The texts of nodes at one world.

ghost use Rattle.std.specs.Prelude.{◌≡◌, IfOk, count_by, decimal, map};
ghost use Rattle.meaning.specs.Texts.{flat};
ghost use Rattle.meaning.specs.CaseFiles.{part_at};
ghost use Rattle.lifted_case.specs.CaseView.{case_part_of};

use crate::truth::Truth;
use doc_tree::{NoMemory, Word};
use lifted_case::LPart;
use std::alloc::Global;

/// How many of the conditions hold.
pub fn count<T: Truth>(conditions: &[T::C], truth: &T) -> usize
    ensures { result ≡ count_by (T.holds truth.now) conditions.now }
{
    let mut count = 0;
    'conditions: for condition in conditions {
        if truth.at(*condition) {
            count += 1;
        }
    }
    count
}

/// The words of a piece, or the number in their place.
fn piece<'a>(part: &'a LPart, number: &'a str, count: usize) -> &'a str
    requires { number.now ≡ decimal count }
    ensures { result.now ≡ part_at count (case_part_of part.now) }
{
    match part {
        LPart::Words(words) => words.text(),
        LPart::Count => number,
    }
}

/// The text of a node with so many branches.
pub fn text(alloc: Global, parts: &[LPart], count: usize) -> Result<Word, NoMemory>
    ensures { IfOk result (λ w. w ≡ flat (part_at count) (map case_part_of parts.now)) }
{
    let number = format!(in alloc; "{count}")?;
    let mut text = String::new(alloc);
    'parts: for part in parts {
        text.push_str(piece(part, number.as_str(), count))?;
    }
    Word::of(alloc, text.as_str())
}
