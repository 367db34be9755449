//! Tests of the items of a list, and the fault of the first item that fails one.

ghost use Rattle.std.specs.Prelude.{◌≡◌, ℕ, List, [], ◌∷◌, Bool, IfOk, IfErr};
ghost use Rattle.std.specs.List.{list_all};
ghost use Rattle.meaning.specs.Texts.{first_of_list};
ghost use Rattle.meaning.specs.Documents.{Document, list_at, member_of};
ghost use Rattle.meaning.specs.Counts.{capped};
ghost use Rattle.meaning.specs.CaseReading.{failing, faults_at, unless};
ghost use Rattle.meaning.specs.CaseReading as reading;
ghost use Rattle.doc_tree.specs.View.{document, documents};
ghost use Rattle.doc_tree.specs.Places.{part_of};
ghost use Rattle.lifted_case.specs.ReadFaults.{Finds};

use crate::lifted::CaseFault;
use crate::stop::ReadCaseStop;
use doc_tree::{Doc, Part};

/// A test of an item of a list.
pub trait ItemTest {
    ghost passes: { Self → Document → Bool };

    /// Whether the item passes.
    fn passes(&self, item: &Doc) -> bool
        ensures { result ≡ passes self.now (document item.now) };
}

/// Whether all items pass.
pub fn all_pass<T: ItemTest>(test: &T, items: &[Doc]) -> bool
    ensures { result ≡ list_all (T.passes test.now) (documents items.now) }
{
    'items: for item in items {
        if !test.passes(item) {
            return false;
        }
    }
    true
}

/// The place of the first item that fails.
pub fn first_failing<T: ItemTest>(test: &T, items: &[Doc]) -> Option<usize>
    ensures { result ≡ first_of_list (failing (T.passes test.now) (documents items.now)) }
{
    'items: for (i, item) in items.iter().enumerate() {
        if !test.passes(item) {
            return Some(i);
        }
    }
    None
}

/// Stops at the first item of the list that fails.
pub fn check_items<T: ItemTest>(
    fault: u8,
    part: Part,
    test: &T,
    doc: &Doc,
    list: &str,
) -> Result<(), ReadCaseStop>
    ensures kept { IfOk result (λ _. faults_at fault (part_of part) (failing (T.passes test.now) (list_at list.now (document doc.now))) ≡ []) }
    ensures fault { IfErr result (Finds (faults_at fault (part_of part) (failing (T.passes test.now) (list_at list.now (document doc.now))))) }
{
    match first_failing(test, doc.list_at(list)) {
        Some(item) => Err(fault_at(fault, part, item)),
        None => Ok(()),
    }
}

/// Stops at a place, if there is one.
pub fn check_place(fault: u8, part: Part, place: Option<usize>) -> Result<(), ReadCaseStop>
    ensures kept { (items : List ℕ) → place ≡ first_of_list items → IfOk result (λ _. faults_at fault (part_of part) items ≡ []) }
    ensures fault { (items : List ℕ) → place ≡ first_of_list items → IfErr result (Finds (faults_at fault (part_of part) items)) }
{
    match place {
        Some(item) => Err(fault_at(fault, part, item)),
        None => Ok(()),
    }
}

/// Stops unless a rule of the whole part holds.
pub fn check_that(fault: u8, part: Part, holds: bool) -> Result<(), ReadCaseStop>
    ensures kept { IfOk result (λ _. faults_at fault (part_of part) (unless holds) ≡ []) }
    ensures fault { IfErr result (Finds (faults_at fault (part_of part) (unless holds))) }
{
    if holds {
        Ok(())
    } else {
        Err(fault_at(fault, part, 0))
    }
}

/// An item's number as it is told: past 4,294,967,295 it is that number.
fn told(item: usize) -> u32
    ensures { result ≡ capped item }
{
    u32::try_from(item).unwrap_or(u32::MAX)
}

/// The fault at an item.
pub fn fault_at(fault: u8, part: Part, item: usize) -> ReadCaseStop
    ensures { result ≡ ReadCaseStop.Fault (record { fault = fault; part = part; item = capped item; sub = 0 }) }
{
    ReadCaseStop::Fault(CaseFault {
        fault,
        part,
        item: told(item),
        sub: 0,
    })
}

/// Whether the value is a list whose items all pass.
pub fn is_list_of<T: ItemTest>(test: &T, doc: &Doc) -> bool
    ensures { result ≡ reading.is_list_of (T.passes test.now) (document doc.now) }
{
    match doc.as_list() {
        Some(items) => all_pass(test, items),
        None => false,
    }
}

/// Whether the member is a list whose items all pass.
pub fn has_list_of<T: ItemTest>(test: &T, doc: &Doc, name: &str) -> bool
    ensures { result ≡ reading.has_list_of (T.passes test.now) name.now (document doc.now) }
{
    match doc.member(name) {
        Some(value) => is_list_of(test, value),
        None => false,
    }
}

/// Whether the member is a list whose items all pass, if it is there.
pub fn may_have_list_of<T: ItemTest>(test: &T, doc: &Doc, name: &str) -> bool
    ensures { result ≡ reading.absent_or (reading.is_list_of (T.passes test.now)) (member_of name.now (document doc.now)) }
{
    match doc.member(name) {
        Some(value) => is_list_of(test, value),
        None => true,
    }
}

/// Whether all items of a member pass that is a list.
pub fn items_pass<T: ItemTest>(test: &T, doc: &Doc, name: &str) -> bool
    ensures { result ≡ list_all (T.passes test.now) (list_at name.now (document doc.now)) }
{
    all_pass(test, doc.list_at(name))
}
