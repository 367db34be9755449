//! The one call that reads the words and the files, and answers.

ghost use Rattle.std.specs.Prelude.{◌≡◌, ◌⊎◌, ◌≤◌, IfOk, IfErr, map, string_bytes, length, Some, None, OnOk};
ghost use Rattle.meaning.specs.Counts.{NoFewer};
ghost use Rattle.meaning.specs.Answers.{Prints};
ghost use Rattle.meaning.specs.Statuses.{Done, status_line};
ghost use Rattle.meaning.specs.TopCall.{Answered, Says, LimitMet, Leaves, Promise, Kept};
ghost use Rattle.workbench.specs.StatusView.{status_view};
ghost use Rattle.workbench.specs.BuildingStage.{building_cases};
ghost use Rattle.workbench.specs.Limits.{diagrams_of};
ghost use Rattle.workbench.specs.Run.{outside_of, shelf_of, Stops, Printed};

use crate::status::Status;
use crate::tasks::answer_task;
use crate::words::read_words;
use conditions::Diagrams;
use outside::{Failed, Shelf, Sink, write_whole};
use std::alloc::Global;

/// Reads the words and the files that they name, answers on `out`, and says on `err` why there is no answer.
///
/// `words` has the program's name first. The whole answer is made before the first put on `out`. `build` opens `d`, once its bundle has kept its
/// rules, with the limit of the words and the line's number of features, and leaves it open; `derive` and `product` leave it shut.
pub fn run<F: Shelf, O: Sink, E: Sink>(
    alloc: Global,
    words: &[String],
    shelf: &mut F,
    out: &mut O,
    err: &mut E,
    d: &mut Diagrams,
) -> Status
    requires shut { d.old.region.limit ≡ 0 }
    requires unasked { d.old.asked ≡ 0 }
    ensures promise { Promise building_cases (map string_bytes words.now)
        (outside_of (F.holds shelf.old) (F.faults shelf.old) (F.next shelf.old) (F.given shelf.old) (O.got out.old) (O.faults out.old) (E.got err.old) (E.faults err.old))
        (outside_of (F.holds shelf.new) (F.faults shelf.new) (F.next shelf.new) (F.given shelf.new) (O.got out.new) (O.faults out.new) (E.got err.new) (E.faults err.new))
        (LimitMet building_cases (map string_bytes words.now)
        (outside_of (F.holds shelf.old) (F.faults shelf.old) (F.next shelf.old) (F.given shelf.old) (O.got out.old) (O.faults out.old) (E.got err.old) (E.faults err.old))
        (diagrams_of d.old) (diagrams_of d.new))
        (status_view result) }
    ensures leaves { Leaves building_cases (map string_bytes words.now)
        (outside_of (F.holds shelf.old) (F.faults shelf.old) (F.next shelf.old) (F.given shelf.old) (O.got out.old) (O.faults out.old) (E.got err.old) (E.faults err.old))
        (diagrams_of d.new) (status_view result) }
    ensures kept { Kept
        (outside_of (F.holds shelf.old) (F.faults shelf.old) (F.next shelf.old) (F.given shelf.old) (O.got out.old) (O.faults out.old) (E.got err.old) (E.faults err.old))
        (outside_of (F.holds shelf.new) (F.faults shelf.new) (F.next shelf.new) (F.given shelf.new) (O.got out.new) (O.faults out.new) (E.got err.new) (E.faults err.new)) }
{
    match answer(alloc, words, shelf, d) {
        Ok(bytes) => print(out, err, &bytes),
        Err(status) => refuse(alloc, err, status),
    }
}

/// The whole answer, or the status that stands in its place, before anything is written.
fn answer<F: Shelf>(
    alloc: Global,
    words: &[String],
    shelf: &mut F,
    d: &mut Diagrams,
) -> Result<Vec<u8>, Status>
    requires { d.old.region.limit ≡ 0 }
    ensures answered { IfOk result (λ v. Answered building_cases (map string_bytes words.now)
        (shelf_of (F.holds shelf.old) (F.faults shelf.old) (F.next shelf.old) (F.given shelf.old)) (Prints v.items)) }
    ensures stopped { IfErr result (Stops (map string_bytes words.now)
        (shelf_of (F.holds shelf.old) (F.faults shelf.old) (F.next shelf.old) (F.given shelf.old))
        (shelf_of (F.holds shelf.new) (F.faults shelf.new) (F.next shelf.new) (F.given shelf.new))
        (diagrams_of d.old) (diagrams_of d.new)) }
    ensures leaves_done { OnOk result (Leaves building_cases (map string_bytes words.now)
        (shelf_of (F.holds shelf.old) (F.faults shelf.old) (F.next shelf.old) (F.given shelf.old)) (diagrams_of d.new) Done) }
    ensures leaves { IfErr result (λ s. Leaves building_cases (map string_bytes words.now)
        (shelf_of (F.holds shelf.old) (F.faults shelf.old) (F.next shelf.old) (F.given shelf.old)) (diagrams_of d.new) (status_view s)) }
    ensures no_fewer_faults { NoFewer (F.faults shelf.old) (F.faults shelf.new) }
    ensures no_less_given { NoFewer (F.given shelf.old) (F.given shelf.new) }
    ensures same_files { F.holds shelf.new ≡ F.holds shelf.old }
{
    match read_words(words) {
        Some(invocation) => answer_task(alloc, shelf, &invocation, d),
        None => Err(Status::BadWords),
    }
}

/// Writes the answer, and a line where that fails.
#[tactic(auto, unfolding(meaning::specs::Statuses::status_line))]
fn print<O: Sink, E: Sink>(out: &mut O, err: &mut E, bytes: &[u8]) -> Status
    ensures printed { Printed result (O.got out.old) (O.got out.new) (O.faults out.old) (O.faults out.new) bytes.now }
    ensures said { Says (E.got err.old) (E.got err.new) (E.faults err.old) (E.faults err.new) (status_line (status_view result)) }
    ensures no_fewer_faults { O.faults out.old ≤ O.faults out.new }
    ensures no_fewer_err_faults { E.faults err.old ≤ E.faults err.new }
{
    match write_whole(out, bytes) {
        Ok(()) => Status::Done,
        Err(Failed) => {
            say(err, "plcase: output not written\n");
            Status::WriteFault
        }
    }
}

/// Says the line of a status, and that there is no memory where there is none for the line.
#[tactic(auto, unfolding(meaning::specs::Statuses::status_line))]
fn refuse<E: Sink>(alloc: Global, err: &mut E, status: Status) -> Status
    ensures same { (result ≡ status) ⊎ (result ≡ Status.NoMemory) }
    ensures said { Says (E.got err.old) (E.got err.new) (E.faults err.old) (E.faults err.new) (status_line (status_view result)) }
    ensures no_fewer_err_faults { E.faults err.old ≤ E.faults err.new }
{
    match status.line(alloc) {
        Ok(line) => {
            say(err, &line);
            status
        }
        Err(_) => {
            say(err, "plcase: no memory\n");
            Status::NoMemory
        }
    }
}

/// Gives a line to the error output. A fault there changes nothing.
fn say<E: Sink>(err: &mut E, line: &str)
    ensures said { Says (E.got err.old) (E.got err.new) (E.faults err.old) (E.faults err.new) line.now }
    ensures no_fewer_err_faults { E.faults err.old ≤ E.faults err.new }
{
    match write_whole(err, line.as_bytes()) {
        Ok(()) => {}
        Err(Failed) => {}
    }
}
