//! The answer of a task: its files are read in their order, and then what they say is answered.

ghost use Rattle.std.specs.Prelude.{◌≡◌, true, IfOk, IfErr, OnOk, Some};
ghost use Rattle.meaning.specs.Counts.{NoFewer};
ghost use Rattle.meaning.specs.Answers.{Prints};
ghost use Rattle.meaning.specs.Statuses.{Done};
ghost use Rattle.meaning.specs.TopCall as top_call;
ghost use Rattle.meaning.specs.TopCall.{open_after, open_under};
ghost use Rattle.meaning.specs.Words.{Build, Derive, Product};
ghost use Rattle.workbench.specs.Limits.{IsLimit, IfOpen, LeftAs, OpenedForTask, diagrams_of};
ghost use Rattle.workbench.specs.StatusView.{status_view};
ghost use Rattle.workbench.specs.WordsView.{task_view, invocation_view};
ghost use Rattle.workbench.specs.Run.{shelf_of, AnswersTask, StopsTask};

use crate::building::build;
use crate::derived_text::derive;
use crate::files::{BUNDLE_LIMIT, CASE_LIMIT, read_file, read_two_files};
use crate::product_text::product;
use crate::status::Status;
use crate::words::{Invocation, Task};
use conditions::Diagrams;
use outside::Shelf;
use std::alloc::Global;

/// The bytes that the task answers, or the status that stands in their place. Diagrams are opened with the limit by a task that uses them.
pub fn answer_task<F: Shelf>(
    alloc: Global,
    shelf: &mut F,
    invocation: &Invocation<'_>,
    d: &mut Diagrams,
) -> Result<Vec<u8>, Status>
    requires limit { IsLimit invocation.now.node_limit }
    requires shut { d.old.region.limit ≡ 0 }
    ensures answered { IfOk result (λ v. AnswersTask (task_view invocation.now.task)
        (shelf_of (F.holds shelf.old) (F.faults shelf.old) (F.next shelf.old) (F.given shelf.old)) (Prints v.items)) }
    ensures stopped { IfErr result (StopsTask (task_view invocation.now.task)
        (shelf_of (F.holds shelf.old) (F.faults shelf.old) (F.next shelf.old) (F.given shelf.old))
        (shelf_of (F.holds shelf.new) (F.faults shelf.new) (F.next shelf.new) (F.given shelf.new))
        (diagrams_of d.old) (diagrams_of d.new)) }
    ensures opened { IfOpen (diagrams_of d.new) (OpenedForTask (task_view invocation.now.task)
        (shelf_of (F.holds shelf.old) (F.faults shelf.old) (F.next shelf.old) (F.given shelf.old)) invocation.now.node_limit (diagrams_of d.new)) }
    ensures left_done { OnOk result (LeftAs (open_after (Some (invocation_view invocation.now)) Done) (diagrams_of d.new)) }
    ensures left { IfErr result (λ s. LeftAs (open_after (Some (invocation_view invocation.now)) (status_view s)) (diagrams_of d.new)) }
    ensures no_fewer_faults { NoFewer (F.faults shelf.old) (F.faults shelf.new) }
    ensures no_less_given { NoFewer (F.given shelf.old) (F.given shelf.new) }
    ensures same_files { F.holds shelf.new ≡ F.holds shelf.old }
{
    match invocation.task {
        Task::Build { bundle } => answer_build(alloc, shelf, bundle, invocation.node_limit, d),
        Task::Derive {
            case,
            configuration,
        } => answer_derive(alloc, shelf, case, configuration),
        Task::Product {
            bundle,
            configuration,
        } => answer_product(alloc, shelf, bundle, configuration),
    }
}

/// The case of the bundle in a file.
fn answer_build<F: Shelf>(
    alloc: Global,
    shelf: &mut F,
    bundle: &str,
    limit: u32,
    d: &mut Diagrams,
) -> Result<Vec<u8>, Status>
    requires limit { IsLimit limit }
    requires shut { d.old.region.limit ≡ 0 }
    ensures answered { IfOk result (λ v. AnswersTask (Build bundle.now)
        (shelf_of (F.holds shelf.old) (F.faults shelf.old) (F.next shelf.old) (F.given shelf.old)) (Prints v.items)) }
    ensures stopped { IfErr result (StopsTask (Build bundle.now)
        (shelf_of (F.holds shelf.old) (F.faults shelf.old) (F.next shelf.old) (F.given shelf.old))
        (shelf_of (F.holds shelf.new) (F.faults shelf.new) (F.next shelf.new) (F.given shelf.new))
        (diagrams_of d.old) (diagrams_of d.new)) }
    ensures opened { IfOpen (diagrams_of d.new) (OpenedForTask (Build bundle.now)
        (shelf_of (F.holds shelf.old) (F.faults shelf.old) (F.next shelf.old) (F.given shelf.old)) limit (diagrams_of d.new)) }
    ensures open { OnOk result ((diagrams_of d.new).is_open ≡ true) }
    ensures left { IfErr result (λ s. LeftAs (open_under (status_view s)) (diagrams_of d.new)) }
    ensures no_fewer_faults { NoFewer (F.faults shelf.old) (F.faults shelf.new) }
    ensures no_less_given { NoFewer (F.given shelf.old) (F.given shelf.new) }
    ensures same_files { F.holds shelf.new ≡ F.holds shelf.old }
{
    let bytes = read_file(alloc, shelf, bundle, 0, BUNDLE_LIMIT)?;
    build(alloc, bundle, &bytes, limit, d)
}

/// The text of the case in a file at the configuration in another.
fn answer_derive<F: Shelf>(
    alloc: Global,
    shelf: &mut F,
    case: &str,
    configuration: &str,
) -> Result<Vec<u8>, Status>
    ensures answered { IfOk result (λ v. AnswersTask (Derive case.now configuration.now)
        (shelf_of (F.holds shelf.old) (F.faults shelf.old) (F.next shelf.old) (F.given shelf.old)) (Prints v.items)) }
    ensures stopped { IfErr result (λ s. (old new : top_call.Diagrams) → StopsTask (Derive case.now configuration.now)
        (shelf_of (F.holds shelf.old) (F.faults shelf.old) (F.next shelf.old) (F.given shelf.old))
        (shelf_of (F.holds shelf.new) (F.faults shelf.new) (F.next shelf.new) (F.given shelf.new)) old new s) }
    ensures no_fewer_faults { NoFewer (F.faults shelf.old) (F.faults shelf.new) }
    ensures no_less_given { NoFewer (F.given shelf.old) (F.given shelf.new) }
    ensures same_files { F.holds shelf.new ≡ F.holds shelf.old }
{
    let (bytes, chosen) = read_two_files(alloc, shelf, case, CASE_LIMIT, configuration)?;
    derive(alloc, &bytes, configuration, &chosen)
}

/// The text of the product of the bundle in a file at the configuration in another.
fn answer_product<F: Shelf>(
    alloc: Global,
    shelf: &mut F,
    bundle: &str,
    configuration: &str,
) -> Result<Vec<u8>, Status>
    ensures answered { IfOk result (λ v. AnswersTask (Product bundle.now configuration.now)
        (shelf_of (F.holds shelf.old) (F.faults shelf.old) (F.next shelf.old) (F.given shelf.old)) (Prints v.items)) }
    ensures stopped { IfErr result (λ s. (old new : top_call.Diagrams) → StopsTask (Product bundle.now configuration.now)
        (shelf_of (F.holds shelf.old) (F.faults shelf.old) (F.next shelf.old) (F.given shelf.old))
        (shelf_of (F.holds shelf.new) (F.faults shelf.new) (F.next shelf.new) (F.given shelf.new)) old new s) }
    ensures no_fewer_faults { NoFewer (F.faults shelf.old) (F.faults shelf.new) }
    ensures no_less_given { NoFewer (F.given shelf.old) (F.given shelf.new) }
    ensures same_files { F.holds shelf.new ≡ F.holds shelf.old }
{
    let (bytes, chosen) = read_two_files(alloc, shelf, bundle, BUNDLE_LIMIT, configuration)?;
    product(alloc, bundle, &bytes, configuration, &chosen)
}
