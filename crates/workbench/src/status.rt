ghost use Rattle.std.specs.Prelude.{◌≡◌, IfOk, string_bytes};
ghost use Rattle.meaning.specs.Statuses as meaning;
ghost use Rattle.workbench.specs.StatusView.{status_view};
ghost use Rattle.doc_tree.specs.Places.{fault_of};
ghost use Rattle.lifted_case.specs.CaseView.{fault_view};
ghost use Rattle.workbench.specs.Stopped.{status_of_case_stop, status_of_config_stop, status_of_cut_stop, status_of_write_stop, status_of_line_stop, status_of_model_stop, status_of_template_stop, status_of_lift_stop};
ghost use Rattle.workbench.specs.declared.status.Status.TheVariants as variant;

use annotated_model::ModelStop;
use case_derive::CutStop;
use doc_tree::{BundleFault, NoMemory};
use feature_model::{ConfigStop, LineStop};
use lifted_case::{CaseFault, CaseStop, ReadCaseStop};
use lifting::LiftStop;
use std::alloc::{AllocError, AllocFailed, Global};
use templates::TemplateStop;
use worlds::NodeLimit;

/// How a call ended.
#[derive(Clone, Copy, Debug, PartialEq, Eq)]
pub enum Status {
    /// The whole answer was written.
    Done,
    /// The words are no command with its arguments.
    BadWords,
    /// The bundle breaks this rule.
    BadBundle(BundleFault),
    /// The configuration breaks the rule of this number, at this item.
    BadConfig(u8, u32),
    /// No product has the features that the configuration names.
    NotValid,
    /// The case breaks this rule.
    BadCase(CaseFault),
    /// A condition needs more nodes than the limit, which is this, leaves.
    NodeLimit(u32),
    /// The case has too many entries, or too many bytes where this is false.
    BigCase(bool),
    /// The file, counted from 0, is longer than its limit.
    TooLong(u8),
    /// The file, counted from 0, was not read.
    ReadFault(u8),
    /// The output was not written, or not whole.
    WriteFault,
    /// There is no memory.
    NoMemory,
    /// The bundle breaks no rule, and a template of it has a solution.
    Unsupported,
}

impl From<NoMemory> for Status {
    ghost from_gives = { λ _ status. status ≡ variant.NoMemory };

    fn from(_: NoMemory) -> Status {
        Status::NoMemory
    }
}

impl<T: Drop> From<AllocFailed<T>> for Status {
    ghost from_gives = { λ _ status. status ≡ variant.NoMemory };

    fn from(_: AllocFailed<T>) -> Status {
        Status::NoMemory
    }
}

impl From<ReadCaseStop> for Status {
    ghost from_gives = { λ stop status. status ≡ status_of_case_stop stop };

    fn from(stop: ReadCaseStop) -> Status {
        match stop {
            ReadCaseStop::Fault(fault) => Status::BadCase(fault),
            ReadCaseStop::NoMemory => Status::NoMemory,
        }
    }
}

impl From<ConfigStop> for Status {
    ghost from_gives = { λ stop status. status ≡ status_of_config_stop stop };

    fn from(stop: ConfigStop) -> Status {
        match stop {
            ConfigStop::NotList => Status::BadConfig(2, 0),
            ConfigStop::UnknownFeature(at) => Status::BadConfig(3, at),
            ConfigStop::Repeated(at) => Status::BadConfig(4, at),
            ConfigStop::NoMemory => Status::NoMemory,
        }
    }
}

impl From<CutStop> for Status {
    ghost from_gives = { λ stop status. status ≡ status_of_cut_stop stop };

    fn from(stop: CutStop) -> Status {
        match stop {
            CutStop::NotValid => Status::NotValid,
            CutStop::NoMemory => Status::NoMemory,
        }
    }
}

impl From<CaseStop> for Status {
    ghost from_gives = { λ stop status. status ≡ status_of_write_stop stop };

    fn from(stop: CaseStop) -> Status {
        match stop {
            CaseStop::BigCase => Status::BigCase(false),
            CaseStop::NoMemory => Status::NoMemory,
        }
    }
}

impl From<LineStop> for Status {
    ghost from_gives = { λ stop status. status ≡ status_of_line_stop stop };

    fn from(stop: LineStop) -> Status {
        match stop {
            LineStop::Fault(fault) => Status::BadBundle(fault),
            LineStop::NoMemory => Status::NoMemory,
        }
    }
}

impl From<ModelStop> for Status {
    ghost from_gives = { λ stop status. status ≡ status_of_model_stop stop };

    fn from(stop: ModelStop) -> Status {
        match stop {
            ModelStop::Fault(fault) => Status::BadBundle(fault),
            ModelStop::NoMemory => Status::NoMemory,
        }
    }
}

impl From<TemplateStop> for Status {
    ghost from_gives = { λ stop status. status ≡ status_of_template_stop stop };

    fn from(stop: TemplateStop) -> Status {
        match stop {
            TemplateStop::Fault(fault) => Status::BadBundle(fault),
            TemplateStop::NoMemory => Status::NoMemory,
        }
    }
}

impl From<LiftStop> for Status {
    ghost from_gives = { λ stop status. status ≡ status_of_lift_stop stop };

    fn from(stop: LiftStop) -> Status {
        match stop {
            LiftStop::NodeLimit(stop) => Status::NodeLimit(stop.used),
            LiftStop::BigCase => Status::BigCase(true),
            LiftStop::NoMemory => Status::NoMemory,
        }
    }
}

impl From<NodeLimit> for Status {
    ghost from_gives = { λ stop status. status ≡ variant.NodeLimit stop.used };

    fn from(stop: NodeLimit) -> Status {
        Status::NodeLimit(stop.used)
    }
}

impl From<conditions::NoMemory> for Status {
    ghost from_gives = { λ _ status. status ≡ variant.NoMemory };

    fn from(_: conditions::NoMemory) -> Status {
        Status::NoMemory
    }
}

impl Status {
    /// The exit status of a program that ends so.
    pub fn code(&self) -> u8
        ensures { result ≡ meaning.status_number (status_view self.now) }
    {
        match self {
            Status::Done => 0,
            Status::BadWords => 2,
            Status::BadBundle(_) => 3,
            Status::BadConfig(_, _) => 4,
            Status::NotValid => 5,
            Status::BadCase(_) => 6,
            Status::NodeLimit(_) => 7,
            Status::BigCase(_) => 8,
            Status::TooLong(_) => 12,
            Status::ReadFault(_) => 13,
            Status::WriteFault => 14,
            Status::NoMemory => 15,
            Status::Unsupported => 16,
        }
    }

    /// The line on the error output, with its newline; none where all is done.
    #[tactic(auto, unfolding(meaning::specs::Statuses::status_line))]
    pub fn line(&self, alloc: Global) -> Result<String, AllocError>
        ensures { IfOk result (λ line. string_bytes line ≡ meaning.status_line (status_view self.now)) }
    {
        match self {
            Status::Done => Ok(String::new(alloc)),
            Status::BadWords => String::from_str(alloc, "plcase: bad words\n"),
            Status::BadBundle(fault) => bundle_line(alloc, fault),
            Status::BadConfig(rule, at) => config_line(alloc, *rule, *at),
            Status::NotValid => String::from_str(alloc, "plcase: not valid\n"),
            Status::BadCase(fault) => case_line(alloc, fault),
            Status::NodeLimit(used) => format!(in alloc; "plcase: node limit {used} reached\n"),
            Status::BigCase(true) => String::from_str(alloc, "plcase: big case: entries\n"),
            Status::BigCase(false) => String::from_str(alloc, "plcase: big case: bytes\n"),
            Status::TooLong(file) => format!(in alloc; "plcase: file {file} too long\n"),
            Status::ReadFault(file) => format!(in alloc; "plcase: file {file} not read\n"),
            Status::WriteFault => String::from_str(alloc, "plcase: output not written\n"),
            Status::NoMemory => String::from_str(alloc, "plcase: no memory\n"),
            Status::Unsupported => String::from_str(alloc, "plcase: not built yet\n"),
        }
    }
}

#[tactic(auto, unfolding(meaning::specs::Statuses::status_line))]
fn bundle_line(alloc: Global, fault: &BundleFault) -> Result<String, AllocError>
    ensures { IfOk result (λ line. string_bytes line ≡ meaning.status_line (meaning.BadBundle (fault_of fault.now))) }
{
    let rule = fault.rule;
    let part = fault.part.word();
    let item = fault.item;
    let sub = fault.sub;
    let at = fault.at;
    format!(in alloc; "plcase: bundle rule B{rule} at {part} {item} {sub} {at}\n")
}

#[tactic(auto, unfolding(meaning::specs::Statuses::status_line))]
fn config_line(alloc: Global, rule: u8, at: u32) -> Result<String, AllocError>
    ensures { IfOk result (λ line. string_bytes line ≡ meaning.status_line (meaning.BadConfig rule at)) }
{
    format!(in alloc; "plcase: config rule K{rule} at {at}\n")
}

/// The line of a fault of a case, whose place inside an item is always 0.
#[tactic(auto, unfolding(meaning::specs::Statuses::status_line))]
fn case_line(alloc: Global, fault: &CaseFault) -> Result<String, AllocError>
    ensures { IfOk result (λ line. string_bytes line ≡ meaning.status_line (meaning.BadCase (fault_view fault.now))) }
{
    let number = fault.fault;
    let part = fault.part.word();
    let item = fault.item;
    format!(in alloc; "plcase: case fault F{number} at {part} {item} 0\n")
}
