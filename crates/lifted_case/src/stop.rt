//! Why bytes gave no case.

ghost use Rattle.std.specs.Prelude.{◌≡◌};
ghost use Rattle.lifted_case.specs.declared.stop.ReadCaseStop.TheVariants.{NoMemory};

use crate::lifted::CaseFault;
use std::alloc::{AllocError, AllocFailed};

/// Why bytes gave no case.
#[derive(Clone, Copy, Debug, PartialEq, Eq)]
pub enum ReadCaseStop {
    /// The first rule of case files that they break.
    Fault(CaseFault),
    NoMemory,
}

impl From<doc_tree::NoMemory> for ReadCaseStop {
    ghost from_gives = { λ e stop. stop ≡ NoMemory };

    fn from(_: doc_tree::NoMemory) -> ReadCaseStop {
        ReadCaseStop::NoMemory
    }
}

impl From<conditions::NoMemory> for ReadCaseStop {
    ghost from_gives = { λ e stop. stop ≡ NoMemory };

    fn from(_: conditions::NoMemory) -> ReadCaseStop {
        ReadCaseStop::NoMemory
    }
}

impl From<AllocError> for ReadCaseStop {
    ghost from_gives = { λ e stop. stop ≡ NoMemory };

    fn from(_: AllocError) -> ReadCaseStop {
        ReadCaseStop::NoMemory
    }
}

impl<T: Drop> From<AllocFailed<T>> for ReadCaseStop {
    ghost from_gives = { λ e stop. stop ≡ NoMemory };

    fn from(_: AllocFailed<T>) -> ReadCaseStop {
        ReadCaseStop::NoMemory
    }
}
