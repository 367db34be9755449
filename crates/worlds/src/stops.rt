//! Why a computation over conditions stops.

use std::alloc::{AllocError, AllocFailed};

/// A condition needs more nodes than the limit leaves. `used` is the limit.
#[derive(Clone, Copy, Debug, PartialEq, Eq)]
pub struct NodeLimit {
    pub used: u32,
}

/// Why a computation over conditions stopped: a condition was refused, there are more answers than were wanted, or memory ran out.
#[derive(Clone, Copy, Debug, PartialEq, Eq)]
pub enum QStop {
    NodeLimit(NodeLimit),
    TooMany,
    NoMemory,
}

impl From<NodeLimit> for QStop {
    ghost use Rattle.std.specs.Prelude.{◌≡◌};
    ghost use Rattle.worlds.specs.declared.stops.QStop.TheVariants.{NodeLimit as AtLimit};

    ghost from_gives = { λ stop e. e ≡ AtLimit stop };

    fn from(stop: NodeLimit) -> QStop {
        QStop::NodeLimit(stop)
    }
}

impl From<AllocError> for QStop {
    ghost use Rattle.std.specs.Prelude.{◌≡◌};
    ghost use Rattle.worlds.specs.declared.stops.QStop.TheVariants.{NoMemory};

    ghost from_gives = { λ _ e. e ≡ NoMemory };

    fn from(_e: AllocError) -> QStop {
        QStop::NoMemory
    }
}

impl<T: Drop> From<AllocFailed<T>> for QStop {
    ghost use Rattle.std.specs.Prelude.{◌≡◌};
    ghost use Rattle.worlds.specs.declared.stops.QStop.TheVariants.{NoMemory};

    ghost from_gives = { λ _ e. e ≡ NoMemory };

    fn from(_e: AllocFailed<T>) -> QStop {
        QStop::NoMemory
    }
}
