//! Why a lifting stops.

use doc_tree::NoMemory;
use std::alloc::{AllocError, AllocFailed};
use worlds::{NodeLimit, QStop};

/// Why no case was lifted: a condition was refused, there are more than 32,768 entries, or memory ran out.
#[derive(Clone, Copy, Debug, PartialEq, Eq)]
pub enum LiftStop {
    NodeLimit(NodeLimit),
    BigCase,
    NoMemory,
}

impl From<QStop> for LiftStop {
    ghost use Rattle.std.specs.Prelude.{◌≡◌};
    ghost use Rattle.lifting.specs.Stops.{as_lift_stop};

    ghost from_gives = { λ stop e. e ≡ as_lift_stop stop };

    fn from(stop: QStop) -> LiftStop {
        match stop {
            QStop::NodeLimit(stop) => LiftStop::NodeLimit(stop),
            QStop::TooMany => LiftStop::BigCase,
            QStop::NoMemory => LiftStop::NoMemory,
        }
    }
}

impl From<NoMemory> for LiftStop {
    ghost use Rattle.std.specs.Prelude.{◌≡◌};
    ghost use Rattle.lifting.specs.declared.stop.LiftStop.TheVariants.{NoMemory};

    ghost from_gives = { λ _ e. e ≡ NoMemory };

    fn from(_: NoMemory) -> LiftStop {
        LiftStop::NoMemory
    }
}

impl From<AllocError> for LiftStop {
    ghost use Rattle.std.specs.Prelude.{◌≡◌};
    ghost use Rattle.lifting.specs.declared.stop.LiftStop.TheVariants.{NoMemory};

    ghost from_gives = { λ _ e. e ≡ NoMemory };

    fn from(_: AllocError) -> LiftStop {
        LiftStop::NoMemory
    }
}

impl<T: Drop> From<AllocFailed<T>> for LiftStop {
    ghost use Rattle.std.specs.Prelude.{◌≡◌};
    ghost use Rattle.lifting.specs.declared.stop.LiftStop.TheVariants.{NoMemory};

    ghost from_gives = { λ _ e. e ≡ NoMemory };

    fn from(_: AllocFailed<T>) -> LiftStop {
        LiftStop::NoMemory
    }
}
