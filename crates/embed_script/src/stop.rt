ghost use Rattle.std.specs.Prelude.{◌≡◌};
ghost use Rattle.embed_script.specs.Ends.{refused_at};

use embed_base::{Outside, OutsideKind, Place};
use std::alloc::{AllocError, AllocFailed};

/// Why a run doesn't go on.
#[derive(Debug, Drop)]
pub(crate) enum Stop {
    Outside(Outside),
    /// An exception that nothing catches: bytes that are no valid module.
    CompileError,
    /// One of a trap.
    RuntimeError,
    /// One of a call or a table past a limit.
    RangeError,
    /// A charge above what is left of the budget.
    Budget { needs: u64, left: u64 },
    NoMemory,
}

/// A named refusal at a byte of the script.
pub(crate) fn refuse(place: u32, kind: OutsideKind) -> Stop
    ensures { result ≡ Stop.Outside (refused_at place kind) }
{
    Stop::Outside(Outside {
        kind,
        place: Place::Script(u64::from(place)),
    })
}

impl From<AllocError> for Stop {
    ghost use Rattle.embed_script.specs.declared.stop.Stop.TheVariants.{NoMemory};

    ghost from_gives = { λ _ e. e ≡ NoMemory };

    fn from(_: AllocError) -> Self {
        Stop::NoMemory
    }
}

impl<T: Drop> From<AllocFailed<T>> for Stop {
    ghost use Rattle.embed_script.specs.declared.stop.Stop.TheVariants.{NoMemory};

    ghost from_gives = { λ _ e. e ≡ NoMemory };

    fn from(_: AllocFailed<T>) -> Self {
        Stop::NoMemory
    }
}
