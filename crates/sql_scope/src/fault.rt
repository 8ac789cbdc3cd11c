//! Why a statement isn't bound.

use ooc_types::{OutOfMemory, RefusalKind};
use std::alloc::{AllocError, AllocFailed};

/// Why a statement isn't bound. `place` is a number of bytes from the script's start.
#[derive(Clone, Copy, Debug, PartialEq, Eq)]
pub enum BindFault {
    Refused { place: usize, kind: RefusalKind },
    OutOfMemory,
}

impl From<OutOfMemory> for BindFault {
    ghost use Rattle.std.specs.Prelude.{◌≡◌};
    ghost use Rattle.sql_scope.specs.declared.fault.BindFault.TheVariants.{OutOfMemory};

    ghost from_gives = { λ _ e. e ≡ OutOfMemory };

    fn from(_: OutOfMemory) -> BindFault {
        BindFault::OutOfMemory
    }
}

impl From<AllocError> for BindFault {
    ghost use Rattle.std.specs.Prelude.{◌≡◌};
    ghost use Rattle.sql_scope.specs.declared.fault.BindFault.TheVariants.{OutOfMemory};

    ghost from_gives = { λ _ e. e ≡ OutOfMemory };

    fn from(_: AllocError) -> BindFault {
        BindFault::OutOfMemory
    }
}

impl<T: Drop> From<AllocFailed<T>> for BindFault {
    ghost use Rattle.std.specs.Prelude.{◌≡◌};
    ghost use Rattle.sql_scope.specs.declared.fault.BindFault.TheVariants.{OutOfMemory};

    ghost from_gives = { λ _ e. e ≡ OutOfMemory };

    fn from(_: AllocFailed<T>) -> BindFault {
        BindFault::OutOfMemory
    }
}
