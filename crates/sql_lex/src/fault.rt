//! Why a script has no tokens.
ghost use Rattle.std.specs.Prelude.{◌≡◌};
ghost use Rattle.sql_lex.specs.declared.fault.LexFault.TheVariants.{OutOfMemory};

use std::alloc::{AllocError, AllocFailed};

/// Why a script has no tokens.
#[derive(Clone, Copy, Debug, PartialEq, Eq)]
pub enum LexFault {
    /// At `place`, in bytes from 0, stands no token, blank or comment, or the first ill-formed sequence of UTF-8.
    BadToken { place: u64 },
    /// There was no memory for the list of the tokens.
    OutOfMemory,
}

impl From<AllocError> for LexFault {
    ghost from_gives = { λ _ fault. fault ≡ OutOfMemory };

    fn from(_: AllocError) -> LexFault {
        LexFault::OutOfMemory
    }
}

impl<T: Drop> From<AllocFailed<T>> for LexFault {
    ghost from_gives = { λ _ fault. fault ≡ OutOfMemory };

    fn from(_: AllocFailed<T>) -> LexFault {
        LexFault::OutOfMemory
    }
}
