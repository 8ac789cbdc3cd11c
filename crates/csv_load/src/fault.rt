//! Why there is no next row.

use ooc_types::RefusalKind;
use std::alloc::AllocError;

/// Why a record is refused: its number (the header's is 0, that of the first record of data is 1), the column, from 1,
/// or 0 where the whole record is meant, and the kind.
#[derive(Clone, Copy, Debug, PartialEq, Eq)]
pub struct Refusal {
    pub number: u64,
    pub column: u32,
    pub kind: RefusalKind,
}

/// Why there is no next row.
#[derive(Clone, Copy, Debug, PartialEq, Eq)]
pub enum RowFault {
    Refused(Refusal),
    /// Reading failed.
    Read,
    OutOfMemory,
}

impl From<AllocError> for RowFault {
    ghost use Rattle.std.specs.Prelude.{◌≡◌};
    ghost use Rattle.csv_load.specs.declared.fault.RowFault.TheVariants.{OutOfMemory};

    ghost from_gives = { λ _ e. e ≡ OutOfMemory };

    fn from(_: AllocError) -> RowFault {
        RowFault::OutOfMemory
    }
}

/// The same of a record whose number isn't looked at.
#[derive(Clone, Copy, Debug)]
pub struct Reason {
    pub column: u32,
    pub kind: RefusalKind,
}
