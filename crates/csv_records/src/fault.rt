//! Why there is no next record.

use ooc_io::FilesFailed;
use std::alloc::{AllocError, AllocFailed};

/// Why there is no next record.
#[derive(Clone, Copy, Debug, PartialEq, Eq)]
pub enum RecordFault {
    /// It has the first byte beyond the most bytes of a file, or would come after it.
    FileTooLong,
    /// It has more than the most bytes of a record.
    RecordTooLong,
    /// Reading failed.
    Read,
    OutOfMemory,
}

impl From<AllocError> for RecordFault {
    ghost use Rattle.std.specs.Prelude.{◌≡◌};
    ghost use Rattle.csv_records.specs.declared.fault.RecordFault.TheVariants.{OutOfMemory};

    ghost from_gives = { λ _ e. e ≡ OutOfMemory };

    fn from(_: AllocError) -> RecordFault {
        RecordFault::OutOfMemory
    }
}

impl From<FilesFailed> for RecordFault {
    ghost use Rattle.std.specs.Prelude.{◌≡◌};
    ghost use Rattle.csv_records.specs.declared.fault.RecordFault.TheVariants.{Read};

    ghost from_gives = { λ _ e. e ≡ Read };

    fn from(_: FilesFailed) -> RecordFault {
        RecordFault::Read
    }
}
