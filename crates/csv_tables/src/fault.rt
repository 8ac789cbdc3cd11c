//! Why a file isn't loaded.
ghost use Rattle.std.specs.Prelude.{◌≡◌};
ghost use Rattle.csv_tables.specs.Faults as spec;

use csv_load::{Refusal, RowFault};
use ooc_types::RefusalKind;
use page_body::PoolFault;

/// Why a file isn't loaded.
#[derive(Clone, Copy, Debug, PartialEq, Eq)]
pub enum LoadFault {
    /// The first refusal of the file. A missing file is refused with the number and the column 0.
    Refused(Refusal),
    /// The file can't be opened or read.
    Read,
    /// The pool has no frame.
    Pool(PoolFault),
    OutOfMemory,
}

/// The refusal of a missing file.
pub fn missing_file() -> LoadFault
    ensures { result ≡ LoadFault.Refused spec.no_file }
{
    LoadFault::Refused(Refusal {
        number: 0,
        column: 0,
        kind: RefusalKind::NoFile,
    })
}

/// The fault of a file whose rows end with a fault.
pub fn row_fault(fault: RowFault) -> LoadFault
    ensures { result ≡ spec.row_fault fault }
{
    match fault {
        RowFault::Refused(why) => LoadFault::Refused(why),
        RowFault::Read => LoadFault::Read,
        RowFault::OutOfMemory => LoadFault::OutOfMemory,
    }
}

/// The fault of a file whose rows have no room.
pub fn pool_fault(fault: PoolFault) -> LoadFault
    ensures { result ≡ spec.pool_fault fault }
{
    match fault {
        PoolFault::OutOfMemory => LoadFault::OutOfMemory,
        PoolFault::Spill | PoolFault::Damaged(_) => LoadFault::Pool(fault),
    }
}
