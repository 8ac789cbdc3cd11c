//! Why a SELECT shows nothing.
ghost use Rattle.std.specs.Prelude.{◌≡◌};
ghost use Rattle.table_scan.specs.Outcomes as spec;

use ooc_types::OutOfMemory;
use page_body::PoolFault;
use sql_expr::{EvalFault, ValueFault};

/// Why a SELECT shows nothing.
#[derive(Clone, Copy, Debug, PartialEq, Eq)]
pub enum SelectFault {
    /// A value can't be given.
    Value(ValueFault),
    /// Its lines have more than 268,435,456 bytes.
    TooLarge,
    /// The pool has no frame, or a page can't be reached.
    Pool(PoolFault),
    OutOfMemory,
}

impl From<OutOfMemory> for SelectFault {
    ghost use Rattle.std.specs.Prelude.{◌≡◌};
    ghost use Rattle.table_scan.specs.declared.fault.SelectFault.TheVariants.{OutOfMemory};

    ghost from_gives = { λ _ fault. fault ≡ OutOfMemory };

    fn from(_: OutOfMemory) -> SelectFault {
        SelectFault::OutOfMemory
    }
}

/// The fault of a SELECT whose table can't be read.
pub(crate) fn pool_fault(fault: PoolFault) -> SelectFault
    ensures { result ≡ spec.pool_fault fault }
{
    match fault {
        PoolFault::OutOfMemory => SelectFault::OutOfMemory,
        PoolFault::Spill | PoolFault::Damaged(_) => SelectFault::Pool(fault),
    }
}

/// The fault of a SELECT of which a value can't be given.
pub(crate) fn value_fault(fault: EvalFault) -> SelectFault
    ensures { result ≡ spec.value_fault fault }
{
    match fault {
        EvalFault::Fault(value) => SelectFault::Value(value),
        EvalFault::OutOfMemory => SelectFault::OutOfMemory,
    }
}
