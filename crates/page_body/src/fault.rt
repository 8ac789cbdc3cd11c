//! What a pool refuses.

use ooc_io::OutOfMemory;
use row_image::Damage;
use std::alloc::{AllocError, AllocFailed};
use thiserror::Error;

/// Why a pool had no frame, or why a page couldn't be reached.
#[derive(Clone, Copy, Debug, PartialEq, Eq, Error)]
pub enum PoolFault {
    /// The worker's lane failed.
    #[error("a page can't be spilled or read back")]
    Spill,
    /// An image that was just read breaks a rule of its page's kind.
    #[error("a page that was read back breaks a rule of its kind")]
    Damaged(Damage),
    #[error("out of memory")]
    OutOfMemory,
}

impl From<OutOfMemory> for PoolFault {
    ghost use Rattle.std.specs.Prelude.{◌≡◌};
    ghost use Rattle.page_body.specs.declared.fault.PoolFault.TheVariants.{OutOfMemory};

    ghost from_gives = { λ _ fault. fault ≡ OutOfMemory };

    fn from(_: OutOfMemory) -> PoolFault {
        PoolFault::OutOfMemory
    }
}

impl From<AllocError> for PoolFault {
    ghost use Rattle.std.specs.Prelude.{◌≡◌};
    ghost use Rattle.page_body.specs.declared.fault.PoolFault.TheVariants.{OutOfMemory};

    ghost from_gives = { λ _ fault. fault ≡ OutOfMemory };

    fn from(_: AllocError) -> PoolFault {
        PoolFault::OutOfMemory
    }
}

impl<T: Drop> From<AllocFailed<T>> for PoolFault {
    ghost use Rattle.std.specs.Prelude.{◌≡◌};
    ghost use Rattle.page_body.specs.declared.fault.PoolFault.TheVariants.{OutOfMemory};

    ghost from_gives = { λ _ fault. fault ≡ OutOfMemory };

    fn from(_: AllocFailed<T>) -> PoolFault {
        PoolFault::OutOfMemory
    }
}
