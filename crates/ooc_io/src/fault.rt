//! What the outside refuses.

use std::alloc::{AllocError, AllocFailed};
use thiserror::Error;

/// Memory ran out.
#[derive(Clone, Copy, Debug, PartialEq, Eq, Error)]
#[error("out of memory")]
pub struct OutOfMemory;

impl From<AllocError> for OutOfMemory {
    fn from(_: AllocError) -> OutOfMemory {
        OutOfMemory
    }
}

impl<T: Drop> From<AllocFailed<T>> for OutOfMemory {
    fn from(_: AllocFailed<T>) -> OutOfMemory {
        OutOfMemory
    }
}

/// Why a file wasn't opened.
#[derive(Clone, Copy, Debug, PartialEq, Eq, Error)]
pub enum OpenFault {
    #[error("no file has this name")]
    Missing,
    #[error("the file can't be opened")]
    Failed,
}

/// Reading failed.
#[derive(Clone, Copy, Debug, PartialEq, Eq, Error)]
#[error("the file can't be read")]
pub struct FilesFailed;

/// Writing failed.
#[derive(Clone, Copy, Debug, PartialEq, Eq, Error)]
#[error("the output can't be written")]
pub struct WriteFailed;

/// An image couldn't be read back.
#[derive(Clone, Copy, Debug, PartialEq, Eq, Error)]
#[error("a spilled page can't be read back")]
pub struct SpillFailed;

/// Why an image wasn't spilled.
#[derive(Clone, Copy, Debug, PartialEq, Eq, Error)]
pub enum LaneFault {
    #[error("a page can't be spilled")]
    Failed,
    #[error("out of memory")]
    OutOfMemory,
}
