//! How a run ends.
ghost use Rattle.std.specs.Prelude.{◌≡◌};
ghost use Rattle.run_settings.specs.Status.{code_of};

use ooc_types::{OutOfMemory, RefusalKind};
use row_image::Damage;
use std::alloc::AllocError;

/// What is wrong with the words of the command line.
#[derive(Clone, Copy, Debug, PartialEq, Eq)]
pub enum UsageFault {
    /// They aren't of the form `[options] SCRIPT`, or a number is out of its range.
    Words,
    /// The limit has so few pages.
    TooFewFrames { frames: u64 },
    /// The limit has so many pages.
    TooManyFrames { frames: u64 },
}

/// Where in the input a refusal stands.
#[derive(Clone, Copy, Debug, PartialEq, Eq)]
pub enum Place {
    Whole,
    /// A byte of the script, from 0.
    Byte(u64),
    /// A record of a CSV file, from 1, and a column, from 1. Either is 0 where none is meant.
    Record { number: u64, column: u32 },
}

/// A refusal of a statement, whose numbers begin at 1, or of the script, which has the number 0.
#[derive(Clone, Copy, Debug, PartialEq, Eq)]
pub struct Refusal {
    pub statement: u32,
    pub place: Place,
    pub kind: RefusalKind,
}

/// How a run ends.
#[derive(Clone, Copy, Debug, PartialEq, Eq)]
pub enum Status {
    /// The script was read to its end, and every statement ran.
    Done,
    Refused(Refusal),
    Usage(UsageFault),
    /// Reading a file failed.
    ReadFault,
    /// Writing the output failed.
    WriteFault,
    /// Reading or writing a spilled page failed.
    SpillFault,
    /// A page that was read back breaks a rule of pages.
    SpillDamaged(Damage),
    OutOfMemory,
}

impl From<OutOfMemory> for Status {
    ghost use Rattle.run_settings.specs.declared.status.Status.TheVariants.{OutOfMemory};

    ghost from_gives = { λ _ status. status ≡ OutOfMemory };

    fn from(_: OutOfMemory) -> Status {
        Status::OutOfMemory
    }
}

impl From<AllocError> for Status {
    ghost use Rattle.run_settings.specs.declared.status.Status.TheVariants.{OutOfMemory};

    ghost from_gives = { λ _ status. status ≡ OutOfMemory };

    fn from(_: AllocError) -> Status {
        Status::OutOfMemory
    }
}

impl Status {
    /// The exit status of the program.
    pub fn code(&self) -> u8
        ensures { result ≡ code_of self.now }
    {
        match self {
            Status::Done => 0,
            Status::Refused(_) => 1,
            Status::Usage(_) => 2,
            Status::ReadFault => 3,
            Status::WriteFault => 4,
            Status::SpillFault => 5,
            Status::SpillDamaged(_) => 5,
            Status::OutOfMemory => 7,
        }
    }
}
