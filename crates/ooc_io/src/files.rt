//! Files, of which one at a time is open.
ghost use Rattle.std.specs.Prelude.{◌≡◌, ◌<◌, ◌≤◌, ℕ, Bool, true, List, Option, length, IfOk, is_ok};
ghost use Rattle.std.specs.Io.KnownBytes.{ReadConsumes};
ghost use Rattle.ooc_io.specs.Counts.{HasCause};
ghost use Rattle.ooc_io.specs.Held.{Held};
ghost use Rattle.ooc_io.specs.Opens.{Opens, HasOpenCause};

use crate::fault::{FilesFailed, OpenFault};

/// Files that are read by name. One at a time is open.
pub trait Files {
    /// The bytes under each name, where they are told.
    ghost holds: { Self → Option Held };

    /// Whether a file is open.
    ghost is_open: { Self → Bool };

    /// The bytes of the open file that aren't read yet, where they are told.
    ghost left: { Self → Option (List ℕ) };

    /// How often a call failed.
    ghost faults: { Self → ℕ };

    /// Opens a file at its first byte. After a refusal none is open.
    fn open(&mut self, name: &str) -> Result<(), OpenFault>
        ensures holds { holds self.new ≡ holds self.old }
        ensures opened { is_open self.new ≡ is_ok result }
        ensures told { Opens (holds self.old) name.now result (left self.new) }
        ensures cause { HasOpenCause (faults self.old) (faults self.new) result };

    /// Reads the next bytes into the front of `piece`, and answers how many; 0 at the end of the file. After a failure the
    /// piece's bytes are unspecified.
    fn read(&mut self, piece: &mut [u8]) -> Result<usize, FilesFailed>
        requires opened { is_open self.old ≡ true }
        requires room { 0 < length piece.old }
        ensures holds { holds self.new ≡ holds self.old }
        ensures opened { is_open self.new ≡ true }
        ensures bound { IfOk result (λ n. n ≤ length piece.new) }
        ensures bytes { ReadConsumes (left self.old) (left self.new) result piece.new }
        ensures cause { HasCause (faults self.old) (faults self.new) result };
}
