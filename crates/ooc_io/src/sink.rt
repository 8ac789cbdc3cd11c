//! A sink of bytes.
ghost use Rattle.std.specs.Prelude.{◌≡◌, ◌<◌, ◌≤◌, ℕ, List, Option, length, IfOk};
ghost use Rattle.std.specs.Io.KnownBytes.{WriteAppends, Keeps};
ghost use Rattle.ooc_io.specs.Counts.{HasExactCause};

use crate::fault::WriteFailed;

/// Takes bytes. A sink that takes none fails.
pub trait Sink {
    /// The bytes that it took, where they are told.
    ghost written: { Self → Option (List ℕ) };

    /// How often a call failed.
    ghost faults: { Self → ℕ };

    /// Takes at least one byte from the front of `piece`, and answers how many.
    fn write(&mut self, piece: &[u8]) -> Result<usize, WriteFailed>
        requires { 0 < length piece.now }
        ensures some { IfOk result (λ n. 0 < n) }
        ensures bound { IfOk result (λ n. n ≤ length piece.now) }
        ensures bytes { WriteAppends (written self.old) (written self.new) result piece.now }
        ensures cause { HasExactCause (faults self.old) (faults self.new) result };

    /// Hands on what it took.
    fn flush(&mut self) -> Result<(), WriteFailed>
        ensures bytes { Keeps (written self.old) (written self.new) }
        ensures cause { HasExactCause (faults self.old) (faults self.new) result };
}
