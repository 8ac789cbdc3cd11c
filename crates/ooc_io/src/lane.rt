//! A lane to which one worker spills.
ghost use Rattle.std.specs.Prelude.{◌≡◌, ◌≤◌, ℕ, IsTrue, IsSome, Some, IfOk, IfSome, OnOk, length};
ghost use Rattle.ooc_io.specs.Counts.{HasCause};
ghost use Rattle.ooc_io.specs.Lanes.{HasLaneCause, CountsWrites};

use crate::fault::{LaneFault, SpillFailed};
use crate::ticket::{Ticket, TicketMark};

/// Spills images of pages and reads them back. Any lane of a run reads any ticket of the run. What a ticket holds is
/// told where the lane's mark tells.
pub trait SpillLane {
    type Mark: TicketMark;

    /// How many writes succeeded. It never falls.
    ghost writes: { Self → ℕ };

    /// How often a call failed.
    ghost faults: { Self → ℕ };

    /// Spills an image. A lane that tells gives a ticket that keeps it.
    fn write(&mut self, image: &[u8]) -> Result<Ticket, LaneFault>
        ensures writes { CountsWrites (writes self.old) (writes self.new) result }
        ensures keeps { IsTrue Self.Mark.tells → IfOk result (λ ticket. ticket.kept ≡ Some image.now) }
        ensures cause { HasLaneCause (faults self.old) (faults self.new) result };

    /// Reads an image back. After a refusal the bytes of `into` are open.
    fn read(&mut self, ticket: &Ticket, into: &mut [u8]) -> Result<(), SpillFailed>
        requires tells { IsTrue Self.Mark.tells → IsSome ticket.now.kept }
        requires fits { IsTrue Self.Mark.tells
            → IfSome ticket.now.kept (λ bytes. length into.old ≡ length bytes) }
        ensures bytes { IsTrue Self.Mark.tells → OnOk result (ticket.now.kept ≡ Some into.new) }
        ensures writes { writes self.new ≡ writes self.old }
        ensures cause { HasCause (faults self.old) (faults self.new) result };

    /// Gives the place of a ticket back.
    fn free(&mut self, ticket: Ticket)
        ensures writes { writes self.new ≡ writes self.old }
        ensures faults { faults self.new ≡ faults self.old };
}
