//! A page's body and a lane: how a page goes out, and how it comes back.
ghost use Rattle.std.specs.Prelude.{◌≡◌, ◌≤◌, ℕ, List, Some, None, IsTrue, IsSome, IfOk, IfErr, OnOk, OnErr, IfSome, length};
ghost use Rattle.ooc_io.specs.Counts.{HasCause};
ghost use Rattle.row_image.specs.Bytes.{IsPage};
ghost use Rattle.row_image.specs.Rules.{IsAccepted};
ghost use Rattle.row_image.specs.declared.image.ImageKind.{ImageKind};
ghost use Rattle.page_body.specs.Bodies.{CanRest, IsUnwritten, frame_of, image_of, writes_to_rest};
ghost use Rattle.page_body.specs.Stands.{StandsFor, ImageStands, TicketStands};
ghost use Rattle.page_body.specs.Refusals.{LoadFails, RoomFails};

use crate::body::PageBody;
use crate::fault::PoolFault;
use evict_ring::Frame;
use ooc_io::{LaneFault, SpillFailed, SpillLane, Ticket};
use row_image::{ImageKind, check_image};

/// Readies a body with a frame to rest: a page that lives without a ticket is written to a lane, and the answer is what
/// `PageBody::rest` is to be given. So a page is written once, however often it rests, and a dead one never. It is refused
/// only where it writes.
pub fn ticket_for<L: SpillLane>(lane: &mut L, body: &PageBody) -> Result<Option<Ticket>, PoolFault>
    requires frame { IsSome (frame_of body.now) }
    requires page { IfSome (frame_of body.now) (λ frame. IsPage (length frame.bytes.items)) }
    ensures ready { IfOk result (CanRest body.now) }
    ensures stands { IfOk result (λ given. (kind : ImageKind) (content : List ℕ) → StandsFor L.Mark.tells kind content body.now → IfSome given (TicketStands L.Mark.tells kind content)) }
    ensures keeps { IsTrue L.Mark.tells → IfOk result (λ given. IfSome given (λ ticket. ticket.kept ≡ Some (image_of body.now))) }
    ensures writes { OnOk result (L.writes lane.new ≡ writes_to_rest body.now (L.writes lane.old)) }
    ensures unwritten { OnErr result (L.writes lane.new ≡ L.writes lane.old) }
    ensures later { L.writes lane.old ≤ L.writes lane.new }
    ensures faults { L.faults lane.old ≤ L.faults lane.new }
    ensures cause { IfErr result (RoomFails (L.faults lane.old) (L.faults lane.new)) }
    ensures refused { OnErr result (IsUnwritten body.now) }
    ensures idle { (IsUnwritten body.now → ⊥) → L.faults lane.new ≡ L.faults lane.old }
{
    match body {
        PageBody::Resident {
            frame,
            ticket: None,
        } => match lane.write(&frame.bytes) {
            Ok(ticket) => Ok(Some(ticket)),
            Err(LaneFault::Failed) => Err(PoolFault::Spill),
            Err(LaneFault::OutOfMemory) => Err(PoolFault::OutOfMemory),
        },
        _ => Ok(None),
    }
}

// Reads a ticket's image into a frame.
fn read_into<L: SpillLane>(
    lane: &mut L,
    ticket: &Ticket,
    frame: &mut Frame,
) -> Result<(), SpillFailed>
    requires tells { IsTrue L.Mark.tells → IsSome ticket.now.kept }
    requires fits { IsTrue L.Mark.tells → IfSome ticket.now.kept (λ bytes. length frame.old.bytes.items ≡ length bytes) }
    ensures number { frame.new.number ≡ frame.old.number }
    ensures long { length frame.new.bytes.items ≡ length frame.old.bytes.items }
    ensures bytes { IsTrue L.Mark.tells → OnOk result (ticket.now.kept ≡ Some frame.new.bytes.items) }
    ensures writes { L.writes lane.new ≡ L.writes lane.old }
    ensures cause { HasCause (L.faults lane.old) (L.faults lane.new) result }
{
    lane.read(ticket, frame.bytes_mut())
}

/// Reads a resting page's image into a frame, and tests it by the rules of the page's kind. Where it answers Ok the frame
/// has an image of each content that the ticket stands for, so it may be installed. It takes no memory.
pub fn load_from<L: SpillLane>(
    lane: &mut L,
    ticket: &Ticket,
    kind: &ImageKind,
    frame: &mut Frame,
) -> Result<(), PoolFault>
    requires page { IsPage (length frame.old.bytes.items) }
    requires tells { IsTrue L.Mark.tells → IsSome ticket.now.kept }
    requires fits { IsTrue L.Mark.tells → IfSome ticket.now.kept (λ bytes. length frame.old.bytes.items ≡ length bytes) }
    requires sound { IsTrue L.Mark.tells → IfSome ticket.now.kept (IsAccepted kind.now) }
    ensures number { frame.new.number ≡ frame.old.number }
    ensures long { length frame.new.bytes.items ≡ length frame.old.bytes.items }
    ensures stands { OnOk result ((content : List ℕ) → TicketStands L.Mark.tells kind.now content ticket.now → ImageStands L.Mark.tells kind.now content frame.new.bytes.items) }
    ensures writes { L.writes lane.new ≡ L.writes lane.old }
    ensures faults { L.faults lane.old ≤ L.faults lane.new }
    ensures cause { IfErr result (LoadFails L.Mark.tells kind.now (length frame.old.bytes.items) (L.faults lane.old) (L.faults lane.new)) }
{
    if read_into(lane, ticket, frame).is_err() {
        return Err(PoolFault::Spill);
    }
    match check_image(kind, &frame.bytes) {
        Ok(_) => Ok(()),
        Err(damage) => Err(PoolFault::Damaged(damage)),
    }
}
