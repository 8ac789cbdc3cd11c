//! Calls of a lane, of which the writes are counted.
ghost use Rattle.std.specs.Prelude.{◌≡◌, ◌+◌, ◌<◌, ◌≤◌, ◌^◌, ◌-◌, ℕ, List, IsTrue, IsSome, IfOk, IfErr, IfSome, OnOk, OnErr, length};
ghost use Rattle.row_image.specs.Bytes.{IsPage};
ghost use Rattle.row_image.specs.Rules.{IsAccepted};
ghost use Rattle.row_image.specs.declared.image.ImageKind.{ImageKind};
ghost use Rattle.page_body.specs.Bodies.{IsResident, CanRest, image_of, writes_to_rest};
ghost use Rattle.page_body.specs.Stands.{StandsFor, ImageStands, TicketStands};
ghost use Rattle.page_body.specs.Refusals.{LoadFails, RoomFails};
ghost use Rattle.solo_pool.specs.Weights.{unwritten};
ghost use Rattle.solo_pool.specs.LaneCounts.{LaneCounts};

use evict_ring::Frame;
use ooc_io::{SpillLane, Ticket};
use page_body::{PageBody, PoolFault, load_from, ticket_for};
use row_image::ImageKind;

// A page that was never written.
fn is_unwritten(body: &PageBody) -> bool
    requires { IsResident body.now }
    ensures yes { IsTrue result → unwritten body.now ≡ 1 }
    ensures no { (IsTrue result → ⊥) → unwritten body.now ≡ 0 }
{
    matches!(body, PageBody::Resident { ticket: None, .. })
}

/// Writes a resident page's image, if the page has no ticket.
pub fn spill<L: SpillLane>(
    lane: &mut L,
    wrote: &mut u64,
    body: &PageBody,
) -> Result<Option<Ticket>, PoolFault>
    requires resident { IsResident body.now }
    requires page { IsPage (length (image_of body.now)) }
    ensures ready { IfOk result (CanRest body.now) }
    ensures stands { IfOk result (λ given. (kind : ImageKind) (content : List ℕ) → StandsFor L.Mark.tells kind content body.now → IfSome given (TicketStands L.Mark.tells kind content)) }
    ensures wrote { OnOk result (wrote.new ≡ writes_to_rest body.now wrote.old) }
    ensures unwritten { OnErr result (wrote.new ≡ wrote.old) }
    ensures counts { LaneCounts (L.faults lane.old) (L.faults lane.new) (L.writes lane.old) (L.writes lane.new) wrote.old wrote.new }
    ensures cause { IfErr result (RoomFails (L.faults lane.old) (L.faults lane.new)) }
{
    let fresh = is_unwritten(body);
    let given = ticket_for(lane, body)?;
    if fresh {
        *wrote = wrote.saturating_add(1);
    }
    Ok(given)
}

/// Reads a resting page's image into a frame.
pub fn load<L: SpillLane>(
    lane: &mut L,
    ticket: &Ticket,
    kind: &ImageKind,
    frame: &mut Frame,
) -> Result<(), PoolFault>
    requires page { IsPage (length frame.old.bytes.items) }
    requires tells { IsTrue L.Mark.tells → IsSome ticket.now.kept }
    requires fits { IsTrue L.Mark.tells → IfSome ticket.now.kept (λ bytes. length frame.old.bytes.items ≡ length bytes) }
    requires sound { IsTrue L.Mark.tells → IfSome ticket.now.kept (IsAccepted kind.now) }
    ensures number { frame.new.number ≡ frame.old.number }
    ensures long { length frame.new.bytes.items ≡ length frame.old.bytes.items }
    ensures stands { OnOk result ((content : List ℕ) → TicketStands L.Mark.tells kind.now content ticket.now → ImageStands L.Mark.tells kind.now content frame.new.bytes.items) }
    ensures writes { L.writes lane.new ≡ L.writes lane.old }
    ensures faults { L.faults lane.old ≤ L.faults lane.new }
    ensures cause { IfErr result (LoadFails L.Mark.tells kind.now (length frame.old.bytes.items) (L.faults lane.old) (L.faults lane.new)) }
{
    load_from(lane, ticket, kind, frame)
}
