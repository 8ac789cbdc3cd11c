//! How a frame comes out of a body that was taken out of its cell, how it comes in, and how its texts are moved.
ghost use Rattle.std.specs.Prelude.{◌≡◌, ◌≢◌, ℕ, ◌<◌, ◌≤◌, ◌%◌, ◌^◌, false, Some, is_some, IsTrue, IsSome, IfOk, IfErr, OnOk, OnErr, IfSome, length};
ghost use Rattle.row_image.specs.Bytes.{IsPage};
ghost use Rattle.row_image.specs.Rules.{IsAccepted};
ghost use Rattle.row_image.specs.Image.{part_count, part_at, no_heap};
ghost use Rattle.row_image.specs.declared.image.ImageKind.TheVariants.{Rows};
ghost use Rattle.page_body.specs.Bodies.{IsResting, IsUnwritten, frame_of, image_of, writes_to_rest};
ghost use Rattle.page_body.specs.Refusals.{RoomFails, LoadFails};
ghost use Rattle.page_body.specs.Stands.{ImageStands};
ghost use Rattle.page_pool.specs.Cells.{Fitting, IsSized, IsFrame, sealed_content};
ghost use Rattle.page_pool.specs.Shown.{WasIs};

use crate::cell::PageCell;
use evict_ring::Frame;
use ooc_io::{SpillLane, TicketMark};
use page_body::{PageBody, PoolFault, load_from, ticket_for};
use row_image::{ImageKind, Layout, part_count, part_of};
use std::sync::ledger::Ledger;

// The heap number of a part that has no heap page.
const NO_HEAP: u32 = 4294967295;

/// What a body that was asked to change was.
#[derive(Clone, Copy)]
pub enum Was {
    Resident,
    Resting,
    Dead,
}

/// The number of the frame in a body.
pub fn number_of(body: &PageBody) -> Option<u32>
    ensures some { IfSome result (λ n. IfSome (frame_of body.now) (λ f. f.number ≡ n)) }
    ensures there { IfSome result (λ n. IsSome (frame_of body.now)) }
{
    match body {
        PageBody::Resident { frame, .. } => Some(frame.number),
        PageBody::Dead { frame: Some(frame) } => Some(frame.number),
        _ => None,
    }
}

/// Takes the frame out of a body. A page that lives and has no ticket is written to the lane first, which is the only
/// write.
pub fn rest_body<M: TicketMark, B: Ledger, L: SpillLane<Mark = M>>(
    cell: &PageCell<M, B>,
    lane: &mut L,
    body: &mut PageBody,
) -> Result<Frame, PoolFault>
    requires fits { Fitting M.tells cell.now.cell body.old }
    requires sized { IsSized cell.now.cell }
    requires there { IsSome (frame_of body.old) }
    ensures fits { Fitting M.tells cell.now.cell body.new }
    ensures gone { OnOk result (IsSome (frame_of body.new) → ⊥) }
    ensures frame { IfOk result (IsFrame cell.now.cell.page cell.now.cell.frames) }
    ensures same { IfOk result (λ f. frame_of body.old ≡ Some f) }
    ensures refused { OnErr result (body.new ≡ body.old) }
    ensures writes { OnOk result (L.writes lane.new ≡ writes_to_rest body.old (L.writes lane.old)) }
    ensures unwritten { OnErr result (L.writes lane.new ≡ L.writes lane.old) }
    ensures later { L.writes lane.old ≤ L.writes lane.new }
    ensures faults { L.faults lane.old ≤ L.faults lane.new }
    ensures cause { IfErr result (RoomFails (L.faults lane.old) (L.faults lane.new)) }
    ensures needed { OnErr result (IsUnwritten body.old) }
{
    let given = ticket_for(lane, body)?;
    Ok(body.rest(given))
}

// Reads a resting body's image into a frame.
fn load_image<M: TicketMark, B: Ledger, L: SpillLane<Mark = M>>(
    cell: &PageCell<M, B>,
    lane: &mut L,
    body: &PageBody,
    frame: &mut Frame,
) -> Result<(), PoolFault>
    requires fits { Fitting M.tells cell.now.cell body.now }
    requires sized { IsSized cell.now.cell }
    requires rests { IsResting body.now }
    requires frame { IsFrame cell.now.cell.page cell.now.cell.frames frame.old }
    ensures stands { OnOk result (ImageStands M.tells cell.now.cell.kind (sealed_content cell.now.cell) frame.new.bytes.items) }
    ensures number { frame.new.number ≡ frame.old.number }
    ensures frame { IsFrame cell.now.cell.page cell.now.cell.frames frame.new }
    ensures writes { L.writes lane.new ≡ L.writes lane.old }
    ensures faults { L.faults lane.old ≤ L.faults lane.new }
    ensures cause { IfErr result (LoadFails M.tells cell.now.cell.kind cell.now.cell.page (L.faults lane.old) (L.faults lane.new)) }
{
    match body {
        PageBody::Resting { ticket } => load_from(lane, ticket, &cell.kind, frame),
        PageBody::Resident { .. } | PageBody::Dead { .. } => unreachable!(),
    }
}

/// Reads a resting body's image into a frame, and puts the frame in. After a refusal the frame comes back, with any bytes.
pub fn load_body<M: TicketMark, B: Ledger, L: SpillLane<Mark = M>>(
    cell: &PageCell<M, B>,
    lane: &mut L,
    body: &mut PageBody,
    frame: Frame,
) -> Result<(), (Frame, PoolFault)>
    requires fits { Fitting M.tells cell.now.cell body.old }
    requires sized { IsSized cell.now.cell }
    requires rests { IsResting body.old }
    requires frame { IsFrame cell.now.cell.page cell.now.cell.frames frame }
    ensures fits { Fitting M.tells cell.now.cell body.new }
    ensures there { OnOk result (IsSome (frame_of body.new)) }
    ensures refused { OnErr result (body.new ≡ body.old) }
    ensures back { IfErr result (λ e. (e.0.number ≡ frame.number) × IsFrame cell.now.cell.page cell.now.cell.frames e.0) }
    ensures writes { L.writes lane.new ≡ L.writes lane.old }
    ensures faults { L.faults lane.old ≤ L.faults lane.new }
    ensures cause { IfErr result (λ e. LoadFails M.tells cell.now.cell.kind cell.now.cell.page (L.faults lane.old) (L.faults lane.new) e.1) }
{
    let mut frame = frame;
    match load_image(cell, lane, body, &mut frame) {
        Ok(()) => {
            body.install(frame);
            Ok(())
        }
        Err(fault) => Err((frame, fault)),
    }
}

// Whether a row page has that part, and a heap page for it.
#[tactic(auto, using(row_image::proofs::Laws::accepted_parts))]
fn has_heap(layout: &Layout, image: &[u8], part: u32) -> bool
    requires page { IsPage (length image.now) }
    requires accepted { IsAccepted (Rows layout.now) image.now }
    ensures part { IsTrue result → part < part_count image.now }
    ensures heap { IsTrue result → (part_at image.now part).heap ≢ no_heap }
{
    part < part_count(image) && part_of(image, part).heap != NO_HEAP
}

/// Moves the texts of a part of a resident row page, if it has that part and a heap page for it.
pub fn rebase_body<M: TicketMark, B: Ledger>(
    cell: &PageCell<M, B>,
    body: &mut PageBody,
    part: u32,
    base: u64,
) -> Was
    requires fits { Fitting M.tells cell.now.cell body.old }
    requires sized { IsSized cell.now.cell }
    requires aligned { base % cell.now.cell.page ≡ 0 }
    requires low { base < 2 ^ 48 }
    ensures fits { Fitting M.tells cell.now.cell body.new }
    ensures was { WasIs body.old result }
    ensures frame { is_some (frame_of body.new) ≡ is_some (frame_of body.old) }
{
    match body {
        PageBody::Resident { frame, .. } => {
            if let ImageKind::Rows(layout) = &cell.kind {
                if has_heap(layout, &frame.bytes, part) {
                    body.rebase(layout, part, base);
                }
            }
            Was::Resident
        }
        PageBody::Resting { .. } => Was::Resting,
        PageBody::Dead { .. } => Was::Dead,
    }
}
