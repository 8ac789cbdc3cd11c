//! Opening a pool.
ghost use Rattle.std.specs.Prelude.{◌≡◌, ◌≤◌, [], IfOk, length};
ghost use Rattle.row_image.specs.Bytes.{IsPage};
ghost use Rattle.page_body.specs.Shows.{most_frames};
ghost use Rattle.evict_ring.specs.Seats.{IsSeatOf};
ghost use Rattle.page_pool.specs.Opening.{IsSpare, AreSpare};
ghost use Rattle.page_pool.specs.View.{IsPoolSeat, page_bytes, frame_count, open_frames};

use crate::cells::Cells;
use crate::owner::Owner;
use crate::pool::{Pool, PoolSeat, Seen};
use crate::share::frame_share;
use boxcar::slot::OnceSlot;
use boxcar::tag::{Names, Tag};
use evict_ring::{Frame, Ring, RingSeat, Turn};
use ooc_io::{OutOfMemory, TicketMark};
use std::alloc::{AllocError, Global};
use std::sync::ledger::{Blank, Ledger, Share, Total};

// How many chunks of cells a pool may have.
const MOST_CHUNKS: usize = 1024;

/// What the tag of a pool's ring says.
pub struct AboutOf;

impl<M: TicketMark, B: Ledger> Names<Cells<M, B>> for AboutOf {
    ghost use Rattle.page_pool.specs.Turns.{about_of};

    ghost numbers = { about_of };
}

fn zeroed(alloc: Global, count: usize) -> Result<Vec<u8>, AllocError>
    ensures { IfOk result (λ bytes. length bytes.items ≡ count) }
{
    vec![in alloc; 0; count]
}

// A turn with its spare frame and a share beside it.
fn spare_turn<M: TicketMark, B: Ledger>(
    alloc: Global,
    page: u32,
    number: u32,
    share: Share<B>,
) -> Result<Turn<Owner<M, B>>, OutOfMemory>
    requires { (share.parts ≡ 1) × (share.amount ≡ 1) }
    ensures { IfOk result (λ turn. (turn.frame ≡ number) × IsSpare page turn) }
{
    let bytes = zeroed(alloc, page as usize)?;
    Ok(Turn {
        frame: number,
        spare: Some(Frame { number, bytes }),
        owner: Some(Owner::Free(frame_share(share))),
    })
}

// The turns of a pool, each with its spare frame and a share beside it, and the ledger's total, which is their number.
fn spare_turns<M: TicketMark, B: Ledger>(
    alloc: Global,
    page: u32,
    frames: u32,
    blank: Blank,
) -> Result<(Vec<Turn<Owner<M, B>>>, Total<B>), OutOfMemory>
    requires name { blank.name ≡ B.name }
    requires parts { blank.parts ≡ B.parts }
    requires all { blank.parts ≡ frames }
    ensures count { IfOk result (λ r. length r.0.items ≡ frames) }
    ensures home { IfOk result (λ r. AreSpare page frames r.0.items) }
    ensures book { IfOk result (λ r. r.1.amount ≡ frames) }
{
    let (mut book, mut rest) = blank.open::<B>();
    let mut turns = Vec::new(alloc);
    for number in 0..frames {
        let mut share = rest.split_off(1, 0);
        book.add(&mut share, 1);
        let turn = spare_turn(alloc, page, number, share)?;
        turns.push(turn)?;
    }
    Ok((turns, book.close()))
}

// The cells of a pool that has no page yet.
fn new_cells<M: TicketMark, B: Ledger>(
    alloc: Global,
    page: u32,
    frames: u32,
) -> Result<Cells<M, B>, OutOfMemory>
    requires page { IsPage page }
    requires most { frames ≤ most_frames }
    ensures page { IfOk result (λ cells. cells.page ≡ page) }
    ensures frames { IfOk result (λ cells. cells.frames ≡ frames) }
{
    let mut chunks = Vec::with_capacity(alloc, MOST_CHUNKS)?;
    for _ in 0..MOST_CHUNKS {
        chunks.push(OnceSlot::new(&Tag::empty()))?;
    }
    Ok(Cells {
        alloc,
        page,
        frames,
        chunks,
    })
}

// As many looks as there are frames.
fn new_looks(alloc: Global, count: usize) -> Result<Vec<Seen>, AllocError>
    ensures { IfOk result (λ looks. length looks.items ≡ count) }
{
    vec![in alloc; Seen::TurnOut; count]
}

// A seat with no open page.
fn new_seat<M: TicketMark, B: Ledger>(
    alloc: Global,
    pool: &Pool<M, B>,
    ring: RingSeat<Owner<M, B>>,
) -> Result<PoolSeat<M, B>, OutOfMemory>
    requires own { IsSeatOf pool.now.ring ring }
    requires empty { ring.held ≡ [] }
    ensures own { IfOk result (IsPoolSeat pool.now) }
    ensures empty { IfOk result (λ seat. open_frames seat ≡ []) }
{
    let open = Vec::with_capacity(alloc, pool.cells.frames as usize)?;
    let looks = new_looks(alloc, pool.cells.frames as usize)?;
    Ok(PoolSeat {
        ring,
        open,
        looks,
        room: None,
    })
}

impl<M: TicketMark, B: Ledger> Pool<M, B> {
    /// A pool of spare frames with no page, and a seat. The blank ledger has a part for each frame. After a refusal it is
    /// gone.
    pub fn open_pool(
        alloc: Global,
        blank: Blank,
        page: u32,
        frames: u32,
    ) -> Result<(Pool<M, B>, PoolSeat<M, B>), OutOfMemory>
        requires page { IsPage page }
        requires least { 24 ≤ frames }
        requires most { frames ≤ most_frames }
        requires name { blank.name ≡ B.name }
        requires parts { blank.parts ≡ B.parts }
        requires all { blank.parts ≡ frames }
        ensures page { IfOk result (λ r. page_bytes r.0 ≡ page) }
        ensures frames { IfOk result (λ r. frame_count r.0 ≡ frames) }
        ensures own { IfOk result (λ r. IsPoolSeat r.0 r.1) }
        ensures empty { IfOk result (λ r. open_frames r.1 ≡ []) }
    {
        let cells = new_cells(alloc, page, frames)?;
        let (turns, total) = spare_turns(alloc, page, frames, blank)?;
        let about = Tag::of::<Cells<M, B>, AboutOf>(&cells);
        match Ring::new_ring(alloc, turns, about) {
            Ok((ring, ring_seat)) => {
                let pool = Pool { cells, ring, total };
                let seat = new_seat(alloc, &pool, ring_seat)?;
                Ok((pool, seat))
            }
            Err(_) => Err(OutOfMemory),
        }
    }

    /// Another seat, with no open page.
    pub fn split_seat(
        &self,
        alloc: Global,
        seat: &mut PoolSeat<M, B>,
    ) -> Result<PoolSeat<M, B>, OutOfMemory>
        requires own { IsPoolSeat self.now seat.old }
        ensures own { IsPoolSeat self.now seat.new }
        ensures same { open_frames seat.new ≡ open_frames seat.old }
        ensures new { IfOk result (IsPoolSeat self.now) }
        ensures empty { IfOk result (λ other. open_frames other ≡ []) }
    {
        match self.ring.split_seat(alloc, &mut seat.ring) {
            Ok(ring) => new_seat(alloc, self, ring),
            Err(_) => Err(OutOfMemory),
        }
    }

    /// Ends a seat at which no page is open.
    pub fn join_seat(&self, into: &mut PoolSeat<M, B>, from: PoolSeat<M, B>)
        requires into { IsPoolSeat self.now into.old }
        requires from { IsPoolSeat self.now from }
        requires empty { open_frames from ≡ [] }
        ensures own { IsPoolSeat self.now into.new }
        ensures same { open_frames into.new ≡ open_frames into.old }
    {
        let PoolSeat {
            ring,
            open: _,
            looks: _,
            room: _,
        } = from;
        self.ring.join_seat(&mut into.ring, ring);
    }
}
