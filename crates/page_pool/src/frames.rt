//! How a frame is sought: by its turn, and by the cell of the page that has it.
ghost use Rattle.std.specs.Prelude.{◌≡◌, ◌≢◌, ℕ, ◌<◌, ◌≤◌, IfSome, IfNone, IsSomeAnd, length, slice_get};
ghost use Rattle.number_bags.specs.Bags.{times};
ghost use Rattle.evict_ring.specs.Seats.{IsSeatOf, giving};
ghost use Rattle.page_pool.specs.Cells.{IsFrame, IsSized};
ghost use Rattle.page_pool.specs.View.{page_bytes, frame_count, IsPageOf};
ghost use Rattle.page_pool.specs.Tried.{TriedIs, TriedFails, RestedIs, RestedFails, SearchIs, EndsSearch, SearchFails, SameSeat, IsLook};

use crate::cell::{Held, PageCell};
use crate::claims::{put_in, take_out};
use crate::moves::{number_of, rest_body};
use crate::owner::Owner;
use crate::page::PageRef;
use crate::pool::{Pool, Seen};
use crate::share::FrameShare;
use evict_ring::{Frame, RingSeat, Turn};
use ooc_io::{SpillLane, TicketMark};
use page_body::PoolFault;
use std::sync::ledger::Ledger;

/// What came of a page that was to give up its frame.
#[derive(Drop)]
pub enum Rested<B: Ledger> {
    Got(Frame, FrameShare<B>),
    Claimed(u64),
    Fault(PoolFault),
}

/// What came of a frame that was tried.
#[derive(Drop)]
pub enum Tried<B: Ledger> {
    Got(Frame, FrameShare<B>),
    Out,
    Claimed(u64),
    Fault(PoolFault),
}

/// What came of a search over several frames.
#[derive(Drop)]
pub enum Search<B: Ledger> {
    Found(Frame, FrameShare<B>),
    Full,
    Fault(PoolFault),
}

// Takes the frame of that number out of a page that nobody claims.
fn rest_page<M: TicketMark, B: Ledger, L: SpillLane<Mark = M>>(
    cell: &PageCell<M, B>,
    lane: &mut L,
    number: u32,
) -> Rested<B>
    requires sized { IsSized cell.now.cell }
    ensures rested { RestedIs cell.now.cell.page cell.now.cell.frames number (L.writes lane.old) (L.writes lane.new) result }
    ensures faults { L.faults lane.old ≤ L.faults lane.new }
    ensures cause { RestedFails (L.faults lane.old) (L.faults lane.new) result }
{
    let held = match take_out(cell) {
        Ok(held) => held,
        Err(word) => return Rested::Claimed(word),
    };
    let Held {
        mut body,
        share,
        mark,
    } = held;
    match (number_of(&body), share) {
        (Some(found), Some(share)) if found == number => {
            match rest_body(cell, lane, &mut body) {
                Ok(frame) => {
                    let share_gone = None;
                    put_in(
                        cell,
                        Held {
                            body,
                            share: share_gone,
                            mark,
                        },
                    );
                    Rested::Got(frame, share)
                }
                Err(fault) => {
                    let share = Some(share);
                    put_in(cell, Held { body, share, mark });
                    Rested::Fault(fault)
                }
            }
        }
        // A page that owns a turn has the turn's frame. No clause of the ring says so, and the free answer stands here.
        (_, share) => {
            put_in(cell, Held { body, share, mark });
            Rested::Fault(PoolFault::OutOfMemory)
        }
    }
}

impl<M: TicketMark, B: Ledger> Pool<M, B> {
    // Takes a turn, and the frame from who has it.
    fn try_frame<L: SpillLane<Mark = M>>(
        &self,
        seat: &mut RingSeat<Owner<M, B>>,
        lane: &mut L,
        i: u32,
    ) -> Tried<B>
        requires own { IsSeatOf self.now.ring seat.old }
        requires place { i < frame_count self.now }
        ensures tried { TriedIs (page_bytes self.now) (frame_count self.now) i seat.old seat.new (L.writes lane.old) (L.writes lane.new) result }
        ensures faults { L.faults lane.old ≤ L.faults lane.new }
        ensures cause { TriedFails (L.faults lane.old) (L.faults lane.new) result }
    {
        let turn = match self.ring.take(seat, i) {
            Some(turn) => turn,
            None => return Tried::Out,
        };
        let Turn {
            frame: number,
            spare,
            owner,
        } = turn;
        match (spare, owner) {
            (Some(frame), Some(Owner::Free(share))) => Tried::Got(frame, share),
            (None, Some(Owner::Page(page))) => {
                match rest_page(self.cells.cell(&page), lane, number) {
                    Rested::Got(frame, share) => Tried::Got(frame, share),
                    Rested::Claimed(word) => {
                        self.give_page(seat, number, page);
                        Tried::Claimed(word)
                    }
                    Rested::Fault(fault) => {
                        self.give_page(seat, number, page);
                        Tried::Fault(fault)
                    }
                }
            }
            _ => unreachable!(),
        }
    }

    /// Gives a turn back whose frame a page has.
    pub(crate) fn give_page(
        &self,
        seat: &mut RingSeat<Owner<M, B>>,
        number: u32,
        page: PageRef<M, B>,
    )
        requires own { IsSeatOf self.now.ring seat.old }
        requires page { IsPageOf self.now page }
        requires out { 0 < times seat.old.held number }
        ensures { seat.new ≡ giving number seat.old }
    {
        self.ring.give(
            seat,
            Turn {
                frame: number,
                spare: None,
                owner: Some(Owner::Page(page)),
            },
        );
    }

    /// Gives a turn back with its spare frame.
    pub(crate) fn give_frame(
        &self,
        seat: &mut RingSeat<Owner<M, B>>,
        frame: Frame,
        share: FrameShare<B>,
    )
        requires own { IsSeatOf self.now.ring seat.old }
        requires frame { IsFrame (page_bytes self.now) (frame_count self.now) frame }
        requires out { 0 < times seat.old.held frame.number }
        ensures { seat.new ≡ giving frame.number seat.old }
    {
        self.ring.give(
            seat,
            Turn {
                frame: frame.number,
                spare: Some(frame),
                owner: Some(Owner::Free(share)),
            },
        );
    }

    // Tries a frame, and notes what it saw of it where it didn't come.
    fn look<L: SpillLane<Mark = M>>(
        &self,
        seat: &mut RingSeat<Owner<M, B>>,
        lane: &mut L,
        looks: &mut [Seen],
        i: u32,
    ) -> Option<Search<B>>
        requires own { IsSeatOf self.now.ring seat.old }
        requires place { i < frame_count self.now }
        requires room { length looks.old ≡ frame_count self.now }
        ensures found { IfSome result (λ r. EndsSearch (page_bytes self.now) (frame_count self.now) seat.old seat.new (L.writes lane.old) (L.writes lane.new) r × (looks.new ≡ looks.old)) }
        ensures seen { IfNone result (IsSomeAnd (slice_get looks.new i) (IsLook seat.old.refused seat.new.refused i) × (seat.new.held ≡ seat.old.held) × (L.writes lane.new ≡ L.writes lane.old)) }
        ensures same { SameSeat seat.old seat.new }
        ensures room { length looks.new ≡ length looks.old }
        ensures others { (j : ℕ) → j ≢ i → slice_get looks.new j ≡ slice_get looks.old j }
        ensures faults { L.faults lane.old ≤ L.faults lane.new }
        ensures cause { IfSome result (SearchFails (L.faults lane.old) (L.faults lane.new)) }
    {
        match self.try_frame(seat, lane, i) {
            Tried::Got(frame, share) => Some(Search::Found(frame, share)),
            Tried::Out => {
                looks[i as usize] = Seen::TurnOut;
                None
            }
            Tried::Claimed(word) => {
                looks[i as usize] = Seen::Claimed(word);
                None
            }
            Tried::Fault(fault) => Some(Search::Fault(fault)),
        }
    }

    // Tries the frames from one number up to another, and notes what it saw of each.
    fn scan<L: SpillLane<Mark = M>>(
        &self,
        seat: &mut RingSeat<Owner<M, B>>,
        lane: &mut L,
        looks: &mut [Seen],
        from: u32,
        to: u32,
    ) -> Search<B>
        requires own { IsSeatOf self.now.ring seat.old }
        requires order { from ≤ to }
        requires place { to ≤ frame_count self.now }
        requires room { length looks.old ≡ frame_count self.now }
        ensures search { SearchIs (page_bytes self.now) (frame_count self.now) seat.old seat.new (L.writes lane.old) (L.writes lane.new) looks.new from to result }
        ensures same { SameSeat seat.old seat.new }
        ensures room { length looks.new ≡ length looks.old }
        ensures others { (i : ℕ) → (i < from → slice_get looks.new i ≡ slice_get looks.old i) × (to ≤ i → slice_get looks.new i ≡ slice_get looks.old i) }
        ensures faults { L.faults lane.old ≤ L.faults lane.new }
        ensures cause { SearchFails (L.faults lane.old) (L.faults lane.new) result }
    {
        for i in from..to {
            if let Some(found) = self.look(seat, lane, looks, i) {
                return found;
            }
        }
        Search::Full
    }

    /// Seeks a frame, from where the hand is and once round.
    pub(crate) fn search<L: SpillLane<Mark = M>>(
        &self,
        seat: &mut RingSeat<Owner<M, B>>,
        lane: &mut L,
        looks: &mut [Seen],
    ) -> Search<B>
        requires own { IsSeatOf self.now.ring seat.old }
        requires room { length looks.old ≡ frame_count self.now }
        ensures search { SearchIs (page_bytes self.now) (frame_count self.now) seat.old seat.new (L.writes lane.old) (L.writes lane.new) looks.new 0 (frame_count self.now) result }
        ensures same { SameSeat seat.old seat.new }
        ensures room { length looks.new ≡ length looks.old }
        ensures faults { L.faults lane.old ≤ L.faults lane.new }
        ensures cause { SearchFails (L.faults lane.old) (L.faults lane.new) result }
    {
        let start = self.ring.start(seat);
        match self.scan(seat, lane, looks, start, self.cells.frames) {
            Search::Full => self.scan(seat, lane, looks, 0, start),
            found => found,
        }
    }
}
