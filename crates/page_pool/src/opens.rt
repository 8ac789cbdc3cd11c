//! Pages that are opened, given up and sealed.
ghost use Rattle.std.specs.Prelude.{◌≡◌, ◌≤◌, ◌<◌, IfOk, IfErr, OnOk, OnErr, IsSomeAnd, slice_get};
ghost use Rattle.number_bags.specs.Bags.{times, without};
ghost use Rattle.row_image.specs.Flat.{flat};
ghost use Rattle.row_image.specs.Rules.{IsAccepted};
ghost use Rattle.page_pool.specs.Numbers.{numbers_of};
ghost use Rattle.page_pool.specs.Pages.{kind_of, content_of};
ghost use Rattle.page_pool.specs.View.{IsPoolSeat, IsPageOf, IsOpenAt, open_frames};
ghost use Rattle.page_pool.specs.Opens.{OpenIs, OpenFails};

use crate::frames::Search;
use crate::page::PageRef;
use crate::pool::{OpenTurn, Pool, PoolSeat};
use ooc_io::{OutOfMemory, SpillLane, TicketMark};
use page_body::{OpenPage, PoolFault};
use row_image::ImageKind;
use std::sync::ledger::Ledger;

/// What came of a page that was to be opened.
#[derive(Drop)]
pub enum Open {
    Opened(OpenPage),
    /// No frame could be had: the seat's looks say why, frame by frame.
    NoFrame,
    Spill,
    OutOfMemory,
}

// The place of an open page's turn.
fn place_of<B: Ledger>(turns: &[OpenTurn<B>], number: u32) -> usize
    requires { 0 < times (numbers_of turns.now) number }
    ensures { IsSomeAnd (slice_get turns.now result) (λ t. t.number ≡ number) }
{
    for place in 0..turns.len() {
        if turns[place].number == number {
            return place;
        }
    }
    unreachable!()
}

impl<M: TicketMark, B: Ledger> Pool<M, B> {
    /// Opens a page in a frame that is spare, or that a page which nobody claims gives up. Its bytes are what they are.
    pub fn try_open<L: SpillLane<Mark = M>>(
        &self,
        seat: &mut PoolSeat<M, B>,
        lane: &mut L,
        kind: ImageKind,
    ) -> Open
        requires own { IsPoolSeat self.now seat.old }
        ensures open { OpenIs self.now kind seat.old seat.new (L.writes lane.old) (L.writes lane.new) result }
        ensures own { IsPoolSeat self.now seat.new }
        ensures faults { L.faults lane.old ≤ L.faults lane.new }
        ensures cause { OpenFails (L.faults lane.old) (L.faults lane.new) result }
    {
        if seat.open.reserve(1).is_err() {
            return Open::OutOfMemory;
        }
        match self.search(&mut seat.ring, lane, &mut seat.looks) {
            Search::Found(frame, share) => {
                seat.open.push_reserved(OpenTurn {
                    number: frame.number,
                    share,
                });
                Open::Opened(OpenPage { frame, kind })
            }
            Search::Full => Open::NoFrame,
            Search::Fault(PoolFault::Spill) => Open::Spill,
            Search::Fault(PoolFault::OutOfMemory) => Open::OutOfMemory,
            Search::Fault(PoolFault::Damaged(_)) => unreachable!(),
        }
    }

    /// Gives an open page up. Its frame is spare again.
    pub fn discard(&self, seat: &mut PoolSeat<M, B>, page: OpenPage)
        requires own { IsPoolSeat self.now seat.old }
        requires open { IsOpenAt self.now seat.old page }
        ensures own { IsPoolSeat self.now seat.new }
        ensures given { open_frames seat.new ≡ without page.frame.number (open_frames seat.old) }
    {
        let OpenPage { frame, kind: _ } = page;
        let place = place_of(&seat.open, frame.number);
        let OpenTurn { number: _, share } = seat.open.remove(place);
        self.give_frame(&mut seat.ring, frame, share);
    }

    /// Makes a page of an open one, with its kind and with what its image says. After a refusal the page is still open.
    pub fn seal(
        &self,
        seat: &mut PoolSeat<M, B>,
        page: OpenPage,
    ) -> Result<PageRef<M, B>, (OpenPage, OutOfMemory)>
        requires own { IsPoolSeat self.now seat.old }
        requires open { IsOpenAt self.now seat.old page }
        requires accepted { IsAccepted page.kind page.frame.bytes.items }
        ensures own { IsPoolSeat self.now seat.new }
        ensures page { IfOk result (IsPageOf self.now) }
        ensures kind { IfOk result (λ p. kind_of p ≡ page.kind) }
        ensures content { IfOk result (λ p. content_of p ≡ flat page.kind page.frame.bytes.items) }
        ensures given { OnOk result (open_frames seat.new ≡ without page.frame.number (open_frames seat.old)) }
        ensures back { IfErr result (λ e. e.0 ≡ page) }
        ensures refused { OnErr result (open_frames seat.new ≡ open_frames seat.old) }
    {
        let spot = match self.cells.spot(&mut seat.room) {
            Ok(spot) => spot,
            Err(refused) => return Err((page, refused)),
        };
        let number = page.frame.number;
        let place = place_of(&seat.open, number);
        let OpenTurn { number: _, share } = seat.open.remove(place);
        match self.cells.make_page(spot, page, share) {
            Ok(sealed) => {
                self.give_page(&mut seat.ring, number, sealed.again());
                Ok(sealed)
            }
            Err((page, share)) => {
                seat.open.push_reserved(OpenTurn { number, share });
                Err((page, OutOfMemory))
            }
        }
    }
}
