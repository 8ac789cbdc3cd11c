//! Pages that are pinned, and that come back from a lane first where they rest.
ghost use Rattle.std.specs.Prelude.{◌≡◌, ◌≤◌, ℕ, Bool, IsTrue};
ghost use Rattle.row_image.specs.declared.image.ImageKind.{ImageKind};
ghost use Rattle.page_body.specs.Bodies.{IsResting};
ghost use Rattle.page_body.specs.Refusals.{ReadFails};
ghost use Rattle.page_pool.specs.Cells.{Fitting};
ghost use Rattle.page_pool.specs.Pages.{kind_of, HitIs, bytes_under, frame_under};
ghost use Rattle.page_pool.specs.View.{IsPoolSeat, IsPageOf, page_bytes, open_frames};
ghost use Rattle.page_pool.specs.Tried.{OneWrite};
ghost use Rattle.page_pool.specs.Loads.{LoadIs, LoadFails, PinsLoad, IsFault};

use crate::cell::Held;
use crate::claims::{put_in, take_out};
use crate::frames::Search;
use crate::moves::load_body;
use crate::page::{Hit, Load, PageRef, Pin};
use crate::pins::{bytes_of, frame_of, leave};
use crate::pool::{Pool, PoolSeat};
use ooc_io::{SpillLane, TicketMark};
use page_body::{PageBody, PoolFault};
use std::sync::ledger::Ledger;

fn rests(body: &PageBody) -> bool
    ensures { IsTrue result → IsResting body.now }
{
    matches!(body, PageBody::Resting { .. })
}

fn of_fault<'a, M: TicketMark, B: Ledger>(fault: PoolFault) -> Load<'a, M, B>
    ensures load { IsFault result }
    ensures cause { (told : Bool) (kind : ImageKind) (bytes before now : ℕ) → ReadFails told kind bytes before now fault → LoadFails told kind bytes before now result }
{
    match fault {
        PoolFault::Spill => Load::Spill,
        PoolFault::Damaged(damage) => Load::Damaged(damage),
        PoolFault::OutOfMemory => Load::OutOfMemory,
    }
}

// What a page that was put back answers.
fn of_hit<'a, M: TicketMark, B: Ledger>(page: &PageRef<M, B>, hit: Hit<'a, M, B>) -> Load<'a, M, B>
    requires { HitIs M.tells page.now hit }
    ensures { PinsLoad M.tells page.now result }
{
    match hit {
        Hit::Pinned(pin) => Load::Pinned(pin),
        Hit::Busy(word) => Load::Busy(word),
        Hit::Dead => Load::Dead,
        Hit::Resting => Load::OutOfMemory,
    }
}

impl<M: TicketMark, B: Ledger> Pool<M, B> {
    /// Pins a page where it lies. It takes no memory.
    pub fn try_hit<'a>(&'a self, page: &PageRef<M, B>) -> Hit<'a, M, B>
        requires page { IsPageOf self.now page.now }
        ensures { HitIs M.tells page.now result }
    {
        self.cells.try_hit(page)
    }

    // Puts a body that doesn't rest back in, and pins it. That it rests then, or that another thread turns the word in
    // between, can't come. No clause of the cell says so, and the free answer stands for both.
    fn settle<'a>(&'a self, page: &PageRef<M, B>, held: Held<M, B>) -> Load<'a, M, B>
        requires page { IsPageOf self.now page.now }
        requires fits { Fitting M.tells page.now.shown.value.cell held.body }
        ensures pinned { PinsLoad M.tells page.now result }
    {
        match self.cells.put_and_pin(page, held) {
            Some(hit) => of_hit(page, hit),
            None => Load::OutOfMemory,
        }
    }

    // Loads a body that rests into a frame, and pins it.
    #[tactic(auto, using(evict_ring::proofs::Callers::held_first, evict_ring::proofs::Callers::without_first))]
    fn load_page<'a, L: SpillLane<Mark = M>>(
        &'a self,
        seat: &mut PoolSeat<M, B>,
        lane: &mut L,
        page: &PageRef<M, B>,
        held: Held<M, B>,
    ) -> Load<'a, M, B>
        requires own { IsPoolSeat self.now seat.old }
        requires page { IsPageOf self.now page.now }
        requires fits { Fitting M.tells page.now.shown.value.cell held.body }
        requires rests { IsResting held.body }
        ensures load { LoadIs M.tells self.now page.now seat.old seat.new result }
        ensures own { IsPoolSeat self.now seat.new }
        ensures held { open_frames seat.new ≡ open_frames seat.old }
        ensures writes { OneWrite (L.writes lane.old) (L.writes lane.new) }
        ensures faults { L.faults lane.old ≤ L.faults lane.new }
        ensures cause { LoadFails M.tells (kind_of page.now) (page_bytes self.now) (L.faults lane.old) (L.faults lane.new) result }
    {
        let cell = self.cells.cell(page);
        let Held {
            mut body,
            share: none,
            mark,
        } = held;
        match self.search(&mut seat.ring, lane, &mut seat.looks) {
            Search::Found(frame, share) => {
                let number = frame.number;
                match load_body(cell, lane, &mut body, frame) {
                    Ok(()) => {
                        let share = Some(share);
                        let load = self.settle(page, Held { body, share, mark });
                        self.give_page(&mut seat.ring, number, page.again());
                        load
                    }
                    Err((frame, fault)) => {
                        let held = Held {
                            body,
                            share: none,
                            mark,
                        };
                        put_in(cell, held);
                        self.give_frame(&mut seat.ring, frame, share);
                        of_fault(fault)
                    }
                }
            }
            Search::Full => {
                let held = Held {
                    body,
                    share: none,
                    mark,
                };
                put_in(cell, held);
                Load::NoFrame
            }
            Search::Fault(fault) => {
                let held = Held {
                    body,
                    share: none,
                    mark,
                };
                put_in(cell, held);
                of_fault(fault)
            }
        }
    }

    /// Pins a page, which is loaded where it rests. A page that is there is pinned beside its other readers.
    pub fn try_load<'a, L: SpillLane<Mark = M>>(
        &'a self,
        seat: &mut PoolSeat<M, B>,
        lane: &mut L,
        page: &PageRef<M, B>,
    ) -> Load<'a, M, B>
        requires own { IsPoolSeat self.now seat.old }
        requires page { IsPageOf self.now page.now }
        ensures load { LoadIs M.tells self.now page.now seat.old seat.new result }
        ensures own { IsPoolSeat self.now seat.new }
        ensures held { open_frames seat.new ≡ open_frames seat.old }
        ensures writes { OneWrite (L.writes lane.old) (L.writes lane.new) }
        ensures faults { L.faults lane.old ≤ L.faults lane.new }
        ensures cause { LoadFails M.tells (kind_of page.now) (page_bytes self.now) (L.faults lane.old) (L.faults lane.new) result }
    {
        match self.cells.try_hit(page) {
            Hit::Pinned(pin) => return Load::Pinned(pin),
            Hit::Busy(word) => return Load::Busy(word),
            Hit::Dead => return Load::Dead,
            Hit::Resting => {}
        }
        let held = match take_out(self.cells.cell(page)) {
            Ok(held) => held,
            Err(word) => return Load::Busy(word),
        };
        if rests(&held.body) {
            self.load_page(seat, lane, page, held)
        } else {
            self.settle(page, held)
        }
    }

    /// Gives a pin back.
    pub fn unpin(&self, pin: Pin<'_, M, B>) {
        leave(pin);
    }

    /// The bytes under a pin.
    pub fn bytes<'a>(&'a self, pin: &'a Pin<'_, M, B>) -> &'a [u8]
        ensures { result.now ≡ bytes_under pin.now }
    {
        bytes_of(pin)
    }

    /// The number of the frame under a pin.
    pub fn frame(&self, pin: &Pin<'_, M, B>) -> u32
        ensures { result ≡ frame_under pin.now }
    {
        frame_of(pin)
    }
}
