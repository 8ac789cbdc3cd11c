//! Items that threads draw by value.
ghost use Rattle.std.specs.Prelude.{◌≡◌, ℕ, ◌+◌, ◌-◌, ◌<◌, ◌≤◌, true, false, [], ◌∷◌, ◌++◌, length, IfOk, IfSome, IfNone, Some, slice_get, ◌||◌};
ghost use Rattle.claim_counter.specs.Once.{IsEachBelow};
ghost use Rattle.claim_counter.specs.Players.{IsPlayerOf, player, item_limit, left_from};

use crate::claims::OutOfMemory;
use crate::hand_rule::{DrawItem, EachDealtOnce, GiveBack, HandTerms, HandView, OneHandPart};
use crate::places::{item_places, take_all};
use atomic_table::{Seat, Table};
use std::alloc::Global;
use std::marker::Model;
use std::snapshot::Snapshot;

/// Items, each drawn by value, once. Any number of threads draw through `&`, each with a seat of its own.
#[derive(Drop)]
pub struct Hand<H> {
    table: Table<Option<H>, HandView<H>, HandTerms<H>, EachDealtOnce, Global>,
    count: u64,
    // Empty, with room for what is left, so that `close` takes no memory.
    spare: Vec<Option<H>>,
}

impl<H> Model for Hand<H> {
    ghost use Rattle.std.specs.Prelude.{◌≡◌, ◌<◌, ◌≤◌, [], length, vec_capacity};
    ghost use Rattle.claim_counter.specs.Players.{Dealer, item_limit};

    ghost Value = { Dealer H };

    ghost view = { λ c. record { table = c.table.shared.table_id; parts = c.table.shared.key.parts; items = c.table.shared.key.items.value.items } };

    ghost invariant = { λ c. (c.table.shared.key.count ≡ c.count) × (c.table.shared.table_id.words ≡ 1) × (c.table.shared.table_id.slots ≡ c.count) × (c.count < item_limit) × (c.spare.items ≡ []) × (c.count ≤ vec_capacity c.spare) × (length c.table.shared.key.items.value.items ≡ c.count) };
}

/// What a thread draws with.
#[derive(Drop)]
pub struct HandSeat<H> {
    seat: Seat<Option<H>, HandView<H>>,
    ended: bool,
}

impl<H> Model for HandSeat<H> {
    ghost use Rattle.std.specs.Prelude.{◌≡◌, ◌<◌, [], length};
    ghost use Rattle.claim_counter.specs.Players.{Player};

    ghost Value = { Player H };

    ghost view = { λ s. record { table = s.seat.table_id; items = s.seat.me.0.items; parts = s.seat.me.0.parts; ended = s.ended; draws = s.seat.me.0.draws } };

    ghost invariant = { λ s. (s.seat.me.1 ≡ []) × (s.seat.me.0.out ≡ []) × (s.seat.me.0.ended ≡ s.ended) × (0 < s.seat.me.0.parts) × (s.seat.me.0.count ≡ length s.seat.me.0.items) };
}

impl<H> Hand<H> {
    /// The items, and a seat with all parts that has drawn none. After a refusal the items are gone.
    pub fn new_hand(
        alloc: Global,
        items: Vec<H>,
        parts: u32,
    ) -> Result<(Hand<H>, HandSeat<H>), OutOfMemory>
    where
        H: Drop,
        requires few { length items.items < item_limit }
        requires parts { 0 < parts }
        ensures hand { IfOk result (λ r. (r.0.items ≡ items.items) × (r.0.parts ≡ parts)) }
        ensures seat { IfOk result (λ r. r.1 ≡ player r.0.table items.items parts false []) }
    {
        let count = items.len() as u64;
        let Ok(spare) = Vec::with_capacity(alloc, items.len()) else {
            return Err(OutOfMemory)
        };
        let terms = HandTerms {
            count,
            parts: u64::from(parts),
            items: Snapshot::of(&items),
        };
        let Ok(places) = item_places(alloc, items) else {
            return Err(OutOfMemory)
        };
        match Table::new(alloc, &[0], places, &terms) {
            Ok((table, seat)) => Ok((
                Hand {
                    table,
                    count,
                    spare,
                },
                HandSeat { seat, ended: false },
            )),
            Err(_) => Err(OutOfMemory),
        }
    }

    /// Draws the next item, with its number. None exactly where the seat is ended, or all items were drawn before; the
    /// seat is then ended. An ended seat draws no more.
    pub fn draw_item(&self, seat: &mut HandSeat<H>) -> Option<(u32, H)>
        requires own { IsPlayerOf self.now seat.old }
        ensures some { IfSome result (λ r. (seat.old.ended ≡ false) × (slice_get self.now.items r.0 ≡ Some r.1)) }
        ensures drawn { IfSome result (λ r. seat.new ≡ player seat.old.table seat.old.items seat.old.parts false (seat.old.draws ++ r.0 ∷ [])) }
        ensures ended { IfNone result (seat.old.ended ≡ true → seat.new ≡ seat.old) }
        ensures past { IfNone result (seat.old.ended ≡ false → (n : ℕ) × (length self.now.items ≤ n) × (seat.new ≡ player seat.old.table seat.old.items seat.old.parts true (seat.old.draws ++ n ∷ []))) }
    {
        if seat.ended {
            return None;
        }
        let n = self
            .table
            .shared
            .fetch_add::<DrawItem>(&mut seat.seat, 0, 1);
        if n < self.count {
            let item = self.table.shared.exchange(&mut seat.seat, n as usize, None);
            self.table.shared.load::<GiveBack>(&mut seat.seat, 0);
            match item {
                Some(item) => Some((n as u32, item)),
                None => unreachable!(),
            }
        } else {
            seat.ended = true;
            None
        }
    }

    /// Cuts one part off, for another thread. The new seat has no draws, and is ended where the old one is.
    pub fn split_seat(&self, seat: &mut HandSeat<H>) -> HandSeat<H>
        requires own { IsPlayerOf self.now seat.old }
        requires parts { 2 ≤ seat.old.parts }
        ensures kept { seat.new ≡ player seat.old.table seat.old.items (seat.old.parts - 1) seat.old.ended seat.old.draws }
        ensures given { result ≡ player seat.old.table seat.old.items 1 seat.old.ended [] }
    {
        let given = self.table.shared.split_seat::<OneHandPart>(&mut seat.seat);
        HandSeat {
            seat: given,
            ended: seat.ended,
        }
    }

    /// Takes in the parts and the draws of another seat, which is gone.
    pub fn join_seat(&self, into: &mut HandSeat<H>, from: HandSeat<H>)
        requires into { IsPlayerOf self.now into.old }
        requires from { IsPlayerOf self.now from }
        ensures { into.new ≡ player into.old.table into.old.items (into.old.parts + from.parts) (into.old.ended || from.ended) (into.old.draws ++ from.draws) }
    {
        let HandSeat { seat, ended } = from;
        self.table
            .shared
            .join_seat::<OneHandPart>(&mut into.seat, seat);
        into.ended = into.ended || ended;
    }

    /// How many draws were made, by the only seat that is left, and a place for each item, which has it exactly where
    /// nobody drew it. Each number below that of the draws was drawn once. It takes no memory.
    pub fn close(self, seat: HandSeat<H>) -> (u64, Vec<Option<H>>)
        requires own { IsPlayerOf self seat }
        requires all { seat.parts ≡ self.parts }
        ensures steps { result.0 ≡ length seat.draws }
        ensures once { IsEachBelow result.0 seat.draws }
        ensures left { result.1.items ≡ left_from result.0 self.items }
    {
        let Hand {
            table,
            count: _,
            spare,
        } = self;
        let HandSeat { seat, ended: _ } = seat;
        let closed = table.close_with(seat);
        let drawn = closed.word(0);
        (drawn, take_all(closed, spare))
    }
}
