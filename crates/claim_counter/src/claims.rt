//! Numbers that threads draw.
ghost use Rattle.std.specs.Prelude.{◌≡◌, ℕ, ◌+◌, ◌-◌, ◌<◌, ◌≤◌, true, false, [], ◌∷◌, ◌++◌, length, IfOk, IfSome, IfNone, ◌||◌};
ghost use Rattle.claim_counter.specs.Once.{IsEachBelow, count_limit};
ghost use Rattle.claim_counter.specs.Drawers.{IsDrawerOf, drawer};

use crate::claim_rule::{ClaimTerms, ClaimView, Draw, EachOnce, OnePart};
use atomic_table::{Seat, Table};
use std::alloc::Global;
use std::marker::Model;

/// There was no memory.
#[derive(Debug, Drop)]
pub struct OutOfMemory;

/// The numbers below a count, each drawn once. Any number of threads draw through `&`, each with a seat of its own.
#[derive(Drop)]
pub struct Claims {
    table: Table<u8, ClaimView, ClaimTerms, EachOnce, Global>,
    count: u64,
}

impl Model for Claims {
    ghost use Rattle.std.specs.Prelude.{◌≡◌};
    ghost use Rattle.claim_counter.specs.Drawers.{Counter};

    ghost Value = { Counter };

    ghost view = { λ c. record { table = c.table.shared.table_id; count = c.count; parts = c.table.shared.key.parts } };

    ghost invariant = { λ c. (c.table.shared.key.count ≡ c.count) × (c.table.shared.table_id.words ≡ 1) × (c.table.shared.table_id.slots ≡ 0) };
}

/// What a thread draws with.
#[derive(Drop)]
pub struct ClaimSeat {
    seat: Seat<u8, ClaimView>,
    ended: bool,
}

impl Model for ClaimSeat {
    ghost use Rattle.std.specs.Prelude.{◌≡◌, ◌<◌, []};
    ghost use Rattle.claim_counter.specs.Drawers.{Drawer};

    ghost Value = { Drawer };

    ghost view = { λ s. record { table = s.seat.table_id; count = s.seat.me.0.count; parts = s.seat.me.0.parts; ended = s.ended; draws = s.seat.me.0.draws } };

    ghost invariant = { λ s. (s.seat.me.1 ≡ []) × (s.seat.me.0.ended ≡ s.ended) × (0 < s.seat.me.0.parts) };
}

impl Claims {
    /// The numbers below the count, and a seat with all parts that has drawn none.
    pub fn new_claims(
        alloc: Global,
        count: u64,
        parts: u32,
    ) -> Result<(Claims, ClaimSeat), OutOfMemory>
        requires few { count < count_limit }
        requires parts { 0 < parts }
        ensures counter { IfOk result (λ r. (r.0.count ≡ count) × (r.0.parts ≡ parts)) }
        ensures seat { IfOk result (λ r. r.1 ≡ drawer r.0.table count parts false []) }
    {
        let terms = ClaimTerms {
            count,
            parts: u64::from(parts),
        };
        match Table::of_words(alloc, &[0], &terms) {
            Ok((table, seat)) => Ok((Claims { table, count }, ClaimSeat { seat, ended: false })),
            Err(_) => Err(OutOfMemory),
        }
    }

    /// Cuts one part off, for another thread. The new seat has no draws, and is ended where the old one is.
    pub fn split_seat(&self, seat: &mut ClaimSeat) -> ClaimSeat
        requires own { IsDrawerOf self.now seat.old }
        requires parts { 2 ≤ seat.old.parts }
        ensures kept { seat.new ≡ drawer seat.old.table seat.old.count (seat.old.parts - 1) seat.old.ended seat.old.draws }
        ensures given { result ≡ drawer seat.old.table seat.old.count 1 seat.old.ended [] }
    {
        let given = self.table.shared.split_seat::<OnePart>(&mut seat.seat);
        ClaimSeat {
            seat: given,
            ended: seat.ended,
        }
    }

    /// Takes in the parts and the draws of another seat, which is gone.
    pub fn join_seat(&self, into: &mut ClaimSeat, from: ClaimSeat)
        requires into { IsDrawerOf self.now into.old }
        requires from { IsDrawerOf self.now from }
        ensures { into.new ≡ drawer into.old.table into.old.count (into.old.parts + from.parts) (into.old.ended || from.ended) (into.old.draws ++ from.draws) }
    {
        let ClaimSeat { seat, ended } = from;
        self.table.shared.join_seat::<OnePart>(&mut into.seat, seat);
        into.ended = into.ended || ended;
    }

    /// Draws the next number. None exactly where the seat is ended, or the number drawn now isn't below the count; the
    /// seat is then ended. An ended seat draws no more.
    pub fn draw(&self, seat: &mut ClaimSeat) -> Option<u64>
        requires own { IsDrawerOf self.now seat.old }
        ensures some { IfSome result (λ n. (seat.old.ended ≡ false) × (n < self.now.count) × (seat.new ≡ drawer seat.old.table seat.old.count seat.old.parts false (seat.old.draws ++ n ∷ []))) }
        ensures ended { IfNone result (seat.old.ended ≡ true → seat.new ≡ seat.old) }
        ensures past { IfNone result (seat.old.ended ≡ false → (n : ℕ) × (self.now.count ≤ n) × (seat.new ≡ drawer seat.old.table seat.old.count seat.old.parts true (seat.old.draws ++ n ∷ []))) }
    {
        if seat.ended {
            return None;
        }
        let n = self.table.shared.fetch_add::<Draw>(&mut seat.seat, 0, 1);
        if n < self.count {
            Some(n)
        } else {
            seat.ended = true;
            None
        }
    }

    /// How many draws were made, by the only seat that is left. Each number below that was drawn once. So where it is at
    /// least the count, each number below the count was.
    pub fn close(self, seat: ClaimSeat) -> u64
        requires own { IsDrawerOf self seat }
        requires all { seat.parts ≡ self.parts }
        ensures steps { result ≡ length seat.draws }
        ensures once { IsEachBelow result seat.draws }
    {
        let Claims { table, count: _ } = self;
        let ClaimSeat { seat, ended: _ } = seat;
        let closed = table.close_with(seat);
        let drawn = closed.word(0);
        closed.free();
        drawn
    }
}
