//! The ring of turns.
ghost use Rattle.std.specs.Prelude.{◌≡◌, ℕ, ◌%◌, ◌^◌, ◌<◌, ◌≤◌, [], ◌∷◌, length, IfOk, IfSome, IfNone, IsSomeAnd, slice_get};
ghost use Rattle.number_bags.specs.Bags.{times};
ghost use Rattle.evict_ring.specs.Home.{IsHome, turn_limit};
ghost use Rattle.evict_ring.specs.Seats.{IsSeatOf, fresh, started, taking, refused, giving, joined};

use crate::options::{turn_places, zeros};
use crate::rule::{Give, InPlace, NoTurns, Start, Take, Terms, TurnRule, View};
use crate::spin::{place_of, spin};
use crate::turn::Turn;
use atomic_table::{Seat, Table};
use boxcar::tag::Tag;
use std::alloc::Global;
use std::marker::Model;

/// There was no memory.
#[derive(Debug, Drop)]
pub struct OutOfMemory;

/// Turns, one for each frame, each at home or out with one seat. Any number of threads use it through `&`, each with a
/// seat of its own.
#[derive(Drop)]
pub struct Ring<H, T: TurnRule<H>> {
    // Word 0 is the hand, and word i + 1 is 1 where turn i is out.
    table: Table<Option<Turn<H>>, View, Terms, InPlace<T>, Global>,
    turns: u32,
}

impl<H, T: TurnRule<H>> Model for Ring<H, T> {
    ghost use Rattle.std.specs.Prelude.{◌≡◌, ◌+◌, ◌<◌};
    ghost use Rattle.evict_ring.specs.Seats.{RingView};

    ghost Value = { RingView };

    ghost view = { λ r. record { table = r.table.shared.table_id; about = r.table.shared.key.about.numbers; turns = r.turns } };

    ghost invariant = { λ r. (r.table.shared.key.turns ≡ r.turns) × (r.table.shared.table_id.words ≡ r.turns + 1) × (r.table.shared.table_id.slots ≡ r.turns) × (0 < r.turns) };
}

/// What a thread takes and gives turns with.
#[derive(Drop)]
pub struct RingSeat<H> {
    seat: Seat<Option<Turn<H>>, View>,
    // The frames whose turns are out with the seat, the last taken last. It has room for all, so that `take` takes no
    // memory.
    out: Vec<u32>,
}

impl<H> Model for RingSeat<H> {
    ghost use Rattle.std.specs.Prelude.{◌≡◌, ◌≤◌, ℕ};
    ghost use Rattle.std.specs.Vec.{vec_capacity};
    ghost use Rattle.number_bags.specs.Bags.{times};
    ghost use Rattle.evict_ring.specs.Spun.{pairs};
    ghost use Rattle.evict_ring.specs.Seats.{SeatView, AreDifferentBelow};

    ghost Value = { SeatView };

    ghost view = { λ s. record { table = s.seat.table_id; about = s.seat.me.0.about; held = s.seat.me.0.held; refused = s.seat.me.0.refused; starts = s.seat.me.0.starts } };

    ghost invariant = { λ s. (s.seat.me.1 ≡ pairs s.out.items) × ((x : ℕ) → times s.out.items x ≡ times s.seat.me.0.held x) × AreDifferentBelow s.seat.table_id.slots s.seat.me.0.held × (s.seat.table_id.slots ≤ vec_capacity s.out) };
}

impl<H: Drop, T: TurnRule<H>> Ring<H, T> {
    /// A ring of these turns, all at home, and a seat that holds none. After a refusal the turns are gone.
    pub fn new_ring(
        alloc: Global,
        turns: Vec<Turn<H>>,
        about: Tag,
    ) -> Result<(Ring<H, T>, RingSeat<H>), OutOfMemory>
        requires some { 0 < length turns.items }
        requires few { length turns.items < turn_limit }
        requires home { (i : ℕ) → i < length turns.items → IsSomeAnd (slice_get turns.items i) (IsHome (T.holds about.numbers) i) }
        ensures about { IfOk result (λ r. r.0.about ≡ about.numbers) }
        ensures turns { IfOk result (λ r. r.0.turns ≡ length turns.items) }
        ensures seat { IfOk result (λ r. r.1 ≡ fresh r.0) }
    {
        let count = turns.len();
        let terms = Terms {
            turns: count as u32,
            about,
        };
        let Ok(words) = zeros(alloc, count + 1) else {
            return Err(OutOfMemory)
        };
        let Ok(out) = Vec::with_capacity(alloc, count) else {
            return Err(OutOfMemory)
        };
        let Ok(places) = turn_places(alloc, turns) else {
            return Err(OutOfMemory)
        };
        match Table::new(alloc, &words, places, &terms) {
            Ok((table, seat)) => Ok((
                Ring {
                    table,
                    turns: count as u32,
                },
                RingSeat { seat, out },
            )),
            Err(_) => Err(OutOfMemory),
        }
    }

    /// Moves the hand on by one. The answer is where it was, as the number of a turn.
    pub fn start(&self, seat: &mut RingSeat<H>) -> u32
        requires own { IsSeatOf self.now seat.old }
        ensures at { result < self.now.turns }
        ensures moved { (hand : ℕ) × (result ≡ hand % self.now.turns) × (seat.new ≡ started hand seat.old) }
    {
        let hand = self.table.shared.fetch_add::<Start>(&mut seat.seat, 0, 1);
        (hand % u64::from(self.turns)) as u32
    }

    /// Takes the turn out, unless it is out.
    pub fn take(&self, seat: &mut RingSeat<H>, i: u32) -> Option<Turn<H>>
        requires own { IsSeatOf self.now seat.old }
        requires place { i < self.now.turns }
        ensures home { IfSome result (IsHome (T.holds self.now.about) i) }
        ensures once { IfSome result (λ _. times seat.old.held i ≡ 0) }
        ensures taken { IfSome result (λ _. seat.new ≡ taking i seat.old) }
        ensures none { IfNone result (seat.new ≡ refused i seat.old) }
    {
        let found = self
            .table
            .shared
            .swap::<Take<T>>(&mut seat.seat, i as usize + 1, 1);
        let is_out = found != 0;
        if is_out {
            return None;
        }
        let turn = self.table.shared.exchange(&mut seat.seat, i as usize, None);
        seat.out.push_reserved(i);
        turn
    }

    /// Gives a turn back that this seat took. A seat gives its turns back in any order.
    pub fn give(&self, seat: &mut RingSeat<H>, turn: Turn<H>)
        requires own { IsSeatOf self.now seat.old }
        requires out { 0 < times seat.old.held turn.frame }
        requires holds { T.holds self.now.about turn }
        ensures { seat.new ≡ giving turn.frame seat.old }
    {
        let i = turn.frame;
        let place = place_of(&seat.out, i);
        let behind = seat.out.len() - 1 - place;
        spin(&mut seat.seat, behind);
        drop(
            self.table
                .shared
                .exchange(&mut seat.seat, i as usize, Some(turn)),
        );
        self.table
            .shared
            .swap::<Give>(&mut seat.seat, i as usize + 1, 0);
        spin(&mut seat.seat, place);
        seat.out.remove(place);
    }

    /// Another seat, which holds no turn.
    pub fn split_seat(
        &self,
        alloc: Global,
        seat: &mut RingSeat<H>,
    ) -> Result<RingSeat<H>, OutOfMemory>
        requires own { IsSeatOf self.now seat.old }
        ensures old { seat.new ≡ seat.old }
        ensures new { IfOk result (λ other. other ≡ fresh self.now) }
    {
        let Ok(out) = Vec::with_capacity(alloc, self.turns as usize) else {
            return Err(OutOfMemory)
        };
        Ok(RingSeat {
            seat: self.table.shared.split_seat::<NoTurns>(&mut seat.seat),
            out,
        })
    }

    /// Ends a seat that holds no turn. The other takes over what it saw.
    pub fn join_seat(&self, into: &mut RingSeat<H>, from: RingSeat<H>)
        requires into { IsSeatOf self.now into.old }
        requires from { IsSeatOf self.now from }
        requires empty { from.held ≡ [] }
        ensures { into.new ≡ joined into.old from }
    {
        let RingSeat { seat, out: _ } = from;
        self.table.shared.join_seat::<NoTurns>(&mut into.seat, seat);
    }
}
