//! What workers draw from.
ghost use Rattle.std.specs.Prelude.{◌≡◌, ◌<◌, false};

use claim_counter::{ClaimSeat, Claims, Hand, HandSeat};

/// Items that threads draw, each with a seat of its own.
pub trait DrawSource<I> {
    ghost use Rattle.std.specs.Prelude.{◌≡◌, ℕ, ◌+◌, ◌-◌, ◌≤◌, false, List, [], ◌∷◌, ◌++◌, length, IfSome, IfNone, Some, slice_get};
    ghost use Rattle.worker_stage.specs.Source.{SeatSeen, seat_seen};

    type Seat: Drop + Send;

    /// All items, in the order of their numbers.
    ghost items: { Self → List I };

    /// The seat is one of this source.
    ghost owns: { Self → Self.Seat → Type 0 };

    /// Its parts, whether it is ended, and the numbers that it drew.
    ghost seen: { Self.Seat → SeatSeen };

    /// Draws the next item, with its number. At None all were drawn before.
    fn draw_next(&self, seat: &mut Self::Seat) -> Option<(u64, I)>
        requires own { owns self.now seat.old }
        requires going { (seen seat.old).ended ≡ false }
        ensures own { owns self.now seat.new }
        ensures parts { (seen seat.new).parts ≡ (seen seat.old).parts }
        ensures item { IfSome result (λ r. slice_get (items self.now) r.0 ≡ Some r.1) }
        ensures drawn { IfSome result (λ r. (seen seat.new).draws ≡ (seen seat.old).draws ++ r.0 ∷ []) }
        ensures going { IfSome result (λ _. (seen seat.new).ended ≡ false) }
        ensures past { IfNone result ((n : ℕ) × (length (items self.now) ≤ n) × ((seen seat.new).draws ≡ (seen seat.old).draws ++ n ∷ [])) };

    /// Cuts one part off, for another thread.
    fn cut_seat(&self, seat: &mut Self::Seat) -> Self::Seat
        requires own { owns self.now seat.old }
        requires going { (seen seat.old).ended ≡ false }
        requires parts { 2 ≤ (seen seat.old).parts }
        ensures own { owns self.now seat.new }
        ensures left { seen seat.new ≡ seat_seen ((seen seat.old).parts - 1) false (seen seat.old).draws }
        ensures new { owns self.now result }
        ensures fresh { seen result ≡ seat_seen 1 false [] };

    /// Takes in the parts and the draws of another seat, which is gone.
    fn take_seat(&self, into: &mut Self::Seat, from: Self::Seat)
        requires into { owns self.now into.old }
        requires from { owns self.now from }
        ensures own { owns self.now into.new }
        ensures parts { (seen into.new).parts ≡ (seen into.old).parts + (seen from).parts }
        ensures draws { (seen into.new).draws ≡ (seen into.old).draws ++ (seen from).draws };
}

impl DrawSource<u64> for Claims {
    ghost use Rattle.claim_counter.specs.Drawers.{IsDrawerOf};
    ghost use Rattle.worker_stage.specs.Source.{below, seat_seen};

    type Seat = ClaimSeat;

    ghost items = { λ c. below c.count };

    ghost owns = { λ c s. IsDrawerOf c s };

    ghost seen = { λ s. seat_seen s.parts s.ended s.draws };

    fn draw_next(&self, seat: &mut ClaimSeat) -> Option<(u64, u64)> {
        let number = self.draw(seat)?;
        Some((number, number))
    }

    fn cut_seat(&self, seat: &mut ClaimSeat) -> ClaimSeat {
        self.split_seat(seat)
    }

    fn take_seat(&self, into: &mut ClaimSeat, from: ClaimSeat) {
        self.join_seat(into, from);
    }
}

impl<H: Send> DrawSource<H> for Hand<H> {
    ghost use Rattle.claim_counter.specs.Players.{IsPlayerOf};
    ghost use Rattle.worker_stage.specs.Source.{seat_seen};

    type Seat = HandSeat<H>;

    ghost items = { λ c. c.items };

    ghost owns = { λ c s. IsPlayerOf c s };

    ghost seen = { λ s. seat_seen s.parts s.ended s.draws };

    fn draw_next(&self, seat: &mut HandSeat<H>) -> Option<(u64, H)> {
        let (number, item) = self.draw_item(seat)?;
        Some((u64::from(number), item))
    }

    fn cut_seat(&self, seat: &mut HandSeat<H>) -> HandSeat<H> {
        self.split_seat(seat)
    }

    fn take_seat(&self, into: &mut HandSeat<H>, from: HandSeat<H>) {
        self.join_seat(into, from);
    }
}
