//! Seats for all desks before a stage, and what they drew after it.
ghost use Rattle.std.specs.Prelude.{◌≡◌, ◌+◌, ◌-◌, ◌^◌, ◌<◌, ◌++◌, false, length};
ghost use Rattle.worker_stage.specs.Source.{SeatSeen, seat_seen};
ghost use Rattle.worker_stage.specs.Desks.{AllSeated, AllSat, IsSat, workers, faults, draws_at, drawn_at, first_fault};

use crate::desk::Desk;
use crate::source::DrawSource;

/// Gives each desk a seat.
pub fn seat_all<I, S: DrawSource<I>, W, F: Drop>(
    source: &S,
    all: &mut S::Seat,
    desks: &mut [Desk<W, S::Seat, F>],
)
    requires own { S.owns source.now all.old }
    requires going { (S.seen all.old).ended ≡ false }
    requires parts { length desks.old < (S.seen all.old).parts }
    ensures seated { AllSeated (S.owns source.now) S.seen desks.new }
    ensures own { S.owns source.now all.new }
    ensures left { S.seen all.new ≡ seat_seen ((S.seen all.old).parts - length desks.old) false (S.seen all.old).draws }
    ensures workers { workers desks.new ≡ workers desks.old }
{
    if let Some((first, rest)) = desks.split_first_mut() {
        first.seat = Some(source.cut_seat(all));
        first.fault = None;
        seat_all(source, all, rest);
    }
}

// Takes in the seat of a desk. The answer is why its worker gave up.
fn join_one<I, S: DrawSource<I>, W, F: Drop>(
    source: &S,
    into: &mut S::Seat,
    desk: &mut Desk<W, S::Seat, F>,
) -> Option<F>
    requires own { S.owns source.now into.old }
    requires sat { IsSat (S.owns source.now) S.seen desk.old.seat }
    ensures own { S.owns source.now into.new }
    ensures parts { (S.seen into.new).parts ≡ (S.seen into.old).parts + 1 }
    ensures draws { (S.seen into.new).draws ≡ (S.seen into.old).draws ++ draws_at S.seen desk.old.seat }
    ensures worker { desk.new.worker ≡ desk.old.worker }
    ensures fault { result ≡ desk.old.fault }
{
    if let Some(seat) = desk.seat.take() {
        source.take_seat(into, seat);
    }
    desk.fault.take()
}

/// Takes in the seats of all desks, of which the first has this number. The answer is the first worker that gave up.
pub fn join_all<I, S: DrawSource<I>, W, F: Drop>(
    source: &S,
    number: u32,
    into: &mut S::Seat,
    desks: &mut [Desk<W, S::Seat, F>],
) -> Option<(u32, F)>
    requires own { S.owns source.now into.old }
    requires sat { AllSat (S.owns source.now) S.seen desks.old }
    requires number { number + length desks.old < 2 ^ 32 }
    ensures own { S.owns source.now into.new }
    ensures parts { (S.seen into.new).parts ≡ (S.seen into.old).parts + length desks.old }
    ensures draws { (S.seen into.new).draws ≡ (S.seen into.old).draws ++ drawn_at S.seen desks.old }
    ensures workers { workers desks.new ≡ workers desks.old }
    ensures fault { result ≡ first_fault number (faults desks.old) }
{
    match desks.split_first_mut() {
        Some((first, rest)) => {
            let fault = join_one(source, into, first);
            let later = join_all(source, number + 1, into, rest);
            match fault {
                Some(fault) => Some((number, fault)),
                None => later,
            }
        }
        None => None,
    }
}
