//! A worker beside the seat with which it draws.
ghost use Rattle.std.specs.Prelude.{◌≡◌, false, [], IfSome, IfNone, None};
ghost use Rattle.worker_stage.specs.Source.{SeatSeen};
ghost use Rattle.worker_stage.specs.Work.{Finished, Broke};
ghost use Rattle.worker_stage.specs.Desks.{IsFresh, IsReady, Ran};

use crate::source::DrawSource;
use crate::worker::StageWorker;
use ooc_io::{Gate, GatePoint};
use std::sync::Wait;

/// A worker's place in a stage. The stage seats it.
#[derive(Drop)]
pub struct Desk<W, S, F> {
    pub worker: W,
    pub seat: Option<S>,
    pub fault: Option<F>,
}

impl<W, S, F> Desk<W, S, F> {
    /// Sits a worker down.
    pub fn new_desk(worker: W) -> Desk<W, S, F>
        ensures { result.worker ≡ worker }
    {
        Desk {
            worker,
            seat: None,
            fault: None,
        }
    }
}

impl<W, S: Drop, F: Drop> Desk<W, S, F> {
    /// The worker, who is done.
    pub fn into_worker(self) -> W
        ensures { result ≡ self.worker }
    {
        let Desk {
            worker,
            seat: _,
            fault: _,
        } = self;
        worker
    }
}

// Draws items and works on them, until there is none or the worker gives up.
fn draw_all<R: Wait, G: Gate, I, S: DrawSource<I>, W: StageWorker<I>>(
    rt: &R,
    gate: &G,
    source: &S,
    number: u32,
    worker: &mut W,
    seat: &mut S::Seat,
) -> Option<W::Fault>
    requires own { S.owns source.now seat.old }
    requires going { (S.seen seat.old).ended ≡ false }
    requires none { (S.seen seat.old).draws ≡ [] }
    requires fresh { IsFresh W.made W.takes (S.items source.now) worker.old }
    ensures own { S.owns source.now seat.new }
    ensures parts { (S.seen seat.new).parts ≡ (S.seen seat.old).parts }
    ensures finished { IfNone result (Finished W.made (S.items source.now) worker.old (S.seen seat.new).draws worker.new) }
    ensures broke { IfSome result (λ fault. Broke W.made W.failed (S.items source.now) worker.old (S.seen seat.new).draws fault worker.new) }
{
    for _ in rt.forever() {
        match source.draw_next(seat) {
            Some((drawn, item)) => {
                gate.at(number, GatePoint::Drew(drawn));
                if let Err(fault) = worker.work(item) {
                    return Some(fault);
                }
            }
            None => return None,
        }
    }
    unreachable!()
}

/// A worker's job: the gate first, and then all that it draws.
pub fn run_desk<R: Wait, G: Gate, I, S: DrawSource<I>, W: StageWorker<I>>(
    rt: &R,
    gate: &G,
    source: &S,
    number: u32,
    desk: &mut Desk<W, S::Seat, W::Fault>,
)
    requires { IsReady W.made W.takes (S.owns source.now) S.seen (S.items source.now) desk.old }
    ensures { Ran W.made W.failed (S.owns source.now) S.seen (S.items source.now) desk.old.worker desk.new }
{
    gate.at(number, GatePoint::Start);
    if let Some(mut seat) = desk.seat.take() {
        desk.fault = draw_all(rt, gate, source, number, &mut desk.worker, &mut seat);
        desk.seat = Some(seat);
    }
}
