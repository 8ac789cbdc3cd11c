//! The stages.
ghost use Rattle.std.specs.Prelude.{◌≡◌, ◌+◌, ◌-◌, ◌<◌, ◌≤◌, false, [], All, length, OnOk, IfErr};
ghost use Rattle.worker_gate.specs.Jobs.{most_workers};
ghost use Rattle.claim_counter.specs.Once.{count_limit};
ghost use Rattle.claim_counter.specs.Players.{item_limit};
ghost use Rattle.worker_stage.specs.Source.{SeatSeen, below};
ghost use Rattle.worker_stage.specs.Desks.{IsFresh, IsReady, Joined, Ran, RanAll, workers};
ghost use Rattle.worker_stage.specs.Stage.{IsDone, StageRefused, HandRefused};

use crate::desk::{Desk, run_desk};
use crate::seats::{join_all, seat_all};
use crate::source::DrawSource;
use crate::worker::StageWorker;
use claim_counter::{ClaimSeat, Claims, Hand, HandSeat};
use ooc_io::Gate;
use std::alloc::Global;
use std::sync::Wait;
use std::thread::{Threads, for_each_mut};
use worker_gate::MOST_WORKERS;

/// Why a stage wasn't done.
#[derive(Drop)]
pub enum StageFault<F> {
    /// Nothing was begun.
    OutOfMemory,
    /// The worker of this number is the first that gave up.
    Worker { number: u32, fault: F },
}

/// Why a stage over items wasn't done, and what is left of them.
#[derive(Drop)]
pub struct HandFault<F, H> {
    pub fault: StageFault<F>,
    /// A place for each item, which has it where nobody drew it. There is none where nothing was begun.
    pub left: Vec<Option<H>>,
}

// All workers do their jobs beside one another.
fn work_all<
    R: Threads + Wait + Sync,
    G: Gate + Sync,
    I,
    S: DrawSource<I> + Sync,
    W: StageWorker<I> + Send,
>(rt: &R, gate: &G, source: &S, desks: &mut [Desk<W, S::Seat, W::Fault>])
    requires few { length desks.old ≤ most_workers }
    requires ready { All (IsReady W.made W.takes (S.owns source.now) S.seen (S.items source.now)) desks.old }
    ensures { RanAll W.made W.failed (S.owns source.now) S.seen (S.items source.now) (workers desks.old) desks.new }
{
    let each = |i: usize, desk: &mut Desk<W, S::Seat, W::Fault>|
        requires { (i < most_workers) × IsReady W.made W.takes (S.owns source.now) S.seen (S.items source.now) desk.now }
        ensures { Ran W.made W.failed (S.owns source.entry.now) S.seen (S.items source.entry.now) desk.entry.now.worker desk.exit.now }
    { run_desk(rt, gate, source, i as u32, desk) };
    for_each_mut(rt, desks, MOST_WORKERS, &each);
}

// Seats the workers, has them work, and takes their seats in again. The answer is the first that gave up.
fn run_desks<
    R: Threads + Wait + Sync,
    G: Gate + Sync,
    I,
    S: DrawSource<I> + Sync,
    W: StageWorker<I> + Send,
>(
    rt: &R,
    gate: &G,
    source: &S,
    all: &mut S::Seat,
    desks: &mut [Desk<W, S::Seat, W::Fault>],
) -> Option<(u32, W::Fault)>
    requires few { length desks.old ≤ most_workers }
    requires fresh { All (IsFresh W.made W.takes (S.items source.now)) (workers desks.old) }
    requires own { S.owns source.now all.old }
    requires going { (S.seen all.old).ended ≡ false }
    requires parts { (S.seen all.old).parts ≡ length desks.old + 1 }
    ensures own { S.owns source.now all.new }
    ensures parts { (S.seen all.new).parts ≡ (S.seen all.old).parts }
    ensures joined { Joined W.made W.failed (S.owns source.now) S.seen (S.items source.now) (workers desks.old) (S.seen all.old).draws (S.seen all.new).draws result (workers desks.new) }
{
    seat_all(source, all, desks);
    work_all(rt, gate, source, desks);
    join_all(source, 0, all, desks)
}

/// Draws each number below the count, and has it worked on, by all workers beside one another.
pub fn run_stage<R: Threads + Wait + Sync, G: Gate + Sync, W: StageWorker<u64> + Send>(
    rt: &R,
    alloc: Global,
    gate: &G,
    count: u64,
    desks: &mut [Desk<W, ClaimSeat, W::Fault>],
) -> Result<(), StageFault<W::Fault>>
    requires some { 0 < length desks.old }
    requires few { length desks.old ≤ most_workers }
    requires count { count < count_limit }
    requires fresh { All (IsFresh W.made W.takes (below count)) (workers desks.old) }
    ensures done { OnOk result (IsDone W.made (below count) (workers desks.old) (workers desks.new)) }
    ensures refused { IfErr result (λ e. StageRefused W.made W.failed (below count) (workers desks.old) e (workers desks.new)) }
{
    let parts = desks.len() as u32 + 1;
    let (claims, mut all) = match Claims::new_claims(alloc, count, parts) {
        Ok(made) => made,
        Err(_) => return Err(StageFault::OutOfMemory),
    };
    let first = run_desks(rt, gate, &claims, &mut all, desks);
    claims.close(all);
    match first {
        Some((number, fault)) => Err(StageFault::Worker { number, fault }),
        None => Ok(()),
    }
}

/// Draws each item by value, and has it worked on, by all workers beside one another.
pub fn run_hand_stage<
    R: Threads + Wait + Sync,
    G: Gate + Sync,
    H: Drop + Send + Sync,
    W: StageWorker<H> + Send,
>(
    rt: &R,
    alloc: Global,
    gate: &G,
    items: Vec<H>,
    desks: &mut [Desk<W, HandSeat<H>, W::Fault>],
) -> Result<(), HandFault<W::Fault, H>>
    requires some { 0 < length desks.old }
    requires few { length desks.old ≤ most_workers }
    requires count { length items.items < item_limit }
    requires fresh { All (IsFresh W.made W.takes items.items) (workers desks.old) }
    ensures done { OnOk result (IsDone W.made items.items (workers desks.old) (workers desks.new)) }
    ensures refused { IfErr result (λ e. HandRefused W.made W.failed items.items (workers desks.old) e (workers desks.new)) }
{
    let parts = desks.len() as u32 + 1;
    let (hand, mut all) = match Hand::new_hand(alloc, items, parts) {
        Ok(made) => made,
        Err(_) => {
            return Err(HandFault {
                fault: StageFault::OutOfMemory,
                left: Vec::new(alloc),
            });
        }
    };
    let first = run_desks(rt, gate, &hand, &mut all, desks);
    let (_drawn, left) = hand.close(all);
    match first {
        Some((number, fault)) => Err(HandFault {
            fault: StageFault::Worker { number, fault },
            left,
        }),
        None => Ok(()),
    }
}
