//! A worker that keeps a row for each number, and gives up at one.
ghost use Rattle.std.specs.Prelude.{◌≡◌, ◌<◌, ◌≤◌, ◌++◌, length, map, flat_map, OnOk};
ghost use Rattle.ooc_bags.specs.Bags.{SameBag};
ghost use Rattle.claim_counter.specs.Once.{count_limit};
ghost use Rattle.claim_counter.specs.Players.{item_limit};
ghost use Rattle.worker_gate.specs.Jobs.{most_workers};
ghost use Rattle.worker_stage.specs.Desks.{workers};
ghost use Rattle.worker_stage.specs.Source.{below};
ghost use Rattle.stage_runs.specs.Sevens.{rows_of, sevens, limit_of};

use claim_counter::{ClaimSeat, HandSeat};
use ooc_io::Gate;
use std::alloc::Global;
use std::sync::Wait;
use std::thread::Threads;
use worker_stage::{Desk, HandFault, StageFault, StageWorker, run_hand_stage, run_stage};

/// The rest by seven of each number that it worked on.
#[derive(Drop)]
pub struct Sevens {
    pub rows: Vec<u64>,
    /// It gives up at this number.
    pub limit: u64,
}

#[derive(Debug, Drop)]
pub enum SevensFault {
    OutOfMemory,
    AtLimit,
}

impl StageWorker<u64> for Sevens {
    ghost use Rattle.stage_runs.specs.Sevens.{Made, Failed};

    type Fault = SevensFault;

    ghost takes = { λ w x. Unit {0} };

    ghost made = { λ w xs v. Made w xs v };

    ghost failed = { λ w xs x fault v. Failed w xs x fault v };

    fn work(&mut self, number: u64) -> Result<(), SevensFault> {
        if number == self.limit {
            return Err(SevensFault::AtLimit);
        }
        match self.rows.push(number % 7) {
            Ok(()) => Ok(()),
            Err(_) => Err(SevensFault::OutOfMemory),
        }
    }
}

/// The rows of all workers are those that they had and one for each number below the count, and their limits stay.
pub fn run_sevens<R: Threads + Wait + Sync, G: Gate + Sync>(
    rt: &R,
    alloc: Global,
    gate: &G,
    count: u64,
    desks: &mut [Desk<Sevens, ClaimSeat, SevensFault>],
) -> Result<(), StageFault<SevensFault>>
    requires some { 0 < length desks.old }
    requires few { length desks.old ≤ most_workers }
    requires count { count < count_limit }
    ensures rows { OnOk result (SameBag (flat_map rows_of (workers desks.new)) (flat_map rows_of (workers desks.old) ++ flat_map sevens (below count))) }
    ensures limits { map limit_of (workers desks.new) ≡ map limit_of (workers desks.old) }
{
    run_stage(rt, alloc, gate, count, desks)
}

/// The same over numbers that are handed out by value.
pub fn run_sevens_by_hand<R: Threads + Wait + Sync, G: Gate + Sync>(
    rt: &R,
    alloc: Global,
    gate: &G,
    numbers: Vec<u64>,
    desks: &mut [Desk<Sevens, HandSeat<u64>, SevensFault>],
) -> Result<(), HandFault<SevensFault, u64>>
    requires some { 0 < length desks.old }
    requires few { length desks.old ≤ most_workers }
    requires count { length numbers.items < item_limit }
    ensures rows { OnOk result (SameBag (flat_map rows_of (workers desks.new)) (flat_map rows_of (workers desks.old) ++ flat_map sevens numbers.items)) }
    ensures limits { map limit_of (workers desks.new) ≡ map limit_of (workers desks.old) }
{
    run_hand_stage(rt, alloc, gate, numbers, desks)
}
