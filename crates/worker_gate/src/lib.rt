//! Workers beside one another, each of which does a job once.
#![tactic(auto)]

ghost use Rattle.std.specs.Prelude.{◌<◌, ◌≤◌, length};
ghost use Rattle.worker_gate.specs.Jobs.{AcceptsOne, AcceptsAll, Does, EachDoes, most_workers};

use ooc_io::Gate;
use std::thread::{Threads, for_each_mut};

/// As many workers as there may be.
pub const MOST_WORKERS: usize = 64;

// Calls the job.
fn call_once<W, G, J: Fn(&mut W, u32, &G)>(gate: &G, worker: &mut W, number: u32, job: &J)
    requires { AcceptsOne J.Fn job.now gate.now number worker.old }
    ensures { Does J.Fn job.now gate.now number worker.old worker.new }
{
    job(worker, number, gate);
}

/// Calls the job once for each worker, with the worker's number, all beside one another, and ends when all calls have
/// returned.
pub fn run_workers<R: Threads + Sync, W: Send, G: Gate + Sync, J: Fn(&mut W, u32, &G) + Sync>(
    rt: &R,
    gate: &G,
    workers: &mut [W],
    job: &J,
)
    requires few { length workers.old ≤ most_workers }
    requires accepts { AcceptsAll J.Fn job.now gate.now workers.old }
    ensures { EachDoes J.Fn job.now gate.now workers.old workers.new }
{
    if workers.is_empty() {
        return;
    }
    let each = |i: usize, worker: &mut W|
        requires { (i < most_workers) × AcceptsOne J.Fn job.now gate.now i worker.now }
        ensures { Does J.Fn job.entry.now gate.entry.now i worker.entry.now worker.exit.now }
    { call_once(gate, worker, i as u32, job) };
    for_each_mut(rt, workers, MOST_WORKERS, &each);
}
