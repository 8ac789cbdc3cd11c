//! Tests of claims, hands, workers and stages.
ghost use Rattle.std.specs.Prelude.{◌≡◌, ◌<◌, ◌≤◌, length, IfOk};

use crate::sevens::{Sevens, SevensFault, run_sevens, run_sevens_by_hand};
use claim_counter::{Claims, Hand};
use ooc_io::{Gate, GatePoint, NoGate};
use std::alloc::{AllocError, Global};
use std::sync::Wait;
use std::sync::atomic::{AtomicU64, Ordering};
use std::test::Fail;
use std::thread::{self, Threads};
use std::time::{Clock, Duration};
use worker_gate::run_workers;
use worker_stage::{Desk, StageFault};

// "Three claims": one seat alone, and two after a split at the start.
#[test]
fn each_of_three_numbers_is_drawn_once(rt: HostRuntime) -> Result<(), Fail> {
    let (claims, mut seat) = Claims::new_claims(rt.alloc(), 3, 2).expect(&rt, "memory");
    assert_eq!(rt; claims.draw(&mut seat), Some(0));
    assert_eq!(rt; claims.draw(&mut seat), Some(1));
    assert_eq!(rt; claims.draw(&mut seat), Some(2));
    assert_eq!(rt; claims.draw(&mut seat), None);
    assert_eq!(rt; claims.draw(&mut seat), None);
    assert_eq!(rt; claims.close(seat), 4);
    Ok(())
}

#[test]
fn two_seats_together_draw_three_numbers(rt: HostRuntime) -> Result<(), Fail> {
    let (claims, mut one) = Claims::new_claims(rt.alloc(), 3, 2).expect(&rt, "memory");
    let mut two = claims.split_seat(&mut one);
    assert_eq!(rt; claims.draw(&mut one), Some(0));
    assert_eq!(rt; claims.draw(&mut two), Some(1));
    assert_eq!(rt; claims.draw(&mut one), Some(2));
    assert_eq!(rt; claims.draw(&mut two), None);
    assert_eq!(rt; claims.draw(&mut one), None);
    claims.join_seat(&mut one, two);
    assert_eq!(rt; claims.draw(&mut one), None);
    assert_eq!(rt; claims.close(one), 5);
    Ok(())
}

// Two of three items are drawn by two seats, and the third comes back at its place.
#[test]
fn what_nobody_drew_comes_back(rt: HostRuntime) -> Result<(), Fail> {
    let items = vec![in rt.alloc(); 10_u64, 20, 30]?;
    let (hand, mut one) = Hand::new_hand(rt.alloc(), items, 2).expect(&rt, "memory");
    let mut two = hand.split_seat(&mut one);
    assert_eq!(rt; hand.draw_item(&mut one), Some((0, 10)));
    assert_eq!(rt; hand.draw_item(&mut two), Some((1, 20)));
    hand.join_seat(&mut one, two);
    let (drawn, left) = hand.close(one);
    assert_eq!(rt; drawn, 2);
    assert!(rt; left.as_slice() == [None, None, Some(30)].as_slice());
    Ok(())
}

#[test]
fn a_hand_ends_once_all_items_are_drawn(rt: HostRuntime) -> Result<(), Fail> {
    let items = vec![in rt.alloc(); 10_u64, 20]?;
    let (hand, mut seat) = Hand::new_hand(rt.alloc(), items, 1).expect(&rt, "memory");
    assert_eq!(rt; hand.draw_item(&mut seat), Some((0, 10)));
    assert_eq!(rt; hand.draw_item(&mut seat), Some((1, 20)));
    assert_eq!(rt; hand.draw_item(&mut seat), None);
    assert_eq!(rt; hand.draw_item(&mut seat), None);
    let (drawn, left) = hand.close(seat);
    assert_eq!(rt; drawn, 3);
    assert!(rt; left.as_slice() == [None, None].as_slice());
    Ok(())
}

fn note_number<G>(seen: &mut (u32, u32), number: u32, _gate: &G) {
    *seen = (number, seen.1.wrapping_add(1));
}

#[test]
fn the_job_is_done_once_for_each_worker(rt: HostRuntime) -> Result<(), Fail> {
    let mut seen = [(9, 0), (9, 0), (9, 0), (9, 0)];
    run_workers(
        &rt,
        &NoGate,
        &mut seen,
        &|worker: &mut (u32, u32), number: u32, gate: &NoGate| note_number(worker, number, gate),
    );
    assert_eq!(rt; seen, [(0, 1), (1, 1), (2, 1), (3, 1)]);
    Ok(())
}

// That many workers with no rows.
fn desks_of<S: Drop>(
    alloc: Global,
    count: usize,
    limit: u64,
) -> Result<Vec<Desk<Sevens, S, SevensFault>>, AllocError>
    ensures { IfOk result (λ desks. length desks.items ≡ count) }
{
    let mut desks = Vec::new(alloc);
    for _ in 0..count {
        desks.push(Desk::new_desk(Sevens {
            rows: Vec::new(alloc),
            limit,
        }))?;
    }
    Ok(desks)
}

// How many rows there are, and their sum.
fn counted<S>(desks: &[Desk<Sevens, S, SevensFault>]) -> (u64, u64) {
    let mut many: u64 = 0;
    let mut sum: u64 = 0;
    for desk in desks.iter() {
        for row in desk.worker.rows.iter() {
            many = many.wrapping_add(1);
            sum = sum.wrapping_add(*row);
        }
    }
    (many, sum)
}

/// How a stage ended: no memory, done, or the number of the worker that gave up.
#[derive(Clone, Copy, Debug, PartialEq, Eq)]
enum Ending {
    NoMemory,
    Done,
    GaveUp(u32),
}

fn ending_of(ended: &Result<(), StageFault<SevensFault>>) -> Ending {
    match ended {
        Ok(()) => Ending::Done,
        Err(
            StageFault::Worker {
                number,
                fault: SevensFault::AtLimit,
            },
        ) => Ending::GaveUp(*number),
        Err(_) => Ending::NoMemory,
    }
}

fn stage_of<R: Threads + Wait + Sync, G: Gate + Sync>(
    rt: &R,
    alloc: Global,
    gate: &G,
    workers: usize,
    count: u64,
    limit: u64,
) -> (Ending, (u64, u64))
    requires workers { (0 < workers) × (workers ≤ 64) }
    requires count { count < 1_000_000 }
{
    let Ok(mut desks) = desks_of(alloc, workers, limit) else {
        return (Ending::NoMemory, (0, 0))
    };
    let ended = run_sevens(rt, alloc, gate, count, desks.as_mut_slice());
    (ending_of(&ended), counted(desks.as_slice()))
}

// 14,285 weeks and five days.
#[test]
fn any_number_of_workers_draws_all_numbers(rt: HostRuntime) -> Result<(), Fail> {
    for workers in [1, 4, 8, 64] {
        let ended = stage_of(&rt, rt.alloc(), &NoGate, workers, 100_000, 200_000);
        assert_eq!(rt;
            ended,
            (Ending::Done, (100_000, 299_995)),
            "{workers} workers"
        );
    }
    let none = stage_of(&rt, rt.alloc(), &NoGate, 3, 0, 0);
    assert_eq!(rt; none, (Ending::Done, (0, 0)));
    Ok(())
}

#[test]
fn a_worker_that_gives_up_is_named(rt: HostRuntime) -> Result<(), Fail> {
    let alone = stage_of(&rt, rt.alloc(), &NoGate, 1, 10, 5);
    assert_eq!(rt; alone, (Ending::GaveUp(0), (5, 10)));
    let (ended, (many, _)) = stage_of(&rt, rt.alloc(), &NoGate, 4, 1_000, 500);
    assert!(rt; matches!(ended, Ending::GaveUp(_)));
    assert_eq!(rt; many, 999);
    Ok(())
}

/// A gate that counts.
#[derive(Drop)]
struct CountingGate {
    starts: AtomicU64,
    draws: AtomicU64,
}

impl Gate for CountingGate {
    fn at(&self, _worker: u32, point: GatePoint) {
        match point {
            GatePoint::Start => self.starts.fetch_add(1, Ordering::SeqCst),
            GatePoint::Drew(_) => self.draws.fetch_add(1, Ordering::SeqCst),
        };
    }
}

#[test]
fn each_start_and_each_draw_passes_the_gate(rt: HostRuntime) -> Result<(), Fail> {
    let gate = CountingGate {
        starts: AtomicU64::new(0),
        draws: AtomicU64::new(0),
    };
    stage_of(&rt, rt.alloc(), &gate, 4, 30, 100);
    assert_eq!(rt; gate.starts.load(Ordering::SeqCst), 4);
    assert_eq!(rt; gate.draws.load(Ordering::SeqCst), 30);
    Ok(())
}

/// How many milliseconds a worker waits for another one at most.
const PATIENCE: u64 = 15_000;

/// A gate at which worker 0 waits at its start until worker 1 has drawn, and worker 1 at its first draw until worker 0 has
/// started. Each waits so long and no longer. It counts how many met the other.
#[derive(Drop)]
struct MeetingGate<'a, R: Clock> {
    rt: &'a R,
    starts: AtomicU64,
    draws: AtomicU64,
    met: AtomicU64,
}

impl<'a, R: Clock> MeetingGate<'a, R> {
    // Waits until something was counted.
    fn wait_for(&self, count: &AtomicU64) {
        for _ in 0..PATIENCE {
            if count.load(Ordering::SeqCst) > 0 {
                self.met.fetch_add(1, Ordering::SeqCst);
                return;
            }
            thread::sleep(self.rt, Duration::from_millis(1));
        }
    }
}

impl<'a, R: Clock> Gate for MeetingGate<'a, R> {
    fn at(&self, worker: u32, point: GatePoint) {
        match point {
            GatePoint::Start => {
                if worker == 0 {
                    self.starts.fetch_add(1, Ordering::SeqCst);
                    self.wait_for(&self.draws);
                }
            }
            GatePoint::Drew(_) => {
                if worker == 1 && self.draws.fetch_add(1, Ordering::SeqCst) == 0 {
                    self.wait_for(&self.starts);
                }
            }
        }
    }
}

// A stage that runs its workers one after another, in whichever order, ends too, and one of them doesn't meet the other.
#[test]
fn two_workers_are_beside_one_another(rt: HostRuntime) -> Result<(), Fail> {
    let gate = MeetingGate {
        rt: &rt,
        starts: AtomicU64::new(0),
        draws: AtomicU64::new(0),
        met: AtomicU64::new(0),
    };
    let ended = stage_of(&rt, rt.alloc(), &gate, 2, 30, 100);
    assert_eq!(rt; ended, (Ending::Done, (30, 85)));
    assert_eq!(rt; gate.met.load(Ordering::SeqCst), 2);
    Ok(())
}

fn numbers_to(alloc: Global, count: u64) -> Result<Vec<u64>, AllocError>
    ensures { IfOk result (λ numbers. length numbers.items ≡ count) }
{
    let mut numbers = Vec::new(alloc);
    for number in 0..count {
        numbers.push(number)?;
    }
    Ok(numbers)
}

// How a stage over items ended, its rows, and how many items are left.
fn hand_stage_of<R: Threads + Wait + Sync>(
    rt: &R,
    alloc: Global,
    workers: usize,
    count: u64,
    limit: u64,
) -> (Ending, (u64, u64), usize)
    requires workers { (0 < workers) × (workers ≤ 64) }
    requires count { count < 1_000_000 }
{
    let Ok(mut desks) = desks_of(alloc, workers, limit) else {
        return (Ending::NoMemory, (0, 0), 0)
    };
    let Ok(numbers) = numbers_to(alloc, count) else {
        return (Ending::NoMemory, (0, 0), 0)
    };
    match run_sevens_by_hand(rt, alloc, &NoGate, numbers, desks.as_mut_slice()) {
        Ok(()) => (Ending::Done, counted(desks.as_slice()), 0),
        Err(refused) => (
            ending_of(&Err(refused.fault)),
            counted(desks.as_slice()),
            there(&refused.left),
        ),
    }
}

fn there(left: &[Option<u64>]) -> usize {
    let mut many: usize = 0;
    for item in left.iter() {
        if item.is_some() {
            many = many.wrapping_add(1);
        }
    }
    many
}

#[test]
fn items_are_handed_out_once_and_the_rest_comes_back(rt: HostRuntime) -> Result<(), Fail> {
    for workers in [1, 4, 8] {
        let ended = hand_stage_of(&rt, rt.alloc(), workers, 100_000, 200_000);
        assert_eq!(rt;
            ended,
            (Ending::Done, (100_000, 299_995), 0),
            "{workers} workers"
        );
    }
    let alone = hand_stage_of(&rt, rt.alloc(), 1, 10, 5);
    assert_eq!(rt; alone, (Ending::GaveUp(0), (5, 10), 4));
    Ok(())
}
