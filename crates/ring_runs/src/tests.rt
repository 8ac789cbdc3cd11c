//! Tests of the ring.
ghost use Rattle.std.specs.Prelude.{◌≡◌, ◌≢◌, ◌<◌, [], All, IfSome, IsSome};
ghost use Rattle.evict_ring.specs.Seats.{IsSeatOf};
ghost use Rattle.ring_runs.specs.Owners.{IsIdle};

use crate::borrow::{Owned, borrow_turn, owned_turns};
use boxcar::tag::Tag;
use evict_ring::{Frame, Ring, RingSeat, Turn};
use std::alloc::Global;
use std::sync::Wait;
use std::test::Fail;
use std::thread::{Threads, for_each_mut};

#[test]
fn what_is_written_to_a_frame_stays_in_it(rt: HostRuntime) -> Result<(), Fail> {
    let mut frame = Frame {
        number: 7,
        bytes: vec![in rt.alloc(); 0, 0, 0, 0]?,
    };
    let bytes = frame.bytes_mut();
    bytes[2] = 9;
    let turn: Turn<u64> = Turn {
        frame: 7,
        spare: Some(frame),
        owner: None,
    };
    match &turn.spare {
        Some(spare) => {
            assert_eq!(rt; spare.number, turn.frame);
            assert!(rt; spare.bytes.as_slice() == [0, 0, 9, 0].as_slice());
        }
        None => assert!(rt; false),
    }
    assert!(rt; turn.owner.is_none());
    Ok(())
}

/// A ring of that many turns, and a seat.
fn ring_of(alloc: Global, count: u32) -> Option<(Ring<u64, Owned>, RingSeat<u64>)>
    requires { 0 < count }
    ensures { IfSome result (λ r. IsSeatOf r.0 r.1 × (r.0.turns ≡ count) × (r.1.held ≡ [])) }
{
    let turns = owned_turns(alloc, count).ok()?;
    Ring::new_ring(alloc, turns, Tag::empty()).ok()
}

// Two turns are taken, and the one taken first is given back first. The answer tells whether another seat found that
// turn at home before and after.
fn give_first_first(
    ring: &Ring<u64, Owned>,
    seat: &mut RingSeat<u64>,
    other: &mut RingSeat<u64>,
    i: u32,
    j: u32,
) -> Option<(bool, bool)>
    requires seats { IsIdle ring.now seat.old × IsIdle ring.now other.old }
    requires places { (i < ring.now.turns) × (j < ring.now.turns) × (i ≢ j) }
    ensures { IsSome result → IsIdle ring.now seat.new × IsIdle ring.now other.new }
{
    let first = ring.take(seat, i)?;
    let second = ring.take(seat, j)?;
    let before = borrow_turn(ring, other, i);
    ring.give(seat, first);
    let after = borrow_turn(ring, other, i);
    ring.give(seat, second);
    Some((before, after))
}

#[test]
fn a_turn_is_out_until_it_is_given_back(rt: HostRuntime) -> Result<(), Fail> {
    let (ring, mut one) = ring_of(rt.alloc(), 3).expect(&rt, "memory");
    let mut two = ring.split_seat(rt.alloc(), &mut one).expect(&rt, "memory");
    let hands = [
        ring.start(&mut one),
        ring.start(&mut two),
        ring.start(&mut two),
        ring.start(&mut one),
    ];
    assert_eq!(rt; hands, [0, 1, 2, 0]);
    assert_eq!(rt;
        give_first_first(&ring, &mut one, &mut two, 0, 2),
        Some((false, true))
    );
    ring.join_seat(&mut two, one);
    match ring.take(&mut two, 0) {
        Some(turn) => assert_eq!(rt; turn.owner, Some(1)),
        None => assert!(rt; false),
    }
    assert!(rt; ring.take(&mut two, 0).is_none());
    Ok(())
}

// A thread's seat, and how often it found a turn at home.
#[derive(Drop)]
struct Place {
    seat: RingSeat<u64>,
    found: u64,
}

fn borrow_often(ring: &Ring<u64, Owned>, place: &mut Place)
    requires { IsIdle ring.now place.old.seat }
    ensures { IsIdle ring.now place.new.seat }
{
    for _ in 0..10_000 {
        let at = ring.start(&mut place.seat);
        if borrow_turn(ring, &mut place.seat, at) {
            place.found = place.found.wrapping_add(1);
        }
    }
}

fn borrow_beside<R: Threads + Wait + Sync>(rt: &R, ring: &Ring<u64, Owned>, places: &mut [Place])
    requires { All (λ p. IsIdle ring.now p.seat) places.old }
    ensures { All (λ p. IsIdle ring.now p.seat) places.new }
{
    let each = |_i: usize, place: &mut Place|
        requires { IsIdle ring.now place.now.seat }
        ensures { IsIdle ring.entry.now place.exit.now.seat }
    { borrow_often(ring, place) };
    for_each_mut(rt, places, 64, &each);
}

fn found_by(places: &[Place]) -> u64 {
    let mut found: u64 = 0;
    for place in places.iter() {
        found = found.wrapping_add(place.found);
    }
    found
}

// What the owner of a turn that is at home counts.
fn count_of(ring: &Ring<u64, Owned>, seat: &mut RingSeat<u64>, i: u32) -> u64
    requires own { IsSeatOf ring.now seat.old }
    requires place { i < ring.now.turns }
    ensures own { IsSeatOf ring.now seat.new }
{
    match ring.take(seat, i) {
        Some(turn) => turn.owner.unwrap_or(0),
        None => 0,
    }
}

// Four threads count on in two turns, and no count is lost.
#[test]
fn four_threads_share_two_turns(rt: HostRuntime) -> Result<(), Fail> {
    let (ring, mut last) = ring_of(rt.alloc(), 2).expect(&rt, "memory");
    let first = ring.split_seat(rt.alloc(), &mut last).expect(&rt, "memory");
    let second = ring.split_seat(rt.alloc(), &mut last).expect(&rt, "memory");
    let third = ring.split_seat(rt.alloc(), &mut last).expect(&rt, "memory");
    let fourth = ring.split_seat(rt.alloc(), &mut last).expect(&rt, "memory");
    let mut places = [
        Place {
            seat: first,
            found: 0,
        },
        Place {
            seat: second,
            found: 0,
        },
        Place {
            seat: third,
            found: 0,
        },
        Place {
            seat: fourth,
            found: 0,
        },
    ];
    borrow_beside(&rt, &ring, &mut places);
    let found = found_by(&places);
    let counted = count_of(&ring, &mut last, 0).wrapping_add(count_of(&ring, &mut last, 1));
    assert!(rt; 0 < found);
    assert_eq!(rt; counted, found);
    Ok(())
}
