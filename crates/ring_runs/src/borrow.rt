//! A turn taken and given back at once.
ghost use Rattle.std.specs.Prelude.{◌≡◌, ◌<◌, false, [], ◌∷◌, ◌++◌, length, IfOk};
ghost use Rattle.evict_ring.specs.Seats.{IsSeatOf};
ghost use Rattle.ring_runs.specs.Owners.{HasOwner, AreHome};

use evict_ring::{Ring, RingSeat, Turn, TurnRule};
use std::alloc::{AllocError, Global};

/// At home each turn has an owner.
pub struct Owned;

impl TurnRule<u64> for Owned {
    ghost use Rattle.ring_runs.specs.Owners.{HasOwner};

    ghost holds = { λ about turn. HasOwner turn };
}

/// The turns of that many frames, whose owners are 0.
pub fn owned_turns(alloc: Global, count: u32) -> Result<Vec<Turn<u64>>, AllocError>
    ensures count { IfOk result (λ turns. length turns.items ≡ count) }
    ensures home { IfOk result (λ turns. AreHome turns.items) }
{
    let mut turns = Vec::new(alloc);
    for frame in 0..count {
        turns.push(Turn {
            frame,
            spare: None,
            owner: Some(0),
        })?;
    }
    Ok(turns)
}

/// Takes a turn, counts on in its owner, and gives it back. The answer tells whether the turn was at home.
pub fn borrow_turn(ring: &Ring<u64, Owned>, seat: &mut RingSeat<u64>, i: u32) -> bool
    requires own { IsSeatOf ring.now seat.old }
    requires place { i < ring.now.turns }
    ensures own { IsSeatOf ring.now seat.new }
    ensures held { seat.new.held ≡ seat.old.held }
    ensures out { result ≡ false → seat.new.refused ≡ seat.old.refused ++ i ∷ [] }
{
    match ring.take(seat, i) {
        Some(turn) => {
            ring.give(seat, counted_on(turn));
            true
        }
        None => false,
    }
}

// One more in the owner.
fn counted_on(mut turn: Turn<u64>) -> Turn<u64>
    requires { HasOwner turn }
    ensures frame { result.frame ≡ turn.frame }
    ensures owner { HasOwner result }
{
    if let Some(count) = turn.owner {
        turn.owner = Some(count.wrapping_add(1));
    }
    turn
}
