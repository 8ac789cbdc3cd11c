//! The places of a pool, and which frame is emptied next.
ghost use Rattle.std.specs.Prelude.{◌≡◌, ◌<◌, ◌≤◌, IfOk, IfSome, IsSome, IsTrue, Some, sum, length, slice_get, slice_index, replicate};
ghost use Rattle.solo_pool.specs.Spares.{IsSpare, AllSpare};
ghost use Rattle.solo_pool.specs.State.{spare_in};

use crate::entry::Place;
use evict_ring::Frame;
use ooc_io::OutOfMemory;
use std::alloc::{AllocError, Global};

/// A slot that nobody uses, sought from the hand on.
pub fn find_idle(uses: &[u32], hand: usize) -> usize
    requires room { sum uses.now < length uses.now }
    ensures within { result < length uses.now }
    ensures unused { slice_index uses.now result ≡ 0 }
{
    let hand = hand.min(uses.len());
    for i in hand..uses.len() {
        if uses[i] == 0 {
            return i;
        }
    }
    for i in 0..hand {
        if uses[i] == 0 {
            return i;
        }
    }
    unreachable!()
}

/// The slot of a spare frame, if one is noted.
pub fn next_spare(noted: &mut Vec<usize>, places: &[Place]) -> Option<usize>
    ensures within { IfSome result (λ i. i < length places.now) }
    ensures spare { IfSome result (λ i. IsSome (spare_in (slice_get places.now i))) }
{
    let i = noted.pop()?;
    if i < places.len() && is_spare(&places[i]) {
        Some(i)
    } else {
        None
    }
}

fn is_spare(place: &Place) -> bool
    ensures { IsTrue result → IsSome (spare_in (Some place.now)) }
{
    matches!(place, Place::Spare(_))
}

/// Notes a number. Where no memory is left for the note, what it names isn't found by it.
pub fn note(noted: &mut Vec<usize>, number: usize) {
    if noted.push(number).is_err() {}
}

fn zero_bytes(alloc: Global, count: usize) -> Result<Vec<u8>, AllocError>
    ensures { IfOk result (λ bytes. length bytes.items ≡ count) }
{
    vec![in alloc; 0; count]
}

fn spare(alloc: Global, page: u32, number: u32) -> Result<Place, OutOfMemory>
    ensures { IfOk result (IsSpare page number) }
{
    let bytes = zero_bytes(alloc, page as usize)?;
    Ok(Place::Spare(Frame { number, bytes }))
}

/// That many places with a spare frame each.
pub fn spare_places(alloc: Global, page: u32, frames: u32) -> Result<Vec<Place>, OutOfMemory>
    ensures count { IfOk result (λ places. length places.items ≡ frames) }
    ensures spare { IfOk result (λ places. AllSpare page places.items) }
{
    let mut places = Vec::new(alloc);
    for number in 0..frames {
        places.push(spare(alloc, page, number)?)?;
    }
    Ok(places)
}

/// That many counts at 0.
pub fn idle_counts(alloc: Global, frames: u32) -> Result<Vec<u32>, AllocError>
    ensures { IfOk result (λ uses. uses.items ≡ replicate frames 0) }
{
    vec![in alloc; 0; frames as usize]
}

/// The numbers of that many frames, with room for no more. The last is the first frame's.
pub fn spare_numbers(alloc: Global, frames: u32) -> Result<Vec<usize>, OutOfMemory> {
    let mut numbers = Vec::with_capacity(alloc, frames as usize)?;
    for i in 0..frames {
        numbers.push((frames - 1 - i) as usize)?;
    }
    Ok(numbers)
}
