//! The state in which the core begins.
ghost use Rattle.std.specs.Prelude.{◌≡◌, ℕ, ◌<◌, ◌≤◌, length, IfOk, IsSomeAnd, None};
ghost use Rattle.row_image.specs.Bytes.{IsPage};
ghost use Rattle.pool_core.specs.State.{state_of, OnTurn};
ghost use Rattle.pool_core.specs.Run.{IsNewTurn, Opened};

use crate::state::{CoreTurn, Parts};
use evict_ring::{Frame, Turn};
use ooc_io::OutOfMemory;
use std::alloc::Global;

/// The hand at 0, all turns at home with their spares, and no page.
pub fn opened(alloc: Global, page: u32, frames: u32, actors: u32) -> Result<Parts, OutOfMemory>
    requires { IsPage page }
    ensures { IfOk result (λ parts. Opened page frames actors (state_of parts)) }
{
    Ok(Parts {
        page,
        actors,
        hand: 0,
        turns: new_turns(alloc, page, frames)?,
        pages: Vec::new(alloc),
        marks: Vec::new(alloc),
    })
}

// The turns of so many frames.
fn new_turns(alloc: Global, page: u32, frames: u32) -> Result<Vec<CoreTurn>, OutOfMemory>
    ensures { IfOk result (λ turns. (length turns.items ≡ frames)
        × ((frame : ℕ) → frame < frames → OnTurn turns.items frame (λ t. IsNewTurn page frame t))) }
{
    let mut turns = Vec::new(alloc);
    for frame in 0..frames {
        turns.push(new_turn(alloc, page, frame)?)?;
    }
    Ok(turns)
}

// The turn of a frame, at home with its spare.
fn new_turn(alloc: Global, page: u32, frame: u32) -> Result<CoreTurn, OutOfMemory>
    ensures { IfOk result (λ t. IsNewTurn page frame t) }
{
    let spare = Frame {
        number: frame,
        bytes: vec![in alloc; 0; page as usize]?,
    };
    Ok(CoreTurn {
        out: None,
        turn: Turn {
            frame,
            spare: Some(spare),
            owner: None,
        },
    })
}
