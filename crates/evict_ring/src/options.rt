//! Turns as the slots of a table have them.
ghost use Rattle.std.specs.Prelude.{◌≡◌, map, IfOk, Some, replicate};

use crate::turn::Turn;
use std::alloc::{AllocError, Global};

/// Each turn in a place that it can be taken out of.
pub fn turn_places<H: Drop>(
    alloc: Global,
    turns: Vec<Turn<H>>,
) -> Result<Vec<Option<Turn<H>>>, AllocError>
    ensures { IfOk result (λ places. places.items ≡ map Some turns.items) }
{
    let mut places = Vec::with_capacity(alloc, turns.len())?;
    for turn in turns {
        places.push(Some(turn))?;
    }
    Ok(places)
}

/// That many zeros.
pub fn zeros(alloc: Global, count: usize) -> Result<Vec<u64>, AllocError>
    ensures { IfOk result (λ words. words.items ≡ replicate count 0) }
{
    vec![in alloc; 0; count]
}
