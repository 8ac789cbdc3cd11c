//! Items in places that they can be taken out of.
ghost use Rattle.std.specs.Prelude.{◌≡◌, ◌≤◌, [], map, IfOk, Some, vec_capacity};
ghost use Rattle.std.specs.Slots.{IsFull, slots_len, slots_items};

use atomic_table::Closed;
use std::alloc::{AllocError, Global};

/// Each item in a place of its own.
pub fn item_places<H: Drop>(alloc: Global, items: Vec<H>) -> Result<Vec<Option<H>>, AllocError>
    ensures { IfOk result (λ places. places.items ≡ map Some items.items) }
{
    let mut places = Vec::with_capacity(alloc, items.len())?;
    for item in items {
        places.push(Some(item))?;
    }
    Ok(places)
}

/// What is in the slots of a table that is closed.
pub fn take_all<T>(mut closed: Closed<T, Global>, mut into: Vec<T>) -> Vec<T>
    requires full { IsFull closed.slots }
    requires empty { into.items ≡ [] }
    requires room { slots_len closed.slots ≤ vec_capacity into }
    ensures { result.items ≡ slots_items closed.slots }
{
    let mut i = 0;
    while i < closed.slot_count() {
        let value = closed.take(i);
        into.push_reserved(value);
        i += 1;
    }
    closed.free();
    into
}
