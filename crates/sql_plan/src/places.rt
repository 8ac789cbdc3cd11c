//! Where the columns of a row stand afterwards.

use sqlite_items::Items;

/// Where the columns of a row stand afterwards.
#[derive(Drop)]
pub(crate) enum Places {
    /// Where they stood.
    Kept,
    /// The column at a place stands where this list says at that place.
    Moved(Items<u32>),
}
