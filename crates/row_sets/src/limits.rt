//! How much a set has at most. Beyond these numbers the references to its pages alone would need more memory than there is.

/// The rows of a set.
pub const MOST_ROWS: u64 = 72057594037927935;

/// The bytes of a set's texts that don't lie in their cells.
pub const MOST_LONG: u64 = 1152921504606846975;
