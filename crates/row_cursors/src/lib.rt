//! Rows in and out of sets: cursors over the rows of a set, rows of SQL values, and copies of sets.
#![tactic(auto)]

mod appending;
mod copying;
mod pinned_rows;
mod row_cursor;
mod stretches;
mod values;

pub use appending::append_values;
pub use copying::{copy_of, copy_rows};
pub use row_cursor::RowCursor;
pub use values::{kept_values_are_read_back, value_of};
