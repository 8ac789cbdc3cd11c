//! How many pages the rows of a run's tables need, and that a pool that spills must have written them.
#![tactic(auto)]

mod bound;

pub use bound::catalog_was_written;
