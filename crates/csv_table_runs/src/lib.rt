//! Runs of the loading of CSV files: a file is loaded into a set, and the set's rows are read back as a text, in any pool.
#![tactic(auto)]

mod session;
#[cfg(test)]
mod tests;

pub use session::{Counts, Table, load_and_read, load_both, put_outcome, put_set, table_of};
