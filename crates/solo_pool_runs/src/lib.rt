//! Runs of a pool for one thread over lanes that are lent: what whoever lent the lanes knows afterwards, and tests of the
//! pool with more pages than frames.
#![tactic(auto)]

mod run;
mod sets;
#[cfg(test)]
mod tests;

pub use run::{run_many, run_one};
pub use sets::{add, fill};
