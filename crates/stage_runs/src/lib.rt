//! Runs of stages: a worker that keeps a row for each number, whose rows are the same bag whatever the number of workers,
//! over numbers and over items. The tests are of claims, hands, the gate of workers and stages.
#![tactic(auto)]

mod sevens;
#[cfg(test)]
mod tests;

pub use sevens::{Sevens, SevensFault, run_sevens, run_sevens_by_hand};
