//! What a script means, statement by statement, and the texts that a run writes.
#![tactic(auto)]

mod ending;
mod writing;

pub use ending::{end, end_with};
pub use writing::write_all;
