//! The statements of a script, run over the tables of a pool.
#![tactic(auto)]

mod over;
mod statements;

pub use over::run_over;
pub use statements::run_statements;
