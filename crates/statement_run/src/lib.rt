//! One statement of a script, run over the tables of a pool.
#![tactic(auto)]

mod acting;
mod copying;
mod creating;
mod explaining;
mod selecting;
mod statement;

pub use statement::run_statement;
