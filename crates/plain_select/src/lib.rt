//! The plain evaluator: what a bound SELECT means, over lists of rows.
#![tactic(auto)]

mod walk;

pub use walk::select_plain;
