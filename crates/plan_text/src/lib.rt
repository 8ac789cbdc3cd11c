//! The text of a plan, which EXPLAIN prints.
#![tactic(auto)]

mod lines;
mod parts;
mod stages;
mod walk;

pub use walk::explain;
