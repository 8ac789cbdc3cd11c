//! Statements bound over the tables that are there: what is bound, or the first refusal with its place.
#![tactic(auto)]

mod clauses;
mod statements;
mod walk;

pub use statements::bind;
