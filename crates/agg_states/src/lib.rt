//! Aggregates as states that take values one by one and are merged.
#![tactic(auto)]

mod cell;
mod kind;
mod laws;
mod restore;
mod state;

pub use kind::{AggFault, AggKind};
pub use laws::{aggregates_stand_for_their_values, states_merge_in_any_grouping};
pub use state::AggState;

#[cfg(test)]
mod tests;
