//! Runs of the ring of turns: by one seat, by two in any order, and by four threads. They stand in a crate of their own,
//! since a crate with tests is proved twice.
#![tactic(auto)]

mod borrow;
#[cfg(test)]
mod tests;

pub use borrow::{Owned, borrow_turn, owned_turns};
