//! The frames of a pool, and the ring of turns in which they are looked at for eviction. Each frame has one turn, which
//! is at home or out with one seat, in whatever order threads take and give.
#![tactic(auto)]

mod frame;
mod options;
mod ring;
mod rule;
mod spin;
mod turn;

pub use frame::Frame;
pub use ring::{OutOfMemory, Ring, RingSeat};
pub use rule::TurnRule;
pub use turn::Turn;
