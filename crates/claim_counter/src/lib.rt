//! What threads draw, each once and none left out: numbers below a count (`Claims`), and items by value (`Hand`).
#![tactic(auto)]

mod claim_rule;
mod claims;
mod hand;
mod hand_rule;
mod places;

pub use claims::{ClaimSeat, Claims, OutOfMemory};
pub use hand::{Hand, HandSeat};
