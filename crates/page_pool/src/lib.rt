//! A pool of pages that threads share: the ring of turns, the cells of pages, and the ledger of frames in one.
//!
//! None of its calls waits. A call that needs what another thread has answers so: with the word that showed a claim, or
//! with a look at each frame.
#![tactic(auto)]

mod cell;
mod cells;
mod changes;
mod claims;
mod frames;
mod law;
mod loads;
mod moves;
mod opening;
mod opens;
mod owner;
mod page;
mod pins;
mod pool;
mod share;

pub use changes::{Rebase, Retire};
pub use opens::Open;
pub use page::{Hit, Load, PageRef, Pin};
pub use pool::{Pool, PoolSeat, Seen};
pub use share::{FrameRight, FrameShare};
