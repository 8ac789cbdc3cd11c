//! Stages: workers draw from one source, the numbers below a count or items by value, and each works on what it drew. The
//! contract of a stage names what the workers made of it all, and nothing of threads.
#![tactic(auto)]

mod desk;
mod seats;
mod source;
mod stage;
mod worker;

pub use desk::Desk;
pub use source::DrawSource;
pub use stage::{HandFault, StageFault, run_hand_stage, run_stage};
pub use worker::StageWorker;
