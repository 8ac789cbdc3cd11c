//! The outside of the engine: files that are read, a sink that is written to, lanes that pages are spilled to, and
//! the gate that a test can hold a worker at.
//!
//! Each trait's contract says what its object tells (where it tells anything), when it may fail, and what its counts
//! do. A count of faults never falls, rises in each call that fails, and stands still at the last value of a `u64`.
#![tactic(auto)]

mod calls;
mod fault;
mod files;
mod gate;
mod lane;
mod mem_files;
mod mem_lane;
mod mem_sink;
mod sink;
mod ticket;

pub use calls::Calls;
pub use fault::{FilesFailed, LaneFault, OpenFault, OutOfMemory, SpillFailed, WriteFailed};
pub use files::Files;
pub use gate::{Gate, GatePoint, NoGate};
pub use lane::SpillLane;
pub use mem_files::MemFiles;
pub use mem_lane::MemLane;
pub use mem_sink::MemSink;
pub use sink::Sink;
pub use ticket::{Silent, Telling, Ticket, TicketMark};

#[cfg(test)]
mod tests;
