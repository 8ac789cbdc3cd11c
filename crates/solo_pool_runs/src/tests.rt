//! Pools of 24 frames with more pages than frames, over lanes in memory that fail at some calls.

mod elsewhere;
mod freed;
mod images;
mod lanes;
mod orders;
mod reused;
