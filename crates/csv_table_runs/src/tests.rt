//! Files that are loaded into a pool in memory, and into the pool of one thread with 24 frames of 4,096 bytes.

mod faults;
mod lanes;
mod loads;
mod numbered;
mod spills;
