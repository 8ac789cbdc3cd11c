//! The plan of a bound SELECT.
#![tactic(auto)]

mod cores;
mod counts;
mod free;
mod keys;
mod moves;
mod nodes;
mod order;
mod places;
mod select;
mod sources;
mod span;
mod split;
mod steps;

pub use counts::TableCount;
pub use select::plan;
