//! The plain evaluator's grouping: the rows of each key, and the aggregates of each group as direct folds.
#![tactic(auto)]

mod aggregate;
mod arguments;
mod folds;
mod grouping;
mod keyed;
mod noted;

pub use grouping::group;
pub use keyed::{Keyed, KeyedRows};
