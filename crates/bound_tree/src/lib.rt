//! Bound statements: names are places, expressions have types, and nothing of the script's text is left.
#![tactic(auto)]

mod kinds;
mod select;
mod statement;

pub use kinds::{AggregateKind, JoinKind, SetKind};
pub use select::{
    Aggregate, BoundCore, BoundRows, BoundSelect, BoundSource, Conjunct, Cut, Grouping, SortKey,
    SourceRows,
};
pub use statement::Bound;
