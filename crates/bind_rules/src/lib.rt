//! What a statement is bound to, by what each part of its tree is bound to, and what a walk over the tree puts together.
#![tactic(auto)]

mod aggregates;
mod cores;
mod sources;

pub use aggregates::is_grouped;
pub use cores::{Filtered, Shown, bound_core, keys_of, set, with_conjuncts, with_selected};
pub use sources::{FromClause, begin_joins, first_token, join_kind, width_of};
