//! Scopes: how names find columns, and what an operation makes of operands that were bound.
#![tactic(auto)]

mod call;
mod chain;
mod equality;
mod fault;
mod literals;
mod names;
mod node;
mod operations;
mod part;
mod scope;
mod texts;
mod trees;

pub use call::{Function, argument_scope, distinct_call, function_at, star_call, value_call};
pub use chain::{Chain, Conditions, begun, either, ended, every, joined, linked, started};
pub use equality::same;
pub use fault::BindFault;
pub use node::{between, column, comparison, like, literal, minus, negation, null_test, one_of};
pub use operations::{are_comparable, is_boolean};
pub use part::{BoundPart, Call, Part, part_over};
pub use scope::{Scope, ScopeColumn, TableColumns, columns_of};
pub use texts::{folded_at, name_at, small_letters};
pub use trees::constants;
