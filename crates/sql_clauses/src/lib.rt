//! The clauses of statements, bound one by one: what each asks of the names and expressions in it, in the order of the
//! refusals, and what it makes of them.
#![tactic(auto)]

mod aggregates;
mod conditions;
mod copy;
mod cores;
mod grouping;
mod items;
mod joins;
mod membership;
mod names;
mod numbers;
mod order;
mod pairs;
mod places;
mod rows;
mod sets;
mod sources;
mod tables;
mod types;

pub use conditions::{Filter, FilterOperand, begun, ended, joined, plain_operand};
pub use copy::{CopyOptions, copy_table};
pub use cores::{Core, NamedRows, Selected, unmixed, with_having, without_having};
pub use items::{Outputs, no_outputs, source_item, star_item, value_item};
pub use joins::{Joined, join_on, join_plainly, not_joined, on_width};
pub use membership::{member, misplaced};
pub use rows::{Unordered, combined, operand, select, with_key};
pub use sources::{Sources, all_sources, no_sources, query_source, table_source};
pub use tables::{create_table, drop_table};
