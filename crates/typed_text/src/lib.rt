//! Typed expressions as texts, for tests that compare them.
#![tactic(auto)]

mod exprs;
mod printed;

pub use exprs::{aggregate_text, print_expr, print_exprs};
pub use printed::Printed;
