//! Typed expressions: their trees, their values over a row, and which of them can't fault.
#![tactic(auto)]

mod amount;
mod arithmetic;
mod compare;
mod days;
mod equality;
mod evaluate;
mod families;
mod fault;
mod kinds;
mod laws;
mod logic;
mod operand;
mod operations;
mod plain;
mod text;
mod tree;
mod truth;
mod wildcards;

pub use equality::same;
pub use evaluate::eval;
pub use families::Family;
pub use fault::{EvalFault, ValueFault};
pub use kinds::kind_of;
pub use laws::{
    operands_may_be_evaluated_once, plain_conditions_have_values, values_have_their_types_form,
};
pub use operations::{are_comparable, family_of, mismatch, result_type};
pub use plain::is_plain;
pub use tree::{ChainSign, CompareSign, Expr, Exprs, Link, Links};
pub use truth::truth_of;
pub use wildcards::like;
