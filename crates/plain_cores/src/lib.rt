//! The plain evaluator's cores: a SELECT without set operations and order, over what its subqueries gave.
#![tactic(auto)]

mod cores;
mod known;
mod table;

pub use cores::core_answer;
pub use known::{Known, member_over};
pub use table::{Table, table_rows};
