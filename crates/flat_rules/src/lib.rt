//! The rules of the grammar in which nothing nests, read from tokens, and the nodes of those in which something does.
#![tactic(auto)]

pub mod clauses;
mod constants;
mod cursor;
pub mod leaves;
pub mod looks;
pub mod nodes;
pub mod predicates;
pub mod rows;
pub mod statements;

pub use cursor::Cursor;
