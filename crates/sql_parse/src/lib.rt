//! Scripts parsed by the grammar.
#![tactic(auto)]

mod expr;
mod script;
mod select;

pub use script::parse;
pub use sql_grammar::{ParseFault, tree};
