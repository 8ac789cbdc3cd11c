//! The grammar of SQL scripts: their trees, and which tokens are which script.
#![tactic(auto)]

mod fault;
mod spans;
pub mod tree;

pub use fault::{Fault, ParseFault};
pub use spans::text_at;
