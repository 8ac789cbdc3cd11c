//! A law of bound statements: what is bound can be planned.
#![tactic(auto)]

mod laws;

pub use laws::bound_statements_are_numbered;
