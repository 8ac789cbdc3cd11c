//! A law of parsed scripts: what their statements are bound to is well-formed.
#![tactic(auto)]

mod laws;

pub use laws::{parsed_statements_stand_apart, statements_of_scripts_are_well_formed};
