//! Laws of bound expressions: they are typed.
#![tactic(auto)]

mod laws;

pub use laws::{
    chains_are_typed, conditions_are_typed, names_literals_and_calls_are_typed,
    operations_give_typed_parts,
};
