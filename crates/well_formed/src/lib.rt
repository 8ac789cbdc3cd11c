//! Which bound statements are well-formed.
#![tactic(auto)]

mod laws;

pub use laws::a_worked_select_is_well_formed;
