//! Laws of well-formed statements.
#![tactic(auto)]

mod laws;

pub use laws::{
    rows_have_their_columns_types, well_formed_selects_are_numbered,
    well_formed_selects_are_plannable,
};
