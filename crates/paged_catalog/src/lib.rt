//! The tables of a run, whose rows lie on pages of any pool.
//!
//! The catalog is the one place where rows are kept from one statement to the next. What it means is the catalog of
//! `script_says`, by the sets of each table, one set after another. Each call that may change it says by one clause,
//! `Leaves`, that it stands afterwards and that the pool changed by its pages alone.
#![tactic(auto)]

mod catalog;
mod counting;
mod finding;
mod laws;
mod loading;
mod retiring;

pub use catalog::{
    Catalog, TableRows, columns, create_table, drop_table, has_table, load_table, new_catalog, sets,
};
pub use counting::counts;
pub use laws::rows_are_of_their_columns;
pub use retiring::retire_catalog;
