//! A SELECT over one table, over the row sets of that table in any pool.
//!
//! The rows of the sets come one after the other into one buffer; each is judged by WHERE, and the items over it are
//! printed at once, or kept where the SELECT has an order or a cut.
#![tactic(auto)]

mod cut;
mod fault;
mod items;
mod lines;
mod order;
mod reading;
mod rows;
mod scan;
mod select;
mod taken;

pub use fault::SelectFault;
pub use scan::{is_scan, scanned_table};
pub use select::{select_table, well_formed_selects_can_be_scanned};
