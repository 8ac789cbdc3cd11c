//! CSV files as sets of rows on pages.
//!
//! A file's rows are those of its definition over the whole file (`file_rows` of `csv_load`). The code has one record in
//! memory, and pages are sealed as they fill.
#![tactic(auto)]

mod cells;
mod fault;
mod load;
mod rows;

pub use fault::LoadFault;
pub use load::load_csv;
