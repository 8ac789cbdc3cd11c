//! A row page and its heap pages under pins, and its rows as they are read there.
#![tactic(auto)]

mod cell_read;
mod pins;
mod row_page;
mod view;

pub use cell_read::CellRead;
pub use pins::{pin_rows, release};
pub use row_page::{RowPage, RowPins};
pub use view::RowView;

#[cfg(test)]
mod tests;
