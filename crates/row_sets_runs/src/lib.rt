//! Runs of row sets: rows are written, read back one after the other and page by page, and copied, in any pool.
#![tactic(auto)]

mod again;
mod forms;
mod images;
mod reading;
mod session;
#[cfg(test)]
mod tests;
mod writing;

pub use again::{Again, run_again};
pub use forms::{are_columns, row_meets};
pub use images::{Images, writes_images};
pub use reading::{count_on_pages, count_same};
pub use session::{Report, run};
pub use writing::build;
