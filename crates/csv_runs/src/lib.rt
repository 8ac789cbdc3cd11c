//! Runs of the reading of CSV files: files in memory that give their bytes in pieces, and what a file gives as a text.
#![tactic(auto)]

mod pieces;
mod report;
mod session;
mod shape;
#[cfg(test)]
mod tests;

pub use pieces::{PieceFiles, one_file};
pub use report::{put_number, put_refusal, put_row, put_word, read_all};
pub use session::{first_wrong, first_wrong_of, gives, report_of};
pub use shape::{Limits, Shape, is_readable, options_of, plain_shape, schema_of};
