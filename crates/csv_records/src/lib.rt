//! The records of a CSV file that is read in pieces, and the fields of a record.
//!
//! What a record is stands over the whole file: a table of four states cuts it (`specs/Cut.antt`). What its fields are
//! is what the crate `csv` reads as the next record of its bytes (`specs/Fields.antt`).
#![tactic(auto)]

mod buffer;
mod fault;
mod fields;
mod fill;
mod find;
mod laws;
mod mark;
mod reader;
mod stop;

pub use fault::RecordFault;
pub use fields::Fields;
pub use laws::{plain_records_are_split, reader_reads_file};
pub use reader::RecordReader;

/// How many bytes a file may have.
pub const FILE_LIMIT: u64 = 1_099_511_627_776;
