//! The rows of a CSV file.
//!
//! The rows of a file are a definition over the whole file (`specs/Rows.antt`): it is cut into records, each record
//! into fields, and each field is read by its column's type. The code reads pieces and keeps a place in the file.
#![tactic(auto)]

mod blanks;
mod fault;
mod field_read;
mod field_reader;
mod find;
mod format;
mod laws;
mod numbers;
mod options;
mod plain;
mod quoted;
mod rows;
mod stage;
mod store;
mod typed;
mod values;
mod words;

pub use fault::{Refusal, RowFault};
pub use field_read::FieldRead;
pub use laws::rows_are_of_their_columns;
pub use options::CsvOptions;
pub use rows::CsvRows;
pub use stage::Stage;
pub use typed::{are_typed, is_delimiter};
