//! How a file is to be read.

use ooc_types::Text;

/// How a file is to be read.
#[derive(Drop)]
pub struct CsvOptions {
    /// Whether the first record holds the names of the columns, and is dropped.
    pub header: bool,
    /// The byte between fields.
    pub delimiter: u8,
    /// The field that stands for NULL.
    pub null: Text,
}
