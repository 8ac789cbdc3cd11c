//! A bound statement.

use crate::select::BoundSelect;
use ooc_types::{Schema, Text};

/// A statement. The names of tables are in small letters.
#[derive(Drop)]
pub enum Bound {
    CreateTable {
        name: Text,
        columns: Schema,
    },
    DropTable {
        name: Text,
    },
    /// COPY from a file, with its options or their defaults.
    Copy {
        name: Text,
        file: Text,
        header: bool,
        delimiter: u8,
        null: Text,
    },
    Explain(BoundSelect),
    Select(BoundSelect),
}
