//! How rows are made of records.
ghost use Rattle.std.specs.Prelude.{◌≡◌, ◌≤◌, true, length};
ghost use Rattle.csv_records.specs.Table.{IsDelimiter};
ghost use Rattle.csv_load.specs.Values.{are_typed};

use ooc_types::{Schema, Text};
use std::alloc::Global;

/// How rows are made of records.
#[derive(Drop)]
pub struct Format {
    pub alloc: Global,
    pub columns: Schema,
    /// The byte between fields.
    pub delimiter: u8,
    /// The field that stands for NULL.
    pub null: Text,
    /// How many bytes a text may have.
    pub limit: usize,
    ghost typed: { are_typed columns ≡ true },
    ghost few: { length columns ≤ 64 },
    ghost marks: { IsDelimiter delimiter },
}
