//! How a file is read.
ghost use Rattle.std.specs.Prelude.{◌≡◌, ◌≤◌, true, IsTrue, length};
ghost use Rattle.csv_records.specs.Table.{IsDelimiter};
ghost use Rattle.csv_load.specs.Values as load;

use csv_load::{CsvOptions, are_typed, is_delimiter};
use ooc_types::{Column, OutOfMemory, Schema, SqlType, Text};
use std::alloc::Global;

/// How many bytes a text and a file may have: those of pages of 4,096 bytes, or so many.
#[derive(Clone, Copy)]
pub enum Limits {
    Page,
    Within { text: u32, file: u32 },
}

/// How a file is read: the types of the columns, the number (from 1) of the one that takes no NULL, or 0, the options and
/// the limits.
#[derive(Clone, Copy)]
pub struct Shape<'a> {
    pub kinds: &'a [SqlType],
    pub not_null: usize,
    pub header: bool,
    pub delimiter: u8,
    pub null: &'a str,
    pub limits: Limits,
}

/// The shape of a file that is read without options.
pub fn plain_shape<'a>(kinds: &'a [SqlType]) -> Shape<'a> {
    Shape {
        kinds,
        not_null: 0,
        header: true,
        delimiter: b',',
        null: "",
        limits: Limits::Page,
    }
}

/// The columns.
pub fn schema_of(alloc: Global, shape: &Shape) -> Result<Schema, OutOfMemory> {
    let mut schema = Schema::new_schema(alloc);
    for place in 0..shape.kinds.len() {
        schema.push(Column {
            name: Text::from_slice(alloc, b"c")?,
            kind: shape.kinds[place],
            nullable: place + 1 != shape.not_null,
        })?;
    }
    Ok(schema)
}

/// The options.
pub fn options_of(alloc: Global, shape: &Shape) -> Result<CsvOptions, OutOfMemory> {
    Ok(CsvOptions {
        header: shape.header,
        delimiter: shape.delimiter,
        null: Text::from_slice(alloc, shape.null.as_bytes())?,
    })
}

/// Whether a file can be read into such columns with such options.
pub fn is_readable(schema: &Schema, options: &CsvOptions) -> bool
    ensures some { IsTrue result → 1 ≤ length schema.now }
    ensures few { IsTrue result → length schema.now ≤ 64 }
    ensures typed { IsTrue result → load.are_typed schema.now ≡ true }
    ensures delimiter { IsTrue result → IsDelimiter options.now.delimiter }
{
    let columns = schema.as_slice();
    1 <= columns.len()
        && columns.len() <= 64
        && are_typed(columns)
        && is_delimiter(options.delimiter)
}
