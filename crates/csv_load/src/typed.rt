//! Which columns a file can be read into.
ghost use Rattle.std.specs.Prelude.{◌≡◌, ◌↔◌, IsTrue};
ghost use Rattle.csv_records.specs.Table.{IsDelimiter};
ghost use Rattle.csv_load.specs.Values as spec;

use ooc_types::{Column, SqlType};

// Whether a column may have the type: DECIMAL(w,s) has w from 1 to 38 and s at most w.
fn is_column_type(kind: SqlType) -> bool
    ensures { result ≡ spec.is_column_type kind }
{
    match kind {
        SqlType::Decimal { width, scale } => 1 <= width && (width <= 38 && scale <= width),
        SqlType::Boolean
        | SqlType::Integer
        | SqlType::BigInt
        | SqlType::HugeInt
        | SqlType::Date
        | SqlType::Varchar => true,
    }
}

/// Whether each column has a type that a column may have.
pub fn are_typed(columns: &[Column]) -> bool
    ensures { result ≡ spec.are_typed columns.now }
{
    columns.iter().all(|column| is_column_type(column.kind))
}

/// Whether a byte can stand between fields: an ASCII byte, and no double quote, LF or CR.
pub fn is_delimiter(byte: u8) -> bool
    ensures { IsTrue result ↔ IsDelimiter byte }
{
    byte < 128 && byte != b'"' && byte != b'\n' && byte != b'\r'
}
