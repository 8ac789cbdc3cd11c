//! The row of a record without quotes.
ghost use Rattle.std.specs.Prelude.{◌≡◌, ◌≤◌, ◌<◌, ◌==◌, ◌+◌, false, length, map, slice_range, slice_index};
ghost use Rattle.std.specs.List.{list_any, slice_split};
ghost use Rattle.csv_load.specs.Rows.{row_of_fields};
ghost use Rattle.csv_load.specs.Formats.{reading_in};
ghost use Rattle.csv_load.specs.FieldReads.{ReadsAll, value_in};
ghost use Rattle.csv_load.specs.Reasons.{reason_at};

use crate::fault::Reason;
use crate::field_read::FieldRead;
use crate::format::Format;
use crate::values::read_field;
use ooc_types::RefusalKind;

// The end of the field that begins at a place.
#[inline(always)]
fn field_end(delimiter: u8, bytes: &[u8], from: usize) -> usize
    requires { from ≤ length bytes.now }
    ensures low { from ≤ result }
    ensures high { result ≤ length bytes.now }
    ensures lacks { list_any (λ b. b == delimiter) (slice_range bytes.now from result) ≡ false }
    ensures ends { result < length bytes.now → slice_index bytes.now result ≡ delimiter }
{
    for i in from..bytes.len() {
        if bytes[i] == delimiter {
            return i;
        }
    }
    bytes.len()
}

/// Why a whole record is refused, or one of its columns.
pub fn reason(column: u32, kind: RefusalKind) -> Reason
    ensures { result ≡ record { column = column; kind = kind } }
{
    Reason { column, kind }
}

// How many fields there are.
#[cold]
#[inline(never)]
fn count_fields(delimiter: u8, bytes: &[u8]) -> usize
    ensures { result ≡ length (slice_split (λ b. b == delimiter) bytes.now) }
{
    bytes.iter().filter(|b| **b == delimiter).count() + 1
}

/// Why a record is refused whose column doesn't take its field, by whether it has as many fields as columns.
pub fn column_reason(counted: bool, column: u32, kind: RefusalKind) -> Reason
    ensures { result ≡ reason_at counted column kind }
{
    if counted {
        return reason(column, kind);
    }
    reason(0, RefusalKind::FieldCount)
}

// The same of a record without quotes, whose fields are counted only now.
#[cold]
#[inline(never)]
fn plain_reason(
    delimiter: u8,
    bytes: &[u8],
    columns: usize,
    column: u32,
    kind: RefusalKind,
) -> Reason
    ensures { result ≡ reason_at (length (slice_split (λ b. b == delimiter) bytes.now) == columns) column kind }
{
    column_reason(count_fields(delimiter, bytes) == columns, column, kind)
}

/// Reads the values of a record without quotes.
pub fn read_plain<'a>(
    format: &Format,
    bytes: &'a [u8],
    into: &mut [FieldRead<'a>],
) -> Result<(), Reason>
    requires { length into.old ≡ length format.now.columns }
    ensures { ReadsAll (row_of_fields (reading_in format.now) (slice_split (λ b. b == format.now.delimiter) bytes.now)) result (map value_in into.new) }
{
    let columns = format.columns.as_slice();
    let null = format.null.as_bytes();
    let mut from = 0;
    for (i, column) in columns.iter().enumerate() {
        if from > bytes.len() {
            return Err(reason(0, RefusalKind::FieldCount));
        }
        let end = field_end(format.delimiter, bytes, from);
        match read_field(format.limit, null, column, &bytes[from..end]) {
            Ok(value) => {
                into[i] = value;
                from = end + 1;
            }
            Err(kind) => {
                return Err(plain_reason(
                    format.delimiter,
                    bytes,
                    columns.len(),
                    i as u32 + 1,
                    kind,
                ));
            }
        }
    }
    if from <= bytes.len() {
        return Err(reason(0, RefusalKind::FieldCount));
    }
    Ok(())
}
