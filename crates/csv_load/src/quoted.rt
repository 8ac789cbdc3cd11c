//! The row of a record whose fields are apart.
ghost use Rattle.std.specs.Prelude.{◌≡◌, length, map};
ghost use Rattle.csv_load.specs.Rows.{row_of_fields};
ghost use Rattle.csv_load.specs.Formats.{reading_in};
ghost use Rattle.csv_load.specs.FieldReads.{ReadsAll, value_in};

use crate::fault::Reason;
use crate::field_read::FieldRead;
use crate::format::Format;
use crate::plain::{column_reason, reason};
use crate::values::read_field;
use csv_records::Fields;
use ooc_types::RefusalKind;

/// Reads the values of a record's fields.
#[inline(never)]
pub fn read_list<'a>(
    format: &Format,
    fields: &'a Fields,
    into: &mut [FieldRead<'a>],
) -> Result<(), Reason>
    requires { length into.old ≡ length format.now.columns }
    ensures { ReadsAll (row_of_fields (reading_in format.now) fields.now) result (map value_in into.new) }
{
    let columns = format.columns.as_slice();
    if fields.len() != columns.len() {
        return Err(reason(0, RefusalKind::FieldCount));
    }
    for (i, column) in columns.iter().enumerate() {
        let Some(field) = fields.get(i) else {
            return Err(reason(0, RefusalKind::FieldCount));
        };
        match read_field(format.limit, format.null.as_bytes(), column, field) {
            Ok(value) => into[i] = value,
            Err(kind) => return Err(column_reason(true, i as u32 + 1, kind)),
        }
    }
    Ok(())
}
