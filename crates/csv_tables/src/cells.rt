//! The cells of a row that was read.
ghost use Rattle.std.specs.Prelude.{◌≡◌, length, map};
ghost use Rattle.csv_load.specs.FieldReads.{value_in};
ghost use Rattle.rebase_pins.specs.Seen.{value_read};
ghost use Rattle.row_sets.specs.SetRows.{kept_as};

use csv_load::FieldRead;
use rebase_pins::CellRead;

// The cell of a value.
#[inline(always)]
fn cell_of<'a>(field: &FieldRead<'a>) -> CellRead<'a>
    ensures { value_read result ≡ kept_as (value_in field.now) }
{
    match field {
        FieldRead::Null => CellRead::Null,
        FieldRead::Truth(truth) => CellRead::Number(i128::from(*truth)),
        FieldRead::Number { digits, .. } => CellRead::Number(*digits),
        FieldRead::Day(day) => CellRead::Number(i128::from(*day)),
        FieldRead::Text(text) => CellRead::Text(text),
    }
}

/// The cells of values.
#[inline(always)]
pub fn fill_cells<'a>(fields: &[FieldRead<'a>], into: &mut [CellRead<'a>])
    requires { length into.old ≡ length fields.now }
    ensures { map value_read into.new ≡ map kept_as (map value_in fields.now) }
{
    for column in 0..fields.len() {
        into[column] = cell_of(&fields[column]);
    }
}
