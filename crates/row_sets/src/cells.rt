//! The cells of a row.
ghost use Rattle.std.specs.Prelude.{◌≡◌, ◌+◌, ◌≤◌, ◌<◌, ◌^◌, nat_lt, if◌then◌else◌, length, map, take};
ghost use Rattle.row_image.specs.declared.limits.TheConstants.{MOST_SHORT};
ghost use Rattle.row_image.specs.Cells.{StoredCell, LongCell, ShortCell, given_cell};
ghost use Rattle.rebase_pins.specs.Seen.{value_read};
ghost use Rattle.row_sets.specs.Cells.{cell_of, cells_of, long_text, long_of, long_in};

use crate::texts::long_of;
use rebase_pins::CellRead;
use row_image::{CellIn, MOST_SHORT};

/// The cells of a row, whose long texts lie one behind the other from an address on.
pub fn fill_cells<'a>(row: &[CellRead<'a>], into: &mut [CellIn<'a>], at: u64)
    requires long { length into.old ≡ length row.now }
    requires small { long_in (map value_read row.now) < 2 ^ 32 }
    requires low { at < 2 ^ 63 }
    ensures { map given_cell into.new ≡ cells_of (map value_read row.now) at }
{
    let mut at = at;
    for column in 0..row.len() {
        let value = &row[column];
        into[column] = cell_of(value, at);
        at += long_of(value);
    }
}

// The cell of a value, whose long text lies at an address.
fn cell_of<'a>(value: &CellRead<'a>, at: u64) -> CellIn<'a>
    requires { long_of (value_read value.now) < 2 ^ 32 }
    ensures { given_cell result ≡ cell_of (value_read value.now) at }
{
    match value {
        CellRead::Null => CellIn::Null,
        CellRead::Number(number) => CellIn::Number(*number),
        CellRead::Text(text) => text_cell(text, at),
    }
}

// The cell of a text, which lies at an address where it is long.
fn text_cell<'a>(text: &'a [u8], at: u64) -> CellIn<'a>
    requires { long_text text.now < 2 ^ 32 }
    ensures { given_cell result ≡ (if nat_lt MOST_SHORT (length text.now) then LongCell (take 4 text.now) (length text.now) at else ShortCell text.now) }
{
    if text.len() <= MOST_SHORT {
        return CellIn::Short(text);
    }
    CellIn::Long {
        prefix: [text[0], text[1], text[2], text[3]],
        length: text.len() as u32,
        address: at,
    }
}
