//! Rows that are copied from a view, as many as a writer has room for.
ghost use Rattle.std.specs.Prelude.{◌≡◌, ◌+◌, ◌≤◌, ◌<◌, ◌++◌, length, slice_range};
ghost use Rattle.row_image.specs.declared.limits.TheConstants.{HEAP_HEAD, MOST_COLUMNS, MOST_TEXTS};
ghost use Rattle.row_image.specs.Bytes.{IsPage};
ghost use Rattle.rebase_pins.specs.Seen.{rows_seen, values_seen};
ghost use Rattle.row_sets.specs.Cells.{long_in, text_columns};
ghost use Rattle.row_sets.specs.Writers.{HasRoom, Writing, written_cells};
ghost use Rattle.row_sets.specs.Adding.{KeepsPlace};

use page_body::Pages;
use rebase_pins::{CellRead, RowView};
use row_sets::{Writer, long_in, try_append};

/// How many bytes a row's texts take on a heap page, which fit one.
pub fn long_in_row(view: &RowView, row: u32) -> u64
    requires row { row < length (rows_seen view.now) }
    requires few { length view.now.kinds ≤ MOST_COLUMNS }
    requires texts { text_columns view.now.kinds ≤ MOST_TEXTS }
    requires page { IsPage (length view.now.image) }
    ensures is { result ≡ long_in (values_seen view.now row) }
    ensures fits { HEAP_HEAD + result ≤ length view.now.image }
{
    let mut cells = [CellRead::Null; 65];
    let cells = &mut cells[..view.columns() as usize];
    view.read_row(row, cells);
    long_in(cells)
}

/// Adds the rows from one on to those of a writer, as long as its open pages have room, which they have for the first. It
/// gives the row behind the last that was added.
pub fn copy_stretch<P: Pages>(view: &RowView, from: u32, writer: &mut Writer<P::Page>) -> u32
    requires row { from < length (rows_seen view.now) }
    requires few { length view.now.kinds ≤ MOST_COLUMNS }
    requires writing { Writing P.terms writer.old }
    requires kinds { view.now.kinds ≡ writer.old.layout }
    requires page { length view.now.image ≡ writer.old.page_bytes }
    requires room { HasRoom writer.old (long_in (values_seen view.now from)) }
    ensures more { from < result }
    ensures most { result ≤ length (rows_seen view.now) }
    ensures rows { written_cells P.terms writer.new ≡ written_cells P.terms writer.old ++ slice_range (rows_seen view.now) from result }
    ensures writing { Writing P.terms writer.new }
    ensures place { KeepsPlace P.terms writer.old writer.new }
{
    let mut cells = [CellRead::Null; 65];
    copy_seen::<P>(view, from, &mut cells[..view.columns() as usize], writer)
}

// The same, by way of a list of cells.
fn copy_seen<'a, P: Pages>(
    view: &RowView<'a>,
    from: u32,
    cells: &mut [CellRead<'a>],
    writer: &mut Writer<P::Page>,
) -> u32
    requires row { from < length (rows_seen view.now) }
    requires long { length cells.old ≡ length view.now.kinds }
    requires writing { Writing P.terms writer.old }
    requires kinds { view.now.kinds ≡ writer.old.layout }
    requires page { length view.now.image ≡ writer.old.page_bytes }
    requires room { HasRoom writer.old (long_in (values_seen view.now from)) }
    ensures more { from < result }
    ensures most { result ≤ length (rows_seen view.now) }
    ensures rows { written_cells P.terms writer.new ≡ written_cells P.terms writer.old ++ slice_range (rows_seen view.now) from result }
    ensures writing { Writing P.terms writer.new }
    ensures place { KeepsPlace P.terms writer.old writer.new }
{
    for row in from..view.rows() {
        view.read_row(row, cells);
        if !try_append::<P>(writer, cells, view.hash(row)) {
            return row;
        }
    }
    view.rows()
}
