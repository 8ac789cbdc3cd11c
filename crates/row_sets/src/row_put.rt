//! A row on the open pages: its cells on the row page, and its long texts on the heap page.
ghost use Rattle.std.specs.Prelude.{◌≡◌, ◌+◌, ◌*◌, ◌≤◌, ◌<◌, ◌^◌, None, Some, false, length, map};
ghost use Rattle.row_image.specs.declared.limits.TheConstants.{HEAP_HEAD, MOST_COLUMNS};
ghost use Rattle.row_image.specs.declared.image.ImageKind.TheVariants.{Rows, Heap};
ghost use Rattle.row_image.specs.Bytes.{IsPage};
ghost use Rattle.row_image.specs.Image.{row_count, parts_of, no_heap};
ghost use Rattle.row_image.specs.Layout.{rows_that_fit};
ghost use Rattle.row_image.specs.Parts.{begins_fifth};
ghost use Rattle.row_image.specs.Rules.{text_limit, IsAccepted};
ghost use Rattle.string_heap.specs.Heaps.{used, KeepsTexts};
ghost use Rattle.rebase_pins.specs.Seen.{value_read};
ghost use Rattle.rebase_pins.specs.Fits.{RowFits};
ghost use Rattle.row_sets.specs.Cells.{long_in, text_columns};
ghost use Rattle.row_sets.specs.LongTexts.{TextsAt};
ghost use Rattle.row_sets.specs.Put.{PutsRow, HasPlace, KeepsOpen, IsKnown, base_in, text_place};
ghost use Rattle.page_body.specs.Shows.{most_frames};

use crate::cells::fill_cells;
use crate::texts::put_texts;
use page_body::{OpenPage, base_of};
use rebase_pins::CellRead;
use row_image::{CellIn, HEAP_HEAD, Layout, RowPut, write_row};
use string_heap::room;

/// Rows of at most so many columns are written with a short list of cells.
const FEW_COLUMNS: usize = 8;

/// Writes a row behind the others of a page, where its long texts lie on a heap page from an address on.
pub fn put_cells(
    layout: &Layout,
    image: &mut [u8],
    row: &[CellRead],
    hash: u64,
    heap: Option<(u32, u64)>,
    at: u64,
)
    requires page { IsPage (length image.old) }
    requires accepted { IsAccepted (Rows layout.now) image.old }
    requires room { row_count image.old < rows_that_fit layout.now (length image.old) }
    requires few { length row.now ≤ MOST_COLUMNS }
    requires fits { RowFits layout.now (text_limit (length image.old)) (map value_read row.now) }
    requires place { HasPlace (length image.old) (parts_of image.old) (map value_read row.now) heap at }
    requires small { long_in (map value_read row.now) < 2 ^ 32 }
    requires low { at < 2 ^ 63 }
    requires parts { begins_fifth (parts_of image.old) heap ≡ false }
    ensures { PutsRow layout.now image.old image.new (map value_read row.now) hash heap at }
{
    if row.len() <= FEW_COLUMNS {
        put_few(layout, image, row, hash, heap, at);
    } else {
        put_many(layout, image, row, hash, heap, at);
    }
}

fn put_few(
    layout: &Layout,
    image: &mut [u8],
    row: &[CellRead],
    hash: u64,
    heap: Option<(u32, u64)>,
    at: u64,
)
    requires page { IsPage (length image.old) }
    requires accepted { IsAccepted (Rows layout.now) image.old }
    requires room { row_count image.old < rows_that_fit layout.now (length image.old) }
    requires few { length row.now ≤ 8 }
    requires fits { RowFits layout.now (text_limit (length image.old)) (map value_read row.now) }
    requires place { HasPlace (length image.old) (parts_of image.old) (map value_read row.now) heap at }
    requires small { long_in (map value_read row.now) < 2 ^ 32 }
    requires low { at < 2 ^ 63 }
    requires parts { begins_fifth (parts_of image.old) heap ≡ false }
    ensures { PutsRow layout.now image.old image.new (map value_read row.now) hash heap at }
{
    let mut cells = [CellIn::Null; 8];
    put_filled(layout, image, row, hash, heap, at, &mut cells[..row.len()]);
}

fn put_many(
    layout: &Layout,
    image: &mut [u8],
    row: &[CellRead],
    hash: u64,
    heap: Option<(u32, u64)>,
    at: u64,
)
    requires page { IsPage (length image.old) }
    requires accepted { IsAccepted (Rows layout.now) image.old }
    requires room { row_count image.old < rows_that_fit layout.now (length image.old) }
    requires few { length row.now ≤ MOST_COLUMNS }
    requires fits { RowFits layout.now (text_limit (length image.old)) (map value_read row.now) }
    requires place { HasPlace (length image.old) (parts_of image.old) (map value_read row.now) heap at }
    requires small { long_in (map value_read row.now) < 2 ^ 32 }
    requires low { at < 2 ^ 63 }
    requires parts { begins_fifth (parts_of image.old) heap ≡ false }
    ensures { PutsRow layout.now image.old image.new (map value_read row.now) hash heap at }
{
    let mut cells = [CellIn::Null; 65];
    put_filled(layout, image, row, hash, heap, at, &mut cells[..row.len()]);
}

// Writes a row by way of a list of cells.
fn put_filled<'a>(
    layout: &Layout,
    image: &mut [u8],
    row: &[CellRead<'a>],
    hash: u64,
    heap: Option<(u32, u64)>,
    at: u64,
    cells: &mut [CellIn<'a>],
)
    requires page { IsPage (length image.old) }
    requires accepted { IsAccepted (Rows layout.now) image.old }
    requires room { row_count image.old < rows_that_fit layout.now (length image.old) }
    requires long { length cells.old ≡ length row.now }
    requires fits { RowFits layout.now (text_limit (length image.old)) (map value_read row.now) }
    requires place { HasPlace (length image.old) (parts_of image.old) (map value_read row.now) heap at }
    requires small { long_in (map value_read row.now) < 2 ^ 32 }
    requires low { at < 2 ^ 63 }
    requires parts { begins_fifth (parts_of image.old) heap ≡ false }
    ensures { PutsRow layout.now image.old image.new (map value_read row.now) hash heap at }
{
    fill_cells(row, cells, at);
    match write_row(layout, image, cells, hash, heap) {
        RowPut::Wrote => (),
        _ => unreachable!(),
    }
}

/// Puts a row without long texts on the open row page.
pub fn put_short(layout: &Layout, rows: &mut OpenPage, row: &[CellRead], hash: u64)
    requires page { IsPage (length rows.old.frame.bytes.items) }
    requires accepted { IsAccepted (Rows layout.now) rows.old.frame.bytes.items }
    requires room { row_count rows.old.frame.bytes.items < rows_that_fit layout.now (length rows.old.frame.bytes.items) }
    requires few { length row.now ≤ MOST_COLUMNS }
    requires fits { RowFits layout.now (text_limit (length rows.old.frame.bytes.items)) (map value_read row.now) }
    requires short { long_in (map value_read row.now) ≡ 0 }
    ensures page { KeepsOpen rows.old rows.new }
    ensures row { PutsRow layout.now rows.old.frame.bytes.items rows.new.frame.bytes.items (map value_read row.now) hash None 0 }
{
    put_cells(layout, rows.bytes_mut(), row, hash, None, 0);
}

/// Puts a row with long texts on the open row page and the open heap page, whose number is given.
pub fn put_with_texts(
    layout: &Layout,
    rows: &mut OpenPage,
    heap: &mut OpenPage,
    number: u32,
    row: &[CellRead],
    hash: u64,
)
    requires page { IsPage (length rows.old.frame.bytes.items) }
    requires same { length heap.old.frame.bytes.items ≡ length rows.old.frame.bytes.items }
    requires accepted { IsAccepted (Rows layout.now) rows.old.frame.bytes.items }
    requires heap_accepted { IsAccepted Heap heap.old.frame.bytes.items }
    requires frame { heap.old.frame.number < most_frames }
    requires room { row_count rows.old.frame.bytes.items < rows_that_fit layout.now (length rows.old.frame.bytes.items) }
    requires few { length row.now ≤ MOST_COLUMNS }
    requires fits { RowFits layout.now (text_limit (length rows.old.frame.bytes.items)) (map value_read row.now) }
    requires long { 0 < long_in (map value_read row.now) }
    requires heap_room { HEAP_HEAD + used heap.old.frame.bytes.items + long_in (map value_read row.now) ≤ length heap.old.frame.bytes.items }
    requires number { number < no_heap }
    requires known { IsKnown (parts_of rows.old.frame.bytes.items) number (base_in heap.old) }
    requires parts { begins_fifth (parts_of rows.old.frame.bytes.items) (Some (number, base_in heap.old)) ≡ false }
    ensures page { KeepsOpen rows.old rows.new }
    ensures heap_page { KeepsOpen heap.old heap.new }
    ensures row { PutsRow layout.now rows.old.frame.bytes.items rows.new.frame.bytes.items (map value_read row.now) hash (Some (number, base_in heap.old)) (text_place heap.old) }
    ensures accepted { IsAccepted Heap heap.new.frame.bytes.items }
    ensures kept { KeepsTexts heap.old.frame.bytes.items heap.new.frame.bytes.items }
    ensures counted { used heap.new.frame.bytes.items ≡ used heap.old.frame.bytes.items + long_in (map value_read row.now) }
    ensures texts { TextsAt heap.new.frame.bytes.items (HEAP_HEAD + used heap.old.frame.bytes.items) (map value_read row.now) }
{
    let bytes = &heap.frame.bytes;
    let page = bytes.len() as u32;
    let base = base_of(heap.frame.number, page);
    let at = base + u64::from(page - room(bytes));
    put_cells(
        layout,
        rows.bytes_mut(),
        row,
        hash,
        Some((number, base)),
        at,
    );
    put_texts(row, heap.bytes_mut());
}
