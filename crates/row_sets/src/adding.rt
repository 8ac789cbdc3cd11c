//! Adding rows to a set that is being written.
ghost use Rattle.std.specs.Prelude.{◌≡◌, ◌+◌, ◌≤◌, ◌<◌, ◌^◌, ◌∷◌, ◌++◌, [], ◌↔◌, IsTrue, IfSome, false, length, map, max};
ghost use Rattle.row_image.specs.declared.image.ImageKind.TheVariants.{Rows, Heap};
ghost use Rattle.row_image.specs.Bytes.{IsPage};
ghost use Rattle.row_image.specs.Image.{no_heap};
ghost use Rattle.row_image.specs.Rules.{text_limit};
ghost use Rattle.rebase_pins.specs.Seen.{value_read};
ghost use Rattle.rebase_pins.specs.Fits.{RowFits};
ghost use Rattle.row_sets.specs.Cells.{long_in};
ghost use Rattle.row_sets.specs.Packed.{IsAddedTo, fill_of};
ghost use Rattle.row_sets.specs.Writers.{HasRoom, HeapHasRoom, RowsHaveRoom, IsWhole, Writing, Written, written_cells, number_of};
ghost use Rattle.row_sets.specs.Adding.{KeepsPlace};

use crate::limits::{MOST_LONG, MOST_ROWS};
use crate::row_put::{put_short, put_with_texts};
use crate::texts::long_in;
use crate::writer::Writer;
use page_body::{OpenPage, Pages};
use rebase_pins::CellRead;
use row_image::{Layout, row_count};
use string_heap::room;

/// Adds a row at the end, where the open pages have room for it. Where they haven't it answers false, and nothing changes.
/// Its long texts are asked for, but where more was asked for before than was added.
pub fn try_append<P: Pages>(writer: &mut Writer<P::Page>, row: &[CellRead], hash: u64) -> bool
    requires writing { Writing P.terms writer.old }
    requires fits { RowFits writer.old.layout (text_limit writer.old.page_bytes) (map value_read row.now) }
    ensures wrote { IsTrue result ↔ HasRoom writer.old (long_in (map value_read row.now)) }
    ensures rows { IsTrue result → written_cells P.terms writer.new ≡ written_cells P.terms writer.old ++ record { hash = hash; values = map value_read row.now } ∷ [] }
    ensures asked { IsTrue result → writer.new.asked_bytes ≡ max writer.old.asked_bytes writer.new.long_bytes }
    ensures same { result ≡ false → writer.new ≡ writer.old }
    ensures writing { Writing P.terms writer.new }
    ensures place { KeepsPlace P.terms writer.old writer.new }
{
    let long = long_in(row);
    if !has_room::<P>(writer, long) {
        return false;
    }
    if long == 0 {
        add_short::<P>(writer, row, hash);
    } else {
        add_long::<P>(writer, row, hash, long);
    }
    true
}

/// Whether a row with so many bytes of long texts can be written without the pool.
pub fn has_room<P: Pages>(writer: &Writer<P::Page>, long: u64) -> bool
    requires { Written P.terms writer.now }
    ensures { IsTrue result ↔ HasRoom writer.now long }
{
    writer.rows < MOST_ROWS
        && long <= MOST_LONG - writer.long_bytes
        && rows_have_room(&writer.layout, writer.page_bytes, &writer.open_rows)
        && heap_has_room(writer.page_bytes, &writer.open_heap, long)
}

/// Whether the open row page has room for a row.
pub fn rows_have_room(layout: &Layout, page_bytes: u32, rows: &Option<OpenPage>) -> bool
    requires page { IsPage page_bytes }
    requires whole { IfSome rows.now (IsWhole (Rows layout.now) page_bytes) }
    ensures { IsTrue result ↔ RowsHaveRoom layout.now page_bytes rows.now }
{
    match rows {
        Some(page) => (row_count(&page.frame.bytes) as usize)
            < layout.rows_that_fit(page_bytes as usize),
        None => false,
    }
}

/// Whether the open heap page has room for so many bytes.
pub fn heap_has_room(page_bytes: u32, heap: &Option<OpenPage>, long: u64) -> bool
    requires page { IsPage page_bytes }
    requires whole { IfSome heap.now (IsWhole Heap page_bytes) }
    ensures { IsTrue result ↔ HeapHasRoom page_bytes long heap.now }
{
    match heap {
        Some(page) => long <= u64::from(room(&page.frame.bytes)),
        None => long == 0,
    }
}

// Adds a row without long texts.
fn add_short<P: Pages>(writer: &mut Writer<P::Page>, row: &[CellRead], hash: u64)
    requires writing { Written P.terms writer.old }
    requires fits { RowFits writer.old.layout (text_limit writer.old.page_bytes) (map value_read row.now) }
    requires room { HasRoom writer.old (long_in (map value_read row.now)) }
    requires added { writer.old.long_bytes ≤ writer.old.asked_bytes }
    requires short { long_in (map value_read row.now) ≡ 0 }
    ensures rows { written_cells P.terms writer.new ≡ written_cells P.terms writer.old ++ record { hash = hash; values = map value_read row.now } ∷ [] }
    ensures writing { Written P.terms writer.new }
    ensures fill { IsAddedTo (fill_of writer.old) 0 (fill_of writer.new) }
    ensures asked { writer.new.asked_bytes ≡ writer.old.asked_bytes }
    ensures long { writer.new.long_bytes ≡ writer.old.long_bytes }
    ensures place { KeepsPlace P.terms writer.old writer.new }
{
    match &mut writer.open_rows {
        Some(rows) => put_short(&writer.layout, rows, row, hash),
        None => unreachable!(),
    }
    writer.rows += 1;
}

// Adds a row with long texts.
fn add_long<P: Pages>(writer: &mut Writer<P::Page>, row: &[CellRead], hash: u64, long: u64)
    requires writing { Written P.terms writer.old }
    requires fits { RowFits writer.old.layout (text_limit writer.old.page_bytes) (map value_read row.now) }
    requires room { HasRoom writer.old (long_in (map value_read row.now)) }
    requires is_long { long ≡ long_in (map value_read row.now) }
    requires some { 0 < long }
    ensures rows { written_cells P.terms writer.new ≡ written_cells P.terms writer.old ++ record { hash = hash; values = map value_read row.now } ∷ [] }
    ensures writing { Written P.terms writer.new }
    ensures fill { IsAddedTo (fill_of writer.old) long (fill_of writer.new) }
    ensures asked { writer.new.asked_bytes ≡ max writer.old.asked_bytes writer.new.long_bytes }
    ensures place { KeepsPlace P.terms writer.old writer.new }
{
    let number = number_of(writer.first_heap, writer.sealed_heaps);
    match (&mut writer.open_rows, &mut writer.open_heap) {
        (Some(rows), Some(heap)) => put_with_texts(&writer.layout, rows, heap, number, row, hash),
        (None, _) => unreachable!(),
        (_, None) => unreachable!(),
    }
    writer.rows += 1;
    writer.long_bytes += long;
    writer.asked_bytes = writer.asked_bytes.max(writer.long_bytes);
}

/// The number of a heap page.
pub fn number_of(first: u32, k: u32) -> u32
    requires low { first < no_heap }
    requires few { k ≤ 4 }
    ensures is { result ≡ number_of first k }
    ensures low { result < no_heap }
{
    let sum = u64::from(first) + u64::from(k);
    if sum < 4294967295 {
        sum as u32
    } else {
        (sum - 4294967295) as u32
    }
}
