//! Room for rows: the pages that a writer opens, and rows that go in whatever room there was.
ghost use Rattle.std.specs.Prelude.{◌≡◌, ◌+◌, ◌≤◌, ◌<◌, ◌≢◌, ◌++◌, ◌∷◌, [], IsTrue, IfErr, IfSome, OnErr, OnOk, None, Some, false, length, map};
ghost use Rattle.row_image.specs.declared.limits.TheConstants.{HEAP_HEAD};
ghost use Rattle.row_image.specs.Rules.{text_limit, IsAccepted};
ghost use Rattle.row_image.specs.Bytes.{IsPage};
ghost use Rattle.row_image.specs.Image.{rows_of};
ghost use Rattle.row_image.specs.declared.image.ImageKind.TheVariants.{Rows, Heap};
ghost use Rattle.string_heap.specs.Heaps.{used};
ghost use Rattle.row_sets.specs.Put.{KeepsOpen};
ghost use Rattle.page_body.specs.Refusals.{RoomFails};
ghost use Rattle.rebase_pins.specs.Seen.{value_read};
ghost use Rattle.rebase_pins.specs.Fits.{RowFits};
ghost use Rattle.row_sets.specs.Changes.{Changes};
ghost use Rattle.row_sets.specs.declared.limits.TheConstants.{MOST_LONG};
ghost use Rattle.row_sets.specs.Adding.{Asks};
ghost use Rattle.row_sets.specs.Cells.{long_in};
ghost use Rattle.row_sets.specs.Closing.{IsClosed, SameColumns};
ghost use Rattle.row_sets.specs.Packed.{fill_of};
ghost use Rattle.row_sets.specs.Writers.{HasFrames, HasRoom, IsEmptyHeap, HeapHasRoom, RowsHaveRoom, Writing, IsWriterHere, count_open, written_cells, writer_holding};

use crate::adding::{heap_has_room, rows_have_room, try_append};
use crate::closing::{close_page, seal_heap};
use crate::limits::{MOST_LONG, MOST_ROWS};
use crate::texts::long_in;
use crate::writer::Writer;
use page_body::{OpenPage, Pages, PoolFault};
use rebase_pins::CellRead;
use row_image::{ImageKind, Layout, new_rows};
use string_heap::new_heap;

/// Adds a row at the end, whatever room there was. After a refusal the rows are those from before.
pub fn append<P: Pages>(
    writer: &mut Writer<P::Page>,
    pages: &mut P,
    row: &[CellRead],
    hash: u64,
) -> Result<(), PoolFault>
    requires writing { Writing P.terms writer.old }
    requires here { IsWriterHere P.terms (P.view pages.old) writer.old }
    requires fits { RowFits writer.old.layout (text_limit writer.old.page_bytes) (map value_read row.now) }
    requires frames { HasFrames P.terms (P.view pages.old) writer.old }
    ensures rows { OnOk result (written_cells P.terms writer.new ≡ written_cells P.terms writer.old ++ record { hash = hash; values = map value_read row.now } ∷ []) }
    ensures same { OnErr result (written_cells P.terms writer.new ≡ written_cells P.terms writer.old) }
    ensures asked { Asks writer.old (long_in (map value_read row.now)) writer.new }
    ensures columns { SameColumns writer.old writer.new }
    ensures writing { Writing P.terms writer.new }
    ensures here { IsWriterHere P.terms (P.view pages.new) writer.new }
    ensures cause { IfErr result (RoomFails (P.view pages.old).faults (P.view pages.new).faults) }
    ensures changes { Changes P.terms (writer_holding P.terms writer.old) (writer_holding P.terms writer.new) (P.view pages.old) (P.view pages.new) }
{
    get_room(writer, pages, long_in(row))?;
    if !try_append::<P>(writer, row, hash) {
        unreachable!();
    }
    Ok(())
}

/// Gets room for a row with so many bytes of long texts, so that it can be added without the pool.
pub fn get_room<P: Pages>(
    writer: &mut Writer<P::Page>,
    pages: &mut P,
    long: u64,
) -> Result<(), PoolFault>
    requires writing { Writing P.terms writer.old }
    requires here { IsWriterHere P.terms (P.view pages.old) writer.old }
    requires fits { HEAP_HEAD + long ≤ writer.old.page_bytes }
    requires frames { HasFrames P.terms (P.view pages.old) writer.old }
    ensures room { OnOk result (HasRoom writer.new long) }
    ensures asked { Asks writer.old long writer.new }
    ensures cells { written_cells P.terms writer.new ≡ written_cells P.terms writer.old }
    ensures columns { SameColumns writer.old writer.new }
    ensures writing { Writing P.terms writer.new }
    ensures here { IsWriterHere P.terms (P.view pages.new) writer.new }
    ensures cause { IfErr result (RoomFails (P.view pages.old).faults (P.view pages.new).faults) }
    ensures changes { Changes P.terms (writer_holding P.terms writer.old) (writer_holding P.terms writer.new) (P.view pages.old) (P.view pages.new) }
{
    if writer.rows >= MOST_ROWS || long > MOST_LONG - writer.asked_bytes {
        return Err(PoolFault::OutOfMemory);
    }
    close_full(writer, pages, long)?;
    get_rows_room(writer, pages)?;
    get_heap_room(writer, pages, long)
}

// Closes the open row page before such a row, where it is full, or has all its heap pages.
fn close_full<P: Pages>(
    writer: &mut Writer<P::Page>,
    pages: &mut P,
    long: u64,
) -> Result<(), PoolFault>
    requires writing { Writing P.terms writer.old }
    requires here { IsWriterHere P.terms (P.view pages.old) writer.old }
    requires few { writer.old.asked_bytes + long ≤ MOST_LONG }
    requires fits { HEAP_HEAD + long ≤ writer.old.page_bytes }
    ensures rows { OnOk result (IfSome writer.new.open_rows (λ page. RowsHaveRoom writer.new.layout writer.new.page_bytes (Some page))) }
    ensures heaps { OnOk result ((HeapHasRoom writer.new.page_bytes long writer.new.open_heap → ⊥) → writer.new.sealed_heaps + count_open writer.new.open_heap < 4) }
    ensures asked { Asks writer.old long writer.new }
    ensures free { OnOk result (IfSome writer.new.open_heap (λ _. writer.new.asked_bytes ≡ writer.old.asked_bytes)) }
    ensures cells { written_cells P.terms writer.new ≡ written_cells P.terms writer.old }
    ensures columns { SameColumns writer.old writer.new }
    ensures writing { Writing P.terms writer.new }
    ensures here { IsWriterHere P.terms (P.view pages.new) writer.new }
    ensures cause { IfErr result (RoomFails (P.view pages.old).faults (P.view pages.new).faults) }
    ensures changes { Changes P.terms (writer_holding P.terms writer.old) (writer_holding P.terms writer.new) (P.view pages.old) (P.view pages.new) }
{
    if writer.open_rows.is_some()
        && !rows_have_room(&writer.layout, writer.page_bytes, &writer.open_rows)
    {
        return close_spent(writer, pages);
    }
    if !is_out_of_heaps::<P>(writer, long) {
        return Ok(());
    }
    seal_for(writer, pages, long)?;
    close_spent(writer, pages)
}

// Whether such a row needs a fifth heap page.
fn is_out_of_heaps<P: Pages>(writer: &Writer<P::Page>, long: u64) -> bool
    requires { Writing P.terms writer.now }
    ensures needs { IsTrue result → (HeapHasRoom writer.now.page_bytes long writer.now.open_heap → ⊥) × (4 ≤ writer.now.sealed_heaps + count_open writer.now.open_heap) }
    ensures heaps { result ≡ false → (HeapHasRoom writer.now.page_bytes long writer.now.open_heap → ⊥) → writer.now.sealed_heaps + count_open writer.now.open_heap < 4 }
{
    let fits = heap_has_room(writer.page_bytes, &writer.open_heap, long);
    if fits {
        return false;
    }
    match &writer.open_heap {
        Some(_) => writer.sealed_heaps >= 3,
        None => writer.sealed_heaps >= 4,
    }
}

// Ends a row page that is full, or has all its heap pages.
fn close_spent<P: Pages>(writer: &mut Writer<P::Page>, pages: &mut P) -> Result<(), PoolFault>
    requires writing { Writing P.terms writer.old }
    requires here { IsWriterHere P.terms (P.view pages.old) writer.old }
    requires spent { (fill_of writer.old).rows < (fill_of writer.old).fit → (writer.old.open_heap ≡ None) × (4 ≤ writer.old.sealed_heaps) }
    ensures closed { OnOk result (IsClosed writer.new) }
    ensures asked { writer.new.asked_bytes ≡ writer.old.asked_bytes }
    ensures cells { written_cells P.terms writer.new ≡ written_cells P.terms writer.old }
    ensures columns { SameColumns writer.old writer.new }
    ensures writing { Writing P.terms writer.new }
    ensures here { IsWriterHere P.terms (P.view pages.new) writer.new }
    ensures cause { IfErr result (λ fault. fault ≡ PoolFault.OutOfMemory) }
    ensures changes { Changes P.terms (writer_holding P.terms writer.old) (writer_holding P.terms writer.new) (P.view pages.old) (P.view pages.new) }
{
    close_page(writer, pages)
}

// Seals the heap page that is open, if there is one, for the texts of a row that don't fit it, which are asked for.
fn seal_for<P: Pages>(
    writer: &mut Writer<P::Page>,
    pages: &mut P,
    long: u64,
) -> Result<(), PoolFault>
    requires writing { Writing P.terms writer.old }
    requires here { IsWriterHere P.terms (P.view pages.old) writer.old }
    requires full { HeapHasRoom writer.old.page_bytes long writer.old.open_heap → ⊥ }
    requires few { writer.old.asked_bytes + long ≤ MOST_LONG }
    requires fits { HEAP_HEAD + long ≤ writer.old.page_bytes }
    ensures sealed { OnOk result (writer.new.open_heap ≡ None) }
    ensures count { OnOk result (writer.new.sealed_heaps ≡ writer.old.sealed_heaps + count_open writer.old.open_heap) }
    ensures open_rows { writer.new.open_rows ≡ writer.old.open_rows }
    ensures asked { Asks writer.old long writer.new }
    ensures none { writer.old.open_heap ≡ None → writer.new.asked_bytes ≡ writer.old.asked_bytes }
    ensures cells { written_cells P.terms writer.new ≡ written_cells P.terms writer.old }
    ensures columns { SameColumns writer.old writer.new }
    ensures writing { Writing P.terms writer.new }
    ensures here { IsWriterHere P.terms (P.view pages.new) writer.new }
    ensures cause { IfErr result (λ fault. fault ≡ PoolFault.OutOfMemory) }
    ensures changes { Changes P.terms (writer_holding P.terms writer.old) (writer_holding P.terms writer.new) (P.view pages.old) (P.view pages.new) }
{
    if writer.open_heap.is_none() {
        return Ok(());
    }
    seal_heap(writer, pages)?;
    writer.asked_bytes += long;
    Ok(())
}

// Opens a row page, where none is open.
fn get_rows_room<P: Pages>(writer: &mut Writer<P::Page>, pages: &mut P) -> Result<(), PoolFault>
    requires writing { Writing P.terms writer.old }
    requires here { IsWriterHere P.terms (P.view pages.old) writer.old }
    requires has { IfSome writer.old.open_rows (λ page. RowsHaveRoom writer.old.layout writer.old.page_bytes (Some page)) }
    requires frames { HasFrames P.terms (P.view pages.old) writer.old }
    ensures room { OnOk result (RowsHaveRoom writer.new.layout writer.new.page_bytes writer.new.open_rows) }
    ensures open_heap { writer.new.open_heap ≡ writer.old.open_heap }
    ensures sealed { writer.new.sealed_heaps ≡ writer.old.sealed_heaps }
    ensures asked { writer.new.asked_bytes ≡ writer.old.asked_bytes }
    ensures cells { written_cells P.terms writer.new ≡ written_cells P.terms writer.old }
    ensures columns { SameColumns writer.old writer.new }
    ensures writing { Writing P.terms writer.new }
    ensures here { IsWriterHere P.terms (P.view pages.new) writer.new }
    ensures cause { IfErr result (RoomFails (P.view pages.old).faults (P.view pages.new).faults) }
    ensures changes { Changes P.terms (writer_holding P.terms writer.old) (writer_holding P.terms writer.new) (P.view pages.old) (P.view pages.new) }
{
    match &writer.open_rows {
        Some(_) => Ok(()),
        None => {
            let mut page = pages.open(ImageKind::Rows(writer.layout))?;
            write_empty_rows(&writer.layout, &mut page);
            writer.open_rows = Some(page);
            Ok(())
        }
    }
}

// Opens a heap page, where the one that is open hasn't so much room, which is sealed first.
fn get_heap_room<P: Pages>(
    writer: &mut Writer<P::Page>,
    pages: &mut P,
    long: u64,
) -> Result<(), PoolFault>
    requires writing { Writing P.terms writer.old }
    requires here { IsWriterHere P.terms (P.view pages.old) writer.old }
    requires rows { RowsHaveRoom writer.old.layout writer.old.page_bytes writer.old.open_rows }
    requires few { (HeapHasRoom writer.old.page_bytes long writer.old.open_heap → ⊥) → writer.old.sealed_heaps + count_open writer.old.open_heap < 4 }
    requires fits { HEAP_HEAD + long ≤ writer.old.page_bytes }
    requires frames { HasFrames P.terms (P.view pages.old) writer.old }
    requires asked { IfSome writer.old.open_heap (λ _. writer.old.asked_bytes + long ≤ MOST_LONG) }
    ensures room { OnOk result (HeapHasRoom writer.new.page_bytes long writer.new.open_heap) }
    ensures open_rows { writer.new.open_rows ≡ writer.old.open_rows }
    ensures asked { Asks writer.old long writer.new }
    ensures none { writer.old.open_heap ≡ None → writer.new.asked_bytes ≡ writer.old.asked_bytes }
    ensures cells { written_cells P.terms writer.new ≡ written_cells P.terms writer.old }
    ensures columns { SameColumns writer.old writer.new }
    ensures writing { Writing P.terms writer.new }
    ensures here { IsWriterHere P.terms (P.view pages.new) writer.new }
    ensures cause { IfErr result (RoomFails (P.view pages.old).faults (P.view pages.new).faults) }
    ensures changes { Changes P.terms (writer_holding P.terms writer.old) (writer_holding P.terms writer.new) (P.view pages.old) (P.view pages.new) }
{
    if heap_has_room(writer.page_bytes, &writer.open_heap, long) {
        return Ok(());
    }
    if writer.open_heap.is_some() {
        seal_for(writer, pages, long)?;
    }
    open_heap(writer, pages)
}

// Opens a heap page, where none is open.
fn open_heap<P: Pages>(writer: &mut Writer<P::Page>, pages: &mut P) -> Result<(), PoolFault>
    requires writing { Writing P.terms writer.old }
    requires here { IsWriterHere P.terms (P.view pages.old) writer.old }
    requires rows { writer.old.open_rows ≢ None }
    requires none { writer.old.open_heap ≡ None }
    requires few { writer.old.sealed_heaps < 4 }
    requires frames { HasFrames P.terms (P.view pages.old) writer.old }
    ensures empty { OnOk result (IsEmptyHeap writer.new.page_bytes writer.new.open_heap) }
    ensures open_rows { writer.new.open_rows ≡ writer.old.open_rows }
    ensures asked { writer.new.asked_bytes ≡ writer.old.asked_bytes }
    ensures cells { written_cells P.terms writer.new ≡ written_cells P.terms writer.old }
    ensures columns { SameColumns writer.old writer.new }
    ensures writing { Writing P.terms writer.new }
    ensures here { IsWriterHere P.terms (P.view pages.new) writer.new }
    ensures cause { IfErr result (RoomFails (P.view pages.old).faults (P.view pages.new).faults) }
    ensures changes { Changes P.terms (writer_holding P.terms writer.old) (writer_holding P.terms writer.new) (P.view pages.old) (P.view pages.new) }
{
    let mut page = pages.open(ImageKind::Heap)?;
    write_empty_heap(&mut page);
    writer.open_heap = Some(page);
    Ok(())
}

// Makes an open page a row page of no rows.
fn write_empty_rows(layout: &Layout, page: &mut OpenPage)
    requires { IsPage (length page.old.frame.bytes.items) }
    ensures page { KeepsOpen page.old page.new }
    ensures accepted { IsAccepted (Rows layout.now) page.new.frame.bytes.items }
    ensures empty { rows_of layout.now page.new.frame.bytes.items ≡ [] }
{
    new_rows(layout, page.bytes_mut());
}

// Makes an open page a heap page of no texts.
fn write_empty_heap(page: &mut OpenPage)
    requires { IsPage (length page.old.frame.bytes.items) }
    ensures page { KeepsOpen page.old page.new }
    ensures accepted { IsAccepted Heap page.new.frame.bytes.items }
    ensures empty { used page.new.frame.bytes.items ≡ 0 }
{
    new_heap(page.bytes_mut());
}
