//! The end of a row page, and of a set that is being written.
ghost use Rattle.std.specs.Prelude.{◌≡◌, ◌+◌, ◌≤◌, ◌<◌, ◌∷◌, ◌++◌, [], IsTrue, IfOk, IfErr, IfSome, OnErr, OnOk, length, None, Some, vec_len, vec_capacity};
ghost use Rattle.row_image.specs.Image.{no_heap, row_count};
ghost use Rattle.string_heap.specs.Heaps.{used};
ghost use Rattle.page_body.specs.Shows.{IsOpen};
ghost use Rattle.row_sets.specs.Holds.{nothing, Unpinned};
ghost use Rattle.row_sets.specs.Changes.{Changes};
ghost use Rattle.row_sets.specs.Sets.{Formed, IsHere, set_cells, set_ids};
ghost use Rattle.row_sets.specs.Given.{set_given, open_holding};
ghost use Rattle.row_sets.specs.Closing.{IsClosed, IsFree, with_sealed, IsWithRows, SameColumns, closed_set};
ghost use Rattle.row_sets.specs.Packed.{IsLeft, closed_fill, fill_of, sealed_fill};
ghost use Rattle.row_sets.specs.Writers.{number_of, used_heaps, written_cells, writer_holding, Writing, Written, IsWriterHere};

use crate::adding::number_of;
use crate::retire::{retire_heap, retire_pages};
use crate::row_set::{RowSet, SetPage};
use crate::writer::Writer;
use page_body::{OpenPage, Pages, PoolFault};
use rebase_pins::RowPage;
use row_image::{HEAP_HEAD, row_count};
use std::mem;
use string_heap::room;

/// Makes a set of what was written. After a refusal, which is always want of memory, the pages are retired.
pub fn finish<P: Pages>(
    writer: Writer<P::Page>,
    pages: &mut P,
) -> Result<RowSet<P::Page>, PoolFault>
    requires writing { Writing P.terms writer }
    requires here { IsWriterHere P.terms (P.view pages.old) writer }
    ensures cells { IfOk result (λ set. set_cells P.terms set ≡ written_cells P.terms writer) }
    ensures kinds { IfOk result (λ set. set.kinds ≡ writer.kinds) }
    ensures asked { IfOk result (λ set. set.asked_bytes ≡ writer.asked_bytes) }
    ensures formed { IfOk result (Formed P.terms) }
    ensures here { IfOk result (IsHere (P.view pages.new)) }
    ensures unpinned { IfOk result (λ set. Unpinned P.terms (P.view pages.new) (set_ids P.terms set)) }
    ensures cause { IfErr result (λ fault. fault ≡ PoolFault.OutOfMemory) }
    ensures changes { Changes P.terms (writer_holding P.terms writer) (set_given P.terms result) (P.view pages.old) (P.view pages.new) }
{
    let mut writer = writer;
    match close_page(&mut writer, pages) {
        Ok(()) => Ok(as_set(writer)),
        Err(fault) => {
            give_up(writer, pages);
            Err(fault)
        }
    }
}

/// Ends the open row page: it is sealed with its heap pages where it has rows, and else given up.
pub fn close_page<P: Pages>(writer: &mut Writer<P::Page>, pages: &mut P) -> Result<(), PoolFault>
    requires writing { Written P.terms writer.old }
    requires here { IsWriterHere P.terms (P.view pages.old) writer.old }
    ensures closed { OnOk result (IsClosed writer.new) }
    ensures cells { written_cells P.terms writer.new ≡ written_cells P.terms writer.old }
    ensures fill { OnOk result (fill_of writer.new ≡ closed_fill (sealed_fill (fill_of writer.old))) }
    ensures left { OnErr result (IsLeft (fill_of writer.old) (fill_of writer.new)) }
    ensures asked { writer.new.asked_bytes ≡ writer.old.asked_bytes }
    ensures columns { SameColumns writer.old writer.new }
    ensures writing { Written P.terms writer.new }
    ensures here { IsWriterHere P.terms (P.view pages.new) writer.new }
    ensures cause { IfErr result (λ fault. fault ≡ PoolFault.OutOfMemory) }
    ensures changes { Changes P.terms (writer_holding P.terms writer.old) (writer_holding P.terms writer.new) (P.view pages.old) (P.view pages.new) }
{
    drop_empty_heap(writer, pages);
    seal_heap(writer, pages)?;
    drop_empty_rows(writer, pages);
    seal_rows(writer, pages)
}

// Gives up a heap page that has no text.
fn drop_empty_heap<P: Pages>(writer: &mut Writer<P::Page>, pages: &mut P)
    requires writing { Written P.terms writer.old }
    requires here { IsWriterHere P.terms (P.view pages.old) writer.old }
    ensures used { IfSome writer.new.open_heap (λ page. 0 < used page.frame.bytes.items) }
    ensures cells { written_cells P.terms writer.new ≡ written_cells P.terms writer.old }
    ensures fill { fill_of writer.new ≡ fill_of writer.old }
    ensures asked { writer.new.asked_bytes ≡ writer.old.asked_bytes }
    ensures columns { SameColumns writer.old writer.new }
    ensures writing { Written P.terms writer.new }
    ensures here { IsWriterHere P.terms (P.view pages.new) writer.new }
    ensures changes { Changes P.terms (writer_holding P.terms writer.old) (writer_holding P.terms writer.new) (P.view pages.old) (P.view pages.new) }
{
    if let Some(page) = &writer.open_heap {
        if room(&page.frame.bytes) as usize + HEAP_HEAD == page.frame.bytes.len() {
            let empty = mem::replace(&mut writer.open_heap, None);
            discard_open(pages, empty);
        }
    }
}

// Gives up a row page that has no row, where no heap page is open.
fn drop_empty_rows<P: Pages>(writer: &mut Writer<P::Page>, pages: &mut P)
    requires writing { Written P.terms writer.old }
    requires here { IsWriterHere P.terms (P.view pages.old) writer.old }
    requires sealed { writer.old.open_heap ≡ None }
    ensures some { IfSome writer.new.open_rows (λ page. 0 < row_count page.frame.bytes.items) }
    ensures sealed { writer.new.open_heap ≡ None }
    ensures cells { written_cells P.terms writer.new ≡ written_cells P.terms writer.old }
    ensures fill { fill_of writer.new ≡ fill_of writer.old }
    ensures asked { writer.new.asked_bytes ≡ writer.old.asked_bytes }
    ensures columns { SameColumns writer.old writer.new }
    ensures writing { Written P.terms writer.new }
    ensures here { IsWriterHere P.terms (P.view pages.new) writer.new }
    ensures changes { Changes P.terms (writer_holding P.terms writer.old) (writer_holding P.terms writer.new) (P.view pages.old) (P.view pages.new) }
{
    if let Some(page) = &writer.open_rows {
        if row_count(&page.frame.bytes) == 0 {
            let empty = mem::replace(&mut writer.open_rows, None);
            discard_open(pages, empty);
        }
    }
}

/// Seals the heap page that is open, if there is one.
pub fn seal_heap<P: Pages>(writer: &mut Writer<P::Page>, pages: &mut P) -> Result<(), PoolFault>
    requires writing { Written P.terms writer.old }
    requires here { IsWriterHere P.terms (P.view pages.old) writer.old }
    requires used { IfSome writer.old.open_heap (λ page. 0 < used page.frame.bytes.items) }
    ensures sealed { OnOk result (writer.new.open_heap ≡ None) }
    ensures count { OnOk result (writer.new.sealed_heaps ≡ used_heaps writer.old) }
    ensures open_rows { writer.new.open_rows ≡ writer.old.open_rows }
    ensures cells { written_cells P.terms writer.new ≡ written_cells P.terms writer.old }
    ensures fill { OnOk result (fill_of writer.new ≡ sealed_fill (fill_of writer.old)) }
    ensures same { OnErr result (fill_of writer.new ≡ fill_of writer.old) }
    ensures asked { writer.new.asked_bytes ≡ writer.old.asked_bytes }
    ensures columns { SameColumns writer.old writer.new }
    ensures writing { Written P.terms writer.new }
    ensures here { IsWriterHere P.terms (P.view pages.new) writer.new }
    ensures cause { IfErr result (λ fault. fault ≡ PoolFault.OutOfMemory) }
    ensures changes { Changes P.terms (writer_holding P.terms writer.old) (writer_holding P.terms writer.new) (P.view pages.old) (P.view pages.new) }
{
    match mem::replace(&mut writer.open_heap, None) {
        None => Ok(()),
        Some(page) => match pages.seal(page) {
            Ok(sealed) => {
                keep_heap(writer, sealed);
                Ok(())
            }
            Err((page, _)) => {
                writer.open_heap = Some(page);
                Err(PoolFault::OutOfMemory)
            }
        },
    }
}

// Keeps a heap page that was sealed.
fn keep_heap<H>(writer: &mut Writer<H>, page: H)
    requires few { writer.old.sealed_heaps < 4 }
    requires free { IsFree writer.old }
    ensures { writer.new ≡ with_sealed writer.old page }
{
    match writer.sealed_heaps {
        0 => {
            fill(&mut writer.heap0, page);
            writer.sealed_heaps = 1;
        }
        1 => {
            fill(&mut writer.heap1, page);
            writer.sealed_heaps = 2;
        }
        2 => {
            fill(&mut writer.heap2, page);
            writer.sealed_heaps = 3;
        }
        _ => {
            fill(&mut writer.heap3, page);
            writer.sealed_heaps = 4;
        }
    }
}

// Fills an empty place.
fn fill<H>(slot: &mut Option<H>, page: H)
    requires { slot.old ≡ None }
    ensures { slot.new ≡ Some page }
{
    match mem::replace(slot, Some(page)) {
        None => (),
        Some(_other) => unreachable!(),
    }
}

// Ends an empty place.
fn end<H>(slot: Option<H>)
    requires { slot ≡ None }
{
    match slot {
        None => (),
        Some(_other) => unreachable!(),
    }
}

// Seals the row page that is open, if there is one, where no heap page is open.
fn seal_rows<P: Pages>(writer: &mut Writer<P::Page>, pages: &mut P) -> Result<(), PoolFault>
    requires writing { Written P.terms writer.old }
    requires here { IsWriterHere P.terms (P.view pages.old) writer.old }
    requires sealed { writer.old.open_heap ≡ None }
    requires some { IfSome writer.old.open_rows (λ page. 0 < row_count page.frame.bytes.items) }
    ensures closed { OnOk result (IsClosed writer.new) }
    ensures cells { written_cells P.terms writer.new ≡ written_cells P.terms writer.old }
    ensures fill { OnOk result (fill_of writer.new ≡ closed_fill (fill_of writer.old)) }
    ensures same { OnErr result (fill_of writer.new ≡ fill_of writer.old) }
    ensures asked { writer.new.asked_bytes ≡ writer.old.asked_bytes }
    ensures columns { SameColumns writer.old writer.new }
    ensures writing { Written P.terms writer.new }
    ensures here { IsWriterHere P.terms (P.view pages.new) writer.new }
    ensures cause { IfErr result (λ fault. fault ≡ PoolFault.OutOfMemory) }
    ensures changes { Changes P.terms (writer_holding P.terms writer.old) (writer_holding P.terms writer.new) (P.view pages.old) (P.view pages.new) }
{
    if writer.pages.reserve(1).is_err() {
        return Err(PoolFault::OutOfMemory);
    }
    match mem::replace(&mut writer.open_rows, None) {
        None => Ok(()),
        Some(page) => {
            let rows = u64::from(row_count(&page.frame.bytes));
            match pages.seal(page) {
                Ok(sealed) => {
                    keep_rows(writer, sealed, rows);
                    Ok(())
                }
                Err((page, _)) => {
                    writer.open_rows = Some(page);
                    Err(PoolFault::OutOfMemory)
                }
            }
        }
    }
}

// Keeps a row page that was sealed, with its heap pages.
fn keep_rows<H>(writer: &mut Writer<H>, page: H, rows: u64)
    requires room { vec_len writer.old.pages < vec_capacity writer.old.pages }
    requires low { writer.old.first_heap < no_heap }
    requires few { writer.old.sealed_heaps ≤ 4 }
    ensures kept { IsWithRows page rows writer.old writer.new }
    ensures still { writer.new.open_rows ≡ writer.old.open_rows }
{
    let page = SetPage {
        page: RowPage {
            rows: page,
            heap0: mem::replace(&mut writer.heap0, None),
            heap1: mem::replace(&mut writer.heap1, None),
            heap2: mem::replace(&mut writer.heap2, None),
            heap3: mem::replace(&mut writer.heap3, None),
        },
        rows,
    };
    match writer.pages.push(page) {
        Ok(()) => (),
        Err(_other) => unreachable!(),
    }
    writer.first_heap = number_of(writer.first_heap, writer.sealed_heaps);
    writer.sealed_heaps = 0;
}

// The set that a writer with no open page has written.
fn as_set<H>(writer: Writer<H>) -> RowSet<H>
    requires { IsClosed writer }
    ensures { result ≡ closed_set writer }
{
    let Writer {
        kinds,
        layout,
        page_bytes,
        pages,
        open_rows: _open_rows,
        open_heap: _open_heap,
        heap0,
        heap1,
        heap2,
        heap3,
        sealed_heaps: _sealed_heaps,
        first_heap: _first_heap,
        rows,
        long_bytes,
        asked_bytes,
    } = writer;
    end(heap0);
    end(heap1);
    end(heap2);
    end(heap3);
    RowSet {
        kinds,
        layout,
        page_bytes,
        pages,
        rows,
        long_bytes,
        asked_bytes,
    }
}

/// Gives a writer up with all its pages. It can't be refused.
pub fn abandon<P: Pages>(writer: Writer<P::Page>, pages: &mut P)
    requires writing { Writing P.terms writer }
    requires here { IsWriterHere P.terms (P.view pages.old) writer }
    ensures { Changes P.terms (writer_holding P.terms writer) nothing (P.view pages.old) (P.view pages.new) }
{
    give_up(writer, pages);
}

// Gives a writer up, however its pages are filled.
fn give_up<P: Pages>(writer: Writer<P::Page>, pages: &mut P)
    requires writing { Written P.terms writer }
    requires here { IsWriterHere P.terms (P.view pages.old) writer }
    ensures { Changes P.terms (writer_holding P.terms writer) nothing (P.view pages.old) (P.view pages.new) }
{
    let Writer {
        kinds: _kinds,
        layout: _layout,
        page_bytes: _page_bytes,
        pages: done,
        open_rows,
        open_heap,
        heap0,
        heap1,
        heap2,
        heap3,
        sealed_heaps: _sealed_heaps,
        first_heap: _first_heap,
        rows: _rows,
        long_bytes: _long_bytes,
        asked_bytes: _asked_bytes,
    } = writer;
    discard_open(pages, open_rows);
    discard_open(pages, open_heap);
    retire_heap(pages, heap0);
    retire_heap(pages, heap1);
    retire_heap(pages, heap2);
    retire_heap(pages, heap3);
    retire_pages(pages, done);
}

// Gives up an open page, if there is one.
fn discard_open<P: Pages>(pages: &mut P, page: Option<OpenPage>)
    requires { IfSome page (IsOpen (P.view pages.old)) }
    ensures { Changes P.terms (open_holding page) nothing (P.view pages.old) (P.view pages.new) }
{
    if let Some(page) = page {
        pages.discard(page);
    }
}
