//! Row pages whose heap pages lie elsewhere than when they were written.
ghost use Rattle.std.specs.Prelude.{◌≡◌, ◌≢◌, ◌+◌, ◌<◌, ◌≤◌, ◌∷◌, [], length, IsTrue, IfOk};
ghost use Rattle.page_body.specs.MemView.{mem_view};
ghost use Rattle.page_body.specs.SlotLaws.{mem_terms};
ghost use Rattle.page_body.specs.Keeps.{Kept};
ghost use Rattle.rebase_pins.specs.RowPages.{IsFormed, IsLive};
ghost use Rattle.rebase_pins.specs.Seen.{rows_seen};

use super::*;
use page_body::clients::seal_copy;
use page_body::{MemPage, MemPages, Pages, PoolFault};
use row_image::{Cell, CellKind, ImageKind, Layout};
use std::alloc::Global;
use std::test::Fail;

fn put(image: &mut [u8; 4096], place: usize, bytes: &[u8])
    requires long { length image.old ≡ 4096 }
    requires room { place + length bytes.now ≤ 4096 }
    ensures { length image.new ≡ 4096 }
{
    let image: &mut [u8] = image;
    image[place..place + bytes.len()].copy_from_slice(bytes);
}

// A heap page with a text of 13 bytes behind its head, and one of 14 bytes behind that.
fn heap_image() -> [u8; 4096]
    ensures { length result ≡ 4096 }
{
    let mut image = [0; 4096];
    put(&mut image, 0, &[2, 0, 0, 0, 27]);
    put(&mut image, 64, b"abcdefghijklmnopqrstuvwxyzA");
    image
}

// Four rows of a number and a text, 29 bytes each: 7 and the text of 13 bytes; NULL and NULL; 9 and `xy`; and, in a
// second part, 11 and the text of 14 bytes. The part of the first three has the heap page 0 at the base 12288, so the
// address is 12352; the last one's has the heap page 1 at the base 16384, and its address is 16461.
fn row_image() -> [u8; 4096]
    ensures { length result ≡ 4096 }
{
    let mut image = [0; 4096];
    put(&mut image, 0, &[1, 0, 0, 0, 29, 0, 0, 0, 4, 0, 0, 0, 2]);
    put(&mut image, 36, &[3, 0, 0, 0, 0, 0, 0, 0, 0, 0, 0, 0, 0, 48]);
    put(
        &mut image,
        56,
        &[3, 0, 0, 0, 1, 0, 0, 0, 1, 0, 0, 0, 0, 0, 0, 0, 0, 64],
    );
    put(
        &mut image,
        129,
        &[
            5, 0, 0, 0, 0, 0, 0, 0, 7, 0, 0, 0, 13, 0, 0, 0, b'a', b'b', b'c', b'd', 64, 48,
        ],
    );
    put(&mut image, 157, &[3, 6]);
    put(
        &mut image,
        187,
        &[8, 0, 0, 0, 0, 0, 0, 0, 9, 0, 0, 0, 2, 0, 0, 0, b'x', b'y'],
    );
    put(
        &mut image,
        216,
        &[
            0, 0, 0, 0, 0, 0, 0, 0, 11, 0, 0, 0, 14, 0, 0, 0, b'n', b'o', b'p', b'q', 77, 64,
        ],
    );
    image
}

fn number_and_text() -> Layout
    ensures { result ≡ CellKind.Four ∷ CellKind.Text ∷ [] }
{
    Layout::new_layout(&[CellKind::Four, CellKind::Text])
}

// A pool of 24 frames of 4,096 bytes.
fn small_pool(alloc: Global) -> MemPages
    ensures page { (mem_view result).page_bytes ≡ 4096 }
    ensures grant { (mem_view result).grant ≡ 24 }
    ensures held { (mem_view result).held ≡ 0 }
{
    MemPages::new_pages(alloc, 4096, 24)
}

// What a row is to show.
#[derive(Drop)]
struct Wanted<'a> {
    hash: u64,
    number: Option<i128>,
    text: Option<&'a [u8]>,
    address: u64,
}

fn row_of<'a>(hash: u64, number: Option<i128>, text: Option<&'a [u8]>, address: u64) -> Wanted<'a> {
    Wanted {
        hash,
        number,
        text,
        address,
    }
}

fn is_number(read: &CellRead, want: Option<i128>) -> bool {
    match read {
        CellRead::Null => want.is_none(),
        CellRead::Number(number) => want == Some(*number),
        CellRead::Text(_) => false,
    }
}

fn is_text(read: &CellRead, want: Option<&[u8]>) -> bool {
    match read {
        CellRead::Null => want.is_none(),
        CellRead::Number(_) => false,
        CellRead::Text(text) => want == Some(*text),
    }
}

fn address_in(cell: &Cell) -> u64 {
    match cell {
        Cell::Long { address, .. } => *address,
        _ => 0,
    }
}

// Whether a row shows what it is to show, by each way of reading it.
fn shows<P: Pages>(
    pages: &mut P,
    page: &RowPage<P::Page>,
    layout: &Layout,
    row: u32,
    want: &Wanted,
) -> Result<bool, PoolFault>
    requires formed { IsFormed P.terms layout.now page.now }
    requires live { IsLive (P.view pages.old) page.now }
    requires alone { IsTrue P.terms.ends_lives → (P.view pages.old).pins (P.terms.id page.now.rows) ≡ 0 }
    requires room { (P.view pages.old).held + 5 ≤ (P.view pages.old).grant }
    requires two { length layout.now ≡ 2 }
    ensures kept { Kept (P.view pages.old) (P.view pages.new) }
{
    let pins = pin_rows(pages, page, layout)?;
    let view = RowView::new_view(pages, &pins, layout);
    let good = row < view.rows() && view.columns() == 2 && row_shows(&view, row, want);
    release(pages, pins);
    Ok(good)
}

fn row_shows(view: &RowView, row: u32, want: &Wanted) -> bool
    requires row { row < length (rows_seen view.now) }
    requires two { length view.now.kinds ≡ 2 }
{
    let mut cells = [CellRead::Null; 2];
    view.read_row(row, &mut cells);
    is_number(&cells[0], want.number)
        && is_text(&cells[1], want.text)
        && is_number(&view.value(row, 0), want.number)
        && is_text(&view.value(row, 1), want.text)
        && address_in(&view.cell(row, 1)) == want.address
        && view.hash(row) == want.hash
}

// A page of these bytes.
fn seal_image(pages: &mut MemPages, kind: ImageKind, image: &[u8; 4096]) -> Result<MemPage, Fail>
    requires page { (mem_view pages.old).page_bytes ≡ 4096 }
    requires room { (mem_view pages.old).held < (mem_view pages.old).grant }
    requires long { length image.now ≡ 4096 }
    requires sealable { kind ≢ ImageKind.Plain }
    ensures kind { IfOk result (λ page. mem_terms.kind page ≡ kind) }
    ensures live { IfOk result (mem_view pages.new).live }
    ensures unpinned { IfOk result (λ page. (mem_view pages.new).pins (mem_terms.id page) ≡ 0) }
    ensures kept { Kept (mem_view pages.old) (mem_view pages.new) }
{
    match seal_copy(pages, kind, image) {
        Ok(Some(page)) => Ok(page),
        _ => Err(Fail::from("the page keeps the rules")),
    }
}

// Heap pages that lie in the first frames.
fn fill_frames(pages: &mut MemPages, count: u32) -> Result<(), Fail>
    requires page { (mem_view pages.old).page_bytes ≡ 4096 }
    requires room { (mem_view pages.old).held < (mem_view pages.old).grant }
    ensures kept { Kept (mem_view pages.old) (mem_view pages.new) }
{
    let image = heap_image();
    for _ in 0..count {
        let _page = seal_image(pages, ImageKind::Heap, &image)?;
    }
    Ok(())
}

#[test]
fn texts_are_read_where_their_heap_pages_lie(rt: HostRuntime) -> Result<(), Fail> {
    let mut pages = small_pool(rt.alloc());
    let layout = number_and_text();
    fill_frames(&mut pages, 7)?;
    let first = seal_image(&mut pages, ImageKind::Heap, &heap_image())?;
    let second = seal_image(&mut pages, ImageKind::Heap, &heap_image())?;
    let rows = seal_image(&mut pages, ImageKind::Rows(layout), &row_image())?;
    let page = RowPage {
        rows,
        heap0: Some(first),
        heap1: Some(second),
        heap2: None,
        heap3: None,
    };
    // The heap pages lie in the frames 7 and 8.
    let long = b"abcdefghijklm".as_slice();
    let other = b"nopqrstuvwxyzA".as_slice();
    let first = row_of(5, Some(7), Some(long), 7 * 4096 + 64);
    assert!(rt; shows(&mut pages, &page, &layout, 0, &first) == Ok(true));
    let nulls = row_of(6, None, None, 0);
    assert!(rt; shows(&mut pages, &page, &layout, 1, &nulls) == Ok(true));
    let short = row_of(8, Some(9), Some(b"xy".as_slice()), 0);
    assert!(rt; shows(&mut pages, &page, &layout, 2, &short) == Ok(true));
    let last = row_of(0, Some(11), Some(other), 8 * 4096 + 77);
    assert!(rt; shows(&mut pages, &page, &layout, 3, &last) == Ok(true));
    assert_eq!(rt; pages.held(), 0);
    let alone = RowPage {
        rows: page.rows,
        heap0: None,
        heap1: None,
        heap2: None,
        heap3: None,
    };
    let nothing = row_of(5, Some(7), Some(b"".as_slice()), 64);
    assert!(rt; shows(&mut pages, &alone, &layout, 0, &nothing) == Ok(true));
    Ok(())
}
