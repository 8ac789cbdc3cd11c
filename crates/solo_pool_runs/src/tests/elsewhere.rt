//! A heap page that rests and comes back in another frame, and a place that is used again.
ghost use Rattle.std.specs.Prelude.{◌≡◌, ◌+◌, ◌<◌, ◌≤◌, ◌∷◌, [], IsTrue, length};
ghost use Rattle.row_image.specs.declared.image.ImageKind.TheVariants.{Rows, Heap};
ghost use Rattle.page_body.specs.Keeps.{Kept};
ghost use Rattle.solo_pool.specs.View.{pool_view};

use crate::sets::fill;
use crate::tests::images::{heap_image, put, tables};
use ooc_io::MemLane;
use page_body::clients::seal_copy;
use page_body::{Pages, PoolFault, base_of};
use row_image::{CellKind, ImageKind, Layout};
use solo_pool::Solo;
use std::alloc::Global;
use std::test::Fail;

// One row with the text of `heap_image`: 1 byte of mask, 8 of hash, and the cell of 16 bytes. Its part has the heap page 7
// at the base 12,288, which is the fourth frame's, so the address is 12,352.
fn row_image() -> [u8; 4096]
    ensures { length result ≡ 4096 }
{
    let mut image = [0; 4096];
    put(&mut image, 0, &[1, 0, 0, 0, 25, 0, 0, 0, 1, 0, 0, 0, 1]);
    put(&mut image, 36, &[1, 0, 0, 0, 7, 0, 0, 0, 0, 0, 0, 0, 0, 48]);
    put(
        &mut image,
        137,
        &[13, 0, 0, 0, b'a', b'b', b'c', b'd', 64, 48],
    );
    image
}

fn one_text() -> Layout
    ensures { result ≡ CellKind.Text ∷ [] }
{
    Layout::new_layout(&[CellKind::Text])
}

// What is seen under pins on a heap page and on a row page: the heap page's frame, the base of the row page's first part,
// the cell of its row, and the heap page's text.
#[derive(Clone, Copy, Debug, PartialEq, Eq)]
struct Look {
    frame: u32,
    base: [u8; 8],
    cell: [u8; 16],
    text: [u8; 13],
}

// Pins both, the heap page first, and looks.
fn read_both<P: Pages>(
    pages: &mut P,
    rows: &P::Page,
    heap: &P::Page,
    layout: &Layout,
) -> Result<Look, PoolFault>
    requires rows { (P.view pages.old).live rows.now }
    requires heap { (P.view pages.old).live heap.now }
    requires kind { P.terms.kind rows.now ≡ Rows layout.now }
    requires heap_kind { P.terms.kind heap.now ≡ Heap }
    requires alone { IsTrue P.terms.ends_lives → (P.view pages.old).pins (P.terms.id rows.now) ≡ 0 }
    requires room { (P.view pages.old).held + 2 ≤ (P.view pages.old).grant }
    requires page { (P.view pages.old).page_bytes ≡ 4096 }
    ensures kept { Kept (P.view pages.old) (P.view pages.new) }
{
    let heap_pin = pages.pin(heap)?;
    let frame = pages.frame(&heap_pin);
    let base = base_of(frame, pages.page_bytes());
    match pages.pin_based(rows, layout, &[base, 0, 0, 0]) {
        Ok(row_pin) => {
            let mut seen = Look {
                frame,
                base: [0; 8],
                cell: [0; 16],
                text: [0; 13],
            };
            seen.base.copy_from_slice(&pages.bytes(&row_pin)[48..56]);
            seen.cell.copy_from_slice(&pages.bytes(&row_pin)[137..153]);
            seen.text.copy_from_slice(&pages.bytes(&heap_pin)[64..77]);
            pages.unpin(row_pin);
            pages.unpin(heap_pin);
            Ok(seen)
        }
        Err(fault) => {
            pages.unpin(heap_pin);
            Err(fault)
        }
    }
}

// Three pages, then the heap page in the fourth frame and its row page. 26 pages more go through all frames and on to the
// seventh, so that the next page that comes in has the eighth.
fn look_twice(alloc: Global, pages: &mut Solo<MemLane>) -> Result<Option<(Look, Look)>, PoolFault>
    requires free { (pool_view pages.old).held ≡ 0 }
    requires grant { (pool_view pages.old).grant ≡ 24 }
    requires page { (pool_view pages.old).page_bytes ≡ 4096 }
{
    let layout = one_text();
    let mut before = Vec::new(alloc);
    fill(pages, &ImageKind::Heap, &heap_image(), 3, &mut before)?;
    let heap = match seal_copy(pages, ImageKind::Heap, &heap_image())? {
        Some(page) => page,
        None => return Ok(None),
    };
    let rows = match seal_copy(pages, ImageKind::Rows(layout), &row_image())? {
        Some(page) => page,
        None => return Ok(None),
    };
    let first = read_both(pages, &rows, &heap, &layout)?;
    let mut behind = Vec::new(alloc);
    fill(pages, &ImageKind::Heap, &heap_image(), 26, &mut behind)?;
    let second = read_both(pages, &rows, &heap, &layout)?;
    Ok(Some((first, second)))
}

fn look_over(alloc: Global, lane: &mut MemLane) -> Result<Option<(Look, Look)>, PoolFault> {
    let mut tables = tables(alloc)?;
    let mut pages = Solo::over(&mut tables, lane);
    look_twice(alloc, &mut pages)
}

#[test]
fn a_heap_page_comes_back_elsewhere(rt: HostRuntime) -> Result<(), Fail> {
    let alloc = rt.alloc();
    let mut lane = MemLane::new_lane(alloc, Vec::new(alloc), Vec::new(alloc));
    match look_over(alloc, &mut lane) {
        Ok(Some((first, second))) => {
            assert_eq!(rt; first.frame, 3);
            assert_eq!(rt; first.base, [0, 48, 0, 0, 0, 0, 0, 0]);
            assert_eq!(rt;
                first.cell,
                [13, 0, 0, 0, 97, 98, 99, 100, 64, 48, 0, 0, 0, 0, 0, 0]
            );
            assert_eq!(rt; second.frame, 7);
            assert_eq!(rt; second.base, [0, 112, 0, 0, 0, 0, 0, 0]);
            assert_eq!(rt;
                second.cell,
                [13, 0, 0, 0, 97, 98, 99, 100, 64, 112, 0, 0, 0, 0, 0, 0]
            );
            assert!(rt; first.text.as_slice() == b"abcdefghijklm".as_slice());
            assert!(rt; second.text.as_slice() == b"abcdefghijklm".as_slice());
        }
        _ => assert!(rt; false, "both pages are there"),
    }
    Ok(())
}

// Seals and retires a page many times over, and tells how often it went well.
fn seal_and_retire(pages: &mut Solo<MemLane>, image: &[u8], times: u32) -> Result<u32, PoolFault>
    requires free { (pool_view pages.old).held ≡ 0 }
    requires long { length image.now ≡ (pool_view pages.old).page_bytes }
{
    let mut done: u32 = 0;
    for _ in 0..times {
        if let Some(page) = seal_copy(pages, ImageKind::Heap, image)? {
            pages.retire(page);
            done = done.wrapping_add(1);
        }
    }
    Ok(done)
}

fn retire_over(alloc: Global, lane: &mut MemLane) -> Result<(u32, u32), PoolFault> {
    let mut tables = tables(alloc)?;
    let mut pages = Solo::over(&mut tables, lane);
    let retired = seal_and_retire(&mut pages, &heap_image(), 100)?;
    pages.pages_are_written_once();
    Ok((retired, pages.held()))
}

#[test]
fn retired_pages_are_never_written(rt: HostRuntime) -> Result<(), Fail> {
    let alloc = rt.alloc();
    let mut lane = MemLane::new_lane(alloc, Vec::new(alloc), Vec::new(alloc));
    assert!(rt; retire_over(alloc, &mut lane) == Ok((100, 0)));
    assert_eq!(rt; lane.write_count(), 0);
    Ok(())
}
