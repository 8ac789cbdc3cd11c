//! Frames and entries that are used again.
ghost use Rattle.std.specs.Prelude.{◌≡◌, ◌<◌, length};
ghost use Rattle.solo_pool.specs.View.{pool_view};

use crate::sets::fill;
use crate::tests::images::{heap_image, tables};
use ooc_io::MemLane;
use page_body::clients::seal_copy;
use page_body::{Pages, PoolFault};
use row_image::ImageKind;
use solo_pool::Solo;
use std::alloc::Global;
use std::test::Fail;

// Opens a page and gives it up.
fn open_and_discard(pages: &mut Solo<MemLane>) -> Result<(), PoolFault>
    requires room { (pool_view pages.old).held < (pool_view pages.old).grant }
    ensures held { (pool_view pages.new).held ≡ (pool_view pages.old).held }
    ensures grant { (pool_view pages.new).grant ≡ (pool_view pages.old).grant }
    ensures page { (pool_view pages.new).page_bytes ≡ (pool_view pages.old).page_bytes }
{
    let page = pages.open(ImageKind::Heap)?;
    pages.discard(page);
    Ok(())
}

// Opens a page that is given up, and seals and retires another one, that many times. The answer is the last entry that a
// page had.
fn last_entry(pages: &mut Solo<MemLane>, image: &[u8], times: u32) -> Result<usize, PoolFault>
    requires free { (pool_view pages.old).held ≡ 0 }
    requires long { length image.now ≡ (pool_view pages.old).page_bytes }
{
    let mut last: usize = 0;
    for _ in 0..times {
        open_and_discard(pages)?;
        if let Some(page) = seal_copy(pages, ImageKind::Heap, image)? {
            last = last.max(page.at);
            pages.retire(page);
        }
    }
    Ok(last)
}

// 20 pages stay in 24 frames, while others come and go.
fn turn_over(alloc: Global, lane: &mut MemLane) -> Result<usize, PoolFault> {
    let mut tables = tables(alloc)?;
    let mut pages = Solo::over(&mut tables, lane);
    let mut standing = Vec::new(alloc);
    fill(
        &mut pages,
        &ImageKind::Heap,
        &heap_image(),
        20,
        &mut standing,
    )?;
    last_entry(&mut pages, &heap_image(), 10_000)
}

// Those that come and go share the 21st entry. A frame that is free is taken before one is emptied, so nothing is written.
#[test]
fn ten_thousand_pages_that_come_and_go_take_one_entry_and_no_write(
    rt: HostRuntime,
) -> Result<(), Fail> {
    let alloc = rt.alloc();
    let mut lane = MemLane::new_lane(alloc, Vec::new(alloc), Vec::new(alloc));
    assert!(rt; turn_over(alloc, &mut lane) == Ok(20));
    assert_eq!(rt; lane.write_count(), 0);
    Ok(())
}
