//! Pages that are read in three orders, each byte compared, while calls of the lane fail.
ghost use Rattle.std.specs.Prelude.{◌≡◌, ◌+◌, ◌<◌, ◌≤◌, IfOk, IfErr, length};
ghost use Rattle.std.specs.List.{All};
ghost use Rattle.page_body.specs.Keeps.{Kept};
ghost use Rattle.page_body.specs.PageLists.{ids_of, Differ, AllLive};
ghost use Rattle.solo_pool.specs.View.{pool_view};

use crate::sets::add;
use crate::tests::images::{draw, tables};
use ooc_io::MemLane;
use page_body::clients::read_back;
use page_body::{Pages, PoolFault};
use row_image::ImageKind;
use solo_pool::Solo;
use std::alloc::Global;
use std::test::Fail;

// How many pages there are, how often one was read whose bytes differ from what was sealed, and how often a call was
// refused since the lane failed.
#[derive(Clone, Copy, Debug, PartialEq, Eq)]
struct Tally {
    pages: usize,
    wrong: u32,
    refused: u32,
}

// How often a call is tried before its refusal counts.
const TRIES: u32 = 8;

// Adds a page, and tries again where the lane failed.
fn add_again<P: Pages>(
    pages: &mut P,
    image: &[u8],
    set: &mut Vec<P::Page>,
    tally: &mut Tally,
) -> Result<(), PoolFault>
    requires room { (P.view pages.old).held < (P.view pages.old).grant }
    requires long { length image.now ≡ (P.view pages.old).page_bytes }
    requires live { AllLive (P.view pages.old) set.old.items }
    requires differ { Differ P.terms (ids_of P.terms set.old.items) }
    ensures live { AllLive (P.view pages.new) set.new.items }
    ensures differ { Differ P.terms (ids_of P.terms set.new.items) }
    ensures kept { Kept (P.view pages.old) (P.view pages.new) }
{
    for _ in 0..TRIES {
        match add(pages, &ImageKind::Heap, image, set) {
            Err(PoolFault::Spill) => tally.refused = tally.refused.wrapping_add(1),
            other => return other,
        }
    }
    Err(PoolFault::Spill)
}

// Adds a page for each number below `count`.
fn add_all<P: Pages>(
    pages: &mut P,
    image: &mut [u8],
    count: u32,
    set: &mut Vec<P::Page>,
    tally: &mut Tally,
) -> Result<(), PoolFault>
    requires room { (P.view pages.old).held < (P.view pages.old).grant }
    requires page { (P.view pages.old).page_bytes ≡ 4096 }
    requires long { length image.old ≡ 4096 }
    requires live { AllLive (P.view pages.old) set.old.items }
    requires differ { Differ P.terms (ids_of P.terms set.old.items) }
    ensures live { AllLive (P.view pages.new) set.new.items }
    ensures kept { Kept (P.view pages.old) (P.view pages.new) }
{
    for number in 0..count {
        draw(image, number);
        add_again(pages, image, set, tally)?;
    }
    Ok(())
}

// Reads a page, and tries again where the lane failed.
fn read_again<P: Pages>(
    pages: &mut P,
    page: &P::Page,
    into: &mut [u8],
    tally: &mut Tally,
) -> Result<(), PoolFault>
    requires live { (P.view pages.old).live page.now }
    requires room { (P.view pages.old).held < (P.view pages.old).grant }
    requires long { length into.old ≡ (P.view pages.old).page_bytes }
    ensures kept { Kept (P.view pages.old) (P.view pages.new) }
{
    for _ in 0..TRIES {
        match read_back(pages, page, into) {
            Err(PoolFault::Spill) => tally.refused = tally.refused.wrapping_add(1),
            other => return other,
        }
    }
    Err(PoolFault::Spill)
}

// Reads each page once where `step` has no divisor in common with their number, and compares its bytes.
fn read_all<P: Pages>(
    pages: &mut P,
    set: &[P::Page],
    step: usize,
    image: &mut [u8],
    into: &mut [u8],
    tally: &mut Tally,
) -> Result<(), PoolFault>
    requires live { All (P.view pages.old).live set.now }
    requires room { (P.view pages.old).held < (P.view pages.old).grant }
    requires page { (P.view pages.old).page_bytes ≡ 4096 }
    requires image { length image.old ≡ 4096 }
    requires into { length into.old ≡ 4096 }
    ensures kept { Kept (P.view pages.old) (P.view pages.new) }
{
    for i in 0..set.len() {
        let at = i.wrapping_mul(step) % set.len();
        draw(image, (at % 1000) as u32);
        read_again(pages, &set[at], into, tally)?;
        if &*into != &*image {
            tally.wrong = tally.wrong.wrapping_add(1);
        }
    }
    Ok(())
}

// Seals that many pages over a lane, and reads them from the first to the last, from the last to the first, and each
// seventh from the one before.
fn read_in_three_orders(alloc: Global, lane: &mut MemLane, count: u32) -> Result<Tally, PoolFault> {
    let mut tally = Tally {
        pages: 0,
        wrong: 0,
        refused: 0,
    };
    let mut image = [0; 4096];
    let mut into = [0; 4096];
    let mut set = Vec::new(alloc);
    let mut tables = tables(alloc)?;
    let mut pages = Solo::over(&mut tables, lane);
    add_all(&mut pages, &mut image, count, &mut set, &mut tally)?;
    let last = set.len().wrapping_sub(1);
    read_all(&mut pages, &set, 1, &mut image, &mut into, &mut tally)?;
    read_all(&mut pages, &set, last, &mut image, &mut into, &mut tally)?;
    read_all(&mut pages, &set, 7, &mut image, &mut into, &mut tally)?;
    tally.pages = set.len();
    Ok(tally)
}

// The numbers 1, 3, 5 and so on.
fn odd_numbers(alloc: Global, count: u64) -> Result<Vec<u64>, PoolFault> {
    let mut numbers = Vec::new(alloc);
    for i in 0..count {
        numbers.push(i.wrapping_mul(2).wrapping_add(1))?;
    }
    Ok(numbers)
}

#[test]
fn five_hundred_pages_are_read_in_three_orders(rt: HostRuntime) -> Result<(), Fail> {
    let alloc = rt.alloc();
    let mut lane = MemLane::new_lane(alloc, Vec::new(alloc), Vec::new(alloc));
    let read = read_in_three_orders(alloc, &mut lane, 500);
    assert!(rt;
        read == Ok(Tally {
            pages: 500,
            wrong: 0,
            refused: 0
        })
    );
    // Each page is written once, however often it rests.
    assert_eq!(rt; lane.write_count(), 500);
    Ok(())
}

#[test]
fn each_call_of_the_lane_fails_once_in_a_run(rt: HostRuntime) -> Result<(), Fail> {
    let alloc = rt.alloc();
    let odd = match odd_numbers(alloc, 2000) {
        Ok(numbers) => numbers,
        Err(_) => return Err(Fail::from("out of memory")),
    };
    let again = match odd_numbers(alloc, 2000) {
        Ok(numbers) => numbers,
        Err(_) => return Err(Fail::from("out of memory")),
    };
    let mut lane = MemLane::new_lane(alloc, odd, again);
    match read_in_three_orders(alloc, &mut lane, 500) {
        Ok(tally) => {
            assert_eq!(rt; tally.pages, 500);
            assert_eq!(rt; tally.wrong, 0);
            assert!(rt; tally.refused >= 1000);
            assert_eq!(rt; lane.fault_count(), u64::from(tally.refused));
            assert_eq!(rt; lane.write_count(), 500);
        }
        Err(_) => assert!(rt; false, "what was refused goes well when it is tried again"),
    }
    Ok(())
}

// Which tally comes of a run of 30 pages in which one call of the lane fails.
fn fail_one(alloc: Global, write: u64, read: u64) -> Result<Tally, PoolFault> {
    let mut writes = Vec::new(alloc);
    writes.push(write)?;
    let mut reads = Vec::new(alloc);
    reads.push(read)?;
    let mut lane = MemLane::new_lane(alloc, writes, reads);
    read_in_three_orders(alloc, &mut lane, 30)
}

#[test]
fn each_call_of_the_lane_fails_alone(rt: HostRuntime) -> Result<(), Fail> {
    let alloc = rt.alloc();
    let once = Tally {
        pages: 30,
        wrong: 0,
        refused: 1,
    };
    let never = Tally {
        pages: 30,
        wrong: 0,
        refused: 0,
    };
    for number in 1..31u64 {
        assert!(rt; fail_one(alloc, number, 0) == Ok(once));
    }
    assert!(rt; fail_one(alloc, 31, 0) == Ok(never));
    // From the first to the last all 30 are read, and from the last to the first the 6 that no frame has any more.
    for number in 1..37u64 {
        assert!(rt; fail_one(alloc, 0, number) == Ok(once));
    }
    assert!(rt; fail_one(alloc, 0, 91) == Ok(never));
    Ok(())
}
