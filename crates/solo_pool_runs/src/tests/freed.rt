//! A lane that counts its live tickets, and a written page that is retired.
ghost use Rattle.std.specs.Prelude.{◌≡◌};
ghost use Rattle.solo_pool.specs.View.{pool_view};

use crate::sets::fill;
use crate::tests::images::heap_image;
use ooc_io::{LaneFault, MemLane, SpillFailed, SpillLane, Telling, Ticket};
use page_body::clients::seal_copy;
use page_body::{Pages, PoolFault};
use row_image::ImageKind;
use solo_pool::{Solo, SoloTables};
use std::alloc::Global;
use std::test::Fail;

// A lane in memory, with how many of its tickets weren't given back.
#[derive(Drop)]
struct CountedLane {
    lane: MemLane,
    live: u64,
}

impl SpillLane for CountedLane {
    type Mark = Telling;

    ghost writes = { λ l. l.lane.written };

    ghost faults = { λ l. l.lane.faults };

    fn write(&mut self, image: &[u8]) -> Result<Ticket, LaneFault> {
        match self.lane.write(image) {
            Ok(ticket) => {
                self.live = self.live.saturating_add(1);
                Ok(ticket)
            }
            Err(fault) => Err(fault),
        }
    }

    fn read(&mut self, ticket: &Ticket, into: &mut [u8]) -> Result<(), SpillFailed> {
        self.lane.read(ticket, into)
    }

    fn free(&mut self, ticket: Ticket) {
        self.live = self.live.saturating_sub(1);
        self.lane.free(ticket);
    }
}

// Seals a page and 26 behind it, which go through all frames and on to the third, and retires the first.
fn retire_first(alloc: Global, pages: &mut Solo<CountedLane>) -> Result<bool, PoolFault>
    requires free { (pool_view pages.old).held ≡ 0 }
    requires grant { (pool_view pages.old).grant ≡ 24 }
    requires page { (pool_view pages.old).page_bytes ≡ 4096 }
{
    let first = match seal_copy(pages, ImageKind::Heap, &heap_image())? {
        Some(page) => page,
        None => return Ok(false),
    };
    let mut behind = Vec::new(alloc);
    fill(pages, &ImageKind::Heap, &heap_image(), 26, &mut behind)?;
    pages.retire(first);
    Ok(true)
}

fn retire_over(alloc: Global, lane: &mut CountedLane) -> Result<bool, PoolFault> {
    let mut tables = match SoloTables::open_tables(alloc, 4096, 24) {
        Ok(tables) => tables,
        Err(_) => return Err(PoolFault::OutOfMemory),
    };
    let mut pages = Solo::over(&mut tables, lane);
    retire_first(alloc, &mut pages)
}

#[test]
fn a_retired_page_gives_its_ticket_back(rt: HostRuntime) -> Result<(), Fail> {
    let alloc = rt.alloc();
    let mut lane = CountedLane {
        lane: MemLane::new_lane(alloc, Vec::new(alloc), Vec::new(alloc)),
        live: 0,
    };
    assert!(rt; retire_over(alloc, &mut lane) == Ok(true));
    // Three pages have no frame any more, of which the first was retired.
    assert_eq!(rt; lane.lane.write_count(), 3);
    assert_eq!(rt; lane.live, 2);
    Ok(())
}
