//! A lane that counts its live tickets, and loads over it.

use crate::session::{Counts, Table, load_and_read, load_both};
use csv_tables::LoadFault;
use ooc_io::{LaneFault, MemFiles, MemLane, SpillFailed, SpillLane, Telling, Ticket};
use ooc_types::OutOfMemory;
use page_body::Pages;
use solo_pool::{Solo, SoloTables};
use std::alloc::Global;

/// A lane in memory, with how many of its tickets weren't given back.
#[derive(Drop)]
pub struct CountedLane {
    pub lane: MemLane,
    pub live: u64,
}

impl SpillLane for CountedLane {
    type Mark = Telling;

    ghost writes = { λ l. l.lane.written };

    ghost faults = { λ l. l.lane.faults };

    fn write(&mut self, image: &[u8]) -> Result<Ticket, LaneFault> {
        match self.lane.write(image) {
            Ok(ticket) => {
                self.live = self.live.saturating_add(1);
                Ok(ticket)
            }
            Err(fault) => Err(fault),
        }
    }

    fn read(&mut self, ticket: &Ticket, into: &mut [u8]) -> Result<(), SpillFailed> {
        self.lane.read(ticket, into)
    }

    fn free(&mut self, ticket: Ticket) {
        self.live = self.live.saturating_sub(1);
        self.lane.free(ticket);
    }
}

/// A lane of which one write and one read fail.
pub fn lane_failing(alloc: Global, write: u64, read: u64) -> Result<CountedLane, OutOfMemory> {
    let mut writes = Vec::new(alloc);
    writes.push(write)?;
    let mut reads = Vec::new(alloc);
    reads.push(read)?;
    Ok(CountedLane {
        lane: MemLane::new_lane(alloc, writes, reads),
        live: 0,
    })
}

/// What came of a load, and how many pins and open pages there are afterwards.
#[derive(Clone, Copy)]
pub struct Run {
    pub loaded: Result<Counts, LoadFault>,
    pub held: u32,
}

/// Loads a file into a pool of 24 frames over a lane, and reads it back.
pub fn load_over(
    alloc: Global,
    lane: &mut CountedLane,
    files: &mut MemFiles,
    table: &Table,
    out: &mut Vec<u8>,
) -> Result<Run, OutOfMemory> {
    let mut tables = match SoloTables::open_tables(alloc, 4096, 24) {
        Ok(tables) => tables,
        Err(_) => return Err(OutOfMemory),
    };
    let mut pages = Solo::over(&mut tables, lane);
    let loaded = load_and_read(alloc, files, &mut pages, table, out);
    Ok(Run {
        loaded,
        held: pages.held(),
    })
}

/// Loads two files into one such pool, one after the other.
pub fn load_both_over(
    alloc: Global,
    lane: &mut CountedLane,
    first: &mut MemFiles,
    second: &mut MemFiles,
    table: &Table,
    out: &mut Vec<u8>,
) -> Result<(), OutOfMemory> {
    let mut tables = match SoloTables::open_tables(alloc, 4096, 24) {
        Ok(tables) => tables,
        Err(_) => return Err(OutOfMemory),
    };
    let mut pages = Solo::over(&mut tables, lane);
    load_both(alloc, first, second, &mut pages, table, out)
}
