//! A lane in memory.
ghost use Rattle.std.specs.Prelude.{◌≡◌, ◌↔◌, is_err, IsErr, IsErrOf, IsSome, IfSome, IfOk, Some, OnOk, OnErr, length};
ghost use Rattle.ooc_io.specs.Counts.{HasCause, faults_after};
ghost use Rattle.ooc_io.specs.Lanes.{HasLaneCause, CountsWrites, is_failure};
ghost use Rattle.ooc_io.specs.Calls.{FailsNext, called};
ghost use Rattle.ooc_io.specs.declared.fault.LaneFault.TheVariants.{Failed};

use crate::calls::Calls;
use crate::fault::{LaneFault, SpillFailed};
use crate::lane::SpillLane;
use crate::ticket::{Telling, Ticket};
use std::alloc::Global;
use std::marker::Model;

/// A lane in memory, whose listed calls fail. Its tickets keep the images.
#[derive(Drop)]
pub struct MemLane {
    alloc: Global,
    written: u64,
    faults: u64,
    writes: Calls,
    reads: Calls,
}

impl Model for MemLane {
    ghost use Rattle.ooc_io.specs.MemForms.{LaneState};

    ghost Value = { LaneState };

    ghost view = { λ l. record { written = l.written; faults = l.faults; writes = l.writes; reads = l.reads } };
}

impl MemLane {
    /// A lane whose tickets keep their images by `alloc`. The lists have the numbers, from 1, of the writes and of the
    /// reads that are to fail.
    pub fn new_lane(alloc: Global, fail_writes: Vec<u64>, fail_reads: Vec<u64>) -> MemLane
        ensures counts { (result.written ≡ 0) × (result.faults ≡ 0) }
        ensures writes { result.writes ≡ record { failing = fail_writes.items; count = 0 } }
        ensures reads { result.reads ≡ record { failing = fail_reads.items; count = 0 } }
    {
        MemLane {
            alloc,
            written: 0,
            faults: 0,
            writes: Calls::new_calls(fail_writes),
            reads: Calls::new_calls(fail_reads),
        }
    }

    /// How many writes succeeded.
    pub fn write_count(&self) -> u64
        ensures { result ≡ self.now.written }
    {
        self.written
    }

    /// How often a call failed.
    pub fn fault_count(&self) -> u64
        ensures { result ≡ self.now.faults }
    {
        self.faults
    }
}

impl SpillLane for MemLane {
    type Mark = Telling;

    ghost writes = { λ l. l.written };

    ghost faults = { λ l. l.faults };

    // The listed writes fail, and no others.
    fn write(&mut self, image: &[u8]) -> Result<Ticket, LaneFault>
        ensures writes { CountsWrites self.old.written self.new.written result }
        ensures keeps { IfOk result (λ ticket. ticket.kept ≡ Some image.now) }
        ensures cause { HasLaneCause self.old.faults self.new.faults result }
        ensures faults { self.new.faults ≡ faults_after (is_failure result) self.old.faults }
        ensures listed { IsErrOf result Failed ↔ FailsNext self.old.writes }
        ensures counted { self.new.writes ≡ called self.old.writes }
        ensures others { self.new.reads ≡ self.old.reads }
    {
        if self.writes.fails() {
            self.faults = self.faults.saturating_add(1);
            return Err(LaneFault::Failed);
        }
        match Ticket::with_image(self.alloc, 0, self.written, image) {
            Ok(ticket) => {
                self.written = self.written.saturating_add(1);
                Ok(ticket)
            }
            Err(_) => Err(LaneFault::OutOfMemory),
        }
    }

    // The listed reads fail, and no others.
    fn read(&mut self, ticket: &Ticket, into: &mut [u8]) -> Result<(), SpillFailed>
        requires tells { IsSome ticket.now.kept }
        requires fits { IfSome ticket.now.kept (λ bytes. length into.old ≡ length bytes) }
        ensures bytes { OnOk result (ticket.now.kept ≡ Some into.new) }
        ensures writes { self.new.written ≡ self.old.written }
        ensures cause { HasCause self.old.faults self.new.faults result }
        ensures faults { self.new.faults ≡ faults_after (is_err result) self.old.faults }
        ensures listed { IsErr result ↔ FailsNext self.old.reads }
        ensures counted { self.new.reads ≡ called self.old.reads }
        ensures others { self.new.writes ≡ self.old.writes }
    {
        if self.reads.fails() {
            self.faults = self.faults.saturating_add(1);
            return Err(SpillFailed);
        }
        ticket.copy_kept(into);
        Ok(())
    }

    fn free(&mut self, _ticket: Ticket)
        ensures writes { self.new.written ≡ self.old.written }
        ensures faults { self.new.faults ≡ self.old.faults }
        ensures same { self.new ≡ self.old }
    {}
}
