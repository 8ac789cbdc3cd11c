//! A sink in memory.
ghost use Rattle.std.specs.Prelude.{◌≡◌, ◌-◌, ◌≤◌, ◌<◌, ◌⊎◌, ◌↔◌, Some, IfOk, OnErr, is_err, IsErr, [], length, min};
ghost use Rattle.std.specs.Io.KnownBytes.{WriteAppends, Keeps};
ghost use Rattle.ooc_io.specs.Counts.{HasExactCause, faults_after};
ghost use Rattle.ooc_io.specs.Calls.{FailsNext, called};

use crate::calls::Calls;
use crate::fault::{OutOfMemory, WriteFailed};
use crate::sink::Sink;
use std::alloc::Global;
use std::marker::Model;

/// A sink with room for so many more bytes, whose listed calls fail.
#[derive(Drop)]
pub struct MemSink {
    bytes: Vec<u8>,
    room: usize,
    faults: u64,
    calls: Calls,
}

impl Model for MemSink {
    ghost use Rattle.std.specs.Prelude.{◌+◌, ◌≤◌, vec_len, vec_capacity};
    ghost use Rattle.ooc_io.specs.MemForms.{SinkState};

    ghost Value = { SinkState };

    ghost view = { λ s. record { bytes = s.bytes.items; room = s.room; faults = s.faults; calls = s.calls } };

    // The room is reserved.
    ghost invariant = { λ s. vec_len s.bytes + s.room ≤ vec_capacity s.bytes };
}

impl MemSink {
    /// A sink with room for `room` bytes, which it takes now. `failing` has the numbers, from 1, of the calls that are
    /// to fail.
    pub fn new_sink(alloc: Global, failing: Vec<u64>, room: u32) -> Result<MemSink, OutOfMemory>
        ensures empty { IfOk result (λ s. s.bytes ≡ []) }
        ensures room { IfOk result (λ s. s.room ≡ room) }
        ensures faults { IfOk result (λ s. s.faults ≡ 0) }
        ensures calls { IfOk result (λ s. s.calls ≡ record { failing = failing.items; count = 0 }) }
    {
        Ok(MemSink {
            bytes: Vec::with_capacity(alloc, room as usize)?,
            room: room as usize,
            faults: 0,
            calls: Calls::new_calls(failing),
        })
    }

    /// What the sink took.
    pub fn bytes(&self) -> &[u8]
        ensures { result.now ≡ self.now.bytes }
    {
        self.bytes.as_slice()
    }

    /// How often a call failed.
    pub fn fault_count(&self) -> u64
        ensures { result ≡ self.now.faults }
    {
        self.faults
    }
}

impl Sink for MemSink {
    ghost written = { λ s. Some s.bytes };

    ghost faults = { λ s. s.faults };

    // It takes what the room holds, and fails in the listed calls and where no room is left.
    fn write(&mut self, piece: &[u8]) -> Result<usize, WriteFailed>
        requires { 0 < length piece.now }
        ensures some { IfOk result (λ n. 0 < n) }
        ensures bound { IfOk result (λ n. n ≤ length piece.now) }
        ensures bytes { WriteAppends (Some self.old.bytes) (Some self.new.bytes) result piece.now }
        ensures cause { HasExactCause self.old.faults self.new.faults result }
        ensures faults { self.new.faults ≡ faults_after (is_err result) self.old.faults }
        ensures listed { IsErr result ↔ (FailsNext self.old.calls ⊎ (self.old.room ≡ 0)) }
        ensures counted { self.new.calls ≡ called self.old.calls }
        ensures most { IfOk result (λ n. n ≡ min (length piece.now) self.old.room) }
        ensures room { IfOk result (λ n. self.new.room ≡ self.old.room - n) }
        ensures refused { OnErr result ((self.new.bytes ≡ self.old.bytes) × (self.new.room ≡ self.old.room)) }
    {
        let taken = piece.len().min(self.room);
        if self.calls.fails() || taken == 0 {
            self.faults = self.faults.saturating_add(1);
            return Err(WriteFailed);
        }
        self.bytes.extend_from_slice(&piece[..taken]).unwrap();
        self.room -= taken;
        Ok(taken)
    }

    // The listed calls fail, and no others.
    fn flush(&mut self) -> Result<(), WriteFailed>
        ensures bytes { Keeps (Some self.old.bytes) (Some self.new.bytes) }
        ensures cause { HasExactCause self.old.faults self.new.faults result }
        ensures faults { self.new.faults ≡ faults_after (is_err result) self.old.faults }
        ensures listed { IsErr result ↔ FailsNext self.old.calls }
        ensures counted { self.new.calls ≡ called self.old.calls }
        ensures room { self.new.room ≡ self.old.room }
    {
        if self.calls.fails() {
            self.faults = self.faults.saturating_add(1);
            return Err(WriteFailed);
        }
        Ok(())
    }
}
