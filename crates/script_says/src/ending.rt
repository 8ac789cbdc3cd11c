//! The end of a run: its line is written last.
ghost use Rattle.std.specs.Prelude.{◌≡◌, ◌≢◌};
ghost use Rattle.script_says.specs.Ends.{EndsBy, EndsWith, HasWriteCause};

use crate::writing::write_all;
use ooc_io::Sink;
use ooc_types::OutOfMemory;
use run_settings::{OUT_OF_MEMORY_LINE, Status, append_line};
use std::alloc::Global;

/// Ends a run with this status and this text, which is written last.
pub fn end_with<K: Sink>(out: &mut K, text: &[u8], status: Status) -> Status
    requires { status ≢ Status.WriteFault }
    ensures text { EndsWith (K.written out.old) (K.written out.new) text.now status result }
    ensures cause { HasWriteCause (K.faults out.old) (K.faults out.new) result }
{
    match write_all(out, text) {
        Ok(()) => status,
        Err(_) => Status::WriteFault,
    }
}

/// Ends a run with the line of its status, or, where memory runs out for it, with that of want of memory.
pub fn end<K: Sink>(alloc: Global, out: &mut K, status: Status) -> Status
    requires { status ≢ Status.WriteFault }
    ensures line { EndsBy (K.written out.old) (K.written out.new) status result }
    ensures cause { HasWriteCause (K.faults out.old) (K.faults out.new) result }
{
    let mut line = Vec::new(alloc);
    match append_line(status, &mut line) {
        Ok(()) => end_with(out, line.as_slice(), status),
        Err(OutOfMemory) => end_with(out, OUT_OF_MEMORY_LINE.as_bytes(), Status::OutOfMemory),
    }
}
