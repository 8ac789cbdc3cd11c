//! Writing all of a text, however little of it the sink takes at a time.
ghost use Rattle.std.specs.Prelude.{◌≡◌};
ghost use Rattle.ooc_io.specs.Counts.{HasExactCause};
ghost use Rattle.script_says.specs.Ends.{WritesAll};

use ooc_io::{Sink, WriteFailed};

/// Writes all of `bytes`, and flushes.
pub fn write_all<K: Sink>(out: &mut K, bytes: &[u8]) -> Result<(), WriteFailed>
    ensures bytes { WritesAll (K.written out.old) (K.written out.new) result bytes.now }
    ensures cause { HasExactCause (K.faults out.old) (K.faults out.new) result }
{
    let mut at = 0;
    while at < bytes.len() {
        at += out.write(&bytes[at..])?;
    }
    out.flush()
}
