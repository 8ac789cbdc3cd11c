//! The standard output.
ghost use Rattle.std.specs.Prelude.{◌≡◌, ◌≤◌, ◌<◌, ℕ, None, IfOk, true, is_ok, is_err, length};
ghost use Rattle.std.specs.Io.KnownBytes.{WriteAppends, Keeps};
ghost use Rattle.ooc_io.specs.Counts.{HasExactCause, faults_after};

use ooc_io::{Sink, WriteFailed};
use std::io::{Error, ErrorKind};
use std::marker::Model;

/// The standard output. It tells no content.
#[derive(Drop)]
pub struct RealSink<'a, R> {
    rt: &'a R,
    faults: u64,
}

// Contracts see how often a call failed.
impl<'a, R> Model for RealSink<'a, R> {
    ghost use Rattle.std.specs.Prelude.{ℕ};

    ghost Value = { ℕ };

    ghost view = { λ s. s.faults };
}

impl<'a, R: Print> RealSink<'a, R> {
    pub fn new_sink(rt: &'a R) -> RealSink<'a, R>
        ensures { result ≡ 0 }
    {
        RealSink { rt, faults: 0 }
    }

    /// How often a call failed.
    pub fn fault_count(&self) -> u64
        ensures { result ≡ self.now }
    {
        self.faults
    }
}

// Writes some of the bytes, again where a signal interrupts the call.
fn write_some<R: Print>(rt: &R, piece: &[u8]) -> Result<usize, Error>
    ensures bound { IfOk result (λ n. n ≤ length piece.now) }
{
    for _ in 0..u64::MAX {
        match rt.write_some(piece) {
            Err(error) if error.kind() == ErrorKind::Interrupted => {}
            result => return result,
        }
    }
    Err(Error::from(ErrorKind::TimedOut))
}

impl<'a, R: Print> Sink for RealSink<'a, R> {
    ghost written = { λ s. None };

    ghost faults = { λ s. s };

    // A call that takes no byte fails.
    fn write(&mut self, piece: &[u8]) -> Result<usize, WriteFailed>
        requires { 0 < length piece.now }
        ensures some { IfOk result (λ n. 0 < n) }
        ensures bound { IfOk result (λ n. n ≤ length piece.now) }
        ensures bytes { WriteAppends None None result piece.now }
        ensures cause { HasExactCause self.old self.new result }
        ensures faults { self.new ≡ faults_after (is_err result) self.old }
    {
        match write_some(self.rt, piece) {
            Ok(count) if count > 0 => Ok(count),
            _ => {
                self.faults = self.faults.saturating_add(1);
                Err(WriteFailed)
            }
        }
    }

    // Nothing is held back: each call of the system takes what it takes.
    fn flush(&mut self) -> Result<(), WriteFailed>
        ensures cause { HasExactCause self.old self.new result }
        ensures same { self.new ≡ self.old }
        ensures ok { is_ok result ≡ true }
    {
        Ok(())
    }
}
