//! Taking bytes of a file into a buffer.
ghost use Rattle.std.specs.Prelude.{◌≡◌, ◌≢◌, ◌≤◌, ◌<◌, ◌+◌, ◌-◌, ◌^◌, ◌⊎◌, true, false, length, vec_len, take, drop, slice_range, IsTrue, IfOk, IfErr, OnOk, IsErrOf, if◌then◌else◌};
ghost use Rattle.std.specs.Io.KnownBytes.{Consumes, IsAtEnd};
ghost use Rattle.csv.specs.Reading.{is_bom, strip_bom};
ghost use Rattle.ooc_io.specs.Counts.{Rose};
ghost use Rattle.csv_records.specs.Ahead.{Same, told_text};
ghost use Rattle.csv_records.specs.Buffer.{carried_in, position_of, IsLast};
ghost use Rattle.csv_records.specs.declared.fault.RecordFault.TheVariants as fault;

use crate::buffer::Buffer;
use crate::fault::RecordFault;
use ooc_io::{Files, FilesFailed};
use std::alloc::{AllocError, Global};

/// How many bytes are asked for at a time, at least.
const PIECE: usize = 65536;

// So many bytes.
fn zeroed(alloc: Global, count: usize) -> Result<Vec<u8>, AllocError>
    ensures { IfOk result (λ bytes. vec_len bytes ≡ count) }
{
    vec![in alloc; 0u8; count]
}

// Moves a part of the bytes to their front.
fn move_to_front(bytes: &mut [u8], at: usize, filled: usize)
    requires at { at ≤ filled }
    requires filled { filled ≤ length bytes.old }
    ensures { slice_range bytes.new 0 (filled - at) ≡ slice_range bytes.old at filled }
{
    bytes.copy_within(at..filled, 0);
}

// Reads into the bytes from one place up to another.
fn read_between<F: Files>(
    files: &mut F,
    bytes: &mut [u8],
    from: usize,
    to: usize,
) -> Result<usize, FilesFailed>
    requires opened { F.is_open files.old ≡ true }
    requires low { from < to }
    requires high { to ≤ length bytes.old }
    ensures holds { F.holds files.new ≡ F.holds files.old }
    ensures opened { F.is_open files.new ≡ true }
    ensures bound { IfOk result (λ n. from + n ≤ to) }
    ensures front { take from bytes.new ≡ take from bytes.old }
    ensures read { IfOk result (λ n. Consumes (F.left files.old) (F.left files.new) (slice_range bytes.new from (from + n))) }
    ensures ended { IfOk result (λ n. n ≡ 0 → IsAtEnd (F.left files.new)) }
    ensures later { F.faults files.old ≤ F.faults files.new }
    ensures cause { IfErr result (λ _. Rose (F.faults files.old) (F.faults files.new)) }
{
    files.read(&mut bytes[from..to])
}

// Whether three bytes are a byte order mark.
fn is_byte_order_mark(first: u8, second: u8, third: u8) -> bool
    ensures { result ≡ is_bom first second third }
{
    first == 0xEF && second == 0xBB && third == 0xBF
}

// Whether a text begins with a byte order mark.
fn begins_with_mark(text: &[u8]) -> bool
    ensures mark { strip_bom text.now ≡ (if result then drop 3 text.now else text.now) }
    ensures room { IsTrue result → 3 ≤ length text.now }
{
    if text.len() < 3 {
        return false;
    }
    is_byte_order_mark(text[0], text[1], text[2])
}

impl Buffer {
    /// A buffer for a file that may have `limit` bytes.
    pub fn new_buffer(alloc: Global, limit: u64) -> Result<Buffer, AllocError>
        requires { limit < 2 ^ 63 }
        ensures { IfOk result (λ b. (b.at ≡ 0) × (b.filled ≡ 0) × (b.begun ≡ false) × (b.allowed ≡ limit + 1)) }
    {
        Ok(Buffer {
            buffer: zeroed(alloc, PIECE)?,
            at: 0,
            filled: 0,
            begun: false,
            allowed: limit + 1,
        })
    }

    // Makes room behind the bytes.
    fn make_room(&mut self) -> Result<(), AllocError>
        ensures carried { OnOk result (carried_in self.new ≡ carried_in self.old) }
        ensures begun { OnOk result (self.new.begun ≡ self.old.begun) }
        ensures allowed { OnOk result (self.new.allowed ≡ self.old.allowed) }
        ensures at { OnOk result (self.new.at ≡ 0) }
        ensures size { OnOk result (self.new.filled ≡ self.old.filled - self.old.at) }
        ensures room { OnOk result (self.new.filled < vec_len self.new.buffer) }
    {
        if self.at > 0 {
            move_to_front(self.buffer.as_mut_slice(), self.at, self.filled);
            self.filled -= self.at;
            self.at = 0;
        }
        if self.filled == self.buffer.len() {
            let more = self
                .buffer
                .len()
                .saturating_add(self.buffer.len())
                .saturating_add(PIECE);
            self.buffer.resize(more, 0)?;
        }
        Ok(())
    }

    // Reads once.
    fn read_more<F: Files>(&mut self, files: &mut F) -> Result<usize, FilesFailed>
        requires opened { F.is_open files.old ≡ true }
        requires room { self.old.filled < vec_len self.old.buffer }
        requires allowed { 0 < self.old.allowed }
        ensures holds { F.holds files.new ≡ F.holds files.old }
        ensures opened { F.is_open files.new ≡ true }
        ensures text { IfOk result (λ _. Same (told_text (position_of self.old) (F.left files.old)) (told_text (position_of self.new) (F.left files.new))) }
        ensures same { IfOk result (λ _. (self.new.begun ≡ self.old.begun) × (self.new.at ≡ self.old.at) × (vec_len self.new.buffer ≡ vec_len self.old.buffer)) }
        ensures filled { IfOk result (λ n. self.new.filled ≡ self.old.filled + n) }
        ensures allowed { IfOk result (λ n. self.new.allowed + n ≡ self.old.allowed) }
        ensures kept { IfOk result (λ n. n ≡ 0 → carried_in self.new ≡ carried_in self.old) }
        ensures ended { IfOk result (λ n. n ≡ 0 → IsAtEnd (F.left files.new)) }
        ensures later { F.faults files.old ≤ F.faults files.new }
        ensures cause { IfErr result (λ _. Rose (F.faults files.old) (F.faults files.new)) }
    {
        let room = (self.buffer.len() - self.filled) as u64;
        let most = room.min(self.allowed) as usize;
        let from = self.filled;
        let count = read_between(files, self.buffer.as_mut_slice(), from, from + most)?;
        self.filled += count;
        self.allowed -= count as u64;
        Ok(count)
    }
}

impl Buffer {
    /// Reads until the buffer is full, the file ends or no more bytes may be taken, and answers how many there were.
    #[inline(never)]
    pub fn fill<F: Files>(&mut self, files: &mut F) -> Result<usize, RecordFault>
        requires { F.is_open files.old ≡ true }
        ensures holds { F.holds files.new ≡ F.holds files.old }
        ensures opened { F.is_open files.new ≡ true }
        ensures text { OnOk result (Same (told_text (position_of self.old) (F.left files.old)) (told_text (position_of self.new) (F.left files.new))) }
        ensures begun { OnOk result (self.new.begun ≡ self.old.begun) }
        ensures count { IfOk result (λ n. self.new.filled - self.new.at ≡ n + (self.old.filled - self.old.at)) }
        ensures allowed { IfOk result (λ n. self.new.allowed + n ≡ self.old.allowed) }
        ensures kept { IfOk result (λ n. n ≡ 0 → carried_in self.new ≡ carried_in self.old) }
        ensures ended { IfOk result (λ n. n ≡ 0 → 0 < self.old.allowed → IsAtEnd (F.left files.new)) }
        ensures ready { OnOk result (IsLast self.new.allowed (F.left files.new) ⊎ (3 ≤ self.new.filled - self.new.at)) }
        ensures later { F.faults files.old ≤ F.faults files.new }
        ensures read { IsErrOf result fault.Read → Rose (F.faults files.old) (F.faults files.new) }
        ensures long { ¬ (IsErrOf result fault.FileTooLong) × ¬ (IsErrOf result fault.RecordTooLong) }
    {
        self.make_room()?;
        let before = self.filled;
        while self.filled < self.buffer.len() {
            if self.allowed == 0 {
                return Ok(self.filled - before);
            }
            if self.read_more(files)? == 0 {
                return Ok(self.filled - before);
            }
        }
        Ok(self.filled - before)
    }

    // Skips a byte order mark at the front.
    fn skip_mark(&mut self)
        ensures mark { carried_in self.new ≡ strip_bom (carried_in self.old) }
        ensures size { self.new.filled - self.new.at ≤ self.old.filled - self.old.at }
        ensures begun { self.new.begun ≡ true }
        ensures allowed { self.new.allowed ≡ self.old.allowed }
    {
        if begins_with_mark(&self.buffer[self.at..self.filled]) {
            self.at += 3;
            self.begun = true;
            return;
        }
        self.begun = true;
    }

    /// Skips a byte order mark at the start of the file.
    #[inline(always)]
    pub fn start<F: Files>(&mut self, files: &mut F) -> Result<(), RecordFault>
        requires { F.is_open files.old ≡ true }
        ensures holds { F.holds files.new ≡ F.holds files.old }
        ensures opened { F.is_open files.new ≡ true }
        ensures text { OnOk result (Same (told_text (position_of self.old) (F.left files.old)) (told_text (position_of self.new) (F.left files.new))) }
        ensures begun { OnOk result (self.new.begun ≡ true) }
        ensures total { OnOk result (self.new.allowed + (self.new.filled - self.new.at) ≤ self.old.allowed + (self.old.filled - self.old.at)) }
        ensures later { F.faults files.old ≤ F.faults files.new }
        ensures read { IsErrOf result fault.Read → Rose (F.faults files.old) (F.faults files.new) }
        ensures long { ¬ (IsErrOf result fault.FileTooLong) × ¬ (IsErrOf result fault.RecordTooLong) }
    {
        if self.begun {
            return Ok(());
        }
        self.fill(files)?;
        self.skip_mark();
        Ok(())
    }
}
