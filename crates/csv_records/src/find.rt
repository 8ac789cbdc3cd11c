//! Finding the next record in a buffer.
ghost use Rattle.std.specs.Prelude.{◌≡◌, ◌≤◌, ◌<◌, ◌+◌, ◌-◌, true, false, Some, None, [], length, vec_len, slice_range, option_map, IfOk, IfSome, IsSome, OnOk, IsErrOf};
ghost use Rattle.std.specs.List.{list_any};
ghost use Rattle.ooc_io.specs.Counts.{Rose};
ghost use Rattle.csv_records.specs.Limits.{record_limit};
ghost use Rattle.csv_records.specs.Table.{is_special, ends_quoted, state_after, IsDelimiter};
ghost use Rattle.csv_records.specs.declared.mark.Mark.TheVariants.{FieldStart};
ghost use Rattle.csv_records.specs.Ahead.{Same, SplitsOff, FirstIsLong, IsRecord, no_records, told_records};
ghost use Rattle.csv_records.specs.Buffer.{carried_in, position_of};
ghost use Rattle.csv_records.specs.Found.{IsFound};
ghost use Rattle.csv_records.specs.declared.fault.RecordFault.TheVariants as fault;

use crate::buffer::Buffer;
use crate::fault::RecordFault;
use crate::mark::Mark;
use crate::stop::{Stop, first_stop, table_stop};
use ooc_io::Files;

/// How many bytes a record may have.
const RECORD_LIMIT: usize = 1_048_576;

/// A record that lies in a buffer.
#[derive(Clone, Copy, Debug, PartialEq, Eq)]
pub struct Found {
    pub from: usize,
    pub to: usize,
    /// Whether it may have a double quote.
    pub quotes: bool,
    /// Whether it ends inside of quotes.
    pub is_open: bool,
}

impl Buffer {
    // Leaves the bytes up to a stop behind, and the byte there, which ends a record.
    fn leave(&mut self, stop: Stop) -> Found
        requires low { self.old.at ≤ stop.place }
        requires high { stop.place < self.old.filled }
        ensures begun { self.new.begun ≡ self.old.begun }
        ensures carried { carried_in self.new ≡ slice_range self.old.buffer.items (stop.place + 1) self.old.filled }
        ensures allowed { self.new.allowed ≡ self.old.allowed }
        ensures size { self.new.filled - self.new.at < self.old.filled - self.old.at }
        ensures bytes { slice_range self.new.buffer.items result.from result.to ≡ slice_range self.old.buffer.items self.old.at stop.place }
        ensures within { (result.from ≤ result.to) × (result.to ≤ vec_len self.new.buffer) }
        ensures long { result.to - result.from ≡ stop.place - self.old.at }
        ensures quotes { result.quotes ≡ stop.quotes }
        ensures is_open { result.is_open ≡ stop.is_open }
    {
        let from = self.at;
        self.at = stop.place + 1;
        Found {
            from,
            to: stop.place,
            quotes: stop.quotes,
            is_open: stop.is_open,
        }
    }

    // Leaves all bytes behind.
    fn leave_all(&mut self)
        ensures begun { self.new.begun ≡ self.old.begun }
        ensures carried { carried_in self.new ≡ [] }
        ensures allowed { self.new.allowed ≡ self.old.allowed }
    {
        self.at = self.filled;
    }

    // Leaves all bytes behind: the record at the end of the file, which stops as it did when it was looked for.
    fn leave_last(&mut self, stop: Stop) -> Found
        ensures begun { self.new.begun ≡ self.old.begun }
        ensures carried { carried_in self.new ≡ [] }
        ensures allowed { self.new.allowed ≡ self.old.allowed }
        ensures size { self.new.filled - self.new.at ≡ 0 }
        ensures bytes { slice_range self.new.buffer.items result.from result.to ≡ carried_in self.old }
        ensures within { (result.from ≤ result.to) × (result.to ≤ vec_len self.new.buffer) }
        ensures long { result.to - result.from ≡ self.old.filled - self.old.at }
        ensures quotes { result.quotes ≡ stop.quotes }
        ensures is_open { result.is_open ≡ stop.is_open }
    {
        let from = self.at;
        let to = self.filled;
        self.at = to;
        Found {
            from,
            to,
            quotes: stop.quotes,
            is_open: stop.is_open,
        }
    }

    // Why a record is refused that has more bytes than a record may have, and no end yet: it has the first byte beyond
    // the most bytes of a file, or it is too long.
    #[cold]
    #[inline(never)]
    fn long_fault<F: Files>(&mut self, delimiter: u8, files: &mut F) -> RecordFault
        requires opened { F.is_open files.old ≡ true }
        requires begun { self.old.begun ≡ true }
        requires long { record_limit < length (carried_in self.old) }
        requires runs { IsSome (state_after delimiter FieldStart (carried_in self.old)) }
        ensures holds { F.holds files.new ≡ F.holds files.old }
        ensures opened { F.is_open files.new ≡ true }
        ensures file { result ≡ fault.FileTooLong → IfSome (told_records delimiter (position_of self.old) (F.left files.old)) (λ all. all ≡ no_records true) }
        ensures record { result ≡ fault.RecordTooLong → IfSome (told_records delimiter (position_of self.old) (F.left files.old)) FirstIsLong }
        ensures later { F.faults files.old ≤ F.faults files.new }
        ensures read { result ≡ fault.Read → Rose (F.faults files.old) (F.faults files.new) }
    {
        let (_, mut mark) = table_stop(
            delimiter,
            Mark::FieldStart,
            &self.buffer[..self.filled],
            self.at,
        );
        while self.allowed > 0 {
            self.leave_all();
            let count = match self.fill(files) {
                Ok(count) => count,
                Err(fault) => return fault,
            };
            if count == 0 {
                return RecordFault::RecordTooLong;
            }
            let (place, next) = table_stop(delimiter, mark, &self.buffer[..self.filled], self.at);
            if place < self.filled {
                return RecordFault::RecordTooLong;
            }
            mark = next;
        }
        RecordFault::FileTooLong
    }
}

impl Buffer {
    /// The next record of the open file.
    pub fn next_record<F: Files>(
        &mut self,
        delimiter: u8,
        files: &mut F,
    ) -> Result<Option<Found>, RecordFault>
        requires opened { F.is_open files.old ≡ true }
        requires delimiter { IsDelimiter delimiter }
        ensures holds { F.holds files.new ≡ F.holds files.old }
        ensures opened { F.is_open files.new ≡ true }
        ensures next { IfOk result (λ o. IfSome o (λ f. SplitsOff (told_records delimiter (position_of self.old) (F.left files.old)) (slice_range self.new.buffer.items f.from f.to) (told_records delimiter (position_of self.new) (F.left files.new)))) }
        ensures within { IfOk result (λ o. IfSome o (λ f. (f.from < f.to) × (f.to ≤ vec_len self.new.buffer))) }
        ensures found { IfOk result (λ o. IfSome o (λ f. IsFound delimiter (slice_range self.new.buffer.items f.from f.to) f.quotes f.is_open)) }
        ensures less { IfOk result (λ o. IfSome o (λ _. self.new.allowed + (self.new.filled - self.new.at) < self.old.allowed + (self.old.filled - self.old.at))) }
        ensures ended { IfOk result (λ o. o ≡ None → IfSome (told_records delimiter (position_of self.old) (F.left files.old)) (λ all. all ≡ no_records false)) }
        ensures file { IsErrOf result fault.FileTooLong → IfSome (told_records delimiter (position_of self.old) (F.left files.old)) (λ all. all ≡ no_records true) }
        ensures record { IsErrOf result fault.RecordTooLong → IfSome (told_records delimiter (position_of self.old) (F.left files.old)) FirstIsLong }
        ensures later { F.faults files.old ≤ F.faults files.new }
        ensures read { IsErrOf result fault.Read → Rose (F.faults files.old) (F.faults files.new) }
    {
        self.start(files)?;
        'look: loop {
            let stop = first_stop(delimiter, &self.buffer[..self.filled], self.at);
            if stop.place < self.filled {
                let found = self.leave(stop);
                if found.to - found.from > RECORD_LIMIT {
                    return Err(RecordFault::RecordTooLong);
                }
                if found.from < found.to {
                    return Ok(Some(found));
                }
                continue;
            }
            if self.allowed == 0 {
                return Err(RecordFault::FileTooLong);
            }
            if self.filled - self.at > RECORD_LIMIT {
                return Err(self.long_fault(delimiter, files));
            }
            if self.fill(files)? == 0 {
                let found = self.leave_last(stop);
                if found.from < found.to {
                    return Ok(Some(found));
                }
                return Ok(None);
            }
        }
    }
}
