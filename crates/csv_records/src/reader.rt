//! A reader of records.
ghost use Rattle.std.specs.Prelude.{◌≡◌, ◌≤◌, ◌<◌, ◌+◌, ◌^◌, true, false, [], length, IfOk, IfSome, IsErrOf};
ghost use Rattle.std.specs.List.{list_any};
ghost use Rattle.ooc_io.specs.Counts.{Rose};
ghost use Rattle.csv_records.specs.Table.{is_special, ends_quoted, IsDelimiter};
ghost use Rattle.csv_records.specs.Ahead.{SplitsOff, FirstIsLong, IsRecord, no_records, told_records, start_within};
ghost use Rattle.csv_records.specs.declared.fault.RecordFault.TheVariants as fault;

use crate::buffer::Buffer;
use crate::fault::RecordFault;
use crate::find::Found;
use ooc_io::Files;
use std::alloc::{AllocError, Global};
use std::marker::Model;

/// A reader of a file's records. Contracts see its place in the file and the record that it found last.
#[derive(Drop)]
pub struct RecordReader {
    delimiter: u8,
    buffer: Buffer,
    found: Found,
}

impl Model for RecordReader {
    ghost use Rattle.csv_records.specs.Reader.{Reader, reader_of, IsReader};

    ghost Value = { Reader };

    ghost view = { reader_of };

    ghost invariant = { IsReader };
}

impl RecordReader {
    /// A reader of a file that may have `limit` bytes, and of which no byte was taken.
    pub fn new_reader(alloc: Global, delimiter: u8, limit: u64) -> Result<RecordReader, AllocError>
        requires delimiter { IsDelimiter delimiter }
        requires limit { limit < 2 ^ 63 }
        ensures { IfOk result (λ r. r ≡ record { delimiter = delimiter; position = start_within limit; current = [] }) }
    {
        Ok(RecordReader {
            delimiter,
            buffer: Buffer::new_buffer(alloc, limit)?,
            found: Found {
                from: 0,
                to: 0,
                quotes: false,
                is_open: false,
            },
        })
    }

    /// Finds the next record of the open file, from which this reader took all bytes that were taken. Answers false at
    /// its end. After an `Err` it isn't asked again.
    pub fn next_record<F: Files>(&mut self, files: &mut F) -> Result<bool, RecordFault>
        requires { F.is_open files.old ≡ true }
        ensures holds { F.holds files.new ≡ F.holds files.old }
        ensures opened { F.is_open files.new ≡ true }
        ensures delimiter { self.new.delimiter ≡ self.old.delimiter }
        ensures next { IfOk result (λ more. more ≡ true → SplitsOff (told_records self.old.delimiter self.old.position (F.left files.old)) self.new.current (told_records self.old.delimiter self.new.position (F.left files.new))) }
        ensures found { IfOk result (λ more. more ≡ true → IsRecord self.new.delimiter self.new.current) }
        ensures less { IfOk result (λ more. more ≡ true → length self.new.position.carried + self.new.position.allowed < length self.old.position.carried + self.old.position.allowed) }
        ensures ended { IfOk result (λ more. more ≡ false → IfSome (told_records self.old.delimiter self.old.position (F.left files.old)) (λ all. all ≡ no_records false)) }
        ensures file { IsErrOf result fault.FileTooLong → IfSome (told_records self.old.delimiter self.old.position (F.left files.old)) (λ all. all ≡ no_records true) }
        ensures record { IsErrOf result fault.RecordTooLong → IfSome (told_records self.old.delimiter self.old.position (F.left files.old)) FirstIsLong }
        ensures later { F.faults files.old ≤ F.faults files.new }
        ensures read { IsErrOf result fault.Read → Rose (F.faults files.old) (F.faults files.new) }
    {
        self.found = Found {
            from: 0,
            to: 0,
            quotes: false,
            is_open: false,
        };
        match self.buffer.next_record(self.delimiter, files)? {
            Some(found) => {
                self.found = found;
                Ok(true)
            }
            None => Ok(false),
        }
    }

    /// The bytes of the record that was found last.
    #[inline(always)]
    pub fn bytes(&self) -> &[u8]
        ensures { result.now ≡ self.now.current }
    {
        &self.buffer.buffer[self.found.from..self.found.to]
    }

    /// The byte between fields.
    pub fn delimiter(&self) -> u8
        ensures is { result ≡ self.now.delimiter }
        ensures marks { IsDelimiter result }
    {
        self.delimiter
    }

    /// Whether that record may have a double quote.
    pub fn has_quotes(&self) -> bool
        ensures { result ≡ false → list_any is_special self.now.current ≡ false }
    {
        self.found.quotes
    }

    /// Whether that record ends inside of quotes.
    pub fn is_open(&self) -> bool
        ensures { result ≡ ends_quoted self.now.delimiter self.now.current }
    {
        self.found.is_open
    }
}
