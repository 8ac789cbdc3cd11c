//! A reader of records and of their fields.
ghost use Rattle.std.specs.Prelude.{◌≡◌, ◌≤◌, ◌<◌, ◌+◌, ◌^◌, true, false, [], length, map, IfOk, IfSome, IsErrOf};
ghost use Rattle.ooc_io.specs.Counts.{Rose};
ghost use Rattle.csv_records.specs.Table.{IsDelimiter};
ghost use Rattle.csv_records.specs.Ahead.{SplitsOff, FirstIsLong, IsRecord, no_records, told_records, start_within};
ghost use Rattle.csv_records.specs.declared.fault.RecordFault.TheVariants as fault;
ghost use Rattle.csv_load.specs.Rows.{row_of, record_reason};
ghost use Rattle.csv_load.specs.Formats.{reading_in};
ghost use Rattle.csv_load.specs.FieldReads.{ReadsAll, value_in};

use crate::fault::Reason;
use crate::field_read::FieldRead;
use crate::format::Format;
use crate::plain::{read_plain, reason};
use crate::quoted::read_list;
use csv_records::{Fields, RecordFault, RecordReader};
use ooc_io::Files;
use ooc_types::RefusalKind;
use std::alloc::{AllocError, Global};
use std::marker::Model;

/// Where the fields of the record that was found last are.
#[derive(Clone, Copy, Debug, PartialEq, Eq)]
pub enum Split {
    /// No record was found, or its fields couldn't be kept.
    Missing,
    /// Between the delimiters of its bytes.
    Plain,
    /// Apart, without their quotes.
    Apart,
}

/// A reader of records and of their fields. Contracts see its place in the file and the record that it found last.
#[derive(Drop)]
pub struct FieldReader {
    records: RecordReader,
    split: Split,
    fields: Fields,
}

impl Model for FieldReader {
    ghost use Rattle.csv_load.specs.FieldReaders.{FieldPlace, field_place, IsFieldReader};

    ghost Value = { FieldPlace };

    ghost view = { field_place };

    ghost invariant = { IsFieldReader };
}

impl FieldReader {
    /// A reader of a file that may have `limit` bytes, and of which no byte was taken.
    pub fn new_reader(alloc: Global, delimiter: u8, limit: u64) -> Result<FieldReader, AllocError>
        requires delimiter { IsDelimiter delimiter }
        requires limit { limit < 2 ^ 63 }
        ensures { IfOk result (λ r. r ≡ record { delimiter = delimiter; position = start_within limit; current = []; found = false }) }
    {
        Ok(FieldReader {
            records: RecordReader::new_reader(alloc, delimiter, limit)?,
            split: Split::Missing,
            fields: Fields::new_fields(alloc),
        })
    }

    /// Finds the next record of the open file, from which this reader took all bytes that were taken. Answers false at
    /// its end.
    pub fn next_record<F: Files>(&mut self, files: &mut F) -> Result<bool, RecordFault>
        requires { F.is_open files.old ≡ true }
        ensures holds { F.holds files.new ≡ F.holds files.old }
        ensures opened { F.is_open files.new ≡ true }
        ensures delimiter { self.new.delimiter ≡ self.old.delimiter }
        ensures next { IfOk result (λ more. more ≡ true → SplitsOff (told_records self.old.delimiter self.old.position (F.left files.old)) self.new.current (told_records self.old.delimiter self.new.position (F.left files.new))) }
        ensures found { IfOk result (λ more. more ≡ true → self.new.found ≡ true) }
        ensures is { IfOk result (λ more. more ≡ true → IsRecord self.new.delimiter self.new.current) }
        ensures less { IfOk result (λ more. more ≡ true → length self.new.position.carried + self.new.position.allowed < length self.old.position.carried + self.old.position.allowed) }
        ensures ended { IfOk result (λ more. more ≡ false → IfSome (told_records self.old.delimiter self.old.position (F.left files.old)) (λ all. all ≡ no_records false)) }
        ensures file { IsErrOf result fault.FileTooLong → IfSome (told_records self.old.delimiter self.old.position (F.left files.old)) (λ all. all ≡ no_records true) }
        ensures record { IsErrOf result fault.RecordTooLong → IfSome (told_records self.old.delimiter self.old.position (F.left files.old)) FirstIsLong }
        ensures later { F.faults files.old ≤ F.faults files.new }
        ensures read { IsErrOf result fault.Read → Rose (F.faults files.old) (F.faults files.new) }
    {
        self.split = Split::Missing;
        match self.records.next_record(files) {
            Ok(more) => {
                if !more {
                    return Ok(false);
                }
            }
            Err(fault) => return Err(fault),
        }
        if !self.records.has_quotes() {
            self.split = Split::Plain;
            return Ok(true);
        }
        if self
            .fields
            .read(self.records.delimiter(), self.records.bytes())
            .is_err()
        {
            return Err(RecordFault::OutOfMemory);
        }
        self.split = Split::Apart;
        Ok(true)
    }

    /// Reads the values of the record that was found last.
    #[inline(always)]
    pub fn read_row<'a>(&'a self, format: &Format, into: &mut [FieldRead<'a>]) -> Result<(), Reason>
        requires found { self.now.found ≡ true }
        requires delimiter { self.now.delimiter ≡ format.now.delimiter }
        requires size { length into.old ≡ length format.now.columns }
        ensures { ReadsAll (row_of (reading_in format.now) self.now.current) result (map value_in into.new) }
    {
        match self.split {
            Split::Plain => read_plain(format, self.records.bytes(), into),
            Split::Apart => {
                if self.records.is_open() {
                    return Err(reason(self.fields.len() as u32, RefusalKind::OpenQuote));
                }
                read_list(format, &self.fields, into)
            }
            Split::Missing => unreachable!(),
        }
    }

    /// Why the record that was found last is refused where it is the header.
    pub fn header_reason(&self) -> Option<Reason>
        requires found { self.now.found ≡ true }
        ensures { result ≡ record_reason self.now.delimiter self.now.current }
    {
        match self.split {
            Split::Plain => None,
            Split::Apart => {
                if self.records.is_open() {
                    return Some(reason(self.fields.len() as u32, RefusalKind::OpenQuote));
                }
                None
            }
            Split::Missing => unreachable!(),
        }
    }
}
