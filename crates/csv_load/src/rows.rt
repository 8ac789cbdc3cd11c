//! The rows of a file.
ghost use Rattle.std.specs.Prelude.{◌≡◌, ◌≢◌, ◌≤◌, ◌<◌, ◌+◌, ◌^◌, true, false, if◌then◌else◌, [], length, map, IfOk, IfErr, IsErrOf};
ghost use Rattle.ooc_io.specs.Counts.{Rose};
ghost use Rattle.row_image.specs.Bytes.{IsPage};
ghost use Rattle.row_image.specs.Rules.{text_limit as limit_of};
ghost use Rattle.csv_records.specs.Limits.{file_limit};
ghost use Rattle.csv_records.specs.Table.{IsDelimiter};
ghost use Rattle.csv_records.specs.Ahead.{start_within, IsRecord};
ghost use Rattle.csv_load.specs.Values.{are_typed};
ghost use Rattle.csv_load.specs.Rows.{reading_of};
ghost use Rattle.csv_load.specs.FieldReads.{ReadsAll, value_in};
ghost use Rattle.csv_load.specs.Ahead.{GivesNext, GivesRow, GivesEnd, GivesRefusal, PutsRow, IsRowOf, outcome_of, bytes_ahead, told_rows};
ghost use Rattle.csv_load.specs.declared.fault.RowFault.TheVariants as fault;
ghost use Rattle.csv_load.specs.declared.stage.Stage.TheVariants.{Header, Rows, Failed};

use crate::fault::{Refusal, RowFault};
use crate::field_read::FieldRead;
use crate::field_reader::FieldReader;
use crate::find::{data_record, first_record, refusal};
use crate::format::Format;
use crate::options::CsvOptions;
use crate::stage::Stage;
use crate::store::{fit_values, put_values};
use csv_records::FILE_LIMIT;
use ooc_io::Files;
use ooc_types::{OutOfMemory, Row, Schema, Value};
use row_image::text_limit;
use std::alloc::Global;
use std::marker::Model;
use std::mem::replace;

/// Rows of at most so many columns are read by way of a short list of values.
const FEW_COLUMNS: usize = 8;

/// The rows of a file, one after the other. Contracts see how they are made of records, the place in the file, and the
/// record that was found last.
#[derive(Drop)]
pub struct CsvRows {
    format: Format,
    stage: Stage,
    // The number of the record of data that was found last, and 0 where none was.
    number: u64,
    records: FieldReader,
}

impl Model for CsvRows {
    ghost use Rattle.csv_load.specs.Ahead.{RowReader};

    ghost Value = { RowReader };

    ghost use Rattle.csv_load.specs.RowReaders.{row_reader, IsRowReader};

    ghost view = { row_reader };

    ghost invariant = { IsRowReader };
}

impl CsvRows {
    /// The rows of a file of which no byte was taken. The page tells how long a text may be.
    pub fn new_rows(
        alloc: Global,
        schema: &Schema,
        options: &CsvOptions,
        page: u32,
    ) -> Result<CsvRows, OutOfMemory>
        requires page { IsPage page }
        requires delimiter { IsDelimiter options.now.delimiter }
        requires few { length schema.now ≤ 64 }
        requires typed { are_typed schema.now ≡ true }
        ensures { IfOk result (λ r. r ≡ record { reading = reading_of schema.now options.now (limit_of page); stage = if options.now.header then Header else Rows; number = 0; position = start_within file_limit; current = []; found = false }) }
    {
        CsvRows::new_rows_within(
            alloc,
            schema,
            options,
            text_limit(page as usize) as usize,
            FILE_LIMIT,
        )
    }

    /// The same of a file that may have `most` bytes, with texts of at most `limit` bytes.
    pub fn new_rows_within(
        alloc: Global,
        schema: &Schema,
        options: &CsvOptions,
        limit: usize,
        most: u64,
    ) -> Result<CsvRows, OutOfMemory>
        requires most { most < 2 ^ 63 }
        requires delimiter { IsDelimiter options.now.delimiter }
        requires few { length schema.now ≤ 64 }
        requires typed { are_typed schema.now ≡ true }
        ensures { IfOk result (λ r. r ≡ record { reading = reading_of schema.now options.now limit; stage = if options.now.header then Header else Rows; number = 0; position = start_within most; current = []; found = false }) }
    {
        let records = FieldReader::new_reader(alloc, options.delimiter, most)?;
        let stage = first_stage(options.header);
        Ok(CsvRows {
            format: Format {
                alloc,
                columns: schema.clone()?,
                delimiter: options.delimiter,
                null: options.null.clone()?,
                limit,
            },
            stage,
            number: 0,
            records,
        })
    }

    /// Finds the next record of data of the open file. All bytes that were taken of the file since it was opened were
    /// taken by this value. Answers false exactly at the end of the rows. After an `Err` it isn't asked again.
    pub fn next_record<F: Files>(&mut self, files: &mut F) -> Result<bool, RowFault>
        requires opened { F.is_open files.old ≡ true }
        requires goes_on { self.old.stage ≢ Failed }
        ensures holds { F.holds files.new ≡ F.holds files.old }
        ensures opened { F.is_open files.new ≡ true }
        ensures reading { self.new.reading ≡ self.old.reading }
        ensures goes_on { IfOk result (λ _. self.new.stage ≢ Failed) }
        ensures next { IfOk result (λ more. more ≡ true → GivesNext (told_rows self.old (F.left files.old)) (outcome_of self.new) (told_rows self.new (F.left files.new))) }
        ensures found { IfOk result (λ more. more ≡ true → self.new.found ≡ true) }
        ensures record { IfOk result (λ more. more ≡ true → IsRecord self.new.reading.delimiter self.new.current) }
        ensures less { IfOk result (λ more. more ≡ true → bytes_ahead self.new < bytes_ahead self.old) }
        ensures ended { IfOk result (λ more. more ≡ false → GivesEnd (told_rows self.old (F.left files.old))) }
        ensures refused { IfErr result (λ e. GivesRefusal (told_rows self.old (F.left files.old)) e) }
        ensures later { F.faults files.old ≤ F.faults files.new }
        ensures read { IsErrOf result fault.Read → Rose (F.faults files.old) (F.faults files.new) }
    {
        match self.stage {
            Stage::End => Ok(false),
            Stage::Header => self.first_record(files),
            Stage::Rows => self.later_record(files),
            Stage::Failed => unreachable!(),
        }
    }

    // The same where the header comes next.
    fn first_record<F: Files>(&mut self, files: &mut F) -> Result<bool, RowFault>
        requires opened { F.is_open files.old ≡ true }
        requires goes_on { self.old.stage ≡ Header }
        ensures holds { F.holds files.new ≡ F.holds files.old }
        ensures opened { F.is_open files.new ≡ true }
        ensures reading { self.new.reading ≡ self.old.reading }
        ensures goes_on { IfOk result (λ _. self.new.stage ≢ Failed) }
        ensures next { IfOk result (λ more. more ≡ true → GivesNext (told_rows self.old (F.left files.old)) (outcome_of self.new) (told_rows self.new (F.left files.new))) }
        ensures found { IfOk result (λ more. more ≡ true → self.new.found ≡ true) }
        ensures record { IfOk result (λ more. more ≡ true → IsRecord self.new.reading.delimiter self.new.current) }
        ensures less { IfOk result (λ more. more ≡ true → bytes_ahead self.new < bytes_ahead self.old) }
        ensures ended { IfOk result (λ more. more ≡ false → GivesEnd (told_rows self.old (F.left files.old))) }
        ensures refused { IfErr result (λ e. GivesRefusal (told_rows self.old (F.left files.old)) e) }
        ensures later { F.faults files.old ≤ F.faults files.new }
        ensures read { IsErrOf result fault.Read → Rose (F.faults files.old) (F.faults files.new) }
    {
        self.stage = Stage::Failed;
        match first_record(&self.format, &mut self.records, files) {
            Ok(more) => {
                if !more {
                    self.stage = Stage::End;
                    return Ok(false);
                }
                self.number = 1;
                self.stage = Stage::Rows;
                Ok(true)
            }
            Err(fault) => Err(fault),
        }
    }

    // The same behind the header.
    fn later_record<F: Files>(&mut self, files: &mut F) -> Result<bool, RowFault>
        requires opened { F.is_open files.old ≡ true }
        requires goes_on { self.old.stage ≡ Rows }
        ensures holds { F.holds files.new ≡ F.holds files.old }
        ensures opened { F.is_open files.new ≡ true }
        ensures reading { self.new.reading ≡ self.old.reading }
        ensures goes_on { IfOk result (λ _. self.new.stage ≢ Failed) }
        ensures next { IfOk result (λ more. more ≡ true → GivesNext (told_rows self.old (F.left files.old)) (outcome_of self.new) (told_rows self.new (F.left files.new))) }
        ensures found { IfOk result (λ more. more ≡ true → self.new.found ≡ true) }
        ensures record { IfOk result (λ more. more ≡ true → IsRecord self.new.reading.delimiter self.new.current) }
        ensures less { IfOk result (λ more. more ≡ true → bytes_ahead self.new < bytes_ahead self.old) }
        ensures ended { IfOk result (λ more. more ≡ false → GivesEnd (told_rows self.old (F.left files.old))) }
        ensures refused { IfErr result (λ e. GivesRefusal (told_rows self.old (F.left files.old)) e) }
        ensures later { F.faults files.old ≤ F.faults files.new }
        ensures read { IsErrOf result fault.Read → Rose (F.faults files.old) (F.faults files.new) }
    {
        self.stage = Stage::Failed;
        match data_record(&self.format, self.number + 1, &mut self.records, files) {
            Ok(more) => {
                if !more {
                    self.stage = Stage::End;
                    return Ok(false);
                }
                self.number += 1;
                self.stage = Stage::Rows;
                Ok(true)
            }
            Err(fault) => Err(fault),
        }
    }

    /// Reads the values of the record that was found last, which takes no memory. After an `Err` the list holds any
    /// values.
    #[inline(always)]
    pub fn read_row<'a>(&'a self, into: &mut [FieldRead<'a>]) -> Result<(), Refusal>
        requires found { self.now.found ≡ true }
        requires size { length into.old ≡ length self.now.reading.columns }
        ensures { ReadsAll (outcome_of self.now) result (map value_in into.new) }
    {
        match self.records.read_row(&self.format, into) {
            Ok(()) => Ok(()),
            Err(why) => Err(refusal(self.number, why)),
        }
    }

    /// How many columns there are.
    pub fn columns(&self) -> usize
        ensures { result ≡ length self.now.reading.columns }
    {
        self.format.columns.as_slice().len()
    }

    /// Puts the next row of the open file in place of another. All bytes that were taken of the file since it was
    /// opened were taken by this value. Answers false exactly at the end of the rows. After an `Err` it isn't asked
    /// again, and the row holds any values.
    pub fn next_row<F: Files>(&mut self, files: &mut F, into: &mut Row) -> Result<bool, RowFault>
        requires opened { F.is_open files.old ≡ true }
        requires goes_on { self.old.stage ≢ Failed }
        ensures holds { F.holds files.new ≡ F.holds files.old }
        ensures opened { F.is_open files.new ≡ true }
        ensures reading { self.new.reading ≡ self.old.reading }
        ensures goes_on { IfOk result (λ _. self.new.stage ≢ Failed) }
        ensures row { IfOk result (λ more. more ≡ true → GivesRow (told_rows self.old (F.left files.old)) into.new (told_rows self.new (F.left files.new))) }
        ensures made { IfOk result (λ more. more ≡ true → IsRowOf self.old.reading into.new) }
        ensures less { IfOk result (λ more. more ≡ true → bytes_ahead self.new < bytes_ahead self.old) }
        ensures ended { IfOk result (λ more. more ≡ false → GivesEnd (told_rows self.old (F.left files.old))) }
        ensures refused { IfErr result (λ e. GivesRefusal (told_rows self.old (F.left files.old)) e) }
        ensures later { F.faults files.old ≤ F.faults files.new }
        ensures read { IsErrOf result fault.Read → Rose (F.faults files.old) (F.faults files.new) }
    {
        match self.next_record(files) {
            Ok(more) => {
                if !more {
                    return Ok(false);
                }
            }
            Err(fault) => return Err(fault),
        }
        match self.put_row(into) {
            Ok(()) => Ok(true),
            Err(fault) => {
                self.stage = Stage::Failed;
                Err(fault)
            }
        }
    }

    // Puts the row of the record that was found last in place of another.
    fn put_row(&self, into: &mut Row) -> Result<(), RowFault>
        requires found { self.now.found ≡ true }
        ensures { PutsRow (outcome_of self.now) result into.new }
    {
        let mut values = replace(into, Row::new_row(self.format.alloc)).into_vec();
        let columns = self.format.columns.as_slice().len();
        if fit_values(&mut values, columns).is_err() {
            return Err(RowFault::OutOfMemory);
        }
        let put = if columns <= FEW_COLUMNS {
            self.put_few(values.as_mut_slice())
        } else {
            self.put_many(values.as_mut_slice())
        };
        *into = Row::from_vec(values);
        put
    }

    fn put_few(&self, values: &mut [Value]) -> Result<(), RowFault>
        requires found { self.now.found ≡ true }
        requires size { length values.old ≡ length self.now.reading.columns }
        requires few { length values.old ≤ 8 }
        ensures { PutsRow (outcome_of self.now) result values.new }
    {
        let mut fields = [FieldRead::Null; 8];
        self.put_read(&mut fields[..values.len()], values)
    }

    fn put_many(&self, values: &mut [Value]) -> Result<(), RowFault>
        requires found { self.now.found ≡ true }
        requires size { length values.old ≡ length self.now.reading.columns }
        requires few { length values.old ≤ 64 }
        ensures { PutsRow (outcome_of self.now) result values.new }
    {
        let mut fields = [FieldRead::Null; 64];
        self.put_read(&mut fields[..values.len()], values)
    }

    // Puts the values by way of a list of those that are read.
    fn put_read<'a>(
        &'a self,
        fields: &mut [FieldRead<'a>],
        values: &mut [Value],
    ) -> Result<(), RowFault>
        requires found { self.now.found ≡ true }
        requires size { length values.old ≡ length self.now.reading.columns }
        requires room { length fields.old ≡ length values.old }
        ensures { PutsRow (outcome_of self.now) result values.new }
    {
        match self.read_row(fields) {
            Ok(()) => {}
            Err(why) => return Err(RowFault::Refused(why)),
        }
        if put_values(self.format.alloc, fields, values).is_err() {
            return Err(RowFault::OutOfMemory);
        }
        Ok(())
    }
}

// Where the reading of a file begins.
fn first_stage(header: bool) -> Stage
    ensures { result ≡ (if header then Header else Rows) }
{
    if header { Stage::Header } else { Stage::Rows }
}
