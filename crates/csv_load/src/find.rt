//! The next record of data.
ghost use Rattle.std.specs.Prelude.{◌≡◌, ◌≤◌, ◌<◌, ◌+◌, true, false, length, IfOk, IfErr, IsErrOf};
ghost use Rattle.ooc_io.specs.Counts.{Rose};
ghost use Rattle.csv_records.specs.Ahead.{Same, IsRecord};
ghost use Rattle.csv_load.specs.Formats.{reading_in};
ghost use Rattle.csv_load.specs.Ahead.{GivesNext, GivesEnd, GivesRefusal, outcome, told_from, told_behind};
ghost use Rattle.csv_load.specs.Ahead as spec;
ghost use Rattle.csv_load.specs.Rows.{refusal};
ghost use Rattle.csv_load.specs.declared.fault.RowFault.TheVariants as fault;

use crate::fault::{Reason, Refusal, RowFault};
use crate::field_reader::FieldReader;
use crate::format::Format;
use csv_records::RecordFault;
use ooc_io::Files;
use ooc_types::RefusalKind;

/// The refusal of a record with this number.
pub fn refusal(number: u64, why: Reason) -> Refusal
    ensures { result ≡ refusal number why }
{
    Refusal {
        number,
        column: why.column,
        kind: why.kind,
    }
}

// The fault of a record with this number that isn't found.
#[cold]
fn find_fault(number: u64, fault: RecordFault) -> RowFault
    ensures { result ≡ spec.find_fault number fault }
{
    let kind = match fault {
        RecordFault::FileTooLong => RefusalKind::FileTooLong,
        RecordFault::RecordTooLong => RefusalKind::RecordTooLong,
        RecordFault::Read => return RowFault::Read,
        RecordFault::OutOfMemory => return RowFault::OutOfMemory,
    };
    RowFault::Refused(Refusal {
        number,
        column: 0,
        kind,
    })
}

/// Finds the next record, which has this number. Answers false where there is none.
pub fn data_record<F: Files>(
    format: &Format,
    number: u64,
    records: &mut FieldReader,
    files: &mut F,
) -> Result<bool, RowFault>
    requires opened { F.is_open files.old ≡ true }
    requires delimiter { records.old.delimiter ≡ format.now.delimiter }
    ensures holds { F.holds files.new ≡ F.holds files.old }
    ensures opened { F.is_open files.new ≡ true }
    ensures delimiter { records.new.delimiter ≡ records.old.delimiter }
    ensures next { IfOk result (λ more. more ≡ true → GivesNext (told_from (reading_in format.now) number records.old.position (F.left files.old)) (outcome (reading_in format.now) number records.new.current) (told_from (reading_in format.now) (number + 1) records.new.position (F.left files.new))) }
    ensures found { IfOk result (λ more. more ≡ true → records.new.found ≡ true) }
    ensures is { IfOk result (λ more. more ≡ true → IsRecord records.new.delimiter records.new.current) }
    ensures less { IfOk result (λ more. more ≡ true → length records.new.position.carried + records.new.position.allowed < length records.old.position.carried + records.old.position.allowed) }
    ensures ended { IfOk result (λ more. more ≡ false → GivesEnd (told_from (reading_in format.now) number records.old.position (F.left files.old))) }
    ensures refused { IfErr result (λ e. GivesRefusal (told_from (reading_in format.now) number records.old.position (F.left files.old)) e) }
    ensures later { F.faults files.old ≤ F.faults files.new }
    ensures read { IsErrOf result fault.Read → Rose (F.faults files.old) (F.faults files.new) }
{
    match records.next_record(files) {
        Ok(more) => Ok(more),
        Err(fault) => Err(find_fault(number, fault)),
    }
}

/// Skips the header. Answers false where there is none.
pub fn skip_header<F: Files>(
    format: &Format,
    records: &mut FieldReader,
    files: &mut F,
) -> Result<bool, RowFault>
    requires opened { F.is_open files.old ≡ true }
    requires delimiter { records.old.delimiter ≡ format.now.delimiter }
    ensures holds { F.holds files.new ≡ F.holds files.old }
    ensures opened { F.is_open files.new ≡ true }
    ensures delimiter { records.new.delimiter ≡ records.old.delimiter }
    ensures passed { IfOk result (λ more. more ≡ true → Same (told_behind (reading_in format.now) records.old.position (F.left files.old)) (told_from (reading_in format.now) 1 records.new.position (F.left files.new))) }
    ensures less { IfOk result (λ more. more ≡ true → length records.new.position.carried + records.new.position.allowed < length records.old.position.carried + records.old.position.allowed) }
    ensures ended { IfOk result (λ more. more ≡ false → GivesEnd (told_behind (reading_in format.now) records.old.position (F.left files.old))) }
    ensures refused { IfErr result (λ e. GivesRefusal (told_behind (reading_in format.now) records.old.position (F.left files.old)) e) }
    ensures later { F.faults files.old ≤ F.faults files.new }
    ensures read { IsErrOf result fault.Read → Rose (F.faults files.old) (F.faults files.new) }
{
    match records.next_record(files) {
        Ok(more) => {
            if !more {
                return Ok(false);
            }
        }
        Err(fault) => return Err(find_fault(0, fault)),
    }
    match records.header_reason() {
        Some(why) => Err(RowFault::Refused(refusal(0, why))),
        None => Ok(true),
    }
}

/// Finds the first record behind the header. Answers false where there is none.
pub fn first_record<F: Files>(
    format: &Format,
    records: &mut FieldReader,
    files: &mut F,
) -> Result<bool, RowFault>
    requires opened { F.is_open files.old ≡ true }
    requires delimiter { records.old.delimiter ≡ format.now.delimiter }
    ensures holds { F.holds files.new ≡ F.holds files.old }
    ensures opened { F.is_open files.new ≡ true }
    ensures delimiter { records.new.delimiter ≡ records.old.delimiter }
    ensures next { IfOk result (λ more. more ≡ true → GivesNext (told_behind (reading_in format.now) records.old.position (F.left files.old)) (outcome (reading_in format.now) 1 records.new.current) (told_from (reading_in format.now) 2 records.new.position (F.left files.new))) }
    ensures found { IfOk result (λ more. more ≡ true → records.new.found ≡ true) }
    ensures is { IfOk result (λ more. more ≡ true → IsRecord records.new.delimiter records.new.current) }
    ensures less { IfOk result (λ more. more ≡ true → length records.new.position.carried + records.new.position.allowed + 2 ≤ length records.old.position.carried + records.old.position.allowed) }
    ensures ended { IfOk result (λ more. more ≡ false → GivesEnd (told_behind (reading_in format.now) records.old.position (F.left files.old))) }
    ensures refused { IfErr result (λ e. GivesRefusal (told_behind (reading_in format.now) records.old.position (F.left files.old)) e) }
    ensures later { F.faults files.old ≤ F.faults files.new }
    ensures read { IsErrOf result fault.Read → Rose (F.faults files.old) (F.faults files.new) }
{
    match skip_header(format, records, files) {
        Ok(more) => {
            if !more {
                return Ok(false);
            }
        }
        Err(fault) => return Err(fault),
    }
    match data_record(format, 1, records, files) {
        Ok(more) => Ok(more),
        Err(fault) => Err(fault),
    }
}
