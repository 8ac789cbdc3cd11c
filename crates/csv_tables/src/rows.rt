//! The rows of an open file behind those of a writer.
ghost use Rattle.std.specs.Prelude.{◌≡◌, ◌≢◌, ◌+◌, ◌≤◌, ◌<◌, true, false, IfOk, IfErr, OnOk, length};
ghost use Rattle.row_image.specs.Rules.{text_limit};
ghost use Rattle.row_sets.specs.Changes.{Changes};
ghost use Rattle.row_sets.specs.Closing.{SameColumns};
ghost use Rattle.row_sets.specs.Writers.{HasFrames, Writing, IsWriterHere, written_cells, writer_holding};
ghost use Rattle.csv_load.specs.declared.stage.Stage.TheVariants.{Failed};
ghost use Rattle.csv_load.specs.Values.{are_typed};
ghost use Rattle.csv_load.specs.Ahead.{GivesEnd, bytes_ahead, outcome_of, told_rows};
ghost use Rattle.csv_tables.specs.Adds.{PutsNext, IsRefused, AddsRow, AddsAll};
ghost use Rattle.csv_tables.specs.Faults.{HasLoadCause, HasRoomCause};
ghost use Rattle.csv_tables.specs.Stored.{kinds_of};

use crate::cells::fill_cells;
use crate::fault::{LoadFault, pool_fault, row_fault};
use csv_load::{CsvRows, FieldRead};
use ooc_io::Files;
use page_body::Pages;
use rebase_pins::CellRead;
use row_sets::{Writer, append};

/// Rows of at most so many columns are added by way of short lists.
const FEW_COLUMNS: usize = 8;

/// Adds the rows of the open file at the end. After a fault some of them may have been added.
pub fn append_rows<F: Files, P: Pages>(
    rows: &mut CsvRows,
    files: &mut F,
    writer: &mut Writer<P::Page>,
    pages: &mut P,
) -> Result<(), LoadFault>
    requires opened { F.is_open files.old ≡ true }
    requires goes_on { rows.old.stage ≢ Failed }
    requires typed { are_typed rows.old.reading.columns ≡ true }
    requires kinds { writer.old.kinds ≡ kinds_of rows.old.reading.columns }
    requires limit { rows.old.reading.limit ≡ text_limit writer.old.page_bytes }
    requires writing { Writing P.terms writer.old }
    requires here { IsWriterHere P.terms (P.view pages.old) writer.old }
    requires frames { HasFrames P.terms (P.view pages.old) writer.old }
    ensures rows { OnOk result (AddsAll rows.old.reading.limit rows.old.reading.columns (told_rows rows.old (F.left files.old)) (written_cells P.terms writer.old) (written_cells P.terms writer.new)) }
    ensures refused { IfErr result (IsRefused (told_rows rows.old (F.left files.old))) }
    ensures cause { IfErr result (HasLoadCause (F.faults files.old) (F.faults files.new) (P.view pages.old).faults (P.view pages.new).faults) }
    ensures holds { F.holds files.new ≡ F.holds files.old }
    ensures later { F.faults files.old ≤ F.faults files.new }
    ensures columns { SameColumns writer.old writer.new }
    ensures writing { Writing P.terms writer.new }
    ensures here { IsWriterHere P.terms (P.view pages.new) writer.new }
    ensures changes { Changes P.terms (writer_holding P.terms writer.old) (writer_holding P.terms writer.new) (P.view pages.old) (P.view pages.new) }
{
    'rows: loop {
        match append_row(rows, files, writer, pages) {
            Ok(more) => {
                if !more {
                    return Ok(());
                }
            }
            Err(fault) => return Err(fault),
        }
    }
}

// Adds the next row of the open file at the end. Answers false where there is none.
fn append_row<F: Files, P: Pages>(
    rows: &mut CsvRows,
    files: &mut F,
    writer: &mut Writer<P::Page>,
    pages: &mut P,
) -> Result<bool, LoadFault>
    requires opened { F.is_open files.old ≡ true }
    requires goes_on { rows.old.stage ≢ Failed }
    requires typed { are_typed rows.old.reading.columns ≡ true }
    requires kinds { writer.old.kinds ≡ kinds_of rows.old.reading.columns }
    requires limit { rows.old.reading.limit ≡ text_limit writer.old.page_bytes }
    requires writing { Writing P.terms writer.old }
    requires here { IsWriterHere P.terms (P.view pages.old) writer.old }
    requires frames { HasFrames P.terms (P.view pages.old) writer.old }
    ensures row { IfOk result (λ more. more ≡ true → AddsRow rows.old.reading.limit rows.old.reading.columns (told_rows rows.old (F.left files.old)) (told_rows rows.new (F.left files.new)) (written_cells P.terms writer.old) (written_cells P.terms writer.new)) }
    ensures less { IfOk result (λ more. more ≡ true → bytes_ahead rows.new < bytes_ahead rows.old) }
    ensures ended { IfOk result (λ more. more ≡ false → GivesEnd (told_rows rows.old (F.left files.old))) }
    ensures same { IfOk result (λ more. more ≡ false → written_cells P.terms writer.new ≡ written_cells P.terms writer.old) }
    ensures refused { IfErr result (IsRefused (told_rows rows.old (F.left files.old))) }
    ensures cause { IfErr result (HasLoadCause (F.faults files.old) (F.faults files.new) (P.view pages.old).faults (P.view pages.new).faults) }
    ensures holds { F.holds files.new ≡ F.holds files.old }
    ensures opened { F.is_open files.new ≡ true }
    ensures goes_on { IfOk result (λ _. rows.new.stage ≢ Failed) }
    ensures reading { rows.new.reading ≡ rows.old.reading }
    ensures later { F.faults files.old ≤ F.faults files.new }
    ensures columns { SameColumns writer.old writer.new }
    ensures writing { Writing P.terms writer.new }
    ensures here { IsWriterHere P.terms (P.view pages.new) writer.new }
    ensures changes { Changes P.terms (writer_holding P.terms writer.old) (writer_holding P.terms writer.new) (P.view pages.old) (P.view pages.new) }
{
    match rows.next_record(files) {
        Ok(more) => {
            if !more {
                return Ok(false);
            }
        }
        Err(fault) => return Err(row_fault(fault)),
    }
    match append_found(rows, writer, pages) {
        Ok(()) => Ok(true),
        Err(fault) => Err(fault),
    }
}

// Adds the row of the record that was found last at the end.
fn append_found<P: Pages>(
    rows: &CsvRows,
    writer: &mut Writer<P::Page>,
    pages: &mut P,
) -> Result<(), LoadFault>
    requires found { rows.now.found ≡ true }
    requires typed { are_typed rows.now.reading.columns ≡ true }
    requires kinds { writer.old.kinds ≡ kinds_of rows.now.reading.columns }
    requires limit { rows.now.reading.limit ≡ text_limit writer.old.page_bytes }
    requires writing { Writing P.terms writer.old }
    requires here { IsWriterHere P.terms (P.view pages.old) writer.old }
    requires frames { HasFrames P.terms (P.view pages.old) writer.old }
    ensures next { PutsNext (outcome_of rows.now) (written_cells P.terms writer.old) (written_cells P.terms writer.new) result }
    ensures cause { IfErr result (HasRoomCause (P.view pages.old).faults (P.view pages.new).faults) }
    ensures columns { SameColumns writer.old writer.new }
    ensures writing { Writing P.terms writer.new }
    ensures here { IsWriterHere P.terms (P.view pages.new) writer.new }
    ensures changes { Changes P.terms (writer_holding P.terms writer.old) (writer_holding P.terms writer.new) (P.view pages.old) (P.view pages.new) }
{
    let columns = rows.columns();
    if columns <= FEW_COLUMNS {
        let mut fields = [FieldRead::Null; 8];
        let mut cells = [CellRead::Null; 8];
        append_read(
            rows,
            writer,
            pages,
            &mut fields[..columns],
            &mut cells[..columns],
        )
    } else {
        let mut fields = [FieldRead::Null; 65];
        let mut cells = [CellRead::Null; 65];
        append_read(
            rows,
            writer,
            pages,
            &mut fields[..columns],
            &mut cells[..columns],
        )
    }
}

// The same by way of lists of its values and of its cells.
#[inline(always)]
fn append_read<'a, P: Pages>(
    rows: &'a CsvRows,
    writer: &mut Writer<P::Page>,
    pages: &mut P,
    fields: &mut [FieldRead<'a>],
    cells: &mut [CellRead<'a>],
) -> Result<(), LoadFault>
    requires found { rows.now.found ≡ true }
    requires typed { are_typed rows.now.reading.columns ≡ true }
    requires fields { length fields.old ≡ length rows.now.reading.columns }
    requires cells { length cells.old ≡ length rows.now.reading.columns }
    requires kinds { writer.old.kinds ≡ kinds_of rows.now.reading.columns }
    requires limit { rows.now.reading.limit ≡ text_limit writer.old.page_bytes }
    requires writing { Writing P.terms writer.old }
    requires here { IsWriterHere P.terms (P.view pages.old) writer.old }
    requires frames { HasFrames P.terms (P.view pages.old) writer.old }
    ensures next { PutsNext (outcome_of rows.now) (written_cells P.terms writer.old) (written_cells P.terms writer.new) result }
    ensures cause { IfErr result (HasRoomCause (P.view pages.old).faults (P.view pages.new).faults) }
    ensures columns { SameColumns writer.old writer.new }
    ensures writing { Writing P.terms writer.new }
    ensures here { IsWriterHere P.terms (P.view pages.new) writer.new }
    ensures changes { Changes P.terms (writer_holding P.terms writer.old) (writer_holding P.terms writer.new) (P.view pages.old) (P.view pages.new) }
{
    match rows.read_row(fields) {
        Ok(()) => {}
        Err(why) => return Err(LoadFault::Refused(why)),
    }
    fill_cells(fields, cells);
    match append(writer, pages, cells, 0) {
        Ok(()) => Ok(()),
        Err(fault) => Err(pool_fault(fault)),
    }
}
