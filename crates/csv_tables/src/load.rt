//! Loading a file.
ghost use Rattle.std.specs.Prelude.{◌≡◌, ◌≢◌, ◌+◌, ◌≤◌, [], true, IfOk, IfErr, IfSome, length};
ghost use Rattle.std.specs.FinMap.{get};
ghost use Rattle.row_image.specs.Rules.{text_limit};
ghost use Rattle.row_sets.specs.Holds.{nothing, Unpinned};
ghost use Rattle.row_sets.specs.Changes.{Changes};
ghost use Rattle.row_sets.specs.Given.{IsNewWriter};
ghost use Rattle.row_sets.specs.Sets.{Formed, IsHere, set_ids};
ghost use Rattle.row_image.specs.declared.limits.TheConstants.{MOST_COLUMNS};
ghost use Rattle.row_sets.specs.Writers.{HasFrames, Writing, IsWriterHere, written_cells, writer_holding};
ghost use Rattle.csv_records.specs.Table.{IsDelimiter};
ghost use Rattle.csv_load.specs.declared.stage.Stage.TheVariants.{Failed};
ghost use Rattle.csv_load.specs.Values.{are_typed};
ghost use Rattle.csv_load.specs.Ahead.{told_rows};
ghost use Rattle.csv_load.specs.Rows.{file_rows, gathered};
ghost use Rattle.csv_tables.specs.Faults.{HasLoadCause};
ghost use Rattle.csv_tables.specs.Loading.{named_rows, Loads, IsTable, load_given};
ghost use Rattle.csv_tables.specs.Stored.{kinds_of};

use crate::fault::{LoadFault, missing_file};
use crate::rows::append_rows;
use csv_load::{CsvOptions, CsvRows};
use ooc_io::{Files, OpenFault};
use ooc_types::{Column, Schema, SqlType};
use page_body::Pages;
use row_sets::{RowSet, Writer, abandon, finish};
use std::alloc::Global;

/// Loads a file into a set of rows, whose pages are sealed as they fill. After a fault there is no set, and its pages are
/// retired.
pub fn load_csv<F: Files, P: Pages>(
    alloc: Global,
    files: &mut F,
    pages: &mut P,
    name: &str,
    schema: &Schema,
    options: &CsvOptions,
) -> Result<RowSet<P::Page>, LoadFault>
    requires some { 1 ≤ length schema.now }
    requires few { length schema.now ≤ 64 }
    requires typed { are_typed schema.now ≡ true }
    requires delimiter { IsDelimiter options.now.delimiter }
    requires room { (P.view pages.old).held + 2 ≤ (P.view pages.old).grant }
    ensures loads { IfSome (F.holds files.old) (λ held. Loads P.terms (named_rows schema.now options.now (text_limit (P.view pages.old).page_bytes) (get held name.now)) result) }
    ensures table { IfOk result (IsTable P.terms (text_limit (P.view pages.old).page_bytes) schema.now) }
    ensures kinds { IfOk result (λ set. set.kinds ≡ kinds_of schema.now) }
    ensures formed { IfOk result (Formed P.terms) }
    ensures here { IfOk result (IsHere (P.view pages.new)) }
    ensures unpinned { IfOk result (λ set. Unpinned P.terms (P.view pages.new) (set_ids P.terms set)) }
    ensures cause { IfErr result (HasLoadCause (F.faults files.old) (F.faults files.new) (P.view pages.old).faults (P.view pages.new).faults) }
    ensures changes { Changes P.terms nothing (load_given P.terms result) (P.view pages.old) (P.view pages.new) }
    ensures holds { F.holds files.new ≡ F.holds files.old }
    ensures later { F.faults files.old ≤ F.faults files.new }
{
    match files.open(name) {
        Ok(()) => load_open(alloc, files, pages, schema, options),
        Err(OpenFault::Missing) => Err(missing_file()),
        Err(OpenFault::Failed) => Err(LoadFault::Read),
    }
}

// Loads the file that was opened, of which no byte was taken.
fn load_open<F: Files, P: Pages>(
    alloc: Global,
    files: &mut F,
    pages: &mut P,
    schema: &Schema,
    options: &CsvOptions,
) -> Result<RowSet<P::Page>, LoadFault>
    requires opened { F.is_open files.old ≡ true }
    requires some { 1 ≤ length schema.now }
    requires few { length schema.now ≤ 64 }
    requires typed { are_typed schema.now ≡ true }
    requires delimiter { IsDelimiter options.now.delimiter }
    requires room { (P.view pages.old).held + 2 ≤ (P.view pages.old).grant }
    ensures loads { IfSome (F.left files.old) (λ bytes. Loads P.terms (file_rows schema.now options.now (text_limit (P.view pages.old).page_bytes) bytes) result) }
    ensures table { IfOk result (IsTable P.terms (text_limit (P.view pages.old).page_bytes) schema.now) }
    ensures kinds { IfOk result (λ set. set.kinds ≡ kinds_of schema.now) }
    ensures formed { IfOk result (Formed P.terms) }
    ensures here { IfOk result (IsHere (P.view pages.new)) }
    ensures unpinned { IfOk result (λ set. Unpinned P.terms (P.view pages.new) (set_ids P.terms set)) }
    ensures cause { IfErr result (HasLoadCause (F.faults files.old) (F.faults files.new) (P.view pages.old).faults (P.view pages.new).faults) }
    ensures changes { Changes P.terms nothing (load_given P.terms result) (P.view pages.old) (P.view pages.new) }
    ensures holds { F.holds files.new ≡ F.holds files.old }
    ensures later { F.faults files.old ≤ F.faults files.new }
{
    let page = pages.page_bytes();
    match CsvRows::new_rows(alloc, schema, options, page) {
        Ok(mut rows) => {
            let writer = new_table(alloc, schema.as_slice(), page);
            load_rows(&mut rows, files, writer, pages)
        }
        Err(_) => Err(LoadFault::OutOfMemory),
    }
}

// A set of no rows yet for a table with these columns.
fn new_table<H>(alloc: Global, columns: &[Column], page: u32) -> Writer<H>
    requires some { 1 ≤ length columns.now }
    requires few { length columns.now ≤ 64 }
    ensures { IsNewWriter (kinds_of columns.now) page result }
{
    let mut kinds = [SqlType::Boolean; 64];
    let kinds = &mut kinds[..columns.len()];
    fill_kinds(columns, kinds);
    Writer::new_writer(alloc, kinds, page)
}

// The types of columns.
fn fill_kinds(columns: &[Column], into: &mut [SqlType])
    requires { length into.old ≡ length columns.now }
    ensures { into.new ≡ kinds_of columns.now }
{
    for column in 0..columns.len() {
        into[column] = columns[column].kind;
    }
}

// Loads the rows of the open file into a set that has none yet.
fn load_rows<F: Files, P: Pages>(
    rows: &mut CsvRows,
    files: &mut F,
    writer: Writer<P::Page>,
    pages: &mut P,
) -> Result<RowSet<P::Page>, LoadFault>
    requires opened { F.is_open files.old ≡ true }
    requires goes_on { rows.old.stage ≢ Failed }
    requires typed { are_typed rows.old.reading.columns ≡ true }
    requires kinds { writer.kinds ≡ kinds_of rows.old.reading.columns }
    requires limit { rows.old.reading.limit ≡ text_limit writer.page_bytes }
    requires empty { written_cells P.terms writer ≡ [] }
    requires writing { Writing P.terms writer }
    requires here { IsWriterHere P.terms (P.view pages.old) writer }
    requires frames { HasFrames P.terms (P.view pages.old) writer }
    ensures loads { IfSome (told_rows rows.old (F.left files.old)) (λ given. Loads P.terms (gathered given) result) }
    ensures table { IfOk result (IsTable P.terms rows.old.reading.limit rows.old.reading.columns) }
    ensures kinds { IfOk result (λ set. set.kinds ≡ writer.kinds) }
    ensures formed { IfOk result (Formed P.terms) }
    ensures here { IfOk result (IsHere (P.view pages.new)) }
    ensures unpinned { IfOk result (λ set. Unpinned P.terms (P.view pages.new) (set_ids P.terms set)) }
    ensures cause { IfErr result (HasLoadCause (F.faults files.old) (F.faults files.new) (P.view pages.old).faults (P.view pages.new).faults) }
    ensures changes { Changes P.terms (writer_holding P.terms writer) (load_given P.terms result) (P.view pages.old) (P.view pages.new) }
    ensures holds { F.holds files.new ≡ F.holds files.old }
    ensures later { F.faults files.old ≤ F.faults files.new }
{
    let mut writer = writer;
    match append_rows(rows, files, &mut writer, pages) {
        Ok(()) => match finish(writer, pages) {
            Ok(set) => Ok(set),
            Err(_) => Err(LoadFault::OutOfMemory),
        },
        Err(fault) => {
            abandon(writer, pages);
            Err(fault)
        }
    }
}
