//! A file is loaded, and what was loaded is read back.
ghost use Rattle.std.specs.Prelude.{◌≡◌, ◌+◌, ◌≤◌, true, length};
ghost use Rattle.page_body.specs.Keeps.{Kept};
ghost use Rattle.row_sets.specs.Holds.{nothing};
ghost use Rattle.row_sets.specs.Changes.{Changes};
ghost use Rattle.row_sets.specs.Sets.{Formed, IsHere, NoRowPins};
ghost use Rattle.csv_records.specs.Table.{IsDelimiter};
ghost use Rattle.csv_load.specs.Values.{are_typed};

use csv_load::CsvOptions;
use csv_runs::{Shape, is_readable, options_of, put_refusal, put_row, put_word, schema_of};
use csv_tables::{LoadFault, load_csv};
use ooc_io::Files;
use ooc_types::{OutOfMemory, Row, Schema, Value};
use page_body::{Pages, PoolFault};
use row_cursors::RowCursor;
use row_sets::{RowSet, retire_set};
use std::alloc::Global;

/// The columns of a table, and how a file is read into it.
#[derive(Drop)]
pub struct Table {
    pub schema: Schema,
    pub options: CsvOptions,
}

/// The columns and the options of a shape. The pool tells how long a text may be.
pub fn table_of(alloc: Global, shape: &Shape) -> Result<Table, OutOfMemory> {
    Ok(Table {
        schema: schema_of(alloc, shape)?,
        options: options_of(alloc, shape)?,
    })
}

/// How many rows were loaded, and on how many row pages.
#[derive(Clone, Copy, Debug, PartialEq, Eq)]
pub struct Counts {
    pub rows: u64,
    pub row_pages: usize,
}

/// Loads the file `t.csv`, puts the rows that are read back behind a text, and retires them.
pub fn load_and_read<F: Files, P: Pages>(
    alloc: Global,
    files: &mut F,
    pages: &mut P,
    table: &Table,
    out: &mut Vec<u8>,
) -> Result<Counts, LoadFault>
    requires room { (P.view pages.old).held + 5 ≤ (P.view pages.old).grant }
    ensures changes { Changes P.terms nothing nothing (P.view pages.old) (P.view pages.new) }
{
    if is_readable(&table.schema, &table.options) {
        return load_readable(alloc, files, pages, table, out);
    }
    Ok(Counts {
        rows: 0,
        row_pages: 0,
    })
}

// The same into columns that can be read.
fn load_readable<F: Files, P: Pages>(
    alloc: Global,
    files: &mut F,
    pages: &mut P,
    table: &Table,
    out: &mut Vec<u8>,
) -> Result<Counts, LoadFault>
    requires some { 1 ≤ length table.now.schema }
    requires few { length table.now.schema ≤ 64 }
    requires typed { are_typed table.now.schema ≡ true }
    requires delimiter { IsDelimiter table.now.options.delimiter }
    requires room { (P.view pages.old).held + 5 ≤ (P.view pages.old).grant }
    ensures changes { Changes P.terms nothing nothing (P.view pages.old) (P.view pages.new) }
{
    let set = load_csv(alloc, files, pages, "t.csv", &table.schema, &table.options)?;
    let counts = Counts {
        rows: set.len(),
        row_pages: set.row_pages(),
    };
    let read = put_set(alloc, pages, &set, out);
    retire_set(pages, set);
    match read {
        Ok(()) => Ok(counts),
        Err(fault) => Err(read_fault(fault)),
    }
}

fn read_fault(fault: PoolFault) -> LoadFault {
    match fault {
        PoolFault::OutOfMemory => LoadFault::OutOfMemory,
        PoolFault::Spill | PoolFault::Damaged(_) => LoadFault::Pool(fault),
    }
}

/// Puts the rows of a set, and `end`.
pub fn put_set<P: Pages>(
    alloc: Global,
    pages: &mut P,
    set: &RowSet<P::Page>,
    out: &mut Vec<u8>,
) -> Result<(), PoolFault>
    requires formed { Formed P.terms set.now }
    requires here { IsHere (P.view pages.old) set.now }
    requires alone { NoRowPins P.terms (P.view pages.old) set.now }
    requires room { (P.view pages.old).held + 5 ≤ (P.view pages.old).grant }
    ensures kept { Kept (P.view pages.old) (P.view pages.new) }
{
    let mut cursor = RowCursor::new_cursor::<P>(set);
    let mut row = Row::new_row(alloc);
    for _ in 0..set.len() {
        let read = cursor.next_row(alloc, pages, set, &mut row)?;
        put_read(alloc, read, row.as_slice(), out)?;
    }
    match cursor.next_row(alloc, pages, set, &mut row)? {
        Some(_) => put_words("one row too many", out),
        None => put_words("end", out),
    }
}

// Puts a row that was read, which is to have the hash 0.
fn put_read(
    alloc: Global,
    read: Option<u64>,
    row: &[Value],
    out: &mut Vec<u8>,
) -> Result<(), PoolFault> {
    match read {
        Some(0) => match put_row(alloc, row, out) {
            Ok(()) => Ok(()),
            Err(_) => Err(PoolFault::OutOfMemory),
        },
        Some(_) => put_words("a hash;", out),
        None => put_words("no row;", out),
    }
}

fn put_words(words: &str, out: &mut Vec<u8>) -> Result<(), PoolFault> {
    match put_word(words, out) {
        Ok(()) => Ok(()),
        Err(_) => Err(PoolFault::OutOfMemory),
    }
}

/// Loads two files into one pool, one after the other, and puts what comes of each.
pub fn load_both<F: Files, P: Pages>(
    alloc: Global,
    first: &mut F,
    second: &mut F,
    pages: &mut P,
    table: &Table,
    out: &mut Vec<u8>,
) -> Result<(), OutOfMemory>
    requires room { (P.view pages.old).held + 5 ≤ (P.view pages.old).grant }
    ensures changes { Changes P.terms nothing nothing (P.view pages.old) (P.view pages.new) }
{
    let loaded = load_and_read(alloc, first, pages, table, out);
    put_outcome(alloc, loaded, out)?;
    put_word(" ", out)?;
    let loaded = load_and_read(alloc, second, pages, table, out);
    put_outcome(alloc, loaded, out)
}

/// Puts why a file isn't loaded; nothing where it is.
pub fn put_outcome(
    alloc: Global,
    loaded: Result<Counts, LoadFault>,
    out: &mut Vec<u8>,
) -> Result<(), OutOfMemory> {
    match loaded {
        Ok(_) => Ok(()),
        Err(LoadFault::Refused(why)) => put_refusal(alloc, why, out),
        Err(LoadFault::Read) => put_word("read fault", out),
        Err(LoadFault::Pool(PoolFault::Spill)) => put_word("spill fault", out),
        Err(LoadFault::Pool(_)) => put_word("spill damaged", out),
        Err(LoadFault::OutOfMemory) => put_word("out of memory", out),
    }
}
