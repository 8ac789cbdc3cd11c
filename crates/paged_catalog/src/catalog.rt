//! The tables that are there.
ghost use Rattle.std.specs.Prelude.{◌≡◌, ◌≤◌, None, true, IfErr, IfSome, IsNone, IsSome, IsSomeAnd, MatchOption, OnOk, OnErr, is_some, length};
ghost use Rattle.std.specs.FinMap.{get};
ghost use Rattle.row_image.specs.Rules.{text_limit};
ghost use Rattle.csv_records.specs.Table.{IsDelimiter};
ghost use Rattle.csv_load.specs.Values.{are_typed};
ghost use Rattle.csv_tables.specs.Faults.{HasLoadCause};
ghost use Rattle.csv_tables.specs.Loading.{named_rows};
ghost use Rattle.script_says.specs.Catalog.{no_tables, table_at, with_table, without_table, schemas_of};
ghost use Rattle.paged_catalog.specs.Meaning.{catalog_of};
ghost use Rattle.paged_catalog.specs.Stands.{Stands, AreHere, Leaves, AreSetsOf};
ghost use Rattle.paged_catalog.specs.Loading.{AddsRows, LoadsInto};

use crate::finding::{place_of, put};
use crate::loading::add_set;
use crate::retiring::retire_sets;
use csv_load::CsvOptions;
use csv_tables::LoadFault;
use ooc_io::Files;
use ooc_types::{OutOfMemory, Schema, Text};
use page_body::Pages;
use row_sets::RowSet;
use sql_scope::TableColumns;
use std::alloc::Global;

/// The rows of a table, in sets, one for each file that was loaded.
pub struct TableRows<H> {
    pub(crate) sets: Vec<RowSet<H>>,
}

/// The tables in the order of their creation, over pages of one length: their names and columns, and beside them, place by
/// place, their rows.
pub struct Catalog<H> {
    pub(crate) page_bytes: u32,
    pub(crate) tables: Vec<TableColumns>,
    pub(crate) rows: Vec<TableRows<H>>,
}

/// No tables yet, over the pages of a pool.
pub fn new_catalog<P: Pages>(alloc: Global, pages: &P) -> Catalog<P::Page>
    ensures tables { catalog_of P.terms result ≡ no_tables }
    ensures stands { Stands P.terms result }
    ensures here { AreHere (P.view pages.now) result }
{
    Catalog {
        page_bytes: pages.page_bytes(),
        tables: Vec::new(alloc),
        rows: Vec::new(alloc),
    }
}

/// The names and columns of the tables.
pub fn columns<'a, P: Pages>(pages: &P, catalog: &'a Catalog<P::Page>) -> &'a [TableColumns]
    requires stands { Stands P.terms catalog.now }
    ensures { result.now ≡ schemas_of (catalog_of P.terms catalog.now) }
{
    let _ = pages;
    catalog.tables.as_slice()
}

/// Whether there is a table of that name, in small letters.
pub fn has_table<P: Pages>(pages: &P, catalog: &Catalog<P::Page>, name: &[u8]) -> bool
    requires stands { Stands P.terms catalog.now }
    ensures { result ≡ is_some (table_at (catalog_of P.terms catalog.now) name.now) }
{
    let _ = pages;
    place_of(catalog.tables.as_slice(), name).is_some()
}

/// The sets of the table of that name, in small letters.
pub fn sets<'a, P: Pages>(
    pages: &P,
    catalog: &'a Catalog<P::Page>,
    name: &[u8],
) -> Option<&'a [RowSet<P::Page>]>
    requires stands { Stands P.terms catalog.now }
    requires here { AreHere (P.view pages.now) catalog.now }
    requires idle { (P.view pages.now).held ≡ 0 }
    ensures { MatchOption result (table_at (catalog_of P.terms catalog.now) name.now ≡ None) (λ sets. IsSomeAnd (table_at (catalog_of P.terms catalog.now) name.now) (λ table. AreSetsOf P.terms (P.view pages.now) table sets.now)) }
{
    let _ = pages;
    match place_of(catalog.tables.as_slice(), name) {
        Some(place) => Some(catalog.rows[place].sets.as_slice()),
        None => None,
    }
}

/// Adds a table of no rows under a new name in small letters.
pub fn create_table<P: Pages>(
    alloc: Global,
    pages: &P,
    catalog: &mut Catalog<P::Page>,
    name: Text,
    columns: Schema,
) -> Result<(), OutOfMemory>
    requires stands { Stands P.terms catalog.old }
    requires here { AreHere (P.view pages.now) catalog.old }
    requires free { IsNone (table_at (catalog_of P.terms catalog.old) name) }
    requires some { 1 ≤ length columns }
    requires few { length columns ≤ 64 }
    requires typed { are_typed columns ≡ true }
    ensures created { OnOk result (catalog_of P.terms catalog.new ≡ with_table (catalog_of P.terms catalog.old) name columns) }
    ensures same { OnErr result (catalog_of P.terms catalog.new ≡ catalog_of P.terms catalog.old) }
    ensures leaves { Leaves P.terms (P.view pages.now) (P.view pages.now) catalog.old catalog.new }
{
    let _ = pages;
    catalog.tables.reserve(1)?;
    catalog.rows.reserve(1)?;
    put(&mut catalog.tables, TableColumns { name, columns });
    put(
        &mut catalog.rows,
        TableRows {
            sets: Vec::new(alloc),
        },
    );
    Ok(())
}

/// Takes the table of a name in small letters away, where there is one. It can't be refused.
pub fn drop_table<P: Pages>(pages: &mut P, catalog: &mut Catalog<P::Page>, name: &[u8])
    requires stands { Stands P.terms catalog.old }
    requires here { AreHere (P.view pages.old) catalog.old }
    requires idle { (P.view pages.old).held ≡ 0 }
    ensures dropped { catalog_of P.terms catalog.new ≡ without_table (catalog_of P.terms catalog.old) name.now }
    ensures leaves { Leaves P.terms (P.view pages.old) (P.view pages.new) catalog.old catalog.new }
{
    match place_of(catalog.tables.as_slice(), name) {
        Some(place) => {
            let _columns = catalog.tables.remove(place);
            let TableRows { sets } = catalog.rows.remove(place);
            retire_sets(pages, sets);
        }
        None => {}
    }
}

/// Loads a file behind the rows of the table of a name in small letters. After a fault the tables are as before.
pub fn load_table<F: Files, P: Pages>(
    alloc: Global,
    files: &mut F,
    pages: &mut P,
    catalog: &mut Catalog<P::Page>,
    name: &[u8],
    file: &str,
    options: &CsvOptions,
) -> Result<(), LoadFault>
    requires stands { Stands P.terms catalog.old }
    requires here { AreHere (P.view pages.old) catalog.old }
    requires idle { (P.view pages.old).held ≡ 0 }
    requires there { IsSome (table_at (catalog_of P.terms catalog.old) name.now) }
    requires delimiter { IsDelimiter options.now.delimiter }
    ensures loads { IfSome (F.holds files.old) (λ held. IfSome (table_at (catalog_of P.terms catalog.old) name.now) (λ table. LoadsInto (named_rows table.columns options.now (text_limit (P.view pages.old).page_bytes) (get held file.now)) (catalog_of P.terms catalog.old) name.now (catalog_of P.terms catalog.new) result)) }
    ensures adds { OnOk result (AddsRows (catalog_of P.terms catalog.old) name.now (catalog_of P.terms catalog.new)) }
    ensures same { OnErr result (catalog_of P.terms catalog.new ≡ catalog_of P.terms catalog.old) }
    ensures leaves { Leaves P.terms (P.view pages.old) (P.view pages.new) catalog.old catalog.new }
    ensures cause { IfErr result (HasLoadCause (F.faults files.old) (F.faults files.new) (P.view pages.old).faults (P.view pages.new).faults) }
    ensures holds { F.holds files.new ≡ F.holds files.old }
    ensures later { F.faults files.old ≤ F.faults files.new }
{
    match place_of(catalog.tables.as_slice(), name) {
        Some(place) => {
            let table = &catalog.tables[place];
            let rows = &mut catalog.rows[place];
            add_set(alloc, files, pages, &table.columns, rows, file, options)
        }
        None => unreachable!(),
    }
}
