//! A file behind the rows of a table.
ghost use Rattle.std.specs.Prelude.{◌≡◌, ◌+◌, ◌≤◌, true, IfErr, IfSome, length};
ghost use Rattle.std.specs.FinMap.{get};
ghost use Rattle.row_image.specs.Rules.{text_limit};
ghost use Rattle.csv_records.specs.Table.{IsDelimiter};
ghost use Rattle.csv_load.specs.Values.{are_typed};
ghost use Rattle.csv_tables.specs.Faults.{HasLoadCause};
ghost use Rattle.csv_tables.specs.Loading.{named_rows};
ghost use Rattle.paged_catalog.specs.Loading.{AddsSet, AddsMeant};

use crate::catalog::TableRows;
use crate::finding::put;
use csv_load::CsvOptions;
use csv_tables::{LoadFault, load_csv};
use ooc_io::Files;
use ooc_types::Schema;
use page_body::Pages;
use std::alloc::Global;

/// Adds a set of the rows of a file. Room for it in the list is made first, so that a set that was loaded is kept. After
/// a fault the sets and what they have of the pool are as before.
pub fn add_set<F: Files, P: Pages>(
    alloc: Global,
    files: &mut F,
    pages: &mut P,
    columns: &Schema,
    rows: &mut TableRows<P::Page>,
    file: &str,
    options: &CsvOptions,
) -> Result<(), LoadFault>
    requires some { 1 ≤ length columns.now }
    requires few { length columns.now ≤ 64 }
    requires typed { are_typed columns.now ≡ true }
    requires delimiter { IsDelimiter options.now.delimiter }
    requires room { (P.view pages.old).held + 2 ≤ (P.view pages.old).grant }
    ensures adds { AddsSet P.terms columns.now (P.view pages.old) (P.view pages.new) rows.old.sets.items rows.new.sets.items result }
    ensures loads { IfSome (F.holds files.old) (λ held. AddsMeant P.terms (named_rows columns.now options.now (text_limit (P.view pages.old).page_bytes) (get held file.now)) rows.old.sets.items rows.new.sets.items result) }
    ensures cause { IfErr result (HasLoadCause (F.faults files.old) (F.faults files.new) (P.view pages.old).faults (P.view pages.new).faults) }
    ensures holds { F.holds files.new ≡ F.holds files.old }
    ensures later { F.faults files.old ≤ F.faults files.new }
{
    match rows.sets.reserve(1) {
        Ok(()) => {}
        Err(_) => return Err(LoadFault::OutOfMemory),
    }
    match load_csv(alloc, files, pages, file, columns, options) {
        Ok(set) => {
            put(&mut rows.sets, set);
            Ok(())
        }
        Err(fault) => Err(fault),
    }
}
