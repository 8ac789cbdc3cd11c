//! How many rows the tables have.
ghost use Rattle.std.specs.Prelude.{◌≡◌, ℕ, IfOk, List, length, min};
ghost use Rattle.sql_plan.specs.Counted.{counts_in};
ghost use Rattle.script_says.specs.Catalog.{counts_of, most_counted};
ghost use Rattle.paged_catalog.specs.Meaning.{sets_rows, catalog_of};
ghost use Rattle.paged_catalog.specs.Stands.{AllFormed, Stands, AreHere};

use crate::catalog::Catalog;
use ooc_types::OutOfMemory;
use page_body::Pages;
use row_sets::RowSet;
use sql_plan::TableCount;
use std::alloc::Global;

// How many rows some sets have together.
fn rows_of<P: Pages>(pages: &P, sets: &[RowSet<P::Page>]) -> u64
    requires formed { AllFormed P.terms (P.view pages.now).page_bytes sets.now }
    ensures { result ≡ min (length (sets_rows P.terms sets.now)) most_counted }
{
    let _ = pages;
    let mut rows: u64 = 0;
    for set in sets {
        rows = rows.saturating_add(set.len());
    }
    rows
}

/// How many rows each table has, as far as a plan counts.
pub fn counts<P: Pages>(
    alloc: Global,
    pages: &P,
    catalog: &Catalog<P::Page>,
) -> Result<Vec<TableCount>, OutOfMemory>
    requires stands { Stands P.terms catalog.now }
    requires here { AreHere (P.view pages.now) catalog.now }
    ensures { IfOk result (λ counts. (name : List ℕ) → counts_in counts.items name ≡ counts_of (catalog_of P.terms catalog.now) name) }
{
    let tables = catalog.tables.as_slice();
    let rows = catalog.rows.as_slice();
    let mut counts = Vec::new(alloc);
    for place in 0..tables.len() {
        let name = tables[place].name.clone()?;
        let rows = rows_of(pages, rows[place].sets.as_slice());
        counts.push(TableCount { name, rows })?;
    }
    Ok(counts)
}
