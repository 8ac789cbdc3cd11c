//! The end of sets, of a table's rows, and of a catalog.
ghost use Rattle.std.specs.Prelude.{◌≡◌};
ghost use Rattle.page_body.specs.PageLists.{ids_of};
ghost use Rattle.row_sets.specs.Holds.{nothing, pages_only, IsRetirable};
ghost use Rattle.row_sets.specs.Changes.{Changes};
ghost use Rattle.paged_catalog.specs.Meaning.{sets_pages, rows_pages, catalog_holding};
ghost use Rattle.paged_catalog.specs.Stands.{AllFormed, AllRowsFormed, Stands, AreHere};

use crate::catalog::{Catalog, TableRows};
use page_body::Pages;
use row_sets::{RowSet, retire_set};

/// Retires all pages of some sets.
pub fn retire_sets<P: Pages>(pages: &mut P, all: Vec<RowSet<P::Page>>)
    requires formed { AllFormed P.terms (P.view pages.old).page_bytes all.items }
    requires retirable { IsRetirable P.terms (P.view pages.old) (sets_pages all.items) }
    ensures { Changes P.terms (pages_only (ids_of P.terms (sets_pages all.items))) nothing (P.view pages.old) (P.view pages.new) }
{
    let mut left = all;
    'sets: loop {
        match left.pop() {
            Some(last) => retire_set(pages, last),
            None => {
                left.destroy_empty();
                return;
            }
        }
    }
}

// Retires the rows of some tables.
fn retire_rows<P: Pages>(pages: &mut P, all: Vec<TableRows<P::Page>>)
    requires formed { AllRowsFormed P.terms (P.view pages.old).page_bytes all.items }
    requires retirable { IsRetirable P.terms (P.view pages.old) (rows_pages all.items) }
    ensures { Changes P.terms (pages_only (ids_of P.terms (rows_pages all.items))) nothing (P.view pages.old) (P.view pages.new) }
{
    let mut left = all;
    'tables: loop {
        match left.pop() {
            Some(last) => {
                let TableRows { sets } = last;
                retire_sets(pages, sets);
            }
            None => {
                left.destroy_empty();
                return;
            }
        }
    }
}

/// Retires all pages of a catalog. It can't be refused.
pub fn retire_catalog<P: Pages>(pages: &mut P, catalog: Catalog<P::Page>)
    requires stands { Stands P.terms catalog }
    requires here { AreHere (P.view pages.old) catalog }
    requires idle { (P.view pages.old).held ≡ 0 }
    ensures { Changes P.terms (catalog_holding P.terms catalog) nothing (P.view pages.old) (P.view pages.new) }
{
    let Catalog {
        page_bytes: _page_bytes,
        tables: _tables,
        rows,
    } = catalog;
    retire_rows(pages, rows);
}
