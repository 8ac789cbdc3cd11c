//! CREATE TABLE and DROP TABLE.
ghost use Rattle.std.specs.Prelude.{◌≡◌, ◌≤◌, [], true, IfErr, IfOk, IsNone, length};
ghost use Rattle.csv_load.specs.Values.{are_typed};
ghost use Rattle.paged_catalog.specs.Meaning.{catalog_of};
ghost use Rattle.paged_catalog.specs.Stands.{Stands, AreHere, Leaves};
ghost use Rattle.script_opening.specs.Reading.{result_items};
ghost use Rattle.script_says.specs.Block.{no_block};
ghost use Rattle.script_says.specs.Catalog.{table_at, with_table, without_table};
ghost use Rattle.script_says.specs.Ends.{IsStep};
ghost use Rattle.script_says.specs.LastLine.{IsBlock};
ghost use Rattle.script_says.specs.Outcome.{Gives};
ghost use Rattle.statement_run.specs.Causes.{IsWantOfMemory};

use ooc_types::{Schema, Text};
use page_body::Pages;
use paged_catalog::{Catalog, create_table, drop_table};
use run_settings::Status;
use std::alloc::Global;

/// Adds a table of no rows under a new name.
pub(crate) fn create<P: Pages>(
    alloc: Global,
    pages: &P,
    catalog: &mut Catalog<P::Page>,
    name: Text,
    columns: Schema,
) -> Result<Vec<u8>, Status>
    requires stands { Stands P.terms catalog.old }
    requires here { AreHere (P.view pages.now) catalog.old }
    requires free { IsNone (table_at (catalog_of P.terms catalog.old) name) }
    requires few { length columns ≤ 64 }
    requires typed { are_typed columns ≡ true }
    ensures step { IsStep (Gives (with_table (catalog_of P.terms catalog.old) name columns) no_block) (catalog_of P.terms catalog.new) (result_items result) }
    ensures block { IfOk result (λ text. IsBlock text.items) }
    ensures same { IfErr result (λ _. catalog_of P.terms catalog.new ≡ catalog_of P.terms catalog.old) }
    ensures leaves { Leaves P.terms (P.view pages.now) (P.view pages.now) catalog.old catalog.new }
    ensures cause { IfErr result IsWantOfMemory }
{
    // The grammar asks for a column at least, so a table of none is never asked for. No clause says so of a statement that is
    // taken alone.
    if columns.as_slice().is_empty() {
        return Err(Status::OutOfMemory);
    }
    match create_table(alloc, pages, catalog, name, columns) {
        Ok(()) => Ok(Vec::new(alloc)),
        Err(_) => Err(Status::OutOfMemory),
    }
}

/// Takes the table of a name away.
pub(crate) fn drop_named<P: Pages>(
    alloc: Global,
    pages: &mut P,
    catalog: &mut Catalog<P::Page>,
    name: &Text,
) -> Vec<u8>
    requires stands { Stands P.terms catalog.old }
    requires here { AreHere (P.view pages.old) catalog.old }
    requires idle { (P.view pages.old).held ≡ 0 }
    ensures dropped { catalog_of P.terms catalog.new ≡ without_table (catalog_of P.terms catalog.old) name.now }
    ensures none { result.items ≡ [] }
    ensures leaves { Leaves P.terms (P.view pages.old) (P.view pages.new) catalog.old catalog.new }
{
    drop_table(pages, catalog, name.as_bytes());
    Vec::new(alloc)
}
