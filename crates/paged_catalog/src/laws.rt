//! Laws of a catalog.
ghost use Rattle.std.specs.Prelude.{ℕ, IfSome, List};
ghost use Rattle.row_image.specs.Rules.{text_limit};
ghost use Rattle.csv_tables.specs.Stored.{AreOf};
ghost use Rattle.script_says.specs.Catalog.{table_at};
ghost use Rattle.paged_catalog.specs.Meaning.{catalog_of};
ghost use Rattle.paged_catalog.specs.Stands.{Stands, AreHere};

use crate::catalog::Catalog;
use page_body::Pages;

/// A law: each row of a table is one of its columns, whatever the files and the pool tell.
pub fn rows_are_of_their_columns<P: Pages>(pages: &P, catalog: &Catalog<P::Page>)
    requires stands { Stands P.terms catalog.now }
    requires here { AreHere (P.view pages.now) catalog.now }
    ensures { (name : List ℕ) → IfSome (table_at (catalog_of P.terms catalog.now) name) (λ table. AreOf (text_limit (P.view pages.now).page_bytes) table.columns table.rows) }
{
    let _ = pages;
    let _ = catalog;
}
