//! What a pool must have written for the rows of its tables.
ghost use Rattle.std.specs.Prelude.{◌+◌, ◌-◌, ◌^◌, ◌<◌, ◌≤◌, IsTrue};
ghost use Rattle.paged_catalog.specs.Meaning.{catalog_of};
ghost use Rattle.paged_catalog.specs.Stands.{Stands, AreHere};
ghost use Rattle.catalog_bound.specs.Bound.{catalog_need};

use page_body::Pages;
use paged_catalog::Catalog;

/// A law: in a pool that spills, the pages that the rows of the tables need are at most its frames and the pages that it wrote
/// since it was opened.
pub fn catalog_was_written<P: Pages>(pages: &P, catalog: &Catalog<P::Page>)
    requires stands { Stands P.terms catalog.now }
    requires here { AreHere (P.view pages.now) catalog.now }
    ensures { IsTrue P.terms.spills → (P.view pages.now).wrote < 2 ^ 64 - 1
        → catalog_need (P.view pages.now).page_bytes (catalog_of P.terms catalog.now) ≤ (P.view pages.now).grant + (P.view pages.now).wrote }
{
    let _ = pages;
    let _ = catalog;
}
