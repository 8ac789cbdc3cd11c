//! EXPLAIN.
ghost use Rattle.std.specs.Prelude.{◌≡◌, IfOk};
ghost use Rattle.paged_catalog.specs.Meaning.{catalog_of};
ghost use Rattle.paged_catalog.specs.Stands.{Stands, AreHere};
ghost use Rattle.plan_text.specs.Explained.{plan_text};
ghost use Rattle.plan_tree.specs.Planned.{plan_of_select};
ghost use Rattle.script_says.specs.Catalog.{counts_of};
ghost use Rattle.sql_plan.specs.Counted.{counts_in};
ghost use Rattle.sql_plan.specs.Numbered.{AreNumbered};

use bound_tree::BoundSelect;
use ooc_types::OutOfMemory;
use page_body::Pages;
use paged_catalog::{Catalog, counts};
use plan_text::explain;
use sql_plan::{TableCount, plan};
use std::alloc::Global;

// What EXPLAIN prints of a SELECT over tables of so many rows.
fn plan_over(
    alloc: Global,
    counts: &[TableCount],
    select: &BoundSelect,
) -> Result<Vec<u8>, OutOfMemory>
    requires { AreNumbered select.now }
    ensures { IfOk result (λ text. text.items ≡ plan_text (plan_of_select (counts_in counts.now) select.now)) }
{
    let plan = plan(alloc, select, counts)?;
    let mut text = Vec::new(alloc);
    explain(alloc, &plan, &mut text)?;
    Ok(text)
}

/// What EXPLAIN prints of a SELECT over the tables that are there.
pub(crate) fn plan_block<P: Pages>(
    alloc: Global,
    pages: &P,
    catalog: &Catalog<P::Page>,
    select: &BoundSelect,
) -> Result<Vec<u8>, OutOfMemory>
    requires stands { Stands P.terms catalog.now }
    requires here { AreHere (P.view pages.now) catalog.now }
    requires numbered { AreNumbered select.now }
    ensures { IfOk result (λ text. text.items ≡ plan_text (plan_of_select (counts_of (catalog_of P.terms catalog.now)) select.now)) }
{
    let counts = counts(alloc, pages, catalog)?;
    plan_over(alloc, counts.as_slice(), select)
}
