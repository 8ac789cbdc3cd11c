//! A SELECT over one table.
ghost use Rattle.std.specs.Prelude.{◌≡◌, ◌+◌, ◌≤◌, ℕ, true, IsTrue, All, IfOk, IfErr, Some};
ghost use Rattle.std.specs.Option.{option_map};
ghost use Rattle.page_body.specs.Keeps.{Kept};
ghost use Rattle.bound_tree.specs.declared.select.BoundSelect.{BoundSelect as Select};
ghost use Rattle.bound_tree.specs.declared.select.BoundRows.TheViews.{out-BoundCore, out-BoundSelect};
ghost use Rattle.well_formed.specs.Given.{Schemas, kinds_of_columns};
ghost use Rattle.well_formed.specs.Rows.{IsWellFormedSelect};
ghost use Rattle.sql_meaning.specs.Statements.{Tables};
ghost use Rattle.script_says.specs.Selecting.{shown};
ghost use Rattle.table_scan.specs.Outcomes.{HasCause, IsBlockOf, IsShown};
ghost use Rattle.table_scan.specs.Scan as spec;
ghost use Rattle.table_scan.specs.Scan.{is_scan_core, kinds_of_sources, scan_kinds, scan_table};
ghost use Rattle.table_scan.specs.Sets.{ShowsSets};
ghost use Rattle.table_scan.specs.TableRows.{IsReadable, rows_of_sets};
ghost use Rattle.table_scan.specs.Typed.{IsTypedScan, IsTypedCore};

use crate::fault::SelectFault;
use crate::reading::{Reading, tests_of};
use crate::rows::take_sets;
use crate::scan::{core_of, first_source};
use crate::taken::{end_scan, new_taken};
use bound_tree::{BoundCore, BoundSelect, BoundSource, Cut};
use ooc_types::Schema;
use page_body::Pages;
use row_sets::RowSet;
use std::alloc::Global;

// The core over the rows of these sets, in order and cut.
fn select_core<P: Pages>(
    alloc: Global,
    pages: &mut P,
    core: &BoundCore,
    columns: &Schema,
    cut: &Option<Cut>,
    sets: &[RowSet<P::Page>],
) -> Result<Vec<u8>, SelectFault>
    requires scan { is_scan_core core.now ≡ true }
    requires typed { IsTypedCore core.now }
    requires sets { All (IsReadable P.terms (P.view pages.old) (kinds_of_sources (out-BoundCore core.now).sources)) sets.now }
    requires room { (P.view pages.old).held + 5 ≤ (P.view pages.old).grant }
    ensures shows { IsTrue P.terms.told → ShowsSets core.now columns.now cut.now (rows_of_sets P.terms sets.now) result }
    ensures block { IfOk result (λ text. IsBlockOf columns.now text.items) }
    ensures cause { IfErr result (HasCause P.terms.told (P.view pages.old).faults (P.view pages.new).faults) }
    ensures kept { Kept (P.view pages.old) (P.view pages.new) }
{
    let source = first_source(core.sources.as_slice());
    let reading = Reading {
        kinds: source.kinds.as_slice(),
        tests: tests_of(alloc, core.conjuncts.as_slice())?,
        items: core.items.as_slice(),
        columns,
    };
    let mut taken = new_taken(alloc, columns, cut.is_some())?;
    match take_sets(alloc, pages, &reading, sets, &mut taken) {
        Ok(()) => end_scan(alloc, columns, cut, taken),
        Err(fault) => Err(fault),
    }
}

/// What a SELECT over one table shows, over the rows of these sets, one set after another.
///
/// A fault that was noted goes before the size of the result. Without an order or a cut the rows are printed as they
/// come; else they are kept, so that the result has to fit into memory.
pub fn select_table<P: Pages>(
    alloc: Global,
    pages: &mut P,
    select: &BoundSelect,
    sets: &[RowSet<P::Page>],
) -> Result<Vec<u8>, SelectFault>
    requires scan { spec.is_scan select.now ≡ true }
    requires typed { IsTypedScan select.now }
    requires sets { All (IsReadable P.terms (P.view pages.old) (scan_kinds select.now)) sets.now }
    requires room { (P.view pages.old).held + 5 ≤ (P.view pages.old).grant }
    ensures shows { IsTrue P.terms.told → (tables : Tables) → tables (scan_table select.now) ≡ rows_of_sets P.terms sets.now → IsShown (shown tables select.now) result }
    ensures block { IfOk result (λ text. IsBlockOf (out-BoundSelect select.now).columns text.items) }
    ensures cause { IfErr result (HasCause P.terms.told (P.view pages.old).faults (P.view pages.new).faults) }
    ensures kept { Kept (P.view pages.old) (P.view pages.new) }
{
    match core_of(select) {
        Some(core) => select_core(alloc, pages, core, &select.columns, &select.cut, sets),
        None => unreachable!(),
    }
}

/// A well-formed SELECT over one table can be scanned: its table is there, with columns of the types that it reads, and its
/// conditions and items are typed over them. The function does nothing; its contract says the law.
pub fn well_formed_selects_can_be_scanned()
    ensures typed { (limit : ℕ) (schemas : Schemas) (select : Select) → spec.is_scan select ≡ true → IsWellFormedSelect limit schemas select → IsTypedScan select }
    ensures kinds { (limit : ℕ) (schemas : Schemas) (select : Select) → spec.is_scan select ≡ true → IsWellFormedSelect limit schemas select
        → option_map kinds_of_columns (schemas (scan_table select)) ≡ Some (scan_kinds select) }
{}
