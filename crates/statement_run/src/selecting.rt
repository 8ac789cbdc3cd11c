//! SELECT.
ghost use Rattle.std.specs.Prelude.{◌≡◌, true, IfErr, IfOk, IsTrue};
ghost use Rattle.page_body.specs.Keeps.{Kept};
ghost use Rattle.paged_catalog.specs.Meaning.{catalog_of};
ghost use Rattle.paged_catalog.specs.Stands.{Stands, AreHere};
ghost use Rattle.row_image.specs.Rules.{text_limit};
ghost use Rattle.script_opening.specs.Reading.{result_items};
ghost use Rattle.script_says.specs.Catalog.{schemas_of, tables_of};
ghost use Rattle.script_says.specs.Ends.{IsStep};
ghost use Rattle.script_says.specs.LastLine.{IsBlock};
ghost use Rattle.script_says.specs.Selecting.{shown};
ghost use Rattle.sql_scope.specs.Scopes.{columns_of};
ghost use Rattle.statement_run.specs.Causes.{HasTableCause};
ghost use Rattle.statement_run.specs.Faults as spec;
ghost use Rattle.statement_run.specs.Running.{selecting, showing};
ghost use Rattle.table_scan.specs.Scan.{is_scan as is_scanned};
ghost use Rattle.well_formed.specs.Rows.{IsWellFormedSelect};

use crate::copying::pool_status;
use bound_tree::BoundSelect;
use ooc_types::RefusalKind;
use page_body::Pages;
use paged_catalog::{Catalog, sets};
use run_settings::{Place, Refusal, Status};
use sql_expr::ValueFault;
use std::alloc::Global;
use table_scan::{
    SelectFault, is_scan, scanned_table, select_table, well_formed_selects_can_be_scanned,
};

// The refusal of a statement as a whole.
fn refuse(number: u32, kind: RefusalKind) -> Status
    ensures { result ≡ spec.refused_whole number kind }
{
    Status::Refused(Refusal {
        statement: number,
        place: Place::Whole,
        kind,
    })
}

// The status of a SELECT that shows nothing.
fn select_status(number: u32, fault: SelectFault) -> Status
    ensures { result ≡ spec.select_status number fault }
{
    match fault {
        SelectFault::Value(ValueFault::Overflow) => refuse(number, RefusalKind::Overflow),
        SelectFault::Value(ValueFault::CountOverflow) => {
            refuse(number, RefusalKind::CountOverflow)
        }
        SelectFault::TooLarge => refuse(number, RefusalKind::ResultTooLarge),
        SelectFault::Pool(fault) => pool_status(fault),
        SelectFault::OutOfMemory => Status::OutOfMemory,
    }
}

// What a SELECT over one table shows.
fn scan<P: Pages>(
    alloc: Global,
    pages: &mut P,
    number: u32,
    catalog: &Catalog<P::Page>,
    select: &BoundSelect,
) -> Result<Vec<u8>, Status>
    requires scan { is_scanned select.now ≡ true }
    requires stands { Stands P.terms catalog.now }
    requires here { AreHere (P.view pages.old) catalog.now }
    requires idle { (P.view pages.old).held ≡ 0 }
    requires formed { IsWellFormedSelect (text_limit (P.view pages.old).page_bytes) (columns_of (schemas_of (catalog_of P.terms catalog.now))) select.now }
    ensures step { IsTrue P.terms.told → IsStep (showing number (catalog_of P.terms catalog.now) (shown (tables_of (catalog_of P.terms catalog.now)) select.now)) (catalog_of P.terms catalog.now) (result_items result) }
    ensures block { IfOk result (λ text. IsBlock text.items) }
    ensures cause { IfErr result (HasTableCause P.terms.told (P.view pages.old).faults (P.view pages.new).faults) }
    ensures kept { Kept (P.view pages.old) (P.view pages.new) }
{
    well_formed_selects_can_be_scanned();
    match sets(pages, catalog, scanned_table(select).as_bytes()) {
        Some(sets) => match select_table(alloc, pages, select, sets) {
            Ok(text) => Ok(text),
            Err(fault) => Err(select_status(number, fault)),
        },
        None => unreachable!(),
    }
}

/// What a SELECT over one table shows. Others aren't run yet, and are refused.
pub(crate) fn show<P: Pages>(
    alloc: Global,
    pages: &mut P,
    number: u32,
    catalog: &Catalog<P::Page>,
    select: &BoundSelect,
) -> Result<Vec<u8>, Status>
    requires stands { Stands P.terms catalog.now }
    requires here { AreHere (P.view pages.old) catalog.now }
    requires idle { (P.view pages.old).held ≡ 0 }
    requires formed { IsWellFormedSelect (text_limit (P.view pages.old).page_bytes) (columns_of (schemas_of (catalog_of P.terms catalog.now))) select.now }
    ensures step { IsTrue P.terms.told → IsStep (selecting number (catalog_of P.terms catalog.now) select.now) (catalog_of P.terms catalog.now) (result_items result) }
    ensures block { IfOk result (λ text. IsBlock text.items) }
    ensures cause { IfErr result (HasTableCause P.terms.told (P.view pages.old).faults (P.view pages.new).faults) }
    ensures kept { Kept (P.view pages.old) (P.view pages.new) }
{
    if is_scan(select) {
        return scan(alloc, pages, number, catalog, select);
    }
    Err(refuse(number, RefusalKind::NotBuilt))
}
