//! The rows of sets, one after the other.
ghost use Rattle.std.specs.Prelude.{◌≡◌, ◌∷◌, ◌+◌, ◌≤◌, ◌<◌, [], true, false, IsTrue, All, IfOk, IfErr, OnOk, length};
ghost use Rattle.page_body.specs.Keeps.{Kept};
ghost use Rattle.row_sets.specs.Sets.{Formed, IsHere, NoRowPins};
ghost use Rattle.row_cursors.specs.RowCursors.{rest_rows};
ghost use Rattle.sql_meaning.specs.Judged.{kept as kept_by};
ghost use Rattle.table_scan.specs.Outcomes.{HasCause, IsNoted};
ghost use Rattle.table_scan.specs.Sink.{conditions_in, items_in, sink_of, take_all, take_one};
ghost use Rattle.table_scan.specs.Steps.{IsStep, IsLast, TakesSome};
ghost use Rattle.table_scan.specs.TableRows.{IsReadable, rows_ahead, rows_of_set, rows_of_sets};
ghost use Rattle.table_scan.specs.Typed.{IsReading};

use crate::fault::{SelectFault, pool_fault, value_fault};
use crate::reading::Reading;
use crate::taken::{Taken, take_row};
use ooc_types::Row;
use page_body::Pages;
use row_cursors::RowCursor;
use row_sets::RowSet;
use std::alloc::Global;

// Takes the next row of a set. Answers false where there is none.
fn take_next<P: Pages>(
    alloc: Global,
    pages: &mut P,
    reading: &Reading<'_>,
    set: &RowSet<P::Page>,
    cursor: &mut RowCursor,
    row: &mut Row,
    into: &mut Taken,
) -> Result<bool, SelectFault>
    requires formed { Formed P.terms set.now }
    requires here { IsHere (P.view pages.old) set.now }
    requires alone { NoRowPins P.terms (P.view pages.old) set.now }
    requires room { (P.view pages.old).held + 5 ≤ (P.view pages.old).grant }
    requires kinds { set.now.kinds ≡ reading.now.kinds.now }
    requires reading { IsReading reading.now }
    ensures step { IsTrue P.terms.told → IfOk result (λ more. more ≡ true → IsStep reading.now (rows_ahead P.terms set.now cursor.old) (rows_ahead P.terms set.now cursor.new) (sink_of into.old) (sink_of into.new)) }
    ensures some { IfOk result (λ more. TakesSome reading.now (sink_of into.old) (sink_of into.new)) }
    ensures less { IfOk result (λ more. more ≡ true → length (rest_rows P.terms set.now cursor.new) < length (rest_rows P.terms set.now cursor.old)) }
    ensures last { IsTrue P.terms.told → IfOk result (λ more. more ≡ false → IsLast (rows_ahead P.terms set.now cursor.old) (sink_of into.old) (sink_of into.new)) }
    ensures noted { IsTrue P.terms.told → IfErr result (IsNoted (conditions_in reading.now) (rows_ahead P.terms set.now cursor.old)) }
    ensures cause { IfErr result (HasCause P.terms.told (P.view pages.old).faults (P.view pages.new).faults) }
    ensures kept { Kept (P.view pages.old) (P.view pages.new) }
{
    match cursor.next_row(alloc, pages, set, row) {
        Ok(Some(_)) => match take_row(alloc, reading, row, into) {
            Ok(()) => Ok(true),
            Err(why) => Err(value_fault(why)),
        },
        Ok(None) => Ok(false),
        Err(fault) => Err(pool_fault(fault)),
    }
}

// Takes the rows of a set.
fn take_set<P: Pages>(
    alloc: Global,
    pages: &mut P,
    reading: &Reading<'_>,
    set: &RowSet<P::Page>,
    row: &mut Row,
    into: &mut Taken,
) -> Result<(), SelectFault>
    requires formed { Formed P.terms set.now }
    requires here { IsHere (P.view pages.old) set.now }
    requires alone { NoRowPins P.terms (P.view pages.old) set.now }
    requires room { (P.view pages.old).held + 5 ≤ (P.view pages.old).grant }
    requires kinds { set.now.kinds ≡ reading.now.kinds.now }
    requires reading { IsReading reading.now }
    ensures taken { IsTrue P.terms.told → OnOk result (sink_of into.new ≡ take_all (conditions_in reading.now) (items_in reading.now) (rows_of_set P.terms set.now) (sink_of into.old)) }
    ensures some { OnOk result (TakesSome reading.now (sink_of into.old) (sink_of into.new)) }
    ensures clean { IsTrue P.terms.told → OnOk result ((kept_by (conditions_in reading.now) (rows_of_set P.terms set.now)).faults ≡ []) }
    ensures noted { IsTrue P.terms.told → IfErr result (IsNoted (conditions_in reading.now) (rows_of_set P.terms set.now)) }
    ensures cause { IfErr result (HasCause P.terms.told (P.view pages.old).faults (P.view pages.new).faults) }
    ensures kept { Kept (P.view pages.old) (P.view pages.new) }
{
    let mut cursor = RowCursor::new_cursor::<P>(set);
    'rows: loop {
        match take_next(alloc, pages, reading, set, &mut cursor, row, into) {
            Ok(more) => {
                if !more {
                    return Ok(());
                }
            }
            Err(fault) => return Err(fault),
        }
    }
}

/// Takes the rows of all sets.
pub(crate) fn take_sets<P: Pages>(
    alloc: Global,
    pages: &mut P,
    reading: &Reading<'_>,
    sets: &[RowSet<P::Page>],
    into: &mut Taken,
) -> Result<(), SelectFault>
    requires sets { All (IsReadable P.terms (P.view pages.old) reading.now.kinds.now) sets.now }
    requires room { (P.view pages.old).held + 5 ≤ (P.view pages.old).grant }
    requires reading { IsReading reading.now }
    ensures taken { IsTrue P.terms.told → OnOk result (sink_of into.new ≡ take_all (conditions_in reading.now) (items_in reading.now) (rows_of_sets P.terms sets.now) (sink_of into.old)) }
    ensures some { OnOk result (TakesSome reading.now (sink_of into.old) (sink_of into.new)) }
    ensures clean { IsTrue P.terms.told → OnOk result ((kept_by (conditions_in reading.now) (rows_of_sets P.terms sets.now)).faults ≡ []) }
    ensures noted { IsTrue P.terms.told → IfErr result (IsNoted (conditions_in reading.now) (rows_of_sets P.terms sets.now)) }
    ensures cause { IfErr result (HasCause P.terms.told (P.view pages.old).faults (P.view pages.new).faults) }
    ensures kept { Kept (P.view pages.old) (P.view pages.new) }
{
    let mut row = Row::new_row(alloc);
    for set in sets {
        match take_set(alloc, pages, reading, set, &mut row, into) {
            Ok(()) => {}
            Err(fault) => return Err(fault),
        }
    }
    Ok(())
}
