//! What came of the rows so far.
ghost use Rattle.std.specs.Prelude.{◌≡◌, ◌∷◌, ◌+◌, [], true, false, None, IfOk, OnOk, OnErr, IfErr, is_some, length};
ghost use Rattle.std.specs.Option.{option_copied};
ghost use Rattle.result_print.specs.Printed.{header_text};
ghost use Rattle.script_says.specs.Selecting.{most_result};
ghost use Rattle.sql_meaning.specs.Groups.{values};
ghost use Rattle.sql_meaning.specs.Judged.{kept};
ghost use Rattle.plain_rows.specs.Cores.{CanSelect};
ghost use Rattle.table_scan.specs.Outcomes.{EndsPart, EndsScan, IsNoted, value_fault};
ghost use Rattle.table_scan.specs.Sink.{conditions_in, items_in, sink_of, take_one, unless_noted, with_values};

use crate::cut::print_cut;
use crate::fault::SelectFault;
use crate::items::fill_values;
use crate::lines::{MOST_RESULT, end_text, print_line};
use crate::reading::Reading;
use bound_tree::Cut;
use ooc_types::{OutOfMemory, Row, Schema};
use plain_rows::{judge, values_of};
use result_print::print_header;
use sql_expr::{EvalFault, ValueFault};
use std::alloc::Global;

/// What came of the rows so far: rows that are to be ordered, or lines that were printed.
#[derive(Drop)]
pub(crate) struct Taken {
    /// The first fault of an item. Behind it no items are taken, but rows are still judged, since the faults of
    /// conditions go before those of items.
    pub fault: Option<ValueFault>,
    /// The rows are to be ordered or cut.
    pub orders: bool,
    pub rows: Vec<Row>,
    pub text: Vec<u8>,
    /// How long the text may be.
    pub limit: u128,
    /// The items over the last row that was printed. Their memory is used again.
    pub made: Row,
}

/// Before the first row.
pub(crate) fn new_taken(alloc: Global, columns: &Schema, orders: bool) -> Result<Taken, OutOfMemory>
    ensures { IfOk result (λ taken. sink_of taken
        ≡ record { fault = None; orders = orders; rows = []; text = header_text columns.now; limit = length (header_text columns.now) + most_result }) }
{
    let mut text = Vec::new(alloc);
    print_header(columns, &mut text)?;
    let limit = text.len() as u128 + MOST_RESULT;
    Ok(Taken {
        fault: None,
        orders,
        rows: Vec::new(alloc),
        text,
        limit,
        made: Row::new_row(alloc),
    })
}

// Keeps the items over a row.
fn keep_items(
    alloc: Global,
    reading: &Reading<'_>,
    row: &Row,
    into: &mut Taken,
) -> Result<(), OutOfMemory>
    requires items { CanSelect reading.now.tests.items reading.now.items.now (row.now ∷ []) }
    requires orders { into.old.orders ≡ true }
    ensures { OnOk result (sink_of into.new ≡ with_values (values (items_in reading.now) row.now) (sink_of into.old)) }
{
    match values_of(alloc, reading.items, row.as_slice()) {
        Ok(made) => {
            into.rows.push(made)?;
            Ok(())
        }
        Err(EvalFault::Fault(fault)) => {
            into.fault = Some(fault);
            Ok(())
        }
        Err(EvalFault::OutOfMemory) => Err(OutOfMemory),
    }
}

// Prints the items over a row.
fn print_items(reading: &Reading<'_>, row: &Row, into: &mut Taken) -> Result<(), OutOfMemory>
    requires items { CanSelect reading.now.tests.items reading.now.items.now (row.now ∷ []) }
    requires orders { into.old.orders ≡ false }
    ensures { OnOk result (sink_of into.new ≡ with_values (values (items_in reading.now) row.now) (sink_of into.old)) }
{
    match fill_values(reading.items, row.as_slice(), &mut into.made) {
        Ok(()) => {
            let limit = into.limit;
            print_line(reading.columns, limit, &into.made, &mut into.text)
        }
        Err(EvalFault::Fault(fault)) => {
            into.fault = Some(fault);
            Ok(())
        }
        Err(EvalFault::OutOfMemory) => Err(OutOfMemory),
    }
}

// Takes the items over a row that is kept.
fn put_items(
    alloc: Global,
    reading: &Reading<'_>,
    row: &Row,
    into: &mut Taken,
) -> Result<(), OutOfMemory>
    requires { CanSelect reading.now.tests.items reading.now.items.now (row.now ∷ []) }
    ensures { OnOk result (sink_of into.new ≡ with_values (values (items_in reading.now) row.now) (sink_of into.old)) }
{
    if into.orders {
        return keep_items(alloc, reading, row, into);
    }
    print_items(reading, row, into)
}

// The same, unless an item faulted before.
fn perhaps_items(
    alloc: Global,
    reading: &Reading<'_>,
    row: &Row,
    into: &mut Taken,
) -> Result<(), OutOfMemory>
    requires { CanSelect reading.now.tests.items reading.now.items.now (row.now ∷ []) }
    ensures { OnOk result (sink_of into.new ≡ unless_noted into.old.fault (values (items_in reading.now) row.now) (sink_of into.old)) }
{
    if into.fault.is_some() {
        return Ok(());
    }
    put_items(alloc, reading, row, into)
}

/// Takes a row of the table.
pub(crate) fn take_row(
    alloc: Global,
    reading: &Reading<'_>,
    row: &Row,
    into: &mut Taken,
) -> Result<(), EvalFault>
    requires { CanSelect reading.now.tests.items reading.now.items.now (row.now ∷ []) }
    ensures taken { OnOk result (sink_of into.new ≡ take_one (conditions_in reading.now) (items_in reading.now) row.now (sink_of into.old)) }
    ensures clean { OnOk result ((kept (conditions_in reading.now) (row.now ∷ [])).faults ≡ []) }
    ensures noted { IfErr result (λ fault. IsNoted (conditions_in reading.now) (row.now ∷ []) (value_fault fault)) }
{
    match judge(reading.tests.as_slice(), row.as_slice()) {
        Ok(true) => match perhaps_items(alloc, reading, row, into) {
            Ok(()) => Ok(()),
            Err(_) => Err(EvalFault::OutOfMemory),
        },
        Ok(false) => Ok(()),
        Err(fault) => Err(fault),
    }
}

// Behind the last row, where no item faulted.
fn end_rows(
    alloc: Global,
    columns: &Schema,
    cut: &Option<Cut>,
    taken: Taken,
) -> Result<Vec<u8>, SelectFault>
    ensures { EndsPart columns.now cut.now (sink_of taken) result }
{
    let Taken {
        rows,
        text,
        limit,
        ..
    } = taken;
    match cut {
        Some(cut) => print_cut(alloc, columns, cut, rows),
        None => end_text(limit, text),
    }
}

/// Behind the last row.
pub(crate) fn end_scan(
    alloc: Global,
    columns: &Schema,
    cut: &Option<Cut>,
    taken: Taken,
) -> Result<Vec<u8>, SelectFault>
    ensures { EndsScan columns.now cut.now taken.fault (sink_of taken) result }
{
    match taken.fault {
        Some(fault) => Err(SelectFault::Value(fault)),
        None => end_rows(alloc, columns, cut, taken),
    }
}
