//! The items of a SELECT.
ghost use Rattle.std.specs.Prelude.{◌≡◌, All, IfOk, OnOk, map};
ghost use Rattle.sql_meaning.specs.Groups.{values};
ghost use Rattle.sql_meaning.specs.Select.{item_found, projected};
ghost use Rattle.sql_meaning.specs.Statements.{row_value_of};
ghost use Rattle.plain_rows.specs.Answers.{Adds, found_in};
ghost use Rattle.plain_rows.specs.Outcomes.{Told};
ghost use Rattle.plain_rows.specs.Tests.{FitsItem};

use crate::answer::{Answer, add_fault, add_row};
use ooc_types::{OutOfMemory, Row, Value};
use sql_expr::{EvalFault, Expr, eval};
use std::alloc::Global;

/// The values of expressions over a row, or the first fault.
pub fn values_of(alloc: Global, items: &[Expr], row: &[Value]) -> Result<Row, EvalFault>
    requires { All (FitsItem row.now) items.now }
    ensures { Told (values (map row_value_of items.now) row.now) result }
{
    let mut made = Row::new_row(alloc);
    for item in items {
        made.push(eval(item, row)?)?;
    }
    Ok(made)
}

fn project_row(
    alloc: Global,
    items: &[Expr],
    row: &Row,
    into: &mut Answer,
) -> Result<(), OutOfMemory>
    requires { All (FitsItem row.now) items.now }
    ensures { OnOk result (Adds into.old into.new (item_found (values (map row_value_of items.now) row.now))) }
{
    match values_of(alloc, items, row.as_slice()) {
        Ok(made) => add_row(into, made),
        Err(EvalFault::Fault(fault)) => add_fault(into, fault),
        Err(EvalFault::OutOfMemory) => Err(OutOfMemory),
    }
}

/// The items over each row, and the faults of those that have one.
pub fn project(alloc: Global, items: &[Expr], rows: &[Row]) -> Result<Answer, OutOfMemory>
    requires { All (λ row. All (FitsItem row) items.now) rows.now }
    ensures { IfOk result (λ answer. found_in answer ≡ projected (map row_value_of items.now) rows.now) }
{
    let mut answer = Answer::new_answer(alloc);
    for row in rows {
        project_row(alloc, items, row, &mut answer)?;
    }
    Ok(answer)
}
