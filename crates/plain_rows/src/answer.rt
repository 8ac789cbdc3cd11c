//! What a step gives: rows, and the kinds of the faults that it noted.
ghost use Rattle.std.specs.Prelude.{◌≡◌, ◌++◌, [], IfOk, OnOk};
ghost use Rattle.sql_meaning.specs.Found.{clean};
ghost use Rattle.plain_rows.specs.Answers.{Adds, found_in, one_row, one_fault};

use ooc_types::{OutOfMemory, Row};
use sql_expr::ValueFault;
use std::alloc::Global;

/// Rows in the order in which they were found, and one kind of a fault for each that was noted.
#[derive(Drop)]
pub struct Answer {
    pub rows: Vec<Row>,
    pub faults: Vec<ValueFault>,
}

impl Answer {
    /// No rows and no faults, which take no memory yet.
    pub fn new_answer(alloc: Global) -> Answer
        ensures { found_in result ≡ clean [] }
    {
        Answer {
            rows: Vec::new(alloc),
            faults: Vec::new(alloc),
        }
    }

    /// These rows, and no fault.
    pub fn of_rows(alloc: Global, rows: Vec<Row>) -> Answer
        ensures { found_in result ≡ clean rows.items }
    {
        Answer {
            rows,
            faults: Vec::new(alloc),
        }
    }
}

/// Adds a row behind the others.
pub fn add_row(into: &mut Answer, row: Row) -> Result<(), OutOfMemory>
    ensures { OnOk result (Adds into.old into.new (one_row row)) }
{
    into.rows.push(row)?;
    Ok(())
}

/// Notes a fault behind the others.
pub fn add_fault(into: &mut Answer, fault: ValueFault) -> Result<(), OutOfMemory>
    ensures { OnOk result (Adds into.old into.new (one_fault fault)) }
{
    into.faults.push(fault)?;
    Ok(())
}

/// A copy of a row.
pub fn copy_row(row: &Row) -> Result<Row, OutOfMemory>
    ensures { IfOk result (λ copy. copy ≡ row.now) }
{
    let copy = row.clone()?;
    Ok(copy)
}

/// Adds copies of rows behind the others.
pub fn add_rows(rows: &[Row], into: &mut Vec<Row>) -> Result<(), OutOfMemory>
    ensures { OnOk result (into.new.items ≡ into.old.items ++ rows.now) }
{
    for row in rows {
        into.push(copy_row(row)?)?;
    }
    Ok(())
}

/// Notes faults behind the others.
pub fn add_faults(faults: &[ValueFault], into: &mut Vec<ValueFault>) -> Result<(), OutOfMemory>
    ensures { OnOk result (into.new.items ≡ into.old.items ++ faults.now) }
{
    for fault in faults {
        into.push(*fault)?;
    }
    Ok(())
}

/// Adds the rows and faults of an answer behind those of another.
pub fn add_answer(into: &mut Answer, more: Answer) -> Result<(), OutOfMemory>
    ensures { OnOk result (Adds into.old into.new (found_in more)) }
{
    add_rows(more.rows.as_slice(), &mut into.rows)?;
    add_faults(more.faults.as_slice(), &mut into.faults)?;
    Ok(())
}
