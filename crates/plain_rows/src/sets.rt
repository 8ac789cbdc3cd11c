//! Set operations.
ghost use Rattle.std.specs.Prelude.{◌≡◌, ◌++◌, ◌-◌, min, IfOk, OnOk, count_by, flat_map, replicate};
ghost use Rattle.ooc_bags.specs.Rows.{row_eq};
ghost use Rattle.sql_meaning.specs.Sets.{combined};
ghost use Rattle.sql_meaning.specs.Statements.{times_of, set_found};
ghost use Rattle.plain_rows.specs.Answers.{found_in};
ghost use Rattle.plain_rows.specs.Places.{as_often};

use crate::answer::{Answer, add_faults, copy_row};
use crate::distinct::{distinct_rows, same_row};
use bound_tree::SetKind;
use ooc_types::{OutOfMemory, Row, Value};
use std::alloc::Global;

// How often a row stands in a list.
fn count_row(row: &[Value], rows: &[Row]) -> usize
    ensures { result ≡ count_by (row_eq row.now) rows.now }
{
    rows.iter()
        .filter(|other| same_row(row, other.as_slice()))
        .count()
}

fn once(times: u128) -> u128
    ensures { result ≡ min 1 times }
{
    if times > 0 { 1 } else { 0 }
}

fn fewer(left: u128, right: u128) -> u128
    ensures { result ≡ min left right }
{
    if left < right { left } else { right }
}

fn less(left: u128, right: u128) -> u128
    ensures { result ≡ left - right }
{
    if left > right { left - right } else { 0 }
}

// How often a row stands in the result that stands so often in the operands.
fn times(kind: SetKind, all: bool, left: usize, right: usize) -> u128
    ensures { result ≡ times_of kind all left right }
{
    let left = left as u128;
    let right = right as u128;
    match (kind, all) {
        (SetKind::Union, true) => left + right,
        (SetKind::Union, false) => once(left + right),
        (SetKind::Except, true) => less(left, right),
        (SetKind::Except, false) => less(once(left), once(right)),
        (SetKind::Intersect, true) => fewer(left, right),
        (SetKind::Intersect, false) => once(fewer(left, right)),
    }
}

// Adds a row so often.
fn add_times(row: &Row, times: u128, into: &mut Vec<Row>) -> Result<(), OutOfMemory>
    ensures { OnOk result (into.new.items ≡ into.old.items ++ replicate times row.now) }
{
    for done in 0..times {
        into.push(copy_row(row)?)?;
    }
    Ok(())
}

fn add_combined(
    row: &Row,
    kind: SetKind,
    all: bool,
    left: &[Row],
    right: &[Row],
    into: &mut Vec<Row>,
) -> Result<(), OutOfMemory>
    ensures { OnOk result (into.new.items ≡ into.old.items ++ as_often (times_of kind all) left.now right.now row.now) }
{
    let often = times(
        kind,
        all,
        count_row(row.as_slice(), left),
        count_row(row.as_slice(), right),
    );
    add_times(row, often, into)
}

// Each of these rows as often as it stands in what the operands give together.
fn combine_each(
    alloc: Global,
    kind: SetKind,
    all: bool,
    left: &[Row],
    right: &[Row],
    distinct: &[Row],
) -> Result<Vec<Row>, OutOfMemory>
    ensures { IfOk result (λ rows. rows.items ≡ flat_map (as_often (times_of kind all) left.now right.now) distinct.now) }
{
    let mut rows = Vec::new(alloc);
    for row in distinct {
        add_combined(row, kind, all, left, right, &mut rows)?;
    }
    Ok(rows)
}

// The rows of the first list, and then those of the other.
fn all_rows(alloc: Global, left: &[Row], right: &[Row]) -> Result<Vec<Row>, OutOfMemory>
    ensures { IfOk result (λ all. all.items ≡ left.now ++ right.now) }
{
    let mut all = Vec::new(alloc);
    for row in left {
        all.push(copy_row(row)?)?;
    }
    for other in right {
        all.push(copy_row(other)?)?;
    }
    Ok(all)
}

/// The rows of both operands in the order of first sight, each as often as the set operation says.
pub fn combine_rows(
    alloc: Global,
    kind: SetKind,
    all: bool,
    left: &[Row],
    right: &[Row],
) -> Result<Vec<Row>, OutOfMemory>
    ensures { IfOk result (λ rows. rows.items ≡ combined (times_of kind all) left.now right.now) }
{
    let both = all_rows(alloc, left, right)?;
    let distinct = distinct_rows(alloc, both.as_slice())?;
    combine_each(alloc, kind, all, left, right, distinct.as_slice())
}

/// A set operation of two answers. Where a fault was noted there are no rows.
pub fn combine(
    alloc: Global,
    kind: SetKind,
    all: bool,
    left: Answer,
    right: Answer,
) -> Result<Answer, OutOfMemory>
    ensures { IfOk result (λ answer. found_in answer ≡ set_found (times_of kind all) (found_in left) (found_in right)) }
{
    let mut faults = left.faults;
    add_faults(right.faults.as_slice(), &mut faults)?;
    if faults.is_empty() {
        let rows = combine_rows(
            alloc,
            kind,
            all,
            left.rows.as_slice(),
            right.rows.as_slice(),
        )?;
        return Ok(Answer { rows, faults });
    }
    Ok(Answer {
        rows: Vec::new(alloc),
        faults,
    })
}
