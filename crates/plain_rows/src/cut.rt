//! ORDER BY, OFFSET and LIMIT.
ghost use Rattle.std.specs.Prelude.{◌≡◌, ℕ, IfOk, min, take, length, Option};
ghost use Rattle.sql_meaning.specs.Select.{cut_found as cut_of_found, perhaps_cut};
ghost use Rattle.sql_meaning.specs.Statements.{cut_of};
ghost use Rattle.plain_rows.specs.Answers.{found_in};
ghost use Rattle.plain_rows.specs.Places.{part_of};

use crate::answer::{Answer, copy_row};
use crate::order::order_rows;
use bound_tree::Cut;
use ooc_types::{OutOfMemory, Row};
use std::alloc::Global;

// The smaller of the two.
fn at_most(wanted: u128, most: usize) -> usize
    ensures { result ≡ min wanted most }
{
    if wanted < most as u128 {
        wanted as usize
    } else {
        most
    }
}

fn copy_rows(alloc: Global, rows: &[Row]) -> Result<Vec<Row>, OutOfMemory>
    ensures { IfOk result (λ copies. copies.items ≡ rows.now) }
{
    let mut copies = Vec::new(alloc);
    for row in rows {
        copies.push(copy_row(row)?)?;
    }
    Ok(copies)
}

// The rows behind the first `offset` of them, and of those at most `limit`.
fn part(
    alloc: Global,
    offset: u128,
    limit: Option<u128>,
    rows: &[Row],
) -> Result<Vec<Row>, OutOfMemory>
    ensures { IfOk result (λ part. part.items ≡ part_of offset limit rows.now) }
{
    let behind = &rows[at_most(offset, rows.len())..];
    match limit {
        Some(limit) => copy_rows(alloc, &behind[..at_most(limit, behind.len())]),
        None => copy_rows(alloc, behind),
    }
}

/// The rows in the order of ORDER BY, without those of OFFSET, and of the rest as many as LIMIT says.
pub fn cut_rows(alloc: Global, cut: &Option<Cut>, rows: Vec<Row>) -> Result<Vec<Row>, OutOfMemory>
    ensures { IfOk result (λ left. left.items ≡ perhaps_cut (cut_of cut.now) rows.items) }
{
    match cut {
        Some(cut) => {
            let ordered = order_rows(alloc, cut.keys.as_slice(), rows.as_slice())?;
            part(
                alloc,
                cut.offset.unwrap_or(0),
                cut.limit,
                ordered.as_slice(),
            )
        }
        None => Ok(rows),
    }
}

/// The same of an answer. Where a fault was noted no rows are left.
pub fn cut_answer(alloc: Global, cut: &Option<Cut>, answer: Answer) -> Result<Answer, OutOfMemory>
    ensures { IfOk result (λ left. found_in left ≡ cut_of_found (cut_of cut.now) (found_in answer)) }
{
    let Answer { rows, faults } = answer;
    if faults.is_empty() {
        let rows = cut_rows(alloc, cut, rows)?;
        return Ok(Answer { rows, faults });
    }
    Ok(Answer {
        rows: Vec::new(alloc),
        faults,
    })
}
