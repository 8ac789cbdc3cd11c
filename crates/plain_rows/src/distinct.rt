//! DISTINCT.
ghost use Rattle.std.specs.Prelude.{◌≡◌, ◌∷◌, ◌++◌, IfOk, OnOk, if◌then◌else◌, []};
ghost use Rattle.ooc_bags.specs.Firsts.{firsts};
ghost use Rattle.ooc_bags.specs.Rows.{row_eq};
ghost use Rattle.sql_meaning.specs.Select.{perhaps_distinct};
ghost use Rattle.plain_rows.specs.Answers.{found_in, distinct_found};
ghost use Rattle.plain_rows.specs.Places.{other_rows};

use crate::answer::{Answer, copy_row};
use ooc_types::{OutOfMemory, Row, Value};
use std::alloc::Global;

/// Whether two rows have the same values: 1.0 and 1.00 are two.
pub fn same_row(a: &[Value], b: &[Value]) -> bool
    ensures { result ≡ row_eq a.now b.now }
{
    a == b
}

// Adds a row where it isn't this one.
fn add_other(row: &[Value], other: &Row, into: &mut Vec<Row>) -> Result<(), OutOfMemory>
    ensures { OnOk result (into.new.items ≡ into.old.items ++ other_rows row.now (other.now ∷ [])) }
{
    if !same_row(row, other.as_slice()) {
        into.push(copy_row(other)?)?;
    }
    Ok(())
}

// A row, and behind it those that aren't this one.
fn row_and_others(alloc: Global, row: &Row, rows: &[Row]) -> Result<Vec<Row>, OutOfMemory>
    ensures { IfOk result (λ all. all.items ≡ row.now ∷ other_rows row.now rows.now) }
{
    let mut all = Vec::new(alloc);
    all.push(copy_row(row)?)?;
    for other in rows {
        add_other(row.as_slice(), other, &mut all)?;
    }
    Ok(all)
}

/// The rows, each once, in the order of first sight.
pub fn distinct_rows(alloc: Global, rows: &[Row]) -> Result<Vec<Row>, OutOfMemory>
    ensures { IfOk result (λ distinct. distinct.items ≡ firsts rows.now) }
{
    let mut distinct = Vec::new(alloc);
    let mut at = rows.len();
    while at > 0 {
        at -= 1;
        distinct = row_and_others(alloc, &rows[at], distinct.as_slice())?;
    }
    Ok(distinct)
}

/// The rows, each once where the SELECT is DISTINCT. Where a fault was noted no rows are left.
pub fn distinct_answer(alloc: Global, distinct: bool, answer: Answer) -> Result<Answer, OutOfMemory>
    ensures { IfOk result (λ left. found_in left ≡ distinct_found distinct (found_in answer)) }
{
    let Answer { rows, faults } = answer;
    if !faults.is_empty() {
        return Ok(Answer {
            rows: Vec::new(alloc),
            faults,
        });
    }
    if distinct {
        let rows = distinct_rows(alloc, rows.as_slice())?;
        return Ok(Answer { rows, faults });
    }
    Ok(Answer { rows, faults })
}
