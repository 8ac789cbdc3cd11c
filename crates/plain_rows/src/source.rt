//! FROM: nested loops over its sources, in written order.
ghost use Rattle.std.specs.Prelude.{◌≡◌, ◌++◌, All, IfOk, OnOk, map, [], ◌∷◌};
ghost use Rattle.sql_meaning.specs.From.{from_rows as rows_of_from, joined, met, nulls, pairs};
ghost use Rattle.sql_meaning.specs.Found.{and_then, clean};
ghost use Rattle.plain_rows.specs.Answers.{Adds, found_in};
ghost use Rattle.plain_rows.specs.Froms.{AreReadyPairs, IsFrom, source_in};

use crate::answer::{Answer, add_answer, add_faults, copy_row};
use crate::kept::kept_rows;
use crate::test::Test;
use ooc_types::{OutOfMemory, Row, Value};
use std::alloc::Global;

/// A source with what it gives, how many columns that has, whether it is joined by LEFT, and the conditions of its ON.
#[derive(Drop)]
pub struct Source<'a> {
    pub found: Answer,
    pub width: usize,
    pub pads: bool,
    pub on: Vec<Test<'a>>,
}

fn add_values(row: &[Value], into: &mut Row) -> Result<(), OutOfMemory>
    ensures { OnOk result (into.new ≡ into.old ++ row.now) }
{
    for value in row {
        into.push(value.clone()?)?;
    }
    Ok(())
}

fn add_nulls(width: usize, into: &mut Row) -> Result<(), OutOfMemory>
    ensures { OnOk result (into.new ≡ into.old ++ nulls width) }
{
    for done in 0..width {
        into.push(Value::Null)?;
    }
    Ok(())
}

// The row behind a left row.
fn pair(left: &Row, right: &Row) -> Result<Row, OutOfMemory>
    ensures { IfOk result (λ row. row ≡ left.now ++ right.now) }
{
    let mut row = copy_row(left)?;
    add_values(right.as_slice(), &mut row)?;
    Ok(row)
}

fn padded_row(left: &Row, width: usize) -> Result<Row, OutOfMemory>
    ensures { IfOk result (λ row. row ≡ left.now ++ nulls width) }
{
    let mut row = copy_row(left)?;
    add_nulls(width, &mut row)?;
    Ok(row)
}

fn all_pairs(alloc: Global, left: &Row, rows: &[Row]) -> Result<Vec<Row>, OutOfMemory>
    ensures { IfOk result (λ all. all.items ≡ pairs left.now rows.now) }
{
    let mut all = Vec::new(alloc);
    for right in rows {
        all.push(pair(left, right)?)?;
    }
    Ok(all)
}

// The pairs of a left row that ON keeps, or under LEFT the row with NULLs where there are none and none faulted.
fn meet(alloc: Global, source: &Source<'_>, left: &Row) -> Result<Answer, OutOfMemory>
    requires { AreReadyPairs source.now left.now }
    ensures { IfOk result (λ answer. found_in answer ≡ met (source_in source.now) left.now) }
{
    let pairs = all_pairs(alloc, left, source.found.rows.as_slice())?;
    let kept = kept_rows(alloc, source.on.as_slice(), pairs.as_slice())?;
    if source.pads && kept.rows.is_empty() && kept.faults.is_empty() {
        let mut rows = Vec::new(alloc);
        rows.push(padded_row(left, source.width)?)?;
        return Ok(Answer::of_rows(alloc, rows));
    }
    Ok(kept)
}

fn add_met(
    alloc: Global,
    source: &Source<'_>,
    left: &Row,
    into: &mut Answer,
) -> Result<(), OutOfMemory>
    requires { AreReadyPairs source.now left.now }
    ensures { OnOk result (Adds into.old into.new (met (source_in source.now) left.now)) }
{
    let more = meet(alloc, source, left)?;
    add_answer(into, more)
}

/// A source joined to these rows.
pub fn join(alloc: Global, source: &Source<'_>, lefts: &[Row]) -> Result<Answer, OutOfMemory>
    requires { All (AreReadyPairs source.now) lefts.now }
    ensures { IfOk result (λ answer. found_in answer ≡ joined (source_in source.now) lefts.now) }
{
    let mut answer = Answer::new_answer(alloc);
    for left in lefts {
        add_met(alloc, source, left, &mut answer)?;
    }
    Ok(answer)
}

// A source joined to the rows of an answer, whose faults stay noted.
fn join_behind(alloc: Global, source: &Source<'_>, lefts: Answer) -> Result<Answer, OutOfMemory>
    requires { All (AreReadyPairs source.now) lefts.rows.items }
    ensures { IfOk result (λ answer. found_in answer ≡ and_then (found_in lefts) (joined (source_in source.now))) }
{
    let joined = join(alloc, source, lefts.rows.as_slice())?;
    let mut faults = lefts.faults;
    add_faults(joined.faults.as_slice(), &mut faults)?;
    Ok(Answer {
        rows: joined.rows,
        faults,
    })
}

// One row without columns.
fn bare_row(alloc: Global) -> Result<Answer, OutOfMemory>
    ensures { IfOk result (λ answer. found_in answer ≡ clean ([] ∷ [])) }
{
    let mut rows = Vec::new(alloc);
    rows.push(Row::new_row(alloc))?;
    Ok(Answer::of_rows(alloc, rows))
}

/// The joined rows of all sources, in written order, and the faults of their conditions.
pub fn from_rows(alloc: Global, sources: &[Source<'_>]) -> Result<Answer, OutOfMemory>
    requires { IsFrom sources.now }
    ensures { IfOk result (λ answer. found_in answer ≡ rows_of_from (map source_in sources.now)) }
{
    let mut answer = bare_row(alloc)?;
    for source in sources {
        answer = join_behind(alloc, source, answer)?;
    }
    Ok(answer)
}
