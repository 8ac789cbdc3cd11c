//! GROUP BY.
ghost use Rattle.std.specs.Prelude.{◌≡◌, ◌++◌, All, IfOk, OnOk, flat_map, map, [], ◌∷◌};
ghost use Rattle.sql_meaning.specs.Found.{clean, if_clean};
ghost use Rattle.sql_meaning.specs.Groups.{group_faults, group_row as row_of_group, grouped, rows_of as rows_among};
ghost use Rattle.sql_meaning.specs.Statements.{aggregation_of, grouping_of};
ghost use Rattle.plain_rows.specs.Answers.{found_in};
ghost use Rattle.plain_groups.specs.Keys.{one_in};
ghost use Rattle.plain_groups.specs.Grouped.{CanGroup, CanGroupKeyed, groups_of_keys};
ghost use Rattle.plain_groups.specs.Sums.{CanAggregate, FitsRows};

use crate::aggregate::group_row;
use crate::keyed::{Keyed, key_rows, keys_of, rows_of};
use crate::noted::note_group;
use bound_tree::{Aggregate, Grouping};
use ooc_types::{OutOfMemory, Row};
use plain_rows::Answer;
use sql_expr::ValueFault;
use std::alloc::Global;

fn note_key(
    alloc: Global,
    aggregates: &[Aggregate],
    keyed: &[Keyed],
    key: &Row,
    into: &mut Vec<ValueFault>,
) -> Result<(), OutOfMemory>
    requires { All (FitsRows (rows_among key.now (map one_in keyed.now))) aggregates.now }
    ensures { OnOk result (into.new.items ≡ into.old.items ++ group_faults (map aggregation_of aggregates.now) (rows_among key.now (map one_in keyed.now))) }
{
    let rows = rows_of(alloc, key.as_slice(), keyed)?;
    note_group(alloc, aggregates, rows.as_slice(), into)
}

// Notes the faults of each group.
fn note_keys(
    alloc: Global,
    aggregates: &[Aggregate],
    keyed: &[Keyed],
    keys: &[Row],
    into: &mut Vec<ValueFault>,
) -> Result<(), OutOfMemory>
    requires { All (λ key. All (FitsRows (rows_among key (map one_in keyed.now))) aggregates.now) keys.now }
    ensures { OnOk result (into.new.items ≡ into.old.items ++ flat_map (λ key. group_faults (map aggregation_of aggregates.now) (rows_among key (map one_in keyed.now))) keys.now) }
{
    for key in keys {
        note_key(alloc, aggregates, keyed, key, into)?;
    }
    Ok(())
}

fn key_row(
    alloc: Global,
    aggregates: &[Aggregate],
    keyed: &[Keyed],
    key: &Row,
) -> Result<Row, OutOfMemory>
    requires { All (CanAggregate (rows_among key.now (map one_in keyed.now))) aggregates.now }
    ensures { IfOk result (λ row. row ≡ row_of_group (map aggregation_of aggregates.now) key.now (rows_among key.now (map one_in keyed.now))) }
{
    let rows = rows_of(alloc, key.as_slice(), keyed)?;
    group_row(alloc, aggregates, key, rows.as_slice())
}

// The row of each group.
fn group_rows(
    alloc: Global,
    aggregates: &[Aggregate],
    keyed: &[Keyed],
    keys: &[Row],
) -> Result<Vec<Row>, OutOfMemory>
    requires { All (λ key. All (CanAggregate (rows_among key (map one_in keyed.now))) aggregates.now) keys.now }
    ensures { IfOk result (λ rows. rows.items ≡ flat_map (λ key. row_of_group (map aggregation_of aggregates.now) key (rows_among key (map one_in keyed.now)) ∷ []) keys.now) }
{
    let mut rows = Vec::new(alloc);
    for key in keys {
        rows.push(key_row(alloc, aggregates, keyed, key)?)?;
    }
    Ok(rows)
}

// The groups of these keys, behind faults that were noted. Where one was noted there are no rows.
fn group_keys(
    alloc: Global,
    aggregates: &[Aggregate],
    keyed: &[Keyed],
    keys: &[Row],
    noted: Vec<ValueFault>,
) -> Result<Answer, OutOfMemory>
    requires { CanGroupKeyed aggregates.now (map one_in keyed.now) keys.now }
    ensures { IfOk result (λ answer. found_in answer ≡ if_clean (groups_of_keys (map aggregation_of aggregates.now) (map one_in keyed.now) noted.items keys.now) clean) }
{
    let mut faults = noted;
    note_keys(alloc, aggregates, keyed, keys, &mut faults)?;
    if faults.is_empty() {
        let rows = group_rows(alloc, aggregates, keyed, keys)?;
        return Ok(Answer { rows, faults });
    }
    Ok(Answer {
        rows: Vec::new(alloc),
        faults,
    })
}

/// One row for each key: the key, and then the aggregates. Where a fault was noted there are no rows.
pub fn group(alloc: Global, grouping: &Grouping, rows: &[Row]) -> Result<Answer, OutOfMemory>
    requires { CanGroup grouping.now rows.now }
    ensures { IfOk result (λ answer. found_in answer ≡ if_clean (grouped (grouping_of grouping.now) rows.now) clean) }
{
    let found = key_rows(alloc, grouping.keys.as_slice(), rows)?;
    let keys = keys_of(alloc, grouping.keys.as_slice(), found.rows.as_slice())?;
    let noted = found.faults;
    group_keys(
        alloc,
        grouping.aggregates.as_slice(),
        found.rows.as_slice(),
        keys.as_slice(),
        noted,
    )
}
