//! The faults of a group.
ghost use Rattle.std.specs.Prelude.{◌≡◌, ◌++◌, All, IfOk, OnOk, nat_lt, flat_map, map};
ghost use Rattle.std.specs.List.{list_any};
ghost use Rattle.sql_meaning.specs.Groups.{arguments as arguments_of, group_faults, most_rows, rows_counted};
ghost use Rattle.sql_meaning.specs.Statements.{aggregation_of};
ghost use Rattle.plain_groups.specs.Sums.{FitsRows};

use crate::arguments::{arguments, taken_values, takes_once};
use bound_tree::Aggregate;
use ooc_types::{OutOfMemory, Row};
use plain_rows::add_faults;
use sql_expr::ValueFault;
use std::alloc::Global;

// How many rows an aggregate counts: those of the group, or of the different values.
fn counted_rows(alloc: Global, aggregate: &Aggregate, rows: &[Row]) -> Result<usize, OutOfMemory>
    requires { FitsRows rows.now aggregate.now }
    ensures { IfOk result (λ counted. counted ≡ rows_counted rows.now (aggregation_of aggregate.now)) }
{
    if takes_once(aggregate.kind) {
        let values = taken_values(alloc, aggregate, rows)?;
        return Ok(values.len());
    }
    Ok(rows.len())
}

fn counts_too_many(alloc: Global, aggregate: &Aggregate, rows: &[Row]) -> Result<bool, OutOfMemory>
    requires { FitsRows rows.now aggregate.now }
    ensures { IfOk result (λ too_many. too_many ≡ nat_lt most_rows (rows_counted rows.now (aggregation_of aggregate.now))) }
{
    let counted = counted_rows(alloc, aggregate, rows)?;
    Ok(counted as u64 > 100_000_000_000)
}

fn any_counts_too_many(
    alloc: Global,
    aggregates: &[Aggregate],
    rows: &[Row],
) -> Result<bool, OutOfMemory>
    requires { All (FitsRows rows.now) aggregates.now }
    ensures { IfOk result (λ any. any ≡ list_any (λ aggregate. nat_lt most_rows (rows_counted rows.now aggregate)) (map aggregation_of aggregates.now)) }
{
    for aggregate in aggregates {
        let too_many = counts_too_many(alloc, aggregate, rows)?;
        if too_many {
            return Ok(true);
        }
    }
    Ok(false)
}

fn note_arguments(
    alloc: Global,
    aggregate: &Aggregate,
    rows: &[Row],
    into: &mut Vec<ValueFault>,
) -> Result<(), OutOfMemory>
    requires { FitsRows rows.now aggregate.now }
    ensures { OnOk result (into.new.items ≡ into.old.items ++ (arguments_of (aggregation_of aggregate.now).of rows.now).faults) }
{
    let found = arguments(alloc, &aggregate.of, rows)?;
    add_faults(found.faults.as_slice(), into)
}

fn note_all_arguments(
    alloc: Global,
    aggregates: &[Aggregate],
    rows: &[Row],
    into: &mut Vec<ValueFault>,
) -> Result<(), OutOfMemory>
    requires { All (FitsRows rows.now) aggregates.now }
    ensures { OnOk result (into.new.items ≡ into.old.items ++ flat_map (λ aggregate. (arguments_of aggregate.of rows.now).faults) (map aggregation_of aggregates.now)) }
{
    for aggregate in aggregates {
        note_arguments(alloc, aggregate, rows, into)?;
    }
    Ok(())
}

/// Notes the arguments of a group's aggregates that fault, and CountOverflow where one counts too many rows.
pub fn note_group(
    alloc: Global,
    aggregates: &[Aggregate],
    rows: &[Row],
    into: &mut Vec<ValueFault>,
) -> Result<(), OutOfMemory>
    requires { All (FitsRows rows.now) aggregates.now }
    ensures { OnOk result (into.new.items ≡ into.old.items ++ group_faults (map aggregation_of aggregates.now) rows.now) }
{
    note_all_arguments(alloc, aggregates, rows, into)?;
    let too_many = any_counts_too_many(alloc, aggregates, rows)?;
    if too_many {
        into.push(ValueFault::CountOverflow)?;
    }
    Ok(())
}
