//! The aggregates of a group.
ghost use Rattle.std.specs.Prelude.{◌≡◌, All, IfOk, IfSome, map};
ghost use Rattle.ooc_decimal.specs.Numeric.{scale_of as scale_in};
ghost use Rattle.bound_tree.specs.declared.kinds.AggregateKind.TheVariants.{Sum};
ghost use Rattle.sql_meaning.specs.Groups.{aggregated, group_row as row_of_group, values_taken};
ghost use Rattle.sql_meaning.specs.Statements.{aggregation_of, argument_scale as scale_of_argument};
ghost use Rattle.plain_groups.specs.Sums.{CanAggregate};

use crate::arguments::taken_values;
use crate::folds::finish;
use bound_tree::Aggregate;
use ooc_types::{OutOfMemory, Row, SqlType, Value};
use plain_rows::copy_row;
use sql_expr::{Expr, kind_of};
use sqlite_items::Boxed;
use std::alloc::Global;

fn scale_of(kind: SqlType) -> u8
    ensures { result ≡ scale_in kind }
{
    match kind {
        SqlType::Decimal { scale, .. } => scale,
        SqlType::Boolean
        | SqlType::Integer
        | SqlType::BigInt
        | SqlType::HugeInt
        | SqlType::Date
        | SqlType::Varchar => 0,
    }
}

fn argument_scale(of: &Option<Boxed<Expr>>) -> u8
    ensures { result ≡ scale_of_argument of.now }
{
    match of {
        Some(expr) => scale_of(kind_of(expr.get())),
        None => 0,
    }
}

/// What an aggregate says of the rows of a group.
pub fn aggregate_rows(
    alloc: Global,
    aggregate: &Aggregate,
    rows: &[Row],
) -> Result<Value, OutOfMemory>
    requires { CanAggregate rows.now aggregate.now }
    ensures { IfOk result (λ value. value ≡ aggregated rows.now (aggregation_of aggregate.now)) }
{
    let values = taken_values(alloc, aggregate, rows)?;
    finish(
        aggregate.kind,
        argument_scale(&aggregate.of),
        values.as_slice(),
    )
}

/// The key of a group, and then its aggregates.
pub fn group_row(
    alloc: Global,
    aggregates: &[Aggregate],
    key: &Row,
    rows: &[Row],
) -> Result<Row, OutOfMemory>
    requires { All (CanAggregate rows.now) aggregates.now }
    ensures { IfOk result (λ row. row ≡ row_of_group (map aggregation_of aggregates.now) key.now rows.now) }
{
    let mut row = copy_row(key)?;
    for aggregate in aggregates {
        row.push(aggregate_rows(alloc, aggregate, rows)?)?;
    }
    Ok(row)
}
