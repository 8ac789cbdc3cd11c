//! The arguments of an aggregate.
ghost use Rattle.std.specs.Prelude.{◌≡◌, [], ◌∷◌, ◌++◌, All, IfOk, OnOk, IfSome};
ghost use Rattle.std.specs.Option.{option_map};
ghost use Rattle.ooc_bags.specs.Firsts.{firsts_by};
ghost use Rattle.ooc_bags.specs.Rows.{value_eq};
ghost use Rattle.sql_expr.specs.Outcomes.{Tells};
ghost use Rattle.sql_meaning.specs.Groups.{argument as argument_in, arguments as arguments_of, perhaps_once as once_if, value_found, values_taken};
ghost use Rattle.sql_meaning.specs.Statements.{aggregation_of, row_value_of, takes_once as is_taken_once};
ghost use Rattle.plain_groups.specs.Arguments.{AddsValue, FitsArgument, found_values, other_values};

use bound_tree::{Aggregate, AggregateKind};
use ooc_types::{OutOfMemory, Row, Value};
use sql_expr::{EvalFault, Expr, ValueFault, eval};
use sqlite_items::Boxed;
use std::alloc::Global;

/// The values of an argument, and the faults of the rows that have one.
#[derive(Drop)]
pub struct ValuesFound {
    pub values: Vec<Value>,
    pub faults: Vec<ValueFault>,
}

fn argument(of: &Option<Boxed<Expr>>, row: &[Value]) -> Result<Value, EvalFault>
    requires { IfSome of.now (FitsArgument row.now) }
    ensures { Tells (argument_in (option_map row_value_of of.now) row.now) result }
{
    match of {
        Some(expr) => eval(expr.get(), row),
        None => Ok(Value::Null),
    }
}

fn add_argument(
    of: &Option<Boxed<Expr>>,
    row: &[Value],
    into: &mut ValuesFound,
) -> Result<(), OutOfMemory>
    requires { IfSome of.now (FitsArgument row.now) }
    ensures { OnOk result (AddsValue into.old into.new (value_found (argument_in (option_map row_value_of of.now) row.now))) }
{
    match argument(of, row) {
        Ok(value) => {
            into.values.push(value)?;
            Ok(())
        }
        Err(EvalFault::Fault(fault)) => {
            into.faults.push(fault)?;
            Ok(())
        }
        Err(EvalFault::OutOfMemory) => Err(OutOfMemory),
    }
}

/// The values that an argument has over these rows, and its faults.
pub fn arguments(
    alloc: Global,
    of: &Option<Boxed<Expr>>,
    rows: &[Row],
) -> Result<ValuesFound, OutOfMemory>
    requires { All (λ row. IfSome of.now (FitsArgument row)) rows.now }
    ensures { IfOk result (λ found. found_values found ≡ arguments_of (option_map row_value_of of.now) rows.now) }
{
    let mut found = ValuesFound {
        values: Vec::new(alloc),
        faults: Vec::new(alloc),
    };
    for row in rows {
        add_argument(of, row.as_slice(), &mut found)?;
    }
    Ok(found)
}

fn same_value(a: &Value, b: &Value) -> bool
    ensures { result ≡ value_eq a.now b.now }
{
    *a == *b
}

fn copy_value(value: &Value) -> Result<Value, OutOfMemory>
    ensures { IfOk result (λ copy. copy ≡ value.now) }
{
    let copy = value.clone()?;
    Ok(copy)
}

// Adds a value where it isn't this one.
fn add_other(value: &Value, other: &Value, into: &mut Vec<Value>) -> Result<(), OutOfMemory>
    ensures { OnOk result (into.new.items ≡ into.old.items ++ other_values value.now (other.now ∷ [])) }
{
    if !same_value(value, other) {
        into.push(copy_value(other)?)?;
    }
    Ok(())
}

// A value, and behind it those that aren't this one.
fn value_and_others(
    alloc: Global,
    value: &Value,
    values: &[Value],
) -> Result<Vec<Value>, OutOfMemory>
    ensures { IfOk result (λ all. all.items ≡ value.now ∷ other_values value.now values.now) }
{
    let mut all = Vec::new(alloc);
    all.push(copy_value(value)?)?;
    for other in values {
        add_other(value, other, &mut all)?;
    }
    Ok(all)
}

// The values, each once, in the order of first sight.
fn distinct_values(alloc: Global, values: &[Value]) -> Result<Vec<Value>, OutOfMemory>
    ensures { IfOk result (λ distinct. distinct.items ≡ firsts_by value_eq values.now) }
{
    let mut distinct = Vec::new(alloc);
    let mut at = values.len();
    while at > 0 {
        at -= 1;
        distinct = value_and_others(alloc, &values[at], distinct.as_slice())?;
    }
    Ok(distinct)
}

fn perhaps_once(alloc: Global, once: bool, values: Vec<Value>) -> Result<Vec<Value>, OutOfMemory>
    ensures { IfOk result (λ taken. taken.items ≡ once_if once values.items) }
{
    if once {
        return distinct_values(alloc, values.as_slice());
    }
    Ok(values)
}

/// Whether an aggregate takes each value once.
pub fn takes_once(kind: AggregateKind) -> bool
    ensures { result ≡ is_taken_once kind }
{
    match kind {
        AggregateKind::CountDistinct => true,
        AggregateKind::CountRows
        | AggregateKind::Count
        | AggregateKind::Sum
        | AggregateKind::Min
        | AggregateKind::Max => false,
    }
}

/// The values that an aggregate takes of the rows of a group.
pub fn taken_values(
    alloc: Global,
    aggregate: &Aggregate,
    rows: &[Row],
) -> Result<Vec<Value>, OutOfMemory>
    requires { All (λ row. IfSome aggregate.now.of (FitsArgument row)) rows.now }
    ensures { IfOk result (λ taken. taken.items ≡ values_taken (aggregation_of aggregate.now) rows.now) }
{
    let found = arguments(alloc, &aggregate.of, rows)?;
    perhaps_once(alloc, takes_once(aggregate.kind), found.values)
}
