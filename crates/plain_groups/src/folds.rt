//! Aggregates as folds over their values.
ghost use Rattle.std.specs.Prelude.{◌≡◌, ◌+ℤ◌, FitsSigned, IfOk, IfSome, pos};
ghost use Rattle.std.specs.Int.{w128};
ghost use Rattle.std.specs.Ordering.{is_gt};
ghost use Rattle.ooc_types.specs.Strict.{strict_cmp};
ghost use Rattle.ooc_types.specs.declared.value.Value.TheVariants.{Number};
ghost use Rattle.sql_expr.specs.Outcomes.{digits_of as digits_in};
ghost use Rattle.sql_meaning.specs.Aggregates.{either_of, finished, greater, lesser, or_null as value_or_null, present_value, state_of, sum_value as value_of_sum};
ghost use Rattle.sql_meaning.specs.Statements.{agg_kind_of};
ghost use Rattle.bound_tree.specs.declared.kinds.AggregateKind.TheVariants.{Sum};
ghost use Rattle.plain_groups.specs.Sums.{HasSums};

use bound_tree::AggregateKind;
use ooc_types::{OutOfMemory, Value};
use plain_rows::{cmp_strictly, is_null};
use std::cmp::Ordering;

// How many of the values aren't NULL.
fn count_present(values: &[Value]) -> u64
    ensures { result ≡ (state_of values.now).present }
{
    let mut count = 0;
    for value in values {
        if !is_null(value) {
            count += 1;
        }
    }
    count
}

fn digits_of(value: &Value) -> Option<i128>
    ensures { result ≡ digits_in value.now }
{
    match value {
        Value::Number { digits, .. } => Some(*digits),
        Value::Day(day) => Some(i128::from(*day)),
        Value::Null | Value::Truth(_) | Value::Text(_) => None,
    }
}

fn add_digits(total: Option<i128>, more: Option<i128>) -> Option<i128>
    requires { IfSome (either_of ◌+ℤ◌ total more) (FitsSigned w128) }
    ensures { result ≡ either_of ◌+ℤ◌ total more }
{
    match (total, more) {
        (None, more) => more,
        (Some(total), None) => Some(total),
        (Some(total), Some(more)) => Some(total + more),
    }
}

// The sum of the digits, if there is a number.
fn total(values: &[Value]) -> Option<i128>
    requires { HasSums values.now }
    ensures { result ≡ (state_of values.now).total }
{
    let mut total = None;
    for value in values {
        total = add_digits(total, digits_of(value));
    }
    total
}

fn copy_value(value: &Value) -> Result<Value, OutOfMemory>
    ensures { IfOk result (λ copy. copy ≡ value.now) }
{
    let copy = value.clone()?;
    Ok(copy)
}

// Whether the first value is past the other.
fn is_past(first: &Value, other: &Value) -> bool
    ensures { result ≡ is_gt (strict_cmp first.now other.now) }
{
    match cmp_strictly(first, other) {
        Ordering::Greater => true,
        Ordering::Less | Ordering::Equal => false,
    }
}

fn lesser_of(least: Value, value: &Value) -> Result<Value, OutOfMemory>
    ensures { IfOk result (λ one. one ≡ lesser least value.now) }
{
    if is_past(&least, value) {
        return copy_value(value);
    }
    Ok(least)
}

fn greater_of(most: Value, value: &Value) -> Result<Value, OutOfMemory>
    ensures { IfOk result (λ one. one ≡ greater most value.now) }
{
    if is_past(&most, value) {
        return Ok(most);
    }
    copy_value(value)
}

fn least_with(least: Option<Value>, value: &Value) -> Result<Option<Value>, OutOfMemory>
    ensures { IfOk result (λ one. one ≡ either_of lesser least (present_value value.now)) }
{
    if is_null(value) {
        return Ok(least);
    }
    match least {
        Some(least) => Ok(Some(lesser_of(least, value)?)),
        None => Ok(Some(copy_value(value)?)),
    }
}

fn most_with(most: Option<Value>, value: &Value) -> Result<Option<Value>, OutOfMemory>
    ensures { IfOk result (λ one. one ≡ either_of greater most (present_value value.now)) }
{
    if is_null(value) {
        return Ok(most);
    }
    match most {
        Some(most) => Ok(Some(greater_of(most, value)?)),
        None => Ok(Some(copy_value(value)?)),
    }
}

fn least(values: &[Value]) -> Result<Option<Value>, OutOfMemory>
    ensures { IfOk result (λ least. least ≡ (state_of values.now).least) }
{
    let mut least = None;
    for value in values {
        least = least_with(least, value)?;
    }
    Ok(least)
}

fn most(values: &[Value]) -> Result<Option<Value>, OutOfMemory>
    ensures { IfOk result (λ most. most ≡ (state_of values.now).most) }
{
    let mut most = None;
    for value in values {
        most = most_with(most, value)?;
    }
    Ok(most)
}

fn or_null(value: Option<Value>) -> Value
    ensures { result ≡ value_or_null value }
{
    match value {
        Some(value) => value,
        None => Value::Null,
    }
}

fn sum_value(scale: u8, total: Option<i128>) -> Value
    ensures { result ≡ value_of_sum scale total }
{
    match total {
        Some(digits) => Value::Number { digits, scale },
        None => Value::Null,
    }
}

fn count_value(count: u64) -> Value
    ensures { result ≡ Number (pos count) 0 }
{
    Value::Number {
        digits: i128::from(count),
        scale: 0,
    }
}

// How many values there are.
fn count_taken(values: &[Value]) -> u64
    ensures { result ≡ (state_of values.now).taken }
{
    values.len() as u64
}

/// What an aggregate says of the values that it takes; `scale` is that of its argument.
pub fn finish(kind: AggregateKind, scale: u8, values: &[Value]) -> Result<Value, OutOfMemory>
    requires { kind ≡ Sum → HasSums values.now }
    ensures { IfOk result (λ value. value ≡ finished (agg_kind_of kind) scale (state_of values.now)) }
{
    match kind {
        AggregateKind::CountRows => Ok(count_value(count_taken(values))),
        AggregateKind::Count => Ok(count_value(count_present(values))),
        AggregateKind::CountDistinct => Ok(count_value(count_present(values))),
        AggregateKind::Sum => Ok(sum_value(scale, total(values))),
        AggregateKind::Min => Ok(or_null(least(values)?)),
        AggregateKind::Max => Ok(or_null(most(values)?)),
    }
}
