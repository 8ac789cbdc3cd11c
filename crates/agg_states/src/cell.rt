//! Cells of aggregates.
ghost use Rattle.std.specs.Prelude.{◌≡◌, ◌<◌, ◌+ℤ◌, FitsSigned, OnOk, OnErr, IfOk, if◌then◌else◌};
ghost use Rattle.std.specs.Int.{w128};
ghost use Rattle.std.specs.Ordering.{is_gt};
ghost use Rattle.ooc_types.specs.Strict.{scale_in, strict_cmp};
ghost use Rattle.ooc_types.specs.declared.value.Value.TheVariants.{Number};
ghost use Rattle.agg_states.specs.Aggregates as spec;
ghost use Rattle.agg_states.specs.Aggregates.{past};
ghost use Rattle.agg_states.specs.Tally.{nearest_value, pick, plus, both, cell_of, row_limit};
ghost use Rattle.agg_states.specs.Bounds.{IsSound, IsOfForm};
ghost use Rattle.agg_states.specs.declared.kind.AggKind.TheVariants.{CountRows};
ghost use Rattle.agg_states.specs.Cells.{IsText, TakesMemory, SumFits, HasRoomFor, CanJoin};

use crate::kind::{AggKind, Best};
use date_values::nearest_day;
use ooc_decimal::nearest_number;
use ooc_types::{OutOfMemory, SqlType, Value, cmp_values};
use std::cmp::Ordering;

fn is_null(value: &Value) -> bool
    ensures { result ≡ spec.is_null value.now }
{
    match value {
        Value::Null => true,
        Value::Truth(_) | Value::Number { .. } | Value::Day(_) | Value::Text(_) => false,
    }
}

/// A copy of a value. Only a text takes memory.
pub fn copy_value(value: &Value) -> Result<Value, OutOfMemory>
    ensures ok { IfOk result (λ v. v ≡ value.now) }
    ensures err { OnErr result (IsText value.now) }
{
    match value {
        Value::Null => Ok(Value::Null),
        Value::Truth(truth) => Ok(Value::Truth(*truth)),
        Value::Number { digits, scale } => Ok(Value::Number {
            digits: *digits,
            scale: *scale,
        }),
        Value::Day(day) => Ok(Value::Day(*day)),
        Value::Text(text) => Ok(Value::Text(text.clone()?)),
    }
}

// Adds a number to a cell of numbers.
fn add_number(cell: &mut Value, digits: i128, scale: u8)
    requires { SumFits cell.old digits }
    ensures { cell.new ≡ plus cell.old (Number digits scale) }
{
    match cell {
        Value::Number { digits: total, .. } => *total += digits,
        Value::Null => *cell = Value::Number { digits, scale },
        Value::Truth(_) | Value::Day(_) | Value::Text(_) => {}
    }
}

// Adds what is a number to a cell of numbers.
fn add_cell(cell: &mut Value, other: &Value)
    requires { HasRoomFor cell.old other.now }
    ensures { cell.new ≡ plus cell.old other.now }
{
    if let Value::Number { digits, scale } = other {
        add_number(cell, *digits, *scale);
    }
}

/// Puts two cells together.
pub fn join(kind: AggKind, cell: &mut Value, other: Value)
    requires { CanJoin kind cell.old other }
    ensures { cell.new ≡ both kind cell.old other }
{
    match kind {
        AggKind::CountRows => add_cell(cell, &other),
        AggKind::Count => add_cell(cell, &other),
        AggKind::Sum => add_cell(cell, &other),
        AggKind::Min => keep(Best::Least, cell, other),
        AggKind::Max => keep(Best::Most, cell, other),
    }
}

/// Takes a value into the cell of an aggregate of so many rows. Only the least and the greatest of texts take memory.
pub fn take(
    kind: AggKind,
    of: SqlType,
    rows: u64,
    cell: &mut Value,
    value: &Value,
) -> Result<(), OutOfMemory>
    requires sound { IsSound kind of rows cell.old }
    requires room { rows < row_limit }
    requires form { (kind ≡ CountRows → ⊥) → IsOfForm of value.now }
    ensures ok { OnOk result (cell.new ≡ both kind cell.old (cell_of kind of value.now)) }
    ensures err { OnErr result ((cell.new ≡ cell.old) × TakesMemory kind value.now) }
{
    match kind {
        AggKind::CountRows => add_number(cell, 1, 0),
        AggKind::Count => {
            if !is_null(value) {
                add_number(cell, 1, 0);
            }
        }
        AggKind::Sum => {
            if let Value::Number { digits, scale } = value {
                add_number(cell, nearest_number(*digits, of), *scale);
            }
        }
        AggKind::Min => return take_value(Best::Least, cell, value, of),
        AggKind::Max => return take_value(Best::Most, cell, value, of),
    }
    Ok(())
}

fn scale_of(value: &Value) -> u8
    ensures { result ≡ scale_in value.now }
{
    match value {
        Value::Number { scale, .. } => *scale,
        Value::Null | Value::Truth(_) | Value::Day(_) | Value::Text(_) => 0,
    }
}

// Whether the first value is past the second one, in the strict order.
fn is_past(first: &Value, second: &Value) -> bool
    ensures { result ≡ is_gt (strict_cmp first.now second.now) }
{
    match cmp_values(first, second) {
        Ordering::Less => false,
        Ordering::Equal => scale_of(first) > scale_of(second),
        Ordering::Greater => true,
    }
}

// Whether a value is better than the cell.
fn is_better(best: Best, cell: &Value, value: &Value) -> bool
    ensures { result ≡ is_gt (past best cell.now value.now) }
{
    match best {
        Best::Least => is_past(cell, value),
        Best::Most => is_past(value, cell),
    }
}

// Whether a value takes the place of the cell.
fn replaces(best: Best, cell: &Value, value: &Value) -> bool
    ensures { (if result then value.now else cell.now) ≡ pick best cell.now value.now }
{
    !is_null(value) && (is_null(cell) || is_better(best, cell, value))
}

// Keeps the better of the cell and a value.
fn keep(best: Best, cell: &mut Value, value: Value)
    ensures { cell.new ≡ pick best cell.old value }
{
    if replaces(best, cell, &value) {
        *cell = value;
    }
}

// Keeps the better of the cell and a value, as the nearest value of its type. Only a text takes memory.
fn take_value(best: Best, cell: &mut Value, value: &Value, of: SqlType) -> Result<(), OutOfMemory>
    ensures ok { OnOk result (cell.new ≡ pick best cell.old (nearest_value of value.now)) }
    ensures err { OnErr result ((cell.new ≡ cell.old) × IsText value.now) }
{
    match value {
        Value::Null => Ok(()),
        Value::Truth(truth) => {
            keep(best, cell, Value::Truth(*truth));
            Ok(())
        }
        Value::Number { digits, scale } => {
            let nearest = nearest_number(*digits, of);
            keep(
                best,
                cell,
                Value::Number {
                    digits: nearest,
                    scale: *scale,
                },
            );
            Ok(())
        }
        Value::Day(day) => {
            keep(best, cell, Value::Day(nearest_day(*day)));
            Ok(())
        }
        Value::Text(_) => take_text(best, cell, value),
    }
}

// The same for a text, which is copied only where it takes the place of the cell.
fn take_text(best: Best, cell: &mut Value, value: &Value) -> Result<(), OutOfMemory>
    ensures ok { OnOk result (cell.new ≡ pick best cell.old value.now) }
    ensures err { OnErr result ((cell.new ≡ cell.old) × IsText value.now) }
{
    if replaces(best, cell, value) {
        *cell = copy_value(value)?;
    }
    Ok(())
}
