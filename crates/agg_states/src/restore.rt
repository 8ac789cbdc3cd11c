//! Cells that were kept elsewhere, and may have been changed there.
ghost use Rattle.std.specs.Prelude.{◌≡◌, ◌↔◌, true, ◌*◌, ◌≤◌, pos, neg_ℤ, ◌≤ℤ◌};
ghost use Rattle.ooc_decimal.specs.Ends as ends;
ghost use Rattle.agg_states.specs.Bounds.{CanStart, IsCell, IsSummable, IsOfForm, FitsCell};
ghost use Rattle.ooc_types.specs.declared.value.Value.TheVariants.{Day};
ghost use Rattle.agg_states.specs.Restored.{IsRestoredValue, IsRestoredCell};
ghost use Rattle.agg_states.specs.Tally as spec;
ghost use Rattle.agg_states.specs.Tally.{row_limit};

use crate::kind::AggKind;
use crate::state::ROW_LIMIT;
use ooc_decimal::{greatest, least, scale};
use ooc_types::{SqlType, Value};

// The number itself, or the nearest of two ends.
fn between(low: i128, high: i128, digits: i128) -> i128
    ensures { result ≡ ends.between low high digits }
{
    if digits < low {
        return low;
    }
    if high < digits { high } else { digits }
}

/// A number of rows, from 0 to the limit.
pub fn restored_rows(rows: i128) -> u64
    ensures value { result ≡ spec.restored_rows rows }
    ensures few { result ≤ row_limit }
{
    between(0, ROW_LIMIT as i128, rows) as u64
}

// A count of some of the rows. It is never NULL, so what has another form counts nothing.
fn restored_count(rows: u64, kept: &Value) -> Value
    ensures { result ≡ spec.restored_count rows kept.now }
{
    let digits = match kept {
        Value::Number { digits, scale: 0 } => between(0, rows as i128, *digits),
        _ => 0,
    };
    Value::Number { digits, scale: 0 }
}

fn lowest_sum(of: SqlType, rows: u64) -> i128
    requires few { rows ≤ row_limit }
    requires summable { IsSummable of }
    ensures { result ≡ neg_ℤ (pos (rows * ends.below_of of)) }
{
    rows as i128 * least(of)
}

fn highest_sum(of: SqlType, rows: u64) -> i128
    requires few { rows ≤ row_limit }
    requires summable { IsSummable of }
    ensures { result ≡ pos (rows * ends.most_of of) }
{
    rows as i128 * greatest(of)
}

// A sum of so many numbers of the type.
fn restored_sum(of: SqlType, rows: u64, kept: &Value) -> Value
    requires few { rows ≤ row_limit }
    requires summable { IsSummable of }
    ensures { result ≡ spec.restored_sum of rows kept.now }
{
    match kept {
        Value::Number {
            digits,
            scale: places,
        } if *places == scale(of) => {
            Value::Number {
                digits: between(lowest_sum(of, rows), highest_sum(of, rows), *digits),
                scale: *places,
            }
        }
        _ => Value::Null,
    }
}

// Whether a number fits the type's cell.
fn fits_cell(of: SqlType, digits: i128) -> bool
    ensures { (result ≡ true) ↔ FitsCell of digits }
{
    match of {
        SqlType::Integer => i32::try_from(digits).is_ok(),
        SqlType::BigInt => i64::try_from(digits).is_ok(),
        SqlType::HugeInt => true,
        SqlType::Decimal { width, .. } => width > 18 || i64::try_from(digits).is_ok(),
        SqlType::Boolean | SqlType::Date | SqlType::Varchar => false,
    }
}

// A day has the form of DATE, whatever its number.
fn fits_day(of: SqlType, _day: i32) -> bool
    ensures { (result ≡ true) ↔ IsOfForm of (Day _day) }
{
    of == SqlType::Date
}

fn is_of_form(of: SqlType, value: &Value) -> bool
    ensures { (result ≡ true) ↔ IsOfForm of value.now }
{
    match value {
        Value::Null => true,
        Value::Truth(_) => of == SqlType::Boolean,
        Value::Number {
            digits,
            scale: places,
        } => *places == scale(of) && fits_cell(of, *digits),
        Value::Day(day) => fits_day(of, *day),
        Value::Text(_) => of == SqlType::Varchar,
    }
}

// The value itself, or NULL where it hasn't the type's form.
fn restored_value(of: SqlType, kept: Value) -> Value
    ensures restored { IsRestoredValue of kept result }
    ensures formed { IsOfForm of result }
{
    if is_of_form(of, &kept) {
        kept
    } else {
        Value::Null
    }
}

/// The cell of an aggregate of so many rows.
pub fn restored_cell(kind: AggKind, of: SqlType, rows: u64, kept: Value) -> Value
    requires few { rows ≤ row_limit }
    requires start { CanStart kind of }
    ensures restored { IsRestoredCell kind of rows kept result }
    ensures sound { IsCell kind of rows result }
{
    match kind {
        AggKind::CountRows => restored_count(rows, &kept),
        AggKind::Count => restored_count(rows, &kept),
        AggKind::Sum => restored_sum(of, rows, &kept),
        AggKind::Min => restored_value(of, kept),
        AggKind::Max => restored_value(of, kept),
    }
}
