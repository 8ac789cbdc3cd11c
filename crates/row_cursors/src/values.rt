//! Values of SQL, and the cells that they are kept in.
ghost use Rattle.std.specs.Prelude.{◌≡◌, ◌++◌, ℕ, List, IfOk, OnOk, length, map};
ghost use Rattle.ooc_types.specs.Meets.{Meets};
ghost use Rattle.std.specs.Int.{w32};
ghost use Rattle.std.specs.Int.RustNames.{FitsSigned};
ghost use Rattle.rebase_pins.specs.Seen.{value_read};
ghost use Rattle.row_sets.specs.SetRows.{number_as, value_as, values_as, kept_as};
ghost use Rattle.row_cursors.specs.DayCells.{HasDay, HaveDays};

use ooc_types::{OutOfMemory, Row, SqlType, Text, Value};
use rebase_pins::CellRead;
use std::alloc::Global;

/// The value of a column of a type, by its cell.
pub fn value_of(alloc: Global, kind: SqlType, cell: &CellRead) -> Result<Value, OutOfMemory>
    requires { HasDay kind (value_read cell.now) }
    ensures { IfOk result (λ value. value ≡ value_as kind (value_read cell.now)) }
{
    match cell {
        CellRead::Null => Ok(Value::Null),
        CellRead::Number(number) => Ok(number_as(kind, *number)),
        CellRead::Text(text) => Ok(Value::Text(Text::from_slice(alloc, text)?)),
    }
}

// The value of a number in a column of a type.
fn number_as(kind: SqlType, number: i128) -> Value
    requires { kind ≡ SqlType.Date → FitsSigned w32 number }
    ensures { result ≡ number_as kind number }
{
    match kind {
        SqlType::Boolean => Value::Truth(number != 0),
        SqlType::Integer | SqlType::BigInt | SqlType::HugeInt => Value::Number {
            digits: number,
            scale: 0,
        },
        SqlType::Decimal { scale, .. } => Value::Number {
            digits: number,
            scale,
        },
        SqlType::Date => Value::Day(number as i32),
        SqlType::Varchar => Value::Null,
    }
}

/// Adds the values of a row's cells to those of a buffer.
pub fn push_values(
    alloc: Global,
    kinds: &[SqlType],
    cells: &[CellRead],
    into: &mut Row,
) -> Result<(), OutOfMemory>
    requires { HaveDays kinds.now (map value_read cells.now) }
    ensures { OnOk result (into.new ≡ into.old ++ values_as kinds.now (map value_read cells.now)) }
{
    if let [kind, kinds @ ..] = kinds {
        if let [cell, cells @ ..] = cells {
            into.push(value_of(alloc, *kind, cell)?)?;
            return push_values(alloc, kinds, cells, into);
        }
    }
    Ok(())
}

/// The cells that the values of a row are kept in.
pub fn fill_kept<'a>(row: &'a [Value], into: &mut [CellRead<'a>])
    requires { length into.old ≡ length row.now }
    ensures { map value_read into.new ≡ map kept_as row.now }
{
    for column in 0..row.len() {
        into[column] = kept_in(&row[column]);
    }
}

// The cell that a value is kept in.
fn kept_in<'a>(value: &'a Value) -> CellRead<'a>
    ensures { value_read result ≡ kept_as value.now }
{
    match value {
        Value::Null => CellRead::Null,
        Value::Truth(truth) => CellRead::Number(i128::from(*truth)),
        Value::Number { digits, .. } => CellRead::Number(*digits),
        Value::Day(day) => CellRead::Number(i128::from(*day)),
        Value::Text(text) => CellRead::Text(text.as_bytes()),
    }
}

/// What the values of a row are kept as is read as these values. It does nothing; its contract says the law.
pub fn kept_values_are_read_back()
    ensures { (limit : ℕ) (kinds : List SqlType) (row : List Value) → Meets limit kinds row → values_as kinds (map kept_as row) ≡ row }
{}
