//! Values that are kept.
ghost use Rattle.std.specs.Prelude.{◌≡◌, OnOk, length, map};
ghost use Rattle.csv_load.specs.FieldReads.{value_in};
ghost use Rattle.ooc_types.specs.declared.value.Value.TheVariants as sql;

use crate::field_read::FieldRead;
use ooc_types::{OutOfMemory, Text, Value};
use std::alloc::{AllocError, Global};
use std::mem::replace;

// Puts a copy of bytes in place of a value. The memory of a text that stands there is used again.
#[inline(always)]
fn put_bytes(alloc: Global, bytes: &[u8], value: &mut Value) -> Result<(), OutOfMemory>
    ensures { OnOk result (value.new ≡ sql.Text bytes.now) }
{
    match replace(value, Value::Null) {
        Value::Text(text) => {
            let mut held = text.into_vec();
            held.clear();
            held.extend_from_slice(bytes)?;
            *value = Value::Text(Text::from_vec(held));
            Ok(())
        }
        _ => {
            *value = Value::Text(Text::from_slice(alloc, bytes)?);
            Ok(())
        }
    }
}

// Puts a value that was read in place of another.
fn put_value(alloc: Global, field: &FieldRead, value: &mut Value) -> Result<(), OutOfMemory>
    ensures { OnOk result (value.new ≡ value_in field.now) }
{
    match field {
        FieldRead::Null => *value = Value::Null,
        FieldRead::Truth(truth) => *value = Value::Truth(*truth),
        FieldRead::Number { digits, scale } => {
            *value = Value::Number {
                digits: *digits,
                scale: *scale,
            }
        }
        FieldRead::Day(day) => *value = Value::Day(*day),
        FieldRead::Text(text) => return put_bytes(alloc, text, value),
    }
    Ok(())
}

/// Puts values that were read in place of others.
pub fn put_values(
    alloc: Global,
    fields: &[FieldRead],
    values: &mut [Value],
) -> Result<(), OutOfMemory>
    requires { length values.old ≡ length fields.now }
    ensures { OnOk result (values.new ≡ map value_in fields.now) }
{
    for i in 0..fields.len() {
        put_value(alloc, &fields[i], &mut values[i])?;
    }
    Ok(())
}

/// Makes a list of values as long as it is to be.
pub fn fit_values(values: &mut Vec<Value>, count: usize) -> Result<(), AllocError>
    ensures { OnOk result (length values.new.items ≡ count) }
{
    values.truncate(count);
    while values.len() < count {
        values.push(Value::Null)?;
    }
    Ok(())
}
