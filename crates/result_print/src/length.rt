//! How long a row's line is.
ghost use Rattle.std.specs.Prelude.{◌≡◌, ◌≤◌, All, length, map};
ghost use Rattle.ooc_types.specs.Meets.{Meets};
ghost use Rattle.result_print.specs.Printed.{quoted, field_text, value_text, line_text, row_text, IsShort};

use crate::field::needs_quotes;
use ooc_decimal::number_length;
use ooc_types::{Row, Schema, Value};

// `YYYY-MM-DD`
const DATE_LENGTH: usize = 10;

fn quoted_length(bytes: &[u8]) -> usize
    requires { length bytes.now ≤ 4095 }
    ensures length { result ≡ length (quoted bytes.now) }
    ensures short { result ≤ 8192 }
{
    let mut length = 2;
    for byte in bytes {
        length += if *byte == b'"' { 2 } else { 1 };
    }
    length
}

fn field_length(bytes: &[u8]) -> usize
    requires { length bytes.now ≤ 4095 }
    ensures length { result ≡ length (field_text bytes.now) }
    ensures short { result ≤ 8192 }
{
    if needs_quotes(bytes) {
        quoted_length(bytes)
    } else {
        bytes.len()
    }
}

#[tactic(auto, using(date_values::proofs::Texts::length_day_text))]
fn value_length(value: &Value) -> usize
    requires { IsShort value.now }
    ensures length { result ≡ length (value_text value.now) }
    ensures short { result ≤ 8192 }
{
    match value {
        Value::Number { digits, scale } => number_length(*digits, *scale),
        Value::Day(_) => DATE_LENGTH,
        Value::Text(text) => field_length(text.as_bytes()),
        Value::Null | Value::Truth(true) => 4,
        Value::Truth(false) => 5,
    }
}

fn line_length(values: &[Value]) -> u64
    requires few { length values.now ≤ 64 }
    requires short { All IsShort values.now }
    ensures { result ≡ length (line_text (map value_text values.now)) }
{
    if values.is_empty() {
        return 1;
    }
    let mut length = 0;
    for value in values {
        length += value_length(value) as u64 + 1;
    }
    length
}

/// The length of the line that `print_row` appends, its line feed included.
pub fn row_length(schema: &Schema, row: &Row) -> u64
    requires few { length schema.now ≤ 64 }
    requires meets { Meets 4095 (map (λ column. column.kind) schema.now) row.now }
    ensures { result ≡ length (row_text row.now) }
{
    line_length(row.as_slice())
}
