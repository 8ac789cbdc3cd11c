//! The value of a field, read where the field lies.
ghost use Rattle.std.specs.Prelude.{◌≡◌, true, false, Ok, Err, if◌then◌else◌};
ghost use Rattle.std.specs.Str.{is_utf8};
ghost use Rattle.ooc_decimal.specs.Numeric.{IsNumeric};
ghost use Rattle.csv_load.specs.Values.{field_value, typed_value, text_value, value_or_bad, IsColumnType};
ghost use Rattle.csv_load.specs.FieldReads.{Reads};
ghost use Rattle.csv_load.specs.Words.{truth_of};
ghost use Rattle.csv_load.specs.Dates.{day_of};
ghost use Rattle.csv_load.specs.Numbers.{number_of};
ghost use Rattle.ooc_types.specs.declared.refusal.RefusalKind.TheVariants as kind;
ghost use Rattle.ooc_types.specs.declared.value.Value.TheVariants as sql;

use crate::blanks::without_blanks;
use crate::field_read::FieldRead;
use crate::numbers::read_in_range;
use crate::words::{read_day, read_truth};
use ooc_types::{Column, RefusalKind, SqlType};
use std::str;

// Whether bytes are UTF-8.
fn is_text(bytes: &[u8]) -> bool
    ensures { result ≡ is_utf8 bytes.now }
{
    match str::from_utf8(bytes) {
        Ok(_) => true,
        Err(_) => false,
    }
}

fn text_field<'a>(limit: usize, field: &'a [u8]) -> Result<FieldRead<'a>, RefusalKind>
    ensures { Reads (text_value limit field.now) result }
{
    if !is_text(field) {
        return Err(RefusalKind::BadUtf8);
    }
    if field.len() > limit {
        return Err(RefusalKind::TextTooLong);
    }
    Ok(FieldRead::Text(field))
}

#[inline(always)]
fn number_field<'a>(field: &'a [u8], kind: SqlType, scale: u8) -> Result<FieldRead<'a>, RefusalKind>
    requires { IsNumeric kind }
    ensures { Reads (value_or_bad (λ n. sql.Number n scale) (number_of kind field.now)) result }
{
    match read_in_range(field, kind) {
        Some(digits) => Ok(FieldRead::Number { digits, scale }),
        None => Err(RefusalKind::BadValue),
    }
}

fn truth_field<'a>(field: &'a [u8]) -> Result<FieldRead<'a>, RefusalKind>
    ensures { Reads (value_or_bad sql.Truth (truth_of field.now)) result }
{
    match read_truth(field) {
        Some(truth) => Ok(FieldRead::Truth(truth)),
        None => Err(RefusalKind::BadValue),
    }
}

fn day_field<'a>(field: &'a [u8]) -> Result<FieldRead<'a>, RefusalKind>
    ensures { Reads (value_or_bad sql.Day (day_of field.now)) result }
{
    match read_day(field) {
        Some(day) => Ok(FieldRead::Day(day)),
        None => Err(RefusalKind::BadValue),
    }
}

// The value of a field that isn't NULL.
#[inline(always)]
#[tactic(auto, unfolding(crate::specs::Values::typed_value))]
fn typed_field<'a>(
    limit: usize,
    kind: SqlType,
    field: &'a [u8],
) -> Result<FieldRead<'a>, RefusalKind>
    requires { IsColumnType kind }
    ensures { Reads (typed_value limit kind field.now) result }
{
    match kind {
        SqlType::Varchar => text_field(limit, field),
        SqlType::Integer | SqlType::BigInt | SqlType::HugeInt => number_field(field, kind, 0),
        SqlType::Decimal { scale, .. } => number_field(field, kind, scale),
        SqlType::Boolean => truth_field(without_blanks(field)),
        SqlType::Date => day_field(without_blanks(field)),
    }
}

// NULL, where the column may have it.
fn null_field<'a>(nullable: bool) -> Result<FieldRead<'a>, RefusalKind>
    ensures { Reads (if nullable then Ok sql.Null else Err kind.NullRefused) result }
{
    if !nullable {
        return Err(RefusalKind::NullRefused);
    }
    Ok(FieldRead::Null)
}

/// The value of a field.
#[inline(always)]
#[tactic(auto, unfolding(crate::specs::Values::field_value))]
pub fn read_field<'a>(
    limit: usize,
    null: &[u8],
    column: &Column,
    field: &'a [u8],
) -> Result<FieldRead<'a>, RefusalKind>
    requires { IsColumnType column.now.kind }
    ensures { Reads (field_value limit null.now column.now field.now) result }
{
    if field == null {
        return null_field(column.nullable);
    }
    typed_field(limit, column.kind, field)
}
