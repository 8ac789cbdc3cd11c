//! Whether rows that come from outside may be written to a set.
ghost use Rattle.std.specs.Prelude.{◌≡◌, ◌≤◌, nat_le, IsTrue, if◌then◌else◌, length};
ghost use Rattle.std.specs.Int.{w32, w64, w128};
ghost use Rattle.std.specs.Int.RustNames.{FitsSigned};
ghost use Rattle.ooc_types.specs.Meets.{HasForm, IsNumberOf, Meets};
ghost use Rattle.row_image.specs.declared.limits.TheConstants.{MOST_COLUMNS, MOST_TEXTS};
ghost use Rattle.row_image.specs.Layout.{is_text};
ghost use Rattle.row_sets.specs.Cells.{text_columns};
ghost use Rattle.row_sets.specs.SetRows.{cell_kind, cell_kinds};
ghost use Rattle.row_sets_runs.specs.Columns.{MayBeColumns};

use ooc_types::{SqlType, Value};
use row_image::{MOST_COLUMNS, MOST_TEXTS};

/// Whether a set may have columns of these types.
pub fn are_columns(kinds: &[SqlType]) -> bool
    ensures { IsTrue result → MayBeColumns kinds.now }
{
    !kinds.is_empty() && kinds.len() <= MOST_COLUMNS && count_texts(kinds) <= MOST_TEXTS
}

// How many of the types are of texts.
fn count_texts(kinds: &[SqlType]) -> usize
    ensures count { result ≡ text_columns (cell_kinds kinds.now) }
    ensures most { result ≤ length kinds.now }
{
    if let [kind, rest @ ..] = kinds {
        one_if_text(*kind) + count_texts(rest)
    } else {
        0
    }
}

fn one_if_text(kind: SqlType) -> usize
    ensures count { result ≡ (if is_text (cell_kind kind) then 1 else 0) }
    ensures most { result ≤ 1 }
{
    match kind {
        SqlType::Varchar => 1,
        SqlType::Decimal { width, .. } => none_of_decimal(width),
        _ => 0,
    }
}

// Whatever the width, the cell isn't a text.
fn none_of_decimal(width: u8) -> usize
    ensures count { result ≡ (if is_text (cell_kind (SqlType.Decimal width 0)) then 1 else 0) }
    ensures most { result ≤ 1 }
{
    if width <= 18 { 0 } else { 0 }
}

/// Whether a row meets the types, with texts of at most so many bytes.
pub fn row_meets(limit: usize, kinds: &[SqlType], row: &[Value]) -> bool
    ensures { IsTrue result → Meets limit kinds.now row.now }
{
    if let [kind, kinds @ ..] = kinds {
        if let [value, row @ ..] = row {
            return has_form(limit, *kind, value) && row_meets(limit, kinds, row);
        }
        return false;
    }
    row.is_empty()
}

// Whether a value has the form of a type.
fn has_form(limit: usize, kind: SqlType, value: &Value) -> bool
    ensures { IsTrue result → HasForm limit kind value.now }
{
    match value {
        Value::Null => true,
        Value::Truth(_) => is_truths(kind),
        Value::Number { digits, scale } => is_number_of(kind, *digits, *scale),
        Value::Day(day) => is_date(kind, *day),
        Value::Text(text) => is_texts(kind) && text.as_bytes().len() <= limit,
    }
}

fn is_truths(kind: SqlType) -> bool
    ensures { IsTrue result → kind ≡ SqlType.Boolean }
{
    match kind {
        SqlType::Boolean => true,
        _ => false,
    }
}

fn is_date(kind: SqlType, day: i32) -> bool
    ensures { IsTrue result → (kind ≡ SqlType.Date) × FitsSigned w32 day }
{
    let _day = day;
    match kind {
        SqlType::Date => true,
        _ => false,
    }
}

fn is_texts(kind: SqlType) -> bool
    ensures { IsTrue result → kind ≡ SqlType.Varchar }
{
    match kind {
        SqlType::Varchar => true,
        _ => false,
    }
}

// Whether a number fits the cell of a type and has its scale.
fn is_number_of(kind: SqlType, digits: i128, scale: u8) -> bool
    ensures { IsTrue result → IsNumberOf kind digits scale }
{
    match kind {
        SqlType::Integer => scale == 0 && fits_32(digits),
        SqlType::BigInt => scale == 0 && fits_64(digits),
        SqlType::HugeInt => scale == 0,
        SqlType::Decimal {
            width,
            scale: places,
        } => scale == places && fits_width(width, digits),
        _ => false,
    }
}

fn fits_32(digits: i128) -> bool
    ensures { IsTrue result → FitsSigned w32 digits }
{
    digits >= -2147483648 && digits <= 2147483647
}

fn fits_64(digits: i128) -> bool
    ensures { IsTrue result → FitsSigned w64 digits }
{
    digits >= -9223372036854775808 && digits <= 9223372036854775807
}

fn fits_width(width: u8, digits: i128) -> bool
    ensures { IsTrue result → FitsSigned (if nat_le width 18 then w64 else w128) digits }
{
    if width <= 18 { fits_64(digits) } else { true }
}
