//! The table of operations, by the types of the operands.
ghost use Rattle.std.specs.Prelude.{◌≡◌, ◌+◌, ◌↔◌, IsTrue};
ghost use Rattle.sql_expr.specs.Operations as table;
ghost use Rattle.sql_expr.specs.Operations.{IsComparable};

use crate::families::Family;
use crate::tree::ChainSign;
use ooc_types::{RefusalKind, SqlType};

/// The family of a type.
pub fn family_of(kind: SqlType) -> Family
    ensures { result ≡ table.family kind }
{
    match kind {
        SqlType::Boolean => Family::Truths,
        SqlType::Integer | SqlType::BigInt | SqlType::HugeInt | SqlType::Decimal { .. } => {
            Family::Numbers
        }
        SqlType::Date => Family::Dates,
        SqlType::Varchar => Family::Texts,
    }
}

/// Whether values of the two types compare.
pub fn are_comparable(left: SqlType, right: SqlType) -> bool
    ensures { IsTrue result ↔ IsComparable left right }
{
    family_of(left) == family_of(right)
}

fn wider(left: SqlType, right: SqlType) -> Option<SqlType>
    ensures { result ≡ table.wider left right }
{
    match (left, right) {
        (SqlType::Integer, SqlType::Integer) => Some(SqlType::Integer),
        (SqlType::Integer | SqlType::BigInt, SqlType::BigInt)
        | (SqlType::BigInt, SqlType::Integer) => Some(SqlType::BigInt),
        (SqlType::Integer | SqlType::BigInt | SqlType::HugeInt, SqlType::HugeInt)
        | (SqlType::HugeInt, SqlType::Integer | SqlType::BigInt) => Some(SqlType::HugeInt),
        _ => None,
    }
}

// The most digits that a DECIMAL has.
const MOST_DIGITS: u16 = 38;

// The digits of an INTEGER and of a BIGINT beside a DECIMAL.
const INTEGER_DIGITS: u8 = 10;

const BIGINT_DIGITS: u8 = 19;

fn decimal(width: u16, scale: u16) -> Option<SqlType>
    ensures { result ≡ table.decimal width scale }
{
    if width <= MOST_DIGITS && scale <= width {
        return Some(SqlType::Decimal {
            width: width as u8,
            scale: scale as u8,
        });
    }
    None
}

fn decimal_sum(width: u8, scale: u8, other: u8, places: u8) -> Option<SqlType>
    ensures { result ≡ table.decimal_sum width scale other places }
{
    let whole = width
        .saturating_sub(scale)
        .max(other.saturating_sub(places));
    let behind = scale.max(places);
    decimal(u16::from(whole) + u16::from(behind) + 1, u16::from(behind))
}

fn decimal_product(width: u8, scale: u8, other: u8, places: u8) -> Option<SqlType>
    ensures { result ≡ table.decimal (width + other) (scale + places) }
{
    decimal(
        u16::from(width) + u16::from(other),
        u16::from(scale) + u16::from(places),
    )
}

fn sum_type(left: SqlType, right: SqlType) -> Option<SqlType>
    ensures { result ≡ table.sum_type left right }
{
    match (left, right) {
        (
            SqlType::Decimal { width, scale },
            SqlType::Decimal {
                width: other,
                scale: places,
            },
        ) => { decimal_sum(width, scale, other, places) }
        (SqlType::Decimal { width, scale }, SqlType::Integer) => {
            decimal_sum(width, scale, INTEGER_DIGITS, 0)
        }
        (SqlType::Decimal { width, scale }, SqlType::BigInt) => {
            decimal_sum(width, scale, BIGINT_DIGITS, 0)
        }
        (SqlType::Integer, SqlType::Decimal { width, scale }) => {
            decimal_sum(INTEGER_DIGITS, 0, width, scale)
        }
        (SqlType::BigInt, SqlType::Decimal { width, scale }) => {
            decimal_sum(BIGINT_DIGITS, 0, width, scale)
        }
        _ => wider(left, right),
    }
}

fn product_type(left: SqlType, right: SqlType) -> Option<SqlType>
    ensures { result ≡ table.product_type left right }
{
    match (left, right) {
        (
            SqlType::Decimal { width, scale },
            SqlType::Decimal {
                width: other,
                scale: places,
            },
        ) => { decimal_product(width, scale, other, places) }
        (SqlType::Decimal { width, scale }, SqlType::Integer) => {
            decimal_product(width, scale, INTEGER_DIGITS, 0)
        }
        (SqlType::Decimal { width, scale }, SqlType::BigInt) => {
            decimal_product(width, scale, BIGINT_DIGITS, 0)
        }
        (SqlType::Integer, SqlType::Decimal { width, scale }) => {
            decimal_product(INTEGER_DIGITS, 0, width, scale)
        }
        (SqlType::BigInt, SqlType::Decimal { width, scale }) => {
            decimal_product(BIGINT_DIGITS, 0, width, scale)
        }
        _ => wider(left, right),
    }
}

fn plus_type(left: SqlType, right: SqlType) -> Option<SqlType>
    ensures { result ≡ table.plus_type left right }
{
    match (left, right) {
        (SqlType::Date, SqlType::Integer | SqlType::BigInt) => Some(SqlType::Date),
        _ => sum_type(left, right),
    }
}

fn minus_type(left: SqlType, right: SqlType) -> Option<SqlType>
    ensures { result ≡ table.minus_type left right }
{
    match (left, right) {
        (SqlType::Date, SqlType::Integer | SqlType::BigInt) => Some(SqlType::Date),
        (SqlType::Date, SqlType::Date) => Some(SqlType::BigInt),
        _ => sum_type(left, right),
    }
}

/// The type of two operands under a sign, where they have one.
pub fn result_type(sign: ChainSign, left: SqlType, right: SqlType) -> Option<SqlType>
    ensures { result ≡ table.result_type sign left right }
{
    match sign {
        ChainSign::Plus => plus_type(left, right),
        ChainSign::Minus => minus_type(left, right),
        ChainSign::Times => product_type(left, right),
        ChainSign::Quotient | ChainSign::Remainder => wider(left, right),
    }
}

fn is_beside_decimal(kind: SqlType) -> bool
    ensures { result ≡ table.is_beside_decimal kind }
{
    match kind {
        SqlType::Integer | SqlType::BigInt | SqlType::Decimal { .. } => true,
        SqlType::Boolean | SqlType::HugeInt | SqlType::Date | SqlType::Varchar => false,
    }
}

fn makes_decimals(sign: ChainSign) -> bool
    ensures { result ≡ table.makes_decimals sign }
{
    match sign {
        ChainSign::Plus | ChainSign::Minus | ChainSign::Times => true,
        ChainSign::Quotient | ChainSign::Remainder => false,
    }
}

/// Why two operands that have no type under a sign are refused: DecimalTooWide where they would have one but for its
/// width, and else TypeMismatch.
pub fn mismatch(sign: ChainSign, left: SqlType, right: SqlType) -> RefusalKind
    ensures { result ≡ table.mismatch sign left right }
{
    if makes_decimals(sign) && is_beside_decimal(left) && is_beside_decimal(right) {
        RefusalKind::DecimalTooWide
    } else {
        RefusalKind::TypeMismatch
    }
}
