//! Set operations: what the columns of two operands are together.
ghost use Rattle.std.specs.Prelude.{◌≡◌, IfOk, Ok, [], length, zip};
ghost use Rattle.sql_scope.specs.Answer.{Gives, GoesOn, each};
ghost use Rattle.sql_expr.specs.Operations.{wider as wider_of};
ghost use Rattle.sql_clauses.specs.Sets as rules;

use ooc_types::{Column, OutOfMemory, RefusalKind, Schema, SqlType};
use sql_scope::BindFault;
use sqlite_items::Items;
use std::alloc::Global;

fn same_type(left: SqlType, right: SqlType) -> bool
    ensures { result ≡ rules.same_type left right }
{
    match (left, right) {
        (
            SqlType::Decimal { width, scale },
            SqlType::Decimal {
                width: other,
                scale: places,
            },
        ) => width == other && scale == places,
        (SqlType::Boolean, SqlType::Boolean)
        | (SqlType::Integer, SqlType::Integer)
        | (SqlType::BigInt, SqlType::BigInt)
        | (SqlType::HugeInt, SqlType::HugeInt)
        | (SqlType::Date, SqlType::Date)
        | (SqlType::Varchar, SqlType::Varchar) => true,
        _ => false,
    }
}

fn wider(left: SqlType, right: SqlType) -> Option<SqlType>
    ensures { result ≡ wider_of left right }
{
    match (left, right) {
        (SqlType::Integer, SqlType::Integer) => Some(SqlType::Integer),
        (SqlType::Integer | SqlType::BigInt, SqlType::BigInt)
        | (SqlType::BigInt, SqlType::Integer) => Some(SqlType::BigInt),
        (SqlType::Integer | SqlType::BigInt | SqlType::HugeInt, SqlType::HugeInt)
        | (SqlType::HugeInt, SqlType::Integer | SqlType::BigInt) => Some(SqlType::HugeInt),
        _ => None,
    }
}

fn common_type(left: SqlType, right: SqlType) -> Option<SqlType>
    ensures { result ≡ rules.common_type left right }
{
    if same_type(left, right) {
        return Some(left);
    }
    wider(left, right)
}

fn pair_behind(
    place: usize,
    left: &Column,
    right: &Column,
    columns: Result<Schema, BindFault>,
) -> Result<Schema, BindFault>
    ensures { GoesOn (rules.pair_behind place (left.now, right.now)) columns result }
{
    let mut columns = columns?;
    match common_type(left.kind, right.kind) {
        Some(kind) => {
            columns.push(Column {
                name: left.name.clone()?,
                kind,
                nullable: true,
            })?;
            Ok(columns)
        }
        None => Err(BindFault::Refused {
            place,
            kind: RefusalKind::TypeMismatch,
        }),
    }
}

fn all_pairs(
    alloc: Global,
    place: usize,
    left: &[Column],
    right: &[Column],
) -> Result<Schema, BindFault>
    requires { length left.now ≡ length right.now }
    ensures { Gives (each (rules.pair_behind place) (Ok []) (zip left.now right.now)) result }
{
    let mut columns = Ok(Schema::new_schema(alloc));
    for at in 0..left.len() {
        columns = pair_behind(place, &left[at], &right[at], columns);
    }
    columns
}

/// The columns of a set operation whose second operand begins at `place`.
pub(crate) fn common_columns(
    alloc: Global,
    place: usize,
    left: &[Column],
    right: &[Column],
) -> Result<Schema, BindFault>
    ensures { Gives (rules.common_columns place left.now right.now) result }
{
    if left.len() != right.len() {
        return Err(BindFault::Refused {
            place,
            kind: RefusalKind::ColumnCount,
        });
    }
    all_pairs(alloc, place, left, right)
}

/// The types of columns.
pub(crate) fn types_of(alloc: Global, columns: &[Column]) -> Result<Items<SqlType>, OutOfMemory>
    ensures { IfOk result (λ types. types ≡ rules.types_of columns.now) }
{
    let mut types = Items::new(alloc);
    for column in columns {
        types.push(column.kind)?;
    }
    Ok(types)
}
