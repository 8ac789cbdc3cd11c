//! Trees that are typed over the columns INTEGER, BIGINT, BOOLEAN, VARCHAR, DATE, and rows of these.
ghost use Rattle.std.specs.Prelude.{◌≡◌, IfOk, Some, slice_get, [], ◌∷◌};
ghost use Rattle.ooc_types.specs.declared.value.Value.TheVariants.{Number as a_number};
ghost use Rattle.ooc_types.specs.Meets.{HasForm, IsDay, Meets};
ghost use Rattle.ooc_decimal.specs.Numeric.{IsNumeric};
ghost use Rattle.sql_expr.specs.Operations.{IsComparable, IsLinked};
ghost use Rattle.sql_expr.specs.Typing.{IsLiteral};
ghost use Rattle.expr_runs.specs.Built.{IsBuilt, AreBuilt, columns, limit};

use ooc_types::{OutOfMemory, Row, SqlType, Text, Value};
use sql_expr::{ChainSign, CompareSign, Expr, Exprs, Link};
use sqlite_items::{Boxed, Items};
use std::alloc::Global;

pub fn column(place: u32, kind: SqlType) -> Expr
    requires { slice_get columns place ≡ Some kind }
    ensures { IsBuilt kind result }
{
    Expr::Column { place, kind }
}

pub fn number(digits: i128, kind: SqlType) -> Expr
    requires { IsLiteral kind (a_number digits 0) }
    ensures { IsBuilt kind result }
{
    Expr::Constant {
        value: Value::Number { digits, scale: 0 },
        kind,
    }
}

pub fn truth(holds: bool) -> Expr
    ensures { IsBuilt SqlType.Boolean result }
{
    Expr::Constant {
        value: Value::Truth(holds),
        kind: SqlType::Boolean,
    }
}

pub fn date(day: i32) -> Expr
    requires { IsDay day }
    ensures { IsBuilt SqlType.Date result }
{
    Expr::Constant {
        value: Value::Day(day),
        kind: SqlType::Date,
    }
}

pub fn text(alloc: Global, bytes: &[u8]) -> Result<Expr, OutOfMemory>
    ensures { IfOk result (λ e. IsBuilt SqlType.Varchar e) }
{
    let text = Text::from_slice(alloc, bytes)?;
    Ok(Expr::Constant {
        value: Value::Text(text),
        kind: SqlType::Varchar,
    })
}

fn boxed(alloc: Global, expr: Expr) -> Result<Boxed<Expr>, OutOfMemory>
    ensures { IfOk result (λ b. b ≡ expr) }
{
    Ok(Boxed::new(alloc, expr)?)
}

fn link(
    alloc: Global,
    sign: ChainSign,
    right: Expr,
    kind: SqlType,
) -> Result<Items<Link>, OutOfMemory>
    ensures { IfOk result (λ links. links ≡ record { sign = sign; right = right; kind = kind } ∷ []) }
{
    let mut links = Items::new(alloc);
    links.push(Link { sign, right, kind })?;
    Ok(links)
}

/// Two operands, of these types, under a sign.
pub fn chain(
    alloc: Global,
    first: Expr,
    left: SqlType,
    sign: ChainSign,
    right: Expr,
    with: SqlType,
    kind: SqlType,
) -> Result<Expr, OutOfMemory>
    requires first { IsBuilt left first }
    requires right { IsBuilt with right }
    requires linked { IsLinked sign left with kind }
    ensures { IfOk result (λ e. IsBuilt kind e) }
{
    let links = link(alloc, sign, right, kind)?;
    let first = boxed(alloc, first)?;
    Ok(Expr::Chain { first, links })
}

/// The comparison of two operands of a type.
pub fn compare(
    alloc: Global,
    sign: CompareSign,
    left: Expr,
    right: Expr,
    kind: SqlType,
) -> Result<Expr, OutOfMemory>
    requires left { IsBuilt kind left }
    requires right { IsBuilt kind right }
    ensures { IfOk result (λ e. IsBuilt SqlType.Boolean e) }
{
    let left = boxed(alloc, left)?;
    let right = boxed(alloc, right)?;
    Ok(Expr::Compare { sign, left, right })
}

/// BETWEEN of three operands of a type.
pub fn between(
    alloc: Global,
    of: Expr,
    low: Expr,
    high: Expr,
    kind: SqlType,
) -> Result<Expr, OutOfMemory>
    requires of { IsBuilt kind of }
    requires low { IsBuilt kind low }
    requires high { IsBuilt kind high }
    ensures { IfOk result (λ e. IsBuilt SqlType.Boolean e) }
{
    let of = boxed(alloc, of)?;
    let low = boxed(alloc, low)?;
    let high = boxed(alloc, high)?;
    Ok(Expr::Between {
        of,
        low,
        high,
        negated: false,
    })
}

/// IN of a list of a type.
pub fn one_of(
    alloc: Global,
    of: Expr,
    list: Exprs,
    kind: SqlType,
    negated: bool,
) -> Result<Expr, OutOfMemory>
    requires of { IsBuilt kind of }
    requires list { AreBuilt kind list }
    ensures { IfOk result (λ e. IsBuilt SqlType.Boolean e) }
{
    let of = boxed(alloc, of)?;
    Ok(Expr::OneOf { of, list, negated })
}

/// A list of two.
pub fn pair(alloc: Global, first: Expr, second: Expr, kind: SqlType) -> Result<Exprs, OutOfMemory>
    requires first { IsBuilt kind first }
    requires second { IsBuilt kind second }
    ensures { IfOk result (λ list. AreBuilt kind list) }
{
    let mut list = Items::new(alloc);
    list.push(first)?;
    list.push(second)?;
    Ok(list)
}

pub fn every(list: Exprs) -> Expr
    requires { AreBuilt SqlType.Boolean list }
    ensures { IsBuilt SqlType.Boolean result }
{
    Expr::Every { list }
}

pub fn either(list: Exprs) -> Expr
    requires { AreBuilt SqlType.Boolean list }
    ensures { IsBuilt SqlType.Boolean result }
{
    Expr::Either { list }
}

pub fn like(alloc: Global, of: Expr, pattern: &[u8], negated: bool) -> Result<Expr, OutOfMemory>
    requires { IsBuilt SqlType.Varchar of }
    ensures { IfOk result (λ e. IsBuilt SqlType.Boolean e) }
{
    let of = boxed(alloc, of)?;
    let pattern = Text::from_slice(alloc, pattern)?;
    Ok(Expr::Like {
        of,
        pattern,
        negated,
    })
}

/// The row 1, 9223372036854775807, true, `mississippi` and a day.
pub fn row(alloc: Global, day: Value) -> Result<Row, OutOfMemory>
    requires { HasForm limit SqlType.Date day }
    ensures { IfOk result (λ row. Meets limit columns row) }
{
    let text = Text::from_slice(alloc, b"mississippi")?;
    let mut row = Row::new_row(alloc);
    row.push(Value::Number {
        digits: 1,
        scale: 0,
    })?;
    row.push(Value::Number {
        digits: 9_223_372_036_854_775_807,
        scale: 0,
    })?;
    row.push(Value::Truth(true))?;
    row.push(Value::Text(text))?;
    row.push(day)?;
    Ok(row)
}
