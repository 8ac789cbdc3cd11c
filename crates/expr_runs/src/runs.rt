//! Values and faults of expressions, by what each operation says of one row.
ghost use Rattle.std.specs.Prelude.{◌≡◌, IfOk};
ghost use Rattle.expr_runs.specs.Built.{IsBuilt, columns, limit};
ghost use Rattle.ooc_types.specs.Meets.{HasForm, Meets};

use crate::build::{
    between, chain, column, compare, date, either, every, like, number, one_of, pair, row, text,
    truth,
};
use ooc_types::{OutOfMemory, RefusalKind, Row, SqlType, Text, Value};
use sql_expr::{
    ChainSign, CompareSign, EvalFault, Expr, Family, ValueFault, are_comparable, eval, family_of,
    is_plain, like as is_like, mismatch, result_type, same,
};
use std::alloc::Global;
use std::test::Fail;

fn gives(expr: &Expr, kind: SqlType, row: &Row, wanted: &Value) -> bool
    requires built { IsBuilt kind expr.now }
    requires meets { Meets limit columns row.now }
{
    match eval(expr, row.as_slice()) {
        Ok(value) => value == *wanted,
        Err(_) => false,
    }
}

fn overflows(expr: &Expr, kind: SqlType, row: &Row) -> bool
    requires built { IsBuilt kind expr.now }
    requires meets { Meets limit columns row.now }
{
    match eval(expr, row.as_slice()) {
        Err(fault) => fault == EvalFault::Fault(ValueFault::Overflow),
        Ok(_) => false,
    }
}

// The BIGINT column, which is the greatest, and one more.
fn past_the_greatest(alloc: Global) -> Result<Expr, OutOfMemory>
    ensures { IfOk result (λ e. IsBuilt SqlType.BigInt e) }
{
    chain(
        alloc,
        column(1, SqlType::BigInt),
        SqlType::BigInt,
        ChainSign::Plus,
        number(1, SqlType::Integer),
        SqlType::Integer,
        SqlType::BigInt,
    )
}

// A condition that faults.
fn faulty(alloc: Global) -> Result<Expr, OutOfMemory>
    ensures { IfOk result (λ e. IsBuilt SqlType.Boolean e) }
{
    let sum = past_the_greatest(alloc)?;
    compare(
        alloc,
        CompareSign::Equal,
        sum,
        column(1, SqlType::BigInt),
        SqlType::BigInt,
    )
}

fn both(alloc: Global, left: Expr, right: Expr) -> Result<Expr, OutOfMemory>
    requires left { IsBuilt SqlType.Boolean left }
    requires right { IsBuilt SqlType.Boolean right }
    ensures { IfOk result (λ e. IsBuilt SqlType.Boolean e) }
{
    Ok(every(pair(alloc, left, right, SqlType::Boolean)?))
}

fn one(alloc: Global, left: Expr, right: Expr) -> Result<Expr, OutOfMemory>
    requires left { IsBuilt SqlType.Boolean left }
    requires right { IsBuilt SqlType.Boolean right }
    ensures { IfOk result (λ e. IsBuilt SqlType.Boolean e) }
{
    Ok(either(pair(alloc, left, right, SqlType::Boolean)?))
}

#[test]
fn what_is_outside_its_type_overflows(rt: HostRuntime) -> Result<(), Fail> {
    let alloc = rt.alloc();
    let row = row(alloc, Value::Null)?;
    let sum = past_the_greatest(alloc)?;
    assert!(rt; overflows(&sum, SqlType::BigInt, &row));
    Ok(())
}

// A constant, and a condition that faults: `holds AND fault`, or `fault AND holds`.
fn both_ways(alloc: Global, holds: bool, fault_first: bool) -> Result<Expr, OutOfMemory>
    ensures { IfOk result (λ e. IsBuilt SqlType.Boolean e) }
{
    let fault = faulty(alloc)?;
    if fault_first {
        both(alloc, fault, truth(holds))
    } else {
        both(alloc, truth(holds), fault)
    }
}

// The same with OR.
fn one_way(alloc: Global, holds: bool, fault_first: bool) -> Result<Expr, OutOfMemory>
    ensures { IfOk result (λ e. IsBuilt SqlType.Boolean e) }
{
    let fault = faulty(alloc)?;
    if fault_first {
        one(alloc, fault, truth(holds))
    } else {
        one(alloc, truth(holds), fault)
    }
}

#[test]
fn and_ends_at_false(rt: HostRuntime) -> Result<(), Fail> {
    let alloc = rt.alloc();
    let row = row(alloc, Value::Null)?;
    let false_first = both_ways(alloc, false, false)?;
    assert!(rt; gives(&false_first, SqlType::Boolean, &row, &Value::Truth(false)));
    let fault_first = both_ways(alloc, false, true)?;
    assert!(rt; overflows(&fault_first, SqlType::Boolean, &row));
    Ok(())
}

#[test]
fn or_ends_at_true(rt: HostRuntime) -> Result<(), Fail> {
    let alloc = rt.alloc();
    let row = row(alloc, Value::Null)?;
    let true_first = one_way(alloc, true, false)?;
    assert!(rt; gives(&true_first, SqlType::Boolean, &row, &Value::Truth(true)));
    let fault_first = one_way(alloc, true, true)?;
    assert!(rt; overflows(&fault_first, SqlType::Boolean, &row));
    Ok(())
}

fn among(alloc: Global, negated: bool) -> Result<Expr, OutOfMemory>
    ensures { IfOk result (λ e. IsBuilt SqlType.Boolean e) }
{
    let list = pair(
        alloc,
        number(2, SqlType::Integer),
        number(1, SqlType::Integer),
        SqlType::Integer,
    )?;
    one_of(
        alloc,
        column(0, SqlType::Integer),
        list,
        SqlType::Integer,
        negated,
    )
}

#[test]
fn in_finds_a_later_constant(rt: HostRuntime) -> Result<(), Fail> {
    let alloc = rt.alloc();
    let row = row(alloc, Value::Null)?;
    let found = among(alloc, false)?;
    assert!(rt; gives(&found, SqlType::Boolean, &row, &Value::Truth(true)));
    let not_found = among(alloc, true)?;
    assert!(rt; gives(&not_found, SqlType::Boolean, &row, &Value::Truth(false)));
    Ok(())
}

#[test]
fn texts_are_copied(rt: HostRuntime) -> Result<(), Fail> {
    let alloc = rt.alloc();
    let row = row(alloc, Value::Null)?;
    let wanted = Value::Text(Text::from_slice(alloc, b"mississippi")?);
    assert!(rt;
        gives(
            &column(3, SqlType::Varchar),
            SqlType::Varchar,
            &row,
            &wanted
        )
    );
    Ok(())
}

// A literal that the pattern doesn't miss.
fn missed(alloc: Global) -> Result<Expr, OutOfMemory>
    ensures { IfOk result (λ e. IsBuilt SqlType.Boolean e) }
{
    let literal = text(alloc, b"missed")?;
    like(alloc, literal, b"miss__", true)
}

#[test]
fn texts_are_matched(rt: HostRuntime) -> Result<(), Fail> {
    let alloc = rt.alloc();
    let row = row(alloc, Value::Null)?;
    let matched = like(alloc, column(3, SqlType::Varchar), b"%iss%ip%", false)?;
    assert!(rt; gives(&matched, SqlType::Boolean, &row, &Value::Truth(true)));
    let unmatched = missed(alloc)?;
    assert!(rt; gives(&unmatched, SqlType::Boolean, &row, &Value::Truth(false)));
    Ok(())
}

// The days 2024-01-01, 2024-02-29 and 9999-12-31, counted from 1970-01-01.
const NEW_YEAR: i32 = 19_723;

const LEAP_DAY: i32 = 19_782;

const LAST_DAY: i32 = 2_932_896;

// The DATE column and a day more.
fn next_day(alloc: Global, of: Expr) -> Result<Expr, OutOfMemory>
    requires { IsBuilt SqlType.Date of }
    ensures { IfOk result (λ e. IsBuilt SqlType.Date e) }
{
    chain(
        alloc,
        of,
        SqlType::Date,
        ChainSign::Plus,
        number(1, SqlType::Integer),
        SqlType::Integer,
        SqlType::Date,
    )
}

// The days from 2024-01-01 to the DATE column.
fn days_of_the_year(alloc: Global) -> Result<Expr, OutOfMemory>
    ensures { IfOk result (λ e. IsBuilt SqlType.BigInt e) }
{
    chain(
        alloc,
        column(4, SqlType::Date),
        SqlType::Date,
        ChainSign::Minus,
        date(NEW_YEAR),
        SqlType::Date,
        SqlType::BigInt,
    )
}

fn of_the_year(alloc: Global) -> Result<Expr, OutOfMemory>
    ensures { IfOk result (λ e. IsBuilt SqlType.Boolean e) }
{
    between(
        alloc,
        column(4, SqlType::Date),
        date(NEW_YEAR),
        date(LEAP_DAY),
        SqlType::Date,
    )
}

// Whether the next day, the days from 2024-01-01, and what BETWEEN says are these.
fn days_are(
    alloc: Global,
    day: Value,
    next: &Value,
    days: &Value,
    within: &Value,
) -> Result<bool, OutOfMemory>
    requires { HasForm limit SqlType.Date day }
{
    let row = row(alloc, day)?;
    let later = next_day(alloc, column(4, SqlType::Date))?;
    let behind = days_of_the_year(alloc)?;
    let inside = of_the_year(alloc)?;
    Ok(
        gives(&later, SqlType::Date, &row, next)
            && gives(&behind, SqlType::BigInt, &row, days)
            && gives(&inside, SqlType::Boolean, &row, within),
    )
}

fn whole(digits: i128) -> Value {
    Value::Number { digits, scale: 0 }
}

#[test]
fn days_are_counted(rt: HostRuntime) -> Result<(), Fail> {
    let alloc = rt.alloc();
    assert!(rt;
        days_are(
            alloc,
            Value::Day(19_782),
            &Value::Day(19_783),
            &whole(59),
            &Value::Truth(true)
        )?
    );
    assert!(rt;
        days_are(
            alloc,
            Value::Day(19_722),
            &Value::Day(19_723),
            &whole(-1),
            &Value::Truth(false)
        )?
    );
    assert!(rt; days_are(alloc, Value::Null, &Value::Null, &Value::Null, &Value::Null)?);
    Ok(())
}

#[test]
fn a_day_past_the_last_overflows(rt: HostRuntime) -> Result<(), Fail> {
    let alloc = rt.alloc();
    let row = row(alloc, Value::Null)?;
    let past = next_day(alloc, date(LAST_DAY))?;
    assert!(rt; overflows(&past, SqlType::Date, &row));
    Ok(())
}

#[test]
fn trees_are_compared_node_by_node(rt: HostRuntime) -> Result<(), Fail> {
    let alloc = rt.alloc();
    let sum = past_the_greatest(alloc)?;
    let again = past_the_greatest(alloc)?;
    assert!(rt; same(&sum, &again));
    let other = next_day(alloc, date(LAST_DAY))?;
    assert!(rt; !same(&sum, &other));
    assert!(rt; !is_plain(&sum));
    assert!(rt; is_plain(&of_the_year(alloc)?));
    Ok(())
}

#[test]
fn operations_have_types(rt: HostRuntime) {
    let narrow = SqlType::Decimal { width: 5, scale: 2 };
    let wide = SqlType::Decimal {
        width: 38,
        scale: 0,
    };
    assert!(rt;
        result_type(ChainSign::Plus, narrow, SqlType::BigInt)
            == Some(SqlType::Decimal {
                width: 22,
                scale: 2
            })
    );
    assert!(rt;
        result_type(ChainSign::Times, narrow, narrow)
            == Some(SqlType::Decimal {
                width: 10,
                scale: 4
            })
    );
    assert!(rt; result_type(ChainSign::Times, wide, narrow) == None);
    assert!(rt; mismatch(ChainSign::Times, wide, narrow) == RefusalKind::DecimalTooWide);
    assert!(rt;
        result_type(ChainSign::Minus, SqlType::Date, SqlType::Date) == Some(SqlType::BigInt)
    );
    assert!(rt; result_type(ChainSign::Plus, SqlType::Integer, SqlType::Date) == None);
    assert!(rt;
        mismatch(ChainSign::Plus, SqlType::Integer, SqlType::Date) == RefusalKind::TypeMismatch
    );
    assert!(rt; family_of(SqlType::HugeInt) == Family::Numbers);
    assert!(rt; !are_comparable(SqlType::Date, SqlType::Varchar));
}

#[test]
fn patterns(rt: HostRuntime) {
    assert!(rt; is_like(b"a%b_c", b"a%b_c"));
    assert!(rt; is_like(b"aXXbYc", b"a%b_c"));
    assert!(rt; is_like(b"", b"%"));
    assert!(rt; !is_like(b"ab", b"a_b"));
    assert!(rt; is_like("€".as_bytes(), b"_"));
    assert!(rt; !is_like("€".as_bytes(), b"%__"));
    assert!(rt; is_like(b"\xe2\x82", b"__"));
    assert!(rt; is_like(b"aab", b"%ab"));
    assert!(rt; !is_like(b"aab", b"%ab_"));
}
