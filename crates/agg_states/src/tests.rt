//! Aggregates of small lists, as SQL has them.

use super::*;
use ooc_types::{SqlType, Text, Value};
use std::alloc::Global;
use std::test::Fail;

fn number(digits: i128) -> Value {
    Value::Number { digits, scale: 0 }
}

// Two aggregates of one number each, merged.
fn sum_of_two(first: i64, second: i64) -> Result<Value, AggFault> {
    let mut sum = AggState::start(AggKind::Sum, SqlType::BigInt);
    sum.add(&Value::Number {
        digits: first as i128,
        scale: 0,
    })?;
    let mut other = AggState::start(AggKind::Sum, SqlType::BigInt);
    other.add(&Value::Number {
        digits: second as i128,
        scale: 0,
    })?;
    sum.merge(other)?;
    Ok(sum.finish())
}

fn best_of_texts(alloc: Global, kind: AggKind) -> Result<Value, AggFault> {
    let mut best = AggState::start(AggKind::Min, SqlType::Varchar);
    if let AggKind::Max = kind {
        best = AggState::start(AggKind::Max, SqlType::Varchar);
    }
    best.add(&Value::Text(Text::from_slice(alloc, b"b")?))?;
    best.add(&Value::Null)?;
    best.add(&Value::Text(Text::from_slice(alloc, b"a")?))?;
    Ok(best.finish())
}

#[test]
fn aggregates_of_no_rows(rt: HostRuntime) -> Result<(), Fail> {
    assert!(rt; AggState::start(AggKind::CountRows, SqlType::BigInt).finish() == number(0));
    assert!(rt; AggState::start(AggKind::Count, SqlType::Date).finish() == number(0));
    assert!(rt; AggState::start(AggKind::Sum, SqlType::BigInt).finish() == Value::Null);
    assert!(rt; AggState::start(AggKind::Min, SqlType::Varchar).finish() == Value::Null);
    assert!(rt; AggState::start(AggKind::Max, SqlType::Date).finish() == Value::Null);
    Ok(())
}

#[test]
fn texts_are_compared_by_bytes(rt: HostRuntime) -> Result<(), Fail> {
    let alloc = rt.alloc();
    let least = Value::Text(Text::from_slice(alloc, b"a")?);
    assert!(rt; best_of_texts(alloc, AggKind::Min) == Ok(least));
    let most = Value::Text(Text::from_slice(alloc, b"b")?);
    assert!(rt; best_of_texts(alloc, AggKind::Max) == Ok(most));
    Ok(())
}

#[test]
fn sums_pass_64_bits(rt: HostRuntime) -> Result<(), Fail> {
    let most = 9_223_372_036_854_775_807;
    assert!(rt; sum_of_two(most, most) == Ok(number(18_446_744_073_709_551_614)));
    assert!(rt; sum_of_two(-5, 5) == Ok(number(0)));
    Ok(())
}

#[test]
fn kept_aggregates_come_back_within_their_bounds(rt: HostRuntime) -> Result<(), Fail> {
    let count = AggState::restore(AggKind::Count, SqlType::Integer, 2, number(7));
    assert!(rt; count.kept() == Ok((2, number(2))));
    let tenths = AggState::restore(
        AggKind::Count,
        SqlType::Integer,
        2,
        Value::Number {
            digits: 1,
            scale: 1,
        },
    );
    assert!(rt; tenths.kept() == Ok((2, number(0))));
    let rows = AggState::restore(AggKind::Count, SqlType::Integer, -1, number(-1));
    assert!(rt; rows.kept() == Ok((0, number(0))));
    let many = AggState::restore(AggKind::Min, SqlType::Integer, 100_000_000_001, number(3));
    assert!(rt; many.kept() == Ok((100_000_000_000, number(3))));
    let sum = AggState::restore(AggKind::Sum, SqlType::Integer, 2, number(i128::MAX));
    assert!(rt; sum.finish() == number(4_294_967_294));
    let form = AggState::restore(AggKind::Max, SqlType::Integer, 2, Value::Truth(true));
    assert!(rt; form.finish() == Value::Null);
    Ok(())
}
