//! Expressions, each of those that were put on a stack before it.
use crate::words::{Constant, Operation};
use ooc_types::{SqlType, Text, Value};
use sql_expr::{ChainSign, CompareSign, Expr, Exprs, Link, Links};
use sqlite_items::{Boxed, Items};
use std::alloc::Global;
use std::test::Fail;

/// The last expression.
pub(crate) fn last(exprs: &mut Exprs) -> Result<Expr, Fail> {
    match exprs.pop() {
        Some(expr) => Ok(expr),
        None => Err("no expression".into()),
    }
}

/// The last expression in a box.
pub(crate) fn last_boxed(alloc: Global, exprs: &mut Exprs) -> Result<Boxed<Expr>, Fail> {
    let expr = last(exprs)?;
    Ok(Boxed::new(alloc, expr)?)
}

/// The last two expressions.
fn last_two(alloc: Global, exprs: &mut Exprs) -> Result<Exprs, Fail> {
    let second = last(exprs)?;
    let first = last(exprs)?;
    let mut list = Items::new(alloc);
    list.push(first)?;
    list.push(second)?;
    Ok(list)
}

pub(crate) fn constant(alloc: Global, constant: Constant) -> Result<Expr, Fail> {
    match constant {
        Constant::One => Ok(Expr::Constant {
            value: Value::Number {
                digits: 1,
                scale: 0,
            },
            kind: SqlType::Integer,
        }),
        Constant::Letter => Ok(Expr::Constant {
            value: Value::Text(Text::from_slice(alloc, b"x")?),
            kind: SqlType::Varchar,
        }),
        Constant::Day => Ok(Expr::Constant {
            value: Value::Day(0),
            kind: SqlType::Date,
        }),
        Constant::Truth => Ok(Expr::Constant {
            value: Value::Truth(true),
            kind: SqlType::Boolean,
        }),
    }
}

fn compare(alloc: Global, sign: CompareSign, exprs: &mut Exprs) -> Result<Expr, Fail> {
    let right = last_boxed(alloc, exprs)?;
    let left = last_boxed(alloc, exprs)?;
    Ok(Expr::Compare { sign, left, right })
}

fn plus(alloc: Global, right: Expr) -> Result<Links, Fail> {
    let mut links = Items::new(alloc);
    links.push(Link {
        sign: ChainSign::Plus,
        right,
        kind: SqlType::Integer,
    })?;
    Ok(links)
}

fn sum(alloc: Global, exprs: &mut Exprs) -> Result<Expr, Fail> {
    let right = last(exprs)?;
    let links = plus(alloc, right)?;
    let first = last_boxed(alloc, exprs)?;
    Ok(Expr::Chain { first, links })
}

fn like(alloc: Global, exprs: &mut Exprs) -> Result<Expr, Fail> {
    let of = last_boxed(alloc, exprs)?;
    let pattern = Text::from_slice(alloc, b"x%")?;
    Ok(Expr::Like {
        of,
        pattern,
        negated: false,
    })
}

fn between(alloc: Global, exprs: &mut Exprs) -> Result<Expr, Fail> {
    let high = last_boxed(alloc, exprs)?;
    let low = last_boxed(alloc, exprs)?;
    let of = last_boxed(alloc, exprs)?;
    Ok(Expr::Between {
        of,
        low,
        high,
        negated: false,
    })
}

fn one_of(alloc: Global, exprs: &mut Exprs) -> Result<Expr, Fail> {
    let list = last_two(alloc, exprs)?;
    let of = last_boxed(alloc, exprs)?;
    Ok(Expr::OneOf {
        of,
        list,
        negated: false,
    })
}

fn minus(alloc: Global, exprs: &mut Exprs) -> Result<Expr, Fail> {
    let of = last_boxed(alloc, exprs)?;
    Ok(Expr::Minus {
        of,
        kind: SqlType::Integer,
    })
}

fn negation(alloc: Global, exprs: &mut Exprs) -> Result<Expr, Fail> {
    let of = last_boxed(alloc, exprs)?;
    Ok(Expr::Not { of })
}

fn every(alloc: Global, exprs: &mut Exprs) -> Result<Expr, Fail> {
    let list = last_two(alloc, exprs)?;
    Ok(Expr::Every { list })
}

fn either(alloc: Global, exprs: &mut Exprs) -> Result<Expr, Fail> {
    let list = last_two(alloc, exprs)?;
    Ok(Expr::Either { list })
}

fn is_null(alloc: Global, exprs: &mut Exprs) -> Result<Expr, Fail> {
    let of = last_boxed(alloc, exprs)?;
    Ok(Expr::IsNull { of, negated: false })
}

/// The operation on the last expressions.
pub(crate) fn operation(
    alloc: Global,
    operation: Operation,
    exprs: &mut Exprs,
) -> Result<Expr, Fail> {
    match operation {
        Operation::Compare(sign) => compare(alloc, sign, exprs),
        Operation::Sum => sum(alloc, exprs),
        Operation::Minus => minus(alloc, exprs),
        Operation::Not => negation(alloc, exprs),
        Operation::And => every(alloc, exprs),
        Operation::Or => either(alloc, exprs),
        Operation::IsNull => is_null(alloc, exprs),
        Operation::Like => like(alloc, exprs),
        Operation::Between => between(alloc, exprs),
        Operation::OneOf => one_of(alloc, exprs),
    }
}
