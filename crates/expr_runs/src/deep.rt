//! Trees in which each operand is nested in the next. Where an operand were evaluated for each bound or constant,
//! these would take hours.
ghost use Rattle.std.specs.Prelude.{◌≡◌, IfOk};
ghost use Rattle.expr_runs.specs.Built.{IsBuilt, AreBuilt, columns, limit};
ghost use Rattle.ooc_types.specs.Meets.{Meets};

use crate::build::{between, column, one_of, row, truth};
use ooc_types::{OutOfMemory, Row, SqlType, Truth, Value};
use sql_expr::{Expr, Exprs, truth_of};
use sqlite_items::Items;
use std::alloc::Global;
use std::test::Fail;

// `x BETWEEN FALSE AND TRUE`, nested `depth` deep.
fn betweens(alloc: Global, depth: u8) -> Result<Expr, OutOfMemory>
    ensures { IfOk result (λ e. IsBuilt SqlType.Boolean e) }
{
    let mut expr = column(2, SqlType::Boolean);
    for level in 0..depth {
        expr = between(alloc, expr, truth(false), truth(true), SqlType::Boolean)?;
    }
    Ok(expr)
}

// So many constants FALSE, and then TRUE.
fn constants(alloc: Global, count: u8) -> Result<Exprs, OutOfMemory>
    ensures { IfOk result (λ list. AreBuilt SqlType.Boolean list) }
{
    let mut list = Items::new(alloc);
    for place in 0..count {
        list.push(truth(false))?;
    }
    list.push(truth(true))?;
    Ok(list)
}

// `x IN (FALSE, .., TRUE)` of a hundred constants, nested `depth` deep.
fn lists(alloc: Global, depth: u8) -> Result<Expr, OutOfMemory>
    ensures { IfOk result (λ e. IsBuilt SqlType.Boolean e) }
{
    let mut expr = column(2, SqlType::Boolean);
    for level in 0..depth {
        let list = constants(alloc, 99)?;
        expr = one_of(alloc, expr, list, SqlType::Boolean, false)?;
    }
    Ok(expr)
}

fn is_true(expr: &Expr, row: &Row) -> bool
    requires built { IsBuilt SqlType.Boolean expr.now }
    requires meets { Meets limit columns row.now }
{
    match truth_of(expr, row.as_slice()) {
        Ok(truth) => truth == Truth::Yes,
        Err(_) => false,
    }
}

#[test]
fn nested_between_evaluates_its_operand_once(rt: HostRuntime) -> Result<(), Fail> {
    let alloc = rt.alloc();
    let row = row(alloc, Value::Null)?;
    let expr = betweens(alloc, 32)?;
    assert!(rt; is_true(&expr, &row));
    Ok(())
}

#[test]
fn nested_in_evaluates_its_operand_once(rt: HostRuntime) -> Result<(), Fail> {
    let alloc = rt.alloc();
    let row = row(alloc, Value::Null)?;
    let expr = lists(alloc, 8)?;
    assert!(rt; is_true(&expr, &row));
    Ok(())
}
