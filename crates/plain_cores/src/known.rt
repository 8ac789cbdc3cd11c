//! Conjuncts of WHERE whose subqueries were answered.
ghost use Rattle.std.specs.Prelude.{◌≡◌, ◌++◌, IfOk, OnOk, flat_map, map};
ghost use Rattle.sql_meaning.specs.Ordered.{value_at};
ghost use Rattle.plain_rows.specs.Answers.{found_in};
ghost use Rattle.plain_rows.specs.Tests.{parts_in};
ghost use Rattle.plain_cores.specs.Known.{faults_in, known_parts, meant_in, member_meant, member_parts};

use ooc_types::{OutOfMemory, Row, Value};
use plain_rows::{Answer, Test, add_faults};
use sql_expr::{Expr, ValueFault};
use std::alloc::Global;

/// A conjunct: a condition, or IN with what its subquery gave.
#[derive(Drop)]
pub enum Known<'a> {
    Condition(&'a Expr),
    Member {
        of: &'a Expr,
        values: Vec<Value>,
        negated: bool,
        faults: Vec<ValueFault>,
    },
}

fn first_value(row: &Row) -> Result<Value, OutOfMemory>
    ensures { IfOk result (λ value. value ≡ value_at 0 row.now) }
{
    match row.as_slice() {
        [first, ..] => {
            let copy = first.clone()?;
            Ok(copy)
        }
        [] => Ok(Value::Null),
    }
}

fn first_values(alloc: Global, rows: &[Row]) -> Result<Vec<Value>, OutOfMemory>
    ensures { IfOk result (λ values. values.items ≡ map (value_at 0) rows.now) }
{
    let mut values = Vec::new(alloc);
    for row in rows {
        values.push(first_value(row)?)?;
    }
    Ok(values)
}

/// IN with the answer of its subquery.
pub fn member_over<'a>(
    alloc: Global,
    of: &'a Expr,
    negated: bool,
    answer: Answer,
) -> Result<Known<'a>, OutOfMemory>
    ensures meant { IfOk result (λ known. meant_in known ≡ member_meant negated (found_in answer) of.now) }
    ensures parts { IfOk result (λ known. known_parts known ≡ member_parts negated answer.rows.items of.now) }
{
    let values = first_values(alloc, answer.rows.as_slice())?;
    Ok(Known::Member {
        of,
        values,
        negated,
        faults: answer.faults,
    })
}

fn test_of<'a, 'b>(known: &'b Known<'a>) -> Test<'b>
    ensures { parts_in result ≡ known_parts known.now }
{
    match known {
        Known::Condition(expr) => Test::Condition(*expr),
        Known::Member {
            of,
            values,
            negated,
            ..
        } => Test::Member {
            of: *of,
            values: values.as_slice(),
            negated: *negated,
        },
    }
}

/// The conjuncts as tests.
pub fn tests_of_known<'a, 'b>(
    alloc: Global,
    knowns: &'b [Known<'a>],
) -> Result<Vec<Test<'b>>, OutOfMemory>
    ensures { IfOk result (λ tests. map parts_in tests.items ≡ map known_parts knowns.now) }
{
    let mut tests = Vec::new(alloc);
    for known in knowns {
        tests.push(test_of(known))?;
    }
    Ok(tests)
}

fn note_known(known: &Known<'_>, into: &mut Vec<ValueFault>) -> Result<(), OutOfMemory>
    ensures { OnOk result (into.new.items ≡ into.old.items ++ faults_in known.now) }
{
    match known {
        Known::Condition(_) => Ok(()),
        Known::Member { faults, .. } => add_faults(faults.as_slice(), into),
    }
}

/// Notes the faults of the subqueries of WHERE.
pub fn note_all_known(knowns: &[Known<'_>], into: &mut Vec<ValueFault>) -> Result<(), OutOfMemory>
    ensures { OnOk result (into.new.items ≡ into.old.items ++ flat_map faults_in knowns.now) }
{
    for known in knowns {
        note_known(known, into)?;
    }
    Ok(())
}
