//! Conditions as rows are judged by them.
ghost use Rattle.std.specs.Prelude.{◌≡◌, map, IfOk};
ghost use Rattle.sql_meaning.specs.Statements.{condition_of};
ghost use Rattle.sql_meaning.specs.Judged.{is_plain as is_plain_condition};
ghost use Rattle.sql_expr.specs.Comparison.{compared};
ghost use Rattle.sql_expr.specs.Logic.{truth_in as truth_in_value, or_truth, negated_if};
ghost use Rattle.sql_expr.specs.declared.tree.CompareSign.TheVariants.{Equal};
ghost use Rattle.sql_meaning.specs.Sets.{member as is_member};
ghost use Rattle.plain_rows.specs.Tests.{condition_in, IsReady, parts_in, parts_of, TellsTruth};

use crate::compare::is_null;
use ooc_types::{OutOfMemory, Truth, Value, cmp_values};
use sql_expr::{EvalFault, Expr, eval, is_plain, truth_of};
use std::alloc::Global;
use std::cmp::Ordering;

/// A condition of ON, WHERE or HAVING.
#[derive(Clone, Copy)]
pub enum Test<'a> {
    /// A BOOLEAN expression.
    Condition(&'a Expr),
    /// IN with the values that a subquery gave.
    Member {
        of: &'a Expr,
        values: &'a [Value],
        negated: bool,
    },
}

/// The conditions of ON or HAVING as tests.
pub fn tests_of<'a>(alloc: Global, conditions: &'a [Expr]) -> Result<Vec<Test<'a>>, OutOfMemory>
    ensures conditions { IfOk result (λ tests. map condition_in tests.items ≡ map condition_of conditions.now) }
    ensures parts { IfOk result (λ tests. map parts_in tests.items ≡ map parts_of conditions.now) }
{
    let mut tests = Vec::new(alloc);
    for condition in conditions {
        tests.push(Test::Condition(condition))?;
    }
    Ok(tests)
}

/// Whether a test is a plain condition.
pub fn is_plain_test(test: &Test<'_>) -> bool
    ensures { result ≡ is_plain_condition (condition_in test.now) }
{
    match test {
        Test::Condition(expr) => is_plain(*expr),
        Test::Member { .. } => false,
    }
}

// The truth of an equality; it is unknown where one of the two is NULL.
fn equal_truth(a: &Value, b: &Value) -> Truth
    ensures { result ≡ truth_in_value (compared Equal a.now b.now) }
{
    if is_null(a) || is_null(b) {
        return Truth::Unknown;
    }
    match cmp_values(a, b) {
        Ordering::Equal => Truth::Yes,
        Ordering::Less | Ordering::Greater => Truth::No,
    }
}

fn either_truth(a: Truth, b: Truth) -> Truth
    ensures { result ≡ or_truth a b }
{
    match (a, b) {
        (Truth::Yes, _) => Truth::Yes,
        (Truth::No, b) => b,
        (Truth::Unknown, Truth::Yes) => Truth::Yes,
        (Truth::Unknown, Truth::No) => Truth::Unknown,
        (Truth::Unknown, Truth::Unknown) => Truth::Unknown,
    }
}

fn member(value: &Value, values: &[Value]) -> Truth
    ensures { result ≡ is_member value.now values.now }
{
    let mut found = Truth::No;
    for other in values {
        found = either_truth(found, equal_truth(value, other));
    }
    found
}

fn perhaps_not(negated: bool, truth: Truth) -> Truth
    ensures { result ≡ negated_if negated truth }
{
    match (negated, truth) {
        (false, truth) => truth,
        (true, Truth::Yes) => Truth::No,
        (true, Truth::No) => Truth::Yes,
        (true, Truth::Unknown) => Truth::Unknown,
    }
}

/// What a test says of a row.
pub fn test_truth(test: &Test<'_>, row: &[Value]) -> Result<Truth, EvalFault>
    requires { IsReady row.now test.now }
    ensures { TellsTruth ((condition_in test.now).says row.now) result }
{
    match test {
        Test::Condition(expr) => match truth_of(*expr, row) {
            Ok(truth) => Ok(truth),
            Err(fault) => Err(EvalFault::Fault(fault)),
        },
        Test::Member {
            of,
            values,
            negated,
        } => match eval(*of, row) {
            Ok(value) => Ok(perhaps_not(*negated, member(&value, *values))),
            Err(fault) => Err(fault),
        },
    }
}
