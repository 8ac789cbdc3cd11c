//! The logic of three truths, and what stands in a value.
ghost use Rattle.std.specs.Prelude.{◌≡◌, IsTrue};
ghost use Rattle.sql_expr.specs.Logic.{and_truth, or_truth, not_truth, negated_if, truth_in as truth_of_value, truth_from};
ghost use Rattle.sql_expr.specs.Comparison.{holds};
ghost use Rattle.sql_expr.specs.Outcomes.{digits_of};

use crate::tree::CompareSign;
use ooc_types::{Truth, Value};
use std::cmp::Ordering;

/// The truth of `a AND b`.
pub fn both(a: Truth, b: Truth) -> Truth
    ensures { result ≡ and_truth a b }
{
    match (a, b) {
        (Truth::No, _) | (_, Truth::No) => Truth::No,
        (Truth::Yes, Truth::Yes) => Truth::Yes,
        _ => Truth::Unknown,
    }
}

/// The truth of `a OR b`.
pub fn one(a: Truth, b: Truth) -> Truth
    ensures { result ≡ or_truth a b }
{
    match (a, b) {
        (Truth::Yes, _) | (_, Truth::Yes) => Truth::Yes,
        (Truth::No, Truth::No) => Truth::No,
        _ => Truth::Unknown,
    }
}

/// The truth of `NOT a`.
pub fn opposite_truth(a: Truth) -> Truth
    ensures { result ≡ not_truth a }
{
    match a {
        Truth::Yes => Truth::No,
        Truth::No => Truth::Yes,
        Truth::Unknown => Truth::Unknown,
    }
}

/// The truth, or that of NOT where `negated` says so.
pub fn perhaps_opposite(negated: bool, a: Truth) -> Truth
    ensures { result ≡ negated_if negated a }
{
    if negated { opposite_truth(a) } else { a }
}

/// The truth that isn't unknown.
pub fn known(holds: bool) -> Truth
    ensures { result ≡ truth_from holds }
{
    if holds { Truth::Yes } else { Truth::No }
}

/// Whether the comparison holds where its left operand stands so to the right one.
pub fn sign_holds(sign: CompareSign, ordering: Ordering) -> bool
    ensures { result ≡ holds sign ordering }
{
    match sign {
        CompareSign::Equal => ordering == Ordering::Equal,
        CompareSign::Unequal => ordering != Ordering::Equal,
        CompareSign::Less => ordering == Ordering::Less,
        CompareSign::AtMost => ordering != Ordering::Greater,
        CompareSign::Greater => ordering == Ordering::Greater,
        CompareSign::AtLeast => ordering != Ordering::Less,
    }
}

/// The digits of a number or the number of a day, and none of another value.
pub fn digits_in(value: &Value) -> Option<i128>
    ensures { result ≡ digits_of value.now }
{
    match value {
        Value::Number { digits, .. } => Some(*digits),
        Value::Day(day) => Some(i128::from(*day)),
        Value::Null | Value::Truth(_) | Value::Text(_) => None,
    }
}

/// The truth of a value, which is unknown where the value has none.
pub fn truth_in(value: &Value) -> Truth
    ensures { result ≡ truth_of_value value.now }
{
    match value {
        Value::Truth(holds) => known(*holds),
        Value::Null | Value::Number { .. } | Value::Day(_) | Value::Text(_) => Truth::Unknown,
    }
}
