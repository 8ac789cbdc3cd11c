//! Comparisons of amounts, texts and truths.
ghost use Rattle.std.specs.Prelude.{◌≡◌, Ok};
ghost use Rattle.std.specs.Option.{option_copied};
ghost use Rattle.ooc_types.specs.Order.{value_cmp};
ghost use Rattle.ooc_types.specs.declared.value.Value.TheVariants.{Number};
ghost use Rattle.sql_expr.specs.Comparison.{compared};
ghost use Rattle.sql_expr.specs.Kinds.{kind_of as type_of};
ghost use Rattle.sql_expr.specs.Logic.{truth_value};
ghost use Rattle.sql_expr.specs.Meaning.{value_of, comparison};
ghost use Rattle.sql_expr.specs.Outcomes.{amount_value, text_value, truth_meaning};
ghost use Rattle.sql_expr.specs.Arithmetic.{amount};
ghost use Rattle.sql_expr.specs.Operations.{IsAmount, IsComparable};
ghost use Rattle.sql_expr.specs.Typing.{FitsRow};

use crate::amount::amount_of;
use crate::fault::ValueFault;
use crate::kinds::{kind_of, scale};
use crate::logic::{known, sign_holds};
use crate::tree::{CompareSign, Expr};
use ooc_types::{SqlType, Truth, Value, cmp_values, numbers_compare_by_value};
use std::cmp::Ordering;

fn cmp_numbers(a: i128, a_scale: u8, b: i128, b_scale: u8) -> Ordering
    ensures { result ≡ value_cmp (Number a a_scale) (Number b b_scale) }
{
    if a_scale == b_scale {
        numbers_compare_by_value();
        return a.cmp(&b);
    }
    let left = Value::Number {
        digits: a,
        scale: a_scale,
    };
    let right = Value::Number {
        digits: b,
        scale: b_scale,
    };
    cmp_values(&left, &right)
}

// The order of two amounts of comparable types.
fn cmp_amounts(a: i128, left: SqlType, b: i128, right: SqlType) -> Ordering
    requires amount { IsAmount left }
    requires comparable { IsComparable left right }
    ensures { result ≡ value_cmp (amount left a) (amount right b) }
{
    match left {
        SqlType::Date => a.cmp(&b),
        _ => cmp_numbers(a, scale(left), b, scale(right)),
    }
}

/// The comparison of an amount of a type, or NULL, with an expression.
pub fn compare_amount(
    sign: CompareSign,
    left: Option<i128>,
    kind: SqlType,
    right: &Expr,
    row: &[Value],
) -> Result<Truth, ValueFault>
    requires amount { IsAmount kind }
    requires right_fits { FitsRow right.now row.now }
    requires comparable { IsComparable kind (type_of right.now) }
    ensures { comparison sign (Ok (amount_value kind left)) (value_of row.now right.now) ≡ truth_meaning result }
{
    let other = kind_of(right);
    match (left, amount_of(right, row)?) {
        (Some(a), Some(b)) => Ok(known(sign_holds(sign, cmp_amounts(a, kind, b, other)))),
        _ => Ok(Truth::Unknown),
    }
}

/// The comparison of two texts, which may be NULL.
#[tactic(auto, unfolding(ooc_types::specs::Order::value_cmp))]
pub fn compare_texts(sign: CompareSign, a: Option<&[u8]>, b: Option<&[u8]>) -> Truth
    ensures { truth_value result ≡ compared sign (text_value (option_copied a.entry)) (text_value (option_copied b.entry)) }
{
    match (a, b) {
        (Some(a), Some(b)) => known(sign_holds(sign, a.cmp(b))),
        _ => Truth::Unknown,
    }
}

/// The comparison of two truths.
#[tactic(auto, unfolding(ooc_types::specs::Order::value_cmp))]
pub fn compare_truths(sign: CompareSign, a: Truth, b: Truth) -> Truth
    ensures { truth_value result ≡ compared sign (truth_value a) (truth_value b) }
{
    match (a, b) {
        (Truth::Unknown, _) | (_, Truth::Unknown) => Truth::Unknown,
        (Truth::No, Truth::Yes) => known(sign_holds(sign, Ordering::Less)),
        (Truth::Yes, Truth::No) => known(sign_holds(sign, Ordering::Greater)),
        _ => known(sign_holds(sign, Ordering::Equal)),
    }
}

/// The comparison of two expressions that are amounts.
pub fn compare_amounts(
    sign: CompareSign,
    left: &Expr,
    right: &Expr,
    row: &[Value],
) -> Result<Truth, ValueFault>
    requires left_fits { FitsRow left.now row.now }
    requires left_amount { IsAmount (type_of left.now) }
    requires right_fits { FitsRow right.now row.now }
    requires comparable { IsComparable (type_of left.now) (type_of right.now) }
    ensures { comparison sign (value_of row.now left.now) (value_of row.now right.now) ≡ truth_meaning result }
{
    let a = amount_of(left, row)?;
    compare_amount(sign, a, kind_of(left), right, row)
}
