//! The values of expressions that are BOOLEAN.
ghost use Rattle.std.specs.Prelude.{◌≡◌, Ok, IfOk, true, false, map};
ghost use Rattle.std.specs.Option.{option_copied};
ghost use Rattle.sql_expr.specs.Kinds.{kind_of as type_of};
ghost use Rattle.sql_expr.specs.Logic.{truth_value, not_truth};
ghost use Rattle.sql_expr.specs.Meaning.{value_of, comparison, then_value, perhaps_not, null_test as tested, liked, every_from, either_from, one_of as one_among, between as in_between, tested_null};
ghost use Rattle.sql_expr.specs.Outcomes.{truth_meaning, text_value};
ghost use Rattle.sql_expr.specs.Operands.{IsOperandOf, operand_value, operand_meaning};
ghost use Rattle.sql_expr.specs.Ready.{AreConditions, AreComparable};
ghost use Rattle.sql_expr.specs.Operations.{IsComparable, IsText};
ghost use Rattle.sql_expr.specs.Typing.{FitsRow};
ghost use Rattle.ooc_types.specs.declared.value.Value.TheVariants.{Truth as of_truth};

use crate::amount::amount_of;
use crate::compare::{compare_amount, compare_amounts, compare_texts, compare_truths};
use crate::fault::ValueFault;
use crate::kinds::kind_of;
use crate::logic::{both, known, one, opposite_truth, perhaps_opposite, truth_in};
use crate::operand::Operand;
use crate::text::text_of;
use crate::tree::{CompareSign, Expr};
use crate::wildcards::like;
use ooc_types::{SqlType, Text, Truth, Value};

// What IS NULL, or IS NOT NULL, says where it is known whether the operand is NULL.
fn null_truth(negated: bool, null: bool) -> Truth
    ensures { truth_value result ≡ tested_null negated null }
{
    known(null != negated)
}

// LIKE of an operand that may be NULL.
fn like_truth(of: Option<&[u8]>, pattern: &Text, negated: bool) -> Truth
    ensures { perhaps_not negated (liked pattern.now (text_value (option_copied of.entry))) ≡ Ok (truth_value result) }
{
    match of {
        Some(text) => perhaps_opposite(negated, known(like(text, pattern.as_bytes()))),
        None => Truth::Unknown,
    }
}

#[cycle(truth)]
fn compare_conditions(
    sign: CompareSign,
    left: &Expr,
    right: &Expr,
    row: &[Value],
) -> Result<Truth, ValueFault>
    requires left_fits { FitsRow left.now row.now }
    requires left_condition { type_of left.now ≡ SqlType.Boolean }
    requires right_fits { FitsRow right.now row.now }
    requires right_condition { type_of right.now ≡ SqlType.Boolean }
    ensures { comparison sign (value_of row.now left.now) (value_of row.now right.now) ≡ truth_meaning result }
{
    match truth_of(left, row) {
        Ok(a) => match truth_of(right, row) {
            Ok(b) => Ok(compare_truths(sign, a, b)),
            Err(fault) => Err(fault),
        },
        Err(fault) => Err(fault),
    }
}

#[cycle(truth)]
fn compare(sign: CompareSign, left: &Expr, right: &Expr, row: &[Value]) -> Result<Truth, ValueFault>
    requires left_fits { FitsRow left.now row.now }
    requires right_fits { FitsRow right.now row.now }
    requires comparable { IsComparable (type_of left.now) (type_of right.now) }
    ensures { comparison sign (value_of row.now left.now) (value_of row.now right.now) ≡ truth_meaning result }
{
    match kind_of(left) {
        SqlType::Boolean => compare_conditions(sign, left, right, row),
        SqlType::Varchar => Ok(compare_texts(sign, text_of(left, row), text_of(right, row))),
        SqlType::Integer
        | SqlType::BigInt
        | SqlType::HugeInt
        | SqlType::Decimal { .. }
        | SqlType::Date => compare_amounts(sign, left, right, row),
    }
}

#[cycle(truth)]
fn null_test(of: &Expr, negated: bool, row: &[Value]) -> Result<Truth, ValueFault>
    requires { FitsRow of.now row.now }
    ensures { then_value (value_of row.now of.now) (λ v. Ok (tested negated v)) ≡ truth_meaning result }
{
    match kind_of(of) {
        SqlType::Boolean => match truth_of(of, row) {
            Ok(truth) => Ok(null_truth(negated, truth == Truth::Unknown)),
            Err(fault) => Err(fault),
        },
        SqlType::Varchar => Ok(null_truth(negated, text_of(of, row).is_none())),
        SqlType::Integer
        | SqlType::BigInt
        | SqlType::HugeInt
        | SqlType::Decimal { .. }
        | SqlType::Date => match amount_of(of, row) {
            Ok(digits) => Ok(null_truth(negated, digits.is_none())),
            Err(fault) => Err(fault),
        },
    }
}

// AND of the operands, from left to right up to the first that is false.
#[cycle(truth)]
fn every(list: &[Expr], row: &[Value]) -> Result<Truth, ValueFault>
    requires { AreConditions row.now list.now }
    ensures { every_from (Ok (of_truth true)) (map (value_of row.now) list.now) ≡ truth_meaning result }
{
    let mut all = Truth::Yes;
    for operand in list {
        match truth_of(operand, row) {
            Ok(truth) => all = both(all, truth),
            Err(fault) => return Err(fault),
        }
        if let Truth::No = all {
            return Ok(Truth::No);
        }
    }
    Ok(all)
}

// OR of the operands, from left to right up to the first that is true.
#[cycle(truth)]
fn either(list: &[Expr], row: &[Value]) -> Result<Truth, ValueFault>
    requires { AreConditions row.now list.now }
    ensures { either_from (Ok (of_truth false)) (map (value_of row.now) list.now) ≡ truth_meaning result }
{
    let mut any = Truth::No;
    for operand in list {
        match truth_of(operand, row) {
            Ok(truth) => any = one(any, truth),
            Err(fault) => return Err(fault),
        }
        if let Truth::Yes = any {
            return Ok(Truth::Yes);
        }
    }
    Ok(any)
}

#[cycle(truth)]
fn operand_of<'a>(expr: &'a Expr, row: &'a [Value]) -> Result<Operand<'a>, ValueFault>
    requires { FitsRow expr.now row.now }
    ensures value { value_of row.now expr.now ≡ operand_meaning result }
    ensures kind { IfOk result (λ operand. IsOperandOf (type_of expr.now) operand) }
{
    match kind_of(expr) {
        SqlType::Boolean => match truth_of(expr, row) {
            Ok(truth) => Ok(Operand::Truth(truth)),
            Err(fault) => Err(fault),
        },
        SqlType::Varchar => Ok(Operand::Text(text_of(expr, row))),
        SqlType::Integer
        | SqlType::BigInt
        | SqlType::HugeInt
        | SqlType::Decimal { .. }
        | SqlType::Date => match amount_of(expr, row) {
            Ok(digits) => Ok(Operand::Amount {
                digits,
                kind: kind_of(expr),
            }),
            Err(fault) => Err(fault),
        },
    }
}

// The comparison of an operand of the type with an expression.
#[cycle(truth)]
fn compare_operand(
    sign: CompareSign,
    left: &Operand<'_>,
    kind: SqlType,
    right: &Expr,
    row: &[Value],
) -> Result<Truth, ValueFault>
    requires left_kind { IsOperandOf kind left.now }
    requires right_fits { FitsRow right.now row.now }
    requires comparable { IsComparable kind (type_of right.now) }
    ensures { comparison sign (Ok (operand_value left.now)) (value_of row.now right.now) ≡ truth_meaning result }
{
    match left {
        Operand::Truth(a) => match truth_of(right, row) {
            Ok(b) => Ok(compare_truths(sign, *a, b)),
            Err(fault) => Err(fault),
        },
        Operand::Amount { digits, kind } => compare_amount(sign, *digits, *kind, right, row),
        Operand::Text(a) => Ok(compare_texts(sign, *a, text_of(right, row))),
    }
}

// OR of the equalities with the constants, from left to right up to the first that is true.
#[cycle(truth)]
fn among(of: &Operand<'_>, kind: SqlType, list: &[Expr], row: &[Value]) -> Result<Truth, ValueFault>
    requires kind { IsOperandOf kind of.now }
    requires comparable { AreComparable row.now kind list.now }
    ensures { either_from (Ok (of_truth false)) (map (comparison CompareSign.Equal (Ok (operand_value of.now))) (map (value_of row.now) list.now))
        ≡ truth_meaning result }
{
    let mut found = Truth::No;
    for constant in list {
        match compare_operand(CompareSign::Equal, of, kind, constant, row) {
            Ok(truth) => found = one(found, truth),
            Err(fault) => return Err(fault),
        }
        if let Truth::Yes = found {
            return Ok(found);
        }
    }
    Ok(found)
}

#[cycle(truth)]
fn one_of(of: &Expr, list: &[Expr], row: &[Value]) -> Result<Truth, ValueFault>
    requires fits { FitsRow of.now row.now }
    requires comparable { AreComparable row.now (type_of of.now) list.now }
    ensures { one_among (value_of row.now of.now) (map (value_of row.now) list.now) ≡ truth_meaning result }
{
    match operand_of(of, row) {
        Ok(operand) => among(&operand, kind_of(of), list, row),
        Err(fault) => Err(fault),
    }
}

// Whether an operand lies between two bounds. Where it lies below the first, the second isn't evaluated.
#[cycle(truth)]
fn within(
    of: &Operand<'_>,
    kind: SqlType,
    low: &Expr,
    high: &Expr,
    row: &[Value],
) -> Result<Truth, ValueFault>
    requires kind { IsOperandOf kind of.now }
    requires low_fits { FitsRow low.now row.now }
    requires low_comparable { IsComparable kind (type_of low.now) }
    requires high_fits { FitsRow high.now row.now }
    requires high_comparable { IsComparable kind (type_of high.now) }
    ensures { in_between (Ok (operand_value of.now)) (value_of row.now low.now) (value_of row.now high.now) ≡ truth_meaning result }
{
    match compare_operand(CompareSign::AtLeast, of, kind, low, row) {
        Ok(Truth::No) => Ok(Truth::No),
        Ok(above) => match compare_operand(CompareSign::AtMost, of, kind, high, row) {
            Ok(below) => Ok(both(above, below)),
            Err(fault) => Err(fault),
        },
        Err(fault) => Err(fault),
    }
}

#[cycle(truth)]
fn between(of: &Expr, low: &Expr, high: &Expr, row: &[Value]) -> Result<Truth, ValueFault>
    requires fits { FitsRow of.now row.now }
    requires low_fits { FitsRow low.now row.now }
    requires low_comparable { IsComparable (type_of of.now) (type_of low.now) }
    requires high_fits { FitsRow high.now row.now }
    requires high_comparable { IsComparable (type_of of.now) (type_of high.now) }
    ensures { in_between (value_of row.now of.now) (value_of row.now low.now) (value_of row.now high.now) ≡ truth_meaning result }
{
    match operand_of(of, row) {
        Ok(operand) => within(&operand, kind_of(of), low, high, row),
        Err(fault) => Err(fault),
    }
}

/// The truth of an expression that is BOOLEAN, or its fault.
#[cycle(truth)]
pub fn truth_of(expr: &Expr, row: &[Value]) -> Result<Truth, ValueFault>
    requires fits { FitsRow expr.now row.now }
    requires condition { type_of expr.now ≡ SqlType.Boolean }
    ensures { value_of row.now expr.now ≡ truth_meaning result }
{
    match expr {
        Expr::Constant { value, .. } => Ok(truth_in(value)),
        Expr::Column { place, .. } => Ok(truth_in(&row[*place as usize])),
        Expr::Not { of } => match truth_of(of.get(), row) {
            Ok(truth) => Ok(opposite_truth(truth)),
            Err(fault) => Err(fault),
        },
        Expr::Every { list } => every(list.as_slice(), row),
        Expr::Either { list } => either(list.as_slice(), row),
        Expr::Compare { sign, left, right } => compare(*sign, left.get(), right.get(), row),
        Expr::IsNull { of, negated } => null_test(of.get(), *negated, row),
        Expr::Like {
            of,
            pattern,
            negated,
        } => Ok(like_truth(text_of(of.get(), row), pattern, *negated)),
        Expr::OneOf { of, list, negated } => match one_of(of.get(), list.as_slice(), row) {
            Ok(truth) => Ok(perhaps_opposite(*negated, truth)),
            Err(fault) => Err(fault),
        },
        Expr::Between {
            of,
            low,
            high,
            negated,
        } => match between(of.get(), low.get(), high.get(), row) {
            Ok(truth) => Ok(perhaps_opposite(*negated, truth)),
            Err(fault) => Err(fault),
        },
        Expr::Minus { .. } | Expr::Chain { .. } => Ok(Truth::Unknown),
    }
}
