//! One sign of a chain between two amounts.
ghost use Rattle.std.specs.Prelude.{◌≡◌, int_div, int_rem};
ghost use Rattle.ooc_decimal.specs.Numeric.{IsNumeric, scale_of};
ghost use Rattle.sql_expr.specs.Operations.{IsLinked};
ghost use Rattle.sql_expr.specs.Arithmetic.{amount, combined, counted, numbers_applied, nearest_day, applied, opposite, exact, unless_zero};
ghost use Rattle.ooc_types.specs.declared.value.Value.TheVariants.{Number as a_number};
ghost use Rattle.sql_expr.specs.Outcomes.{amount_meaning, amount_value, told};

use crate::days::{day_before, day_behind, nearest};
use crate::fault::ValueFault;
use crate::kinds::scale;
use crate::tree::ChainSign;
use ooc_decimal::{add, mul, negate, quotient, remainder, sub};
use ooc_types::SqlType;

// A number, or Overflow where arithmetic gave none.
fn number_or_fault(number: Option<i128>) -> Result<Option<i128>, ValueFault>
    ensures { result ≡ told number }
{
    match number {
        Some(digits) => Ok(Some(digits)),
        None => Err(ValueFault::Overflow),
    }
}

fn sum(
    a: i128,
    left: SqlType,
    b: i128,
    right: SqlType,
    kind: SqlType,
) -> Result<Option<i128>, ValueFault>
    requires linked { IsLinked ChainSign.Plus left right kind }
    requires number { IsNumeric left }
    ensures { combined ChainSign.Plus kind a (scale_of left) b (scale_of right) ≡ amount_meaning kind result }
{
    number_or_fault(add(a, scale(left), b, scale(right), kind))
}

fn difference(
    a: i128,
    left: SqlType,
    b: i128,
    right: SqlType,
    kind: SqlType,
) -> Result<Option<i128>, ValueFault>
    requires linked { IsLinked ChainSign.Minus left right kind }
    requires number { IsNumeric left }
    ensures { combined ChainSign.Minus kind a (scale_of left) b (scale_of right) ≡ amount_meaning kind result }
{
    number_or_fault(sub(a, scale(left), b, scale(right), kind))
}

fn product(
    a: i128,
    left: SqlType,
    b: i128,
    right: SqlType,
    kind: SqlType,
) -> Result<Option<i128>, ValueFault>
    requires linked { IsLinked ChainSign.Times left right kind }
    requires number { IsNumeric left }
    ensures { combined ChainSign.Times kind a (scale_of left) b (scale_of right) ≡ amount_meaning kind result }
{
    number_or_fault(mul(a, scale(left), b, scale(right), kind))
}

#[tactic(auto, using(crate::proofs::Exactness::exact_told, crate::proofs::Exactness::unless_not_zero))]
fn whole_quotient(a: i128, b: i128, kind: SqlType) -> Result<Option<i128>, ValueFault>
    requires { IsNumeric kind }
    ensures { unless_zero b (exact kind (int_div a b)) ≡ amount_meaning kind result }
{
    if b == 0 {
        return Ok(None);
    }
    number_or_fault(quotient(a, b, kind))
}

#[tactic(auto, using(crate::proofs::Exactness::exact_told, crate::proofs::Exactness::unless_not_zero))]
fn whole_remainder(a: i128, b: i128, kind: SqlType) -> Result<Option<i128>, ValueFault>
    requires { IsNumeric kind }
    ensures { unless_zero b (exact kind (int_rem a b)) ≡ amount_meaning kind result }
{
    if b == 0 {
        return Ok(None);
    }
    number_or_fault(remainder(a, b, kind))
}

// Two numbers under a sign.
fn combine(
    sign: ChainSign,
    kind: SqlType,
    a: i128,
    left: SqlType,
    b: i128,
    right: SqlType,
) -> Result<Option<i128>, ValueFault>
    requires linked { IsLinked sign left right kind }
    requires number { IsNumeric left }
    ensures { combined sign kind a (scale_of left) b (scale_of right) ≡ amount_meaning kind result }
{
    match sign {
        ChainSign::Plus => sum(a, left, b, right, kind),
        ChainSign::Minus => difference(a, left, b, right, kind),
        ChainSign::Times => product(a, left, b, right, kind),
        ChainSign::Quotient => whole_quotient(a, b, kind),
        ChainSign::Remainder => whole_remainder(a, b, kind),
    }
}

// A date and days behind it or before it, or the days between two dates.
fn combine_date(
    sign: ChainSign,
    kind: SqlType,
    a: i128,
    b: i128,
    right: SqlType,
) -> Result<Option<i128>, ValueFault>
    requires { IsLinked sign SqlType.Date right kind }
    ensures { numbers_applied sign kind (a_number (nearest_day a) 0) (counted (amount right b)) ≡ amount_meaning kind result }
{
    let day = nearest(a);
    // Only `+` and `-` have a date before them.
    number_or_fault(match sign {
        ChainSign::Minus => match right {
            SqlType::Date => sub(day, 0, nearest(b), 0, kind),
            _ => day_before(day, b),
        },
        _ => day_behind(day, b),
    })
}

/// Two amounts under a sign, or NULL where one is NULL.
pub fn apply(
    sign: ChainSign,
    kind: SqlType,
    a: Option<i128>,
    left: SqlType,
    b: Option<i128>,
    right: SqlType,
) -> Result<Option<i128>, ValueFault>
    requires { IsLinked sign left right kind }
    ensures { applied sign kind (amount_value left a) (amount_value right b) ≡ amount_meaning kind result }
{
    match (a, b) {
        (Some(a), Some(b)) => match left {
            SqlType::Date => combine_date(sign, kind, a, b, right),
            _ => combine(sign, kind, a, left, b, right),
        },
        _ => Ok(None),
    }
}

/// The number with the other sign.
#[tactic(auto, using(crate::proofs::Exactness::exact_told))]
pub fn opposite_of(number: Option<i128>, kind: SqlType) -> Result<Option<i128>, ValueFault>
    requires { IsNumeric kind }
    ensures { opposite kind (amount_value kind number) ≡ amount_meaning kind result }
{
    match number {
        Some(digits) => number_or_fault(negate(digits, kind)),
        None => Ok(None),
    }
}
