//! Arithmetic that is exact, or none where the type can't hold the result.
ghost use Rattle.std.specs.Prelude.{◌≡◌, ◌≢◌, ℤ, pos, neg_ℤ, ◌+ℤ◌, ◌-ℤ◌, ◌*ℤ◌, ◌+◌, ◌≤◌, int_div, int_rem};
ghost use Rattle.ooc_decimal.specs.Numeric.{IsNumeric, scale_of};
ghost use Rattle.ooc_decimal.specs.Exact.{IsExact, at_scale};

use crate::narrow;
use crate::range::{in_range, scale};
use crate::signed::{from_digits, opposite, scaled_sum};
use ooc_types::SqlType;

fn add_digits(a: i128, b: i128, kind: SqlType) -> Option<i128>
    requires { IsNumeric kind }
    ensures { IsExact kind (a +ℤ b) result }
{
    match a.checked_add(b) {
        Some(sum) => in_range(sum, kind),
        None => None,
    }
}

fn sub_digits(a: i128, b: i128, kind: SqlType) -> Option<i128>
    requires { IsNumeric kind }
    ensures { IsExact kind (a -ℤ b) result }
{
    match a.checked_sub(b) {
        Some(difference) => in_range(difference, kind),
        None => None,
    }
}

/// The sum of `a / 10^a_scale` and `b / 10^b_scale` as digits of the type.
pub fn add(a: i128, a_scale: u8, b: i128, b_scale: u8, kind: SqlType) -> Option<i128>
    requires numeric { IsNumeric kind }
    requires a_places { a_scale ≤ scale_of kind }
    requires b_places { b_scale ≤ scale_of kind }
    ensures { IsExact kind (at_scale a a_scale (scale_of kind) +ℤ at_scale b b_scale (scale_of kind)) result }
{
    let to = scale(kind);
    if a_scale == to && b_scale == to {
        return add_digits(a, b, kind);
    }
    if let Some(sum) = narrow::sum(a, to - a_scale, b, to - b_scale) {
        return in_range(sum, kind);
    }
    scaled_sum(
        from_digits(a),
        to - a_scale,
        from_digits(b),
        to - b_scale,
        kind,
    )
}

/// The difference of `a / 10^a_scale` and `b / 10^b_scale` as digits of the type.
pub fn sub(a: i128, a_scale: u8, b: i128, b_scale: u8, kind: SqlType) -> Option<i128>
    requires numeric { IsNumeric kind }
    requires a_places { a_scale ≤ scale_of kind }
    requires b_places { b_scale ≤ scale_of kind }
    ensures { IsExact kind (at_scale a a_scale (scale_of kind) -ℤ at_scale b b_scale (scale_of kind)) result }
{
    let to = scale(kind);
    if a_scale == to && b_scale == to {
        return sub_digits(a, b, kind);
    }
    if let Some(difference) = narrow::difference(a, to - a_scale, b, to - b_scale) {
        return in_range(difference, kind);
    }
    scaled_sum(
        from_digits(a),
        to - a_scale,
        opposite(from_digits(b)),
        to - b_scale,
        kind,
    )
}

/// The product of `a / 10^a_scale` and `b / 10^b_scale` as digits of the type, whose scale is the sum of theirs.
pub fn mul(a: i128, a_scale: u8, b: i128, b_scale: u8, kind: SqlType) -> Option<i128>
    requires numeric { IsNumeric kind }
    requires places { a_scale + b_scale ≡ scale_of kind }
    ensures { IsExact kind (a *ℤ b) result }
{
    match a.checked_mul(b) {
        Some(product) => in_range(product, kind),
        None => None,
    }
}

/// The quotient of two whole numbers, without its fraction.
pub fn quotient(a: i128, b: i128, kind: SqlType) -> Option<i128>
    requires numeric { IsNumeric kind }
    requires divisor { b ≢ pos 0 }
    ensures { IsExact kind (int_div a b) result }
{
    if let Some(quotient) = narrow::quotient(a, b) {
        return in_range(quotient, kind);
    }
    match a.checked_div(b) {
        Some(quotient) => in_range(quotient, kind),
        None => None,
    }
}

/// What `quotient` leaves of `a`, which has the sign of `a`.
pub fn remainder(a: i128, b: i128, kind: SqlType) -> Option<i128>
    requires numeric { IsNumeric kind }
    requires divisor { b ≢ pos 0 }
    ensures { IsExact kind (int_rem a b) result }
{
    if let Some(remainder) = narrow::remainder(a, b) {
        return in_range(remainder, kind);
    }
    match a.checked_rem(b) {
        Some(remainder) => in_range(remainder, kind),
        None => in_range(0, kind),
    }
}

/// The number with the other sign.
pub fn negate(a: i128, kind: SqlType) -> Option<i128>
    requires { IsNumeric kind }
    ensures { IsExact kind (neg_ℤ a) result }
{
    match a.checked_neg() {
        Some(negated) => in_range(negated, kind),
        None => None,
    }
}
