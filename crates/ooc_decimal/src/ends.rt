//! The ends of the types of numbers.
ghost use Rattle.std.specs.Prelude.{◌≡◌, ◌≤◌, ◌-◌, ◌^◌, pos, neg_ℤ, FitsSigned};
ghost use Rattle.std.specs.Int.{w128};
ghost use Rattle.ooc_decimal.specs.Ends.{most_of, below_of, nearest_of};

use crate::powers::power_of_ten;
use ooc_types::SqlType;

const MAX_WIDTH: u8 = 38;

fn greatest_of_width(width: u8) -> i128
    requires { width ≤ 38 }
    ensures value { result ≡ pos (10 ^ width - 1) }
    ensures positive { FitsSigned w128 (neg_ℤ result) }
{
    (power_of_ten(width) - 1) as i128
}

/// The greatest number of a type. Of a type that isn't one of numbers, what 128 bits hold.
pub fn greatest(kind: SqlType) -> i128
    ensures { result ≡ pos (most_of kind) }
{
    match kind {
        SqlType::Integer => 2_147_483_647,
        SqlType::BigInt => 9_223_372_036_854_775_807,
        SqlType::Decimal { width, .. } => if width <= MAX_WIDTH {
            greatest_of_width(width)
        } else {
            i128::MAX
        },
        SqlType::HugeInt | SqlType::Boolean | SqlType::Date | SqlType::Varchar => i128::MAX,
    }
}

/// The least number of a type. Of a type that isn't one of numbers, what 128 bits hold.
pub fn least(kind: SqlType) -> i128
    ensures { result ≡ neg_ℤ (pos (below_of kind)) }
{
    match kind {
        SqlType::Integer => -2_147_483_648,
        SqlType::BigInt => -9_223_372_036_854_775_808,
        SqlType::Decimal { width, .. } => if width <= MAX_WIDTH {
            -greatest_of_width(width)
        } else {
            i128::MIN
        },
        SqlType::HugeInt | SqlType::Boolean | SqlType::Date | SqlType::Varchar => i128::MIN,
    }
}

/// The number itself, or outside its type's range the nearest number of the type.
pub fn nearest_number(digits: i128, kind: SqlType) -> i128
    ensures { result ≡ nearest_of kind digits }
{
    let low = least(kind);
    if digits < low {
        return low;
    }
    let high = greatest(kind);
    if high < digits { high } else { digits }
}
