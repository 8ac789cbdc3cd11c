//! The ranges of the types of numbers.
ghost use Rattle.std.specs.Prelude.{◌≡◌, ◌↔◌, IsTrue};
ghost use Rattle.ooc_decimal.specs.Exact.{IsExact};
ghost use Rattle.ooc_decimal.specs.Numeric.{IsNumeric, signed, scale_of};

use crate::powers::power_of_ten;
use ooc_types::SqlType;

/// The digits, where they are in the range of the type.
pub fn in_range(digits: i128, kind: SqlType) -> Option<i128>
    requires { IsNumeric kind }
    ensures { IsExact kind digits result }
{
    let fits = match kind {
        SqlType::Integer => -2_147_483_648 <= digits && digits <= 2_147_483_647,
        SqlType::BigInt => -9_223_372_036_854_775_808 <= digits
            && digits <= 9_223_372_036_854_775_807,
        SqlType::HugeInt => true,
        SqlType::Decimal { width, .. } => digits.unsigned_abs() < power_of_ten(width),
        SqlType::Boolean | SqlType::Date | SqlType::Varchar => false,
    };
    if fits { Some(digits) } else { None }
}

/// How many digits stand behind the point.
pub fn scale(kind: SqlType) -> u8
    ensures { result ≡ scale_of kind }
{
    match kind {
        SqlType::Decimal { scale, .. } => scale,
        SqlType::Boolean
        | SqlType::Integer
        | SqlType::BigInt
        | SqlType::HugeInt
        | SqlType::Date
        | SqlType::Varchar => 0,
    }
}

/// The number of this sign and magnitude, where it is in the range of the type.
pub fn within(negative: bool, magnitude: u128, kind: SqlType) -> Option<i128>
    requires { IsNumeric kind }
    ensures { IsExact kind (signed negative magnitude) result }
{
    if magnitude <= i128::MAX as u128 {
        let size = magnitude as i128;
        return in_range(if negative { -size } else { size }, kind);
    }
    if negative && magnitude == i128::MIN.unsigned_abs() {
        return in_range(i128::MIN, kind);
    }
    None
}
