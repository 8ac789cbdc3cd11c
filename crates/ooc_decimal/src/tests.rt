//! Numbers as text and arithmetic, at values that were worked out by hand.
ghost use Rattle.std.specs.Prelude.{◌≡◌};
ghost use Rattle.std.specs.Bool.{OnTrue};
ghost use Rattle.ooc_types.specs.declared.schema.SqlType.TheVariants.{Decimal};
ghost use Rattle.ooc_decimal.specs.Numeric.{IsNumeric};

use super::*;
use crate::range::scale;
use ooc_types::SqlType;
use std::test::Fail;

const MOST: i128 = i128::MAX;

const NINES: i128 = 99_999_999_999_999_999_999_999_999_999_999_999_999;

const TENS: i128 = 10_000_000_000_000_000_000_000_000_000_000_000_000;

fn is_numeric(kind: SqlType) -> bool
    ensures { OnTrue result (IsNumeric kind) }
{
    match kind {
        SqlType::Decimal { width, scale } => 1 <= width && width <= 38 && scale <= width,
        SqlType::Integer | SqlType::BigInt | SqlType::HugeInt => true,
        SqlType::Boolean | SqlType::Date | SqlType::Varchar => false,
    }
}

fn decimal(width: u8, scale: u8) -> SqlType
    ensures { result ≡ Decimal width scale }
{
    SqlType::Decimal { width, scale }
}

#[test]
fn numbers_print_with_their_sign_and_places(rt: HostRuntime) -> Result<(), Fail> {
    let cases: [(i128, u8, &str); 17] = [
        (0, 0, "0"),
        (-7, 0, "-7"),
        (i128::from(i64::MAX), 0, "9223372036854775807"),
        (i128::from(i64::MIN), 0, "-9223372036854775808"),
        (i128::from(u64::MAX), 0, "18446744073709551615"),
        (MOST, 0, "170141183460469231731687303715884105727"),
        (i128::MIN, 0, "-170141183460469231731687303715884105728"),
        (0, 3, "0.000"),
        (-1, 3, "-0.001"),
        (-999, 3, "-0.999"),
        (155, 2, "1.55"),
        (-1000, 3, "-1.000"),
        (10_000_000_000_000_000_000, 19, "1.0000000000000000000"),
        (-5, 20, "-0.00000000000000000005"),
        (MOST, 20, "1701411834604692317.31687303715884105727"),
        (NINES, 38, "0.99999999999999999999999999999999999999"),
        (MOST, 45, "0.000000170141183460469231731687303715884105727"),
    ];
    let mut printed = Vec::new(rt.alloc());
    for (digits, scale, text) in cases {
        printed.clear();
        printed.push(b'>')?;
        print_number(digits, scale, &mut printed)?;
        assert_eq!(rt; printed.len(), 1 + text.len(), "at {text}");
        assert_eq!(rt; &printed[1..], text.as_bytes(), "at {text}");
        assert_eq!(rt; number_length(digits, scale), text.len(), "at {text}");
    }
    Ok(())
}

#[test]
fn integers_are_read_up_to_the_ends_of_their_types(rt: HostRuntime) {
    let cases: [(&str, SqlType, Option<i128>); 13] = [
        ("2147483647", SqlType::Integer, Some(2_147_483_647)),
        ("2147483648", SqlType::Integer, None),
        ("-2147483648", SqlType::Integer, Some(-2_147_483_648)),
        ("-2147483649", SqlType::Integer, None),
        (
            "9223372036854775807",
            SqlType::BigInt,
            Some(9_223_372_036_854_775_807),
        ),
        ("9223372036854775808", SqlType::BigInt, None),
        (
            "-9223372036854775808",
            SqlType::BigInt,
            Some(-9_223_372_036_854_775_808),
        ),
        (
            "170141183460469231731687303715884105727",
            SqlType::HugeInt,
            Some(MOST),
        ),
        (
            "170141183460469231731687303715884105728",
            SqlType::HugeInt,
            None,
        ),
        (
            "-170141183460469231731687303715884105727",
            SqlType::HugeInt,
            Some(-MOST),
        ),
        (
            "-170141183460469231731687303715884105728",
            SqlType::HugeInt,
            Some(i128::MIN),
        ),
        (
            "-170141183460469231731687303715884105729",
            SqlType::HugeInt,
            None,
        ),
        (
            "340282366920938463463374607431768211457",
            SqlType::HugeInt,
            None,
        ),
    ];
    for (text, kind, number) in cases {
        assert!(rt; is_numeric(kind));
        assert_eq!(rt; read_number(text.as_bytes(), kind), number, "at {text}");
    }
}

#[test]
fn blanks_signs_and_points_have_their_places(rt: HostRuntime) {
    let cases: [(&str, SqlType, Option<i128>); 17] = [
        (" \t+7 ", SqlType::Integer, Some(7)),
        ("-0", SqlType::Integer, Some(0)),
        (
            "00000000000000000000000000000000000000000000000012",
            SqlType::Integer,
            Some(12),
        ),
        ("", SqlType::Integer, None),
        (" \t ", SqlType::Integer, None),
        ("+", SqlType::Integer, None),
        ("+-1", SqlType::Integer, None),
        ("1 2", SqlType::Integer, None),
        ("1.0", SqlType::Integer, None),
        ("1\n", SqlType::Integer, None),
        ("1x", SqlType::BigInt, None),
        (".5", decimal(2, 1), Some(5)),
        ("5.", decimal(2, 1), Some(50)),
        (".", decimal(2, 1), None),
        ("-.", decimal(2, 1), None),
        ("1.2.3", decimal(9, 2), None),
        ("0.00x", decimal(9, 1), None),
    ];
    for (text, kind, number) in cases {
        assert!(rt; is_numeric(kind));
        assert_eq!(rt; read_number(text.as_bytes(), kind), number, "at {text}");
    }
}

#[test]
fn decimals_are_rounded_to_their_scale_and_kept_to_their_width(rt: HostRuntime) {
    let cases: [(&str, SqlType, Option<i128>); 12] = [
        ("-0.0005", decimal(18, 3), Some(-1)),
        ("-0.0004", decimal(18, 3), Some(0)),
        ("0.0005", decimal(18, 3), Some(1)),
        (
            "0.000499999999999999999999999999999999999999999999",
            decimal(18, 3),
            Some(0),
        ),
        ("1.55", decimal(18, 3), Some(1550)),
        ("9.94", decimal(2, 1), Some(99)),
        ("9.95", decimal(2, 1), None),
        ("-9.95", decimal(2, 1), None),
        ("99.5", decimal(3, 0), Some(100)),
        (
            "99999999999999999999999999999999999999",
            decimal(38, 0),
            Some(NINES),
        ),
        (
            "0.99999999999999999999999999999999999999",
            decimal(38, 38),
            Some(NINES),
        ),
        (
            "0.999999999999999999999999999999999999999",
            decimal(38, 38),
            None,
        ),
    ];
    for (text, kind, number) in cases {
        assert!(rt; is_numeric(kind));
        assert_eq!(rt; read_number(text.as_bytes(), kind), number, "at {text}");
    }
}

// Sums of two scales, at the ends of types, and one that needs more than an `i128` on the way.
#[test]
fn sums_are_exact(rt: HostRuntime) {
    let cases: [(i128, u8, i128, u8, SqlType, Option<i128>); 10] = [
        (105, 2, 5, 1, decimal(5, 2), Some(155)),
        (5, 1, 105, 2, decimal(5, 2), Some(155)),
        (2_147_483_647, 0, 1, 0, SqlType::Integer, None),
        (2_147_483_647, 0, 1, 0, SqlType::BigInt, Some(2_147_483_648)),
        (MOST, 0, 1, 0, SqlType::HugeInt, None),
        (-MOST, 0, -1, 0, SqlType::HugeInt, Some(i128::MIN)),
        (i128::MIN, 0, -1, 0, SqlType::HugeInt, None),
        (NINES, 2, 1, 2, decimal(38, 2), None),
        (2 * TENS, 0, -NINES - 1, 1, decimal(38, 1), None),
        (2 * TENS, 0, -NINES - 2, 1, decimal(38, 1), Some(NINES)),
    ];
    for (a, a_scale, b, b_scale, kind, exact) in cases {
        assert!(rt; is_numeric(kind));
        assert!(rt; a_scale <= scale(kind) && b_scale <= scale(kind));
        assert_eq!(rt; add(a, a_scale, b, b_scale, kind), exact, "at {a} and {b}");
    }
}

// The last is in units of a further place, and small again.
#[test]
fn differences_are_exact(rt: HostRuntime) {
    let cases: [(i128, u8, i128, u8, SqlType, Option<i128>); 8] = [
        (5, 1, 105, 2, decimal(5, 2), Some(-55)),
        (105, 2, 5, 1, decimal(5, 2), Some(55)),
        (
            -2_147_483_647,
            0,
            1,
            0,
            SqlType::Integer,
            Some(-2_147_483_648),
        ),
        (-MOST, 0, 1, 0, SqlType::HugeInt, Some(i128::MIN)),
        (i128::MIN, 0, 1, 0, SqlType::HugeInt, None),
        (0, 0, i128::MIN, 0, SqlType::HugeInt, None),
        (-1, 0, i128::MIN, 0, SqlType::HugeInt, Some(MOST)),
        (NINES, 0, NINES - 1, 0, decimal(38, 1), Some(10)),
    ];
    for (a, a_scale, b, b_scale, kind, exact) in cases {
        assert!(rt; is_numeric(kind));
        assert!(rt; a_scale <= scale(kind) && b_scale <= scale(kind));
        assert_eq!(rt; sub(a, a_scale, b, b_scale, kind), exact, "at {a} and {b}");
    }
}

#[test]
fn products_are_exact(rt: HostRuntime) {
    let cases: [(i128, u8, i128, u8, SqlType, Option<i128>); 6] = [
        (105, 2, -5, 1, decimal(8, 3), Some(-525)),
        (MOST, 0, 2, 0, SqlType::HugeInt, None),
        (1 << 64, 0, -(1 << 63), 0, SqlType::HugeInt, Some(i128::MIN)),
        (1 << 64, 0, 1 << 63, 0, SqlType::HugeInt, None),
        (i128::MIN, 0, -1, 0, SqlType::HugeInt, None),
        (NINES, 19, 1, 19, decimal(38, 38), Some(NINES)),
    ];
    for (a, a_scale, b, b_scale, kind, exact) in cases {
        assert!(rt; is_numeric(kind));
        assert!(rt; usize::from(a_scale) + usize::from(b_scale) == usize::from(scale(kind)));
        assert_eq!(rt; mul(a, a_scale, b, b_scale, kind), exact, "at {a} and {b}");
    }
}

#[test]
fn quotients_are_cut_and_remainders_have_the_sign_of_the_dividend(rt: HostRuntime) {
    assert_eq!(rt; quotient(-7, 2, SqlType::Integer), Some(-3));
    assert_eq!(rt; quotient(i128::MIN, -1, SqlType::HugeInt), None);
    assert_eq!(rt; quotient(i128::MIN, 1, SqlType::HugeInt), Some(i128::MIN));
    assert_eq!(rt; quotient(-2_147_483_648, -1, SqlType::Integer), None);
    assert_eq!(rt; remainder(-7, 2, SqlType::Integer), Some(-1));
    assert_eq!(rt; remainder(7, -2, SqlType::Integer), Some(1));
    assert_eq!(rt; remainder(i128::MIN, -1, SqlType::HugeInt), Some(0));
    assert_eq!(rt; negate(-2_147_483_648, SqlType::Integer), None);
    assert_eq!(rt;
        negate(-2_147_483_648, SqlType::BigInt),
        Some(2_147_483_648)
    );
    assert_eq!(rt; negate(i128::MIN, SqlType::HugeInt), None);
}
