//! Ends of types, and rounding half away from zero, at values that were worked out by hand.
ghost use Rattle.std.specs.Prelude.{◌≡◌};
ghost use Rattle.std.specs.Bool.{OnTrue};
ghost use Rattle.ooc_types.specs.declared.schema.SqlType.TheVariants.{Decimal};
ghost use Rattle.ooc_decimal.specs.Numeric.{IsNumeric};

use ooc_decimal::{greatest, least, nearest_number, read_number};
use ooc_types::SqlType;

const NINES: i128 = 99_999_999_999_999_999_999_999_999_999_999_999_999;

const MOST: i128 = 170_141_183_460_469_231_731_687_303_715_884_105_727;

fn is_numeric(kind: SqlType) -> bool
    ensures { OnTrue result (IsNumeric kind) }
{
    match kind {
        SqlType::Decimal { width, scale } => 1 <= width && width <= 38 && scale <= width,
        SqlType::Integer | SqlType::BigInt | SqlType::HugeInt => true,
        SqlType::Boolean | SqlType::Date | SqlType::Varchar => false,
    }
}

fn decimal(width: u8, scale: u8) -> SqlType
    ensures { result ≡ Decimal width scale }
{
    SqlType::Decimal { width, scale }
}

// The width alone bounds a decimal's digits, whatever its places. The last three have no numbers, and the one before them
// has a width that no column has: their ends are those of 128 bits.
#[test]
fn each_type_has_its_ends(rt: HostRuntime) {
    let cases: [(SqlType, i128, i128); 13] = [
        (SqlType::Integer, -2_147_483_648, 2_147_483_647),
        (
            SqlType::BigInt,
            -9_223_372_036_854_775_808,
            9_223_372_036_854_775_807,
        ),
        (SqlType::HugeInt, -MOST - 1, MOST),
        (decimal(1, 0), -9, 9),
        (decimal(1, 1), -9, 9),
        (decimal(4, 2), -9_999, 9_999),
        (
            decimal(18, 3),
            -999_999_999_999_999_999,
            999_999_999_999_999_999,
        ),
        (
            decimal(19, 19),
            -9_999_999_999_999_999_999,
            9_999_999_999_999_999_999,
        ),
        (decimal(38, 10), -NINES, NINES),
        (decimal(39, 0), -MOST - 1, MOST),
        (SqlType::Boolean, -MOST - 1, MOST),
        (SqlType::Date, -MOST - 1, MOST),
        (SqlType::Varchar, -MOST - 1, MOST),
    ];
    for (kind, low, high) in cases {
        assert_eq!(rt; least(kind), low, "up to {high}");
        assert_eq!(rt; greatest(kind), high, "from {low}");
        assert_eq!(rt; nearest_number(low, kind), low);
        assert_eq!(rt; nearest_number(high, kind), high);
        assert_eq!(rt; nearest_number(-MOST - 1, kind), low);
        assert_eq!(rt; nearest_number(MOST, kind), high);
        assert_eq!(rt; nearest_number(0, kind), 0);
    }
}

// Inside the ends a number stays, and one step outside it is the end.
#[test]
fn the_nearest_number_is_the_number_or_an_end(rt: HostRuntime) {
    let cases: [(i128, SqlType, i128); 20] = [
        (2_147_483_646, SqlType::Integer, 2_147_483_646),
        (2_147_483_648, SqlType::Integer, 2_147_483_647),
        (-2_147_483_647, SqlType::Integer, -2_147_483_647),
        (-2_147_483_649, SqlType::Integer, -2_147_483_648),
        (2_147_483_648, SqlType::BigInt, 2_147_483_648),
        (
            9_223_372_036_854_775_806,
            SqlType::BigInt,
            9_223_372_036_854_775_806,
        ),
        (
            9_223_372_036_854_775_808,
            SqlType::BigInt,
            9_223_372_036_854_775_807,
        ),
        (
            -9_223_372_036_854_775_807,
            SqlType::BigInt,
            -9_223_372_036_854_775_807,
        ),
        (
            -9_223_372_036_854_775_809,
            SqlType::BigInt,
            -9_223_372_036_854_775_808,
        ),
        (MOST - 1, SqlType::HugeInt, MOST - 1),
        (-MOST, SqlType::HugeInt, -MOST),
        (9, decimal(1, 0), 9),
        (10, decimal(1, 0), 9),
        (-10, decimal(1, 1), -9),
        (9_998, decimal(4, 2), 9_998),
        (10_000, decimal(4, 2), 9_999),
        (-10_000, decimal(4, 2), -9_999),
        (NINES - 1, decimal(38, 38), NINES - 1),
        (NINES + 1, decimal(38, 38), NINES),
        (-NINES - 1, decimal(38, 0), -NINES),
    ];
    for (digits, kind, nearest) in cases {
        assert_eq!(rt; nearest_number(digits, kind), nearest, "at {digits}");
    }
}

// The first place that is dropped decides, and the sign doesn't: 5 goes away from zero, and what is less goes toward it,
// be it by the 30th place behind. A number that is rounded out of its type has no value.
#[test]
fn halves_are_rounded_away_from_zero(rt: HostRuntime) {
    let cases: [(&str, SqlType, Option<i128>); 20] = [
        ("0.5", decimal(3, 0), Some(1)),
        ("-0.5", decimal(3, 0), Some(-1)),
        ("1.5", decimal(3, 0), Some(2)),
        ("2.5", decimal(3, 0), Some(3)),
        ("-1.5", decimal(3, 0), Some(-2)),
        ("-2.5", decimal(3, 0), Some(-3)),
        ("2.4999999999", decimal(3, 0), Some(2)),
        ("-2.4999999999", decimal(3, 0), Some(-2)),
        ("2.5000000001", decimal(3, 0), Some(3)),
        ("0.4999999999999999999999999999999", decimal(3, 0), Some(0)),
        (".05", decimal(2, 1), Some(1)),
        ("-.049", decimal(2, 1), Some(0)),
        ("0.95", decimal(2, 1), Some(10)),
        ("-0.95", decimal(2, 1), Some(-10)),
        ("9.49", decimal(1, 0), Some(9)),
        ("9.5", decimal(1, 0), None),
        ("-9.5", decimal(1, 0), None),
        ("1.005", decimal(38, 2), Some(101)),
        (
            "9999999999999999999999999999999999999.85",
            decimal(38, 1),
            Some(99_999_999_999_999_999_999_999_999_999_999_999_999),
        ),
        (
            "9999999999999999999999999999999999999.95",
            decimal(38, 1),
            None,
        ),
    ];
    for (text, kind, number) in cases {
        assert!(rt; is_numeric(kind));
        assert_eq!(rt; read_number(text.as_bytes(), kind), number, "at {text}");
    }
}
