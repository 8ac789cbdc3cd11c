//! Fields of each type.

use crate::session::{first_wrong, gives};
use crate::shape::{Shape, plain_shape};
use ooc_types::{OutOfMemory, SqlType};
use std::alloc::Global;

// Whether a file of one column without a header gives these rows.
fn gives_of(alloc: Global, kind: SqlType, file: &str, rows: &str) -> Result<bool, OutOfMemory> {
    let kinds = [kind];
    let shape = Shape {
        header: false,
        ..plain_shape(&kinds)
    };
    gives(alloc, &shape, file.as_bytes(), rows.as_bytes())
}

// The place of the first file that doesn't give its rows.
fn first_wrong_kind(
    alloc: Global,
    cases: &[(SqlType, &str, &str)],
) -> Result<Option<usize>, OutOfMemory> {
    for place in 0..cases.len() {
        let (kind, file, rows) = cases[place];
        if !gives_of(alloc, kind, file, rows)? {
            return Ok(Some(place));
        }
    }
    Ok(None)
}

const BAD: &str = "record 1 column 1: bad value";

#[test]
fn integers_have_a_sign_and_digits(rt: HostRuntime) {
    let cases = [
        (
            SqlType::Integer,
            "2147483647\n-2147483648\n+0007\n-0\n \t5\t \n",
            "2147483647;-2147483648;7;0;5;end",
        ),
        (SqlType::Integer, "2147483648\n", BAD),
        (SqlType::Integer, "-2147483649\n", BAD),
        (SqlType::Integer, "1.0\n", BAD),
        (SqlType::Integer, "1 2\n", BAD),
        (SqlType::Integer, "+\n", BAD),
        (SqlType::Integer, "--1\n", BAD),
        (SqlType::Integer, "1e1\n", BAD),
        (
            SqlType::BigInt,
            "9223372036854775807\n-9223372036854775808\n",
            "9223372036854775807;-9223372036854775808;end",
        ),
        (SqlType::BigInt, "9223372036854775808\n", BAD),
        (SqlType::BigInt, "-9223372036854775809\n", BAD),
    ];
    assert!(rt; first_wrong_kind(rt.alloc(), &cases) == Ok(None));
}

#[test]
fn hugeints_have_128_bits(rt: HostRuntime) {
    let cases = [
        (
            "170141183460469231731687303715884105727\n-170141183460469231731687303715884105728\n",
            "170141183460469231731687303715884105727;-170141183460469231731687303715884105728;end",
        ),
        ("170141183460469231731687303715884105728\n", BAD),
        ("-170141183460469231731687303715884105729\n", BAD),
        (
            "00000000000000000000000000000000000000000000000000000007\n",
            "7;end",
        ),
        (
            "1000000000000000000000000000000000000000000000000000000\n",
            BAD,
        ),
    ];
    let kinds = [SqlType::HugeInt];
    let shape = Shape {
        header: false,
        ..plain_shape(&kinds)
    };
    assert!(rt; first_wrong(rt.alloc(), &shape, &cases) == Ok(None));
}

fn decimal(width: u8, scale: u8) -> SqlType {
    SqlType::Decimal { width, scale }
}

// Places beyond the scale are rounded, half away from zero, and the result is to be within the width.
#[test]
fn decimals_are_rounded_half_away_from_zero(rt: HostRuntime) {
    let cases = [
        (
            decimal(5, 2),
            "1.005\n1.0049999\n-1.005\n2.675\n.5\n5.\n+.25\n",
            "101:2;100:2;-101:2;268:2;50:2;500:2;25:2;end",
        ),
        (
            decimal(2, 0),
            "2.5\n3.5\n-2.5\n-3.5\n2.49\n",
            "3;4;-3;-4;2;end",
        ),
        (decimal(5, 2), "999.994\n-999.99\n", "99999:2;-99999:2;end"),
        (decimal(5, 2), "999.995\n", BAD),
        (decimal(5, 2), "-999.995\n", BAD),
        (decimal(5, 2), "1000\n", BAD),
        (decimal(5, 2), ".\n", BAD),
        (decimal(5, 2), "1.2.3\n", BAD),
        (decimal(5, 2), "- 1\n", BAD),
        (decimal(1, 1), "0.94\n", "9:1;end"),
        (decimal(1, 1), "0.95\n", BAD),
        (
            decimal(38, 0),
            "99999999999999999999999999999999999999.4\n",
            "99999999999999999999999999999999999999;end",
        ),
        (
            decimal(38, 0),
            "99999999999999999999999999999999999999.5\n",
            BAD,
        ),
    ];
    assert!(rt; first_wrong_kind(rt.alloc(), &cases) == Ok(None));
}

#[test]
fn truths_are_six_words(rt: HostRuntime) {
    let cases = [
        (
            "true\nT\n1\n tRuE\t\nFALSE\nf\n0\n",
            "true;true;true;true;false;false;false;end",
        ),
        ("yes\n", BAD),
        ("01\n", BAD),
        ("tr ue\n", BAD),
        ("truee\n", BAD),
    ];
    let kinds = [SqlType::Boolean];
    let shape = Shape {
        header: false,
        ..plain_shape(&kinds)
    };
    assert!(rt; first_wrong(rt.alloc(), &shape, &cases) == Ok(None));
}

// The days from 0001-01-01 to 9999-12-31, as ten bytes.
#[test]
fn dates_have_ten_bytes(rt: HostRuntime) {
    let cases = [
        (
            "0001-01-01\n9999-12-31\n1970-01-01\n 1969-12-31\t\n",
            "day -719162;day 2932896;day 0;day -1;end",
        ),
        (
            "2024-02-29\n\"\"\n2023-12-31\n",
            "day 19782;NULL;day 19722;end",
        ),
        ("2023-02-29\n", BAD),
        ("0000-12-31\n", BAD),
        ("2024-13-01\n", BAD),
        ("2024-04-31\n", BAD),
        ("2024-1-01\n", BAD),
        ("02024-01-01\n", BAD),
        ("2024/01/01\n", BAD),
        ("2024-01-01x\n", BAD),
    ];
    let kinds = [SqlType::Date];
    let shape = Shape {
        header: false,
        ..plain_shape(&kinds)
    };
    assert!(rt; first_wrong(rt.alloc(), &shape, &cases) == Ok(None));
}
