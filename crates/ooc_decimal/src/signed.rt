//! Sums of numbers by sign and magnitude: one more bit than an `i128`, so that no sum in range is lost on the way.
ghost use Rattle.std.specs.Prelude.{◌≡◌, ℤ, pos, neg_ℤ, ◌+ℤ◌, ◌*ℤ◌, ◌<◌, ◌≤◌, ◌^◌, MatchOption, unsigned_abs};
ghost use Rattle.ooc_decimal.specs.Numeric.{IsNumeric, signed};
ghost use Rattle.ooc_decimal.specs.Exact.{IsExact};

use crate::digits::times_power;
use crate::range::within;
use ooc_types::SqlType;

#[derive(Clone, Copy)]
pub struct Signed {
    pub negative: bool,
    pub magnitude: u128,
}

pub fn from_digits(digits: i128) -> Signed
    ensures value { digits ≡ signed result.negative result.magnitude }
    ensures small { result.magnitude ≤ 2 ^ 127 }
{
    Signed {
        negative: digits < 0,
        magnitude: digits.unsigned_abs(),
    }
}

pub fn opposite(number: Signed) -> Signed
    ensures value { signed result.negative result.magnitude ≡ neg_ℤ (signed number.negative number.magnitude) }
    ensures size { result.magnitude ≡ number.magnitude }
{
    Signed {
        negative: !number.negative,
        magnitude: number.magnitude,
    }
}

// The sum; none where it needs more than 128 bits.
fn sum_of(a: Signed, b: Signed) -> Option<Signed>
    ensures { let sum = signed a.negative a.magnitude +ℤ signed b.negative b.magnitude in
        MatchOption result (2 ^ 128 ≤ unsigned_abs sum) (λ s. signed s.negative s.magnitude ≡ sum) }
{
    if a.negative == b.negative {
        return match a.magnitude.checked_add(b.magnitude) {
            Some(magnitude) => Some(Signed {
                negative: a.negative,
                magnitude,
            }),
            None => None,
        };
    }
    if b.magnitude <= a.magnitude {
        Some(Signed {
            negative: a.negative,
            magnitude: a.magnitude - b.magnitude,
        })
    } else {
        Some(Signed {
            negative: b.negative,
            magnitude: b.magnitude - a.magnitude,
        })
    }
}

// `a + b * 10^places`; none where that is beyond each type.
#[tactic(auto, using(crate::proofs::OutOfRange::sum_beyond))]
fn raised_sum(a: Signed, b: Signed, places: u8) -> Option<Signed>
    requires { a.magnitude ≤ 2 ^ 127 }
    ensures { let sum = signed a.negative a.magnitude +ℤ signed b.negative b.magnitude *ℤ pos (10 ^ places) in
        MatchOption result (2 ^ 127 < unsigned_abs sum) (λ s. signed s.negative s.magnitude ≡ sum) }
{
    match times_power(b.magnitude, places) {
        Some(magnitude) => sum_of(
            a,
            Signed {
                negative: b.negative,
                magnitude,
            },
        ),
        None => None,
    }
}

fn raised(a: Signed, places: u8, kind: SqlType) -> Option<i128>
    requires { IsNumeric kind }
    ensures { IsExact kind (signed a.negative a.magnitude *ℤ pos (10 ^ places)) result }
{
    match times_power(a.magnitude, places) {
        Some(magnitude) => within(a.negative, magnitude, kind),
        None => None,
    }
}

// `(a + b * 10^b_places) * 10^places`
fn raised_twice(a: Signed, b: Signed, b_places: u8, places: u8, kind: SqlType) -> Option<i128>
    requires numeric { IsNumeric kind }
    requires small { a.magnitude ≤ 2 ^ 127 }
    ensures { IsExact kind
        ((signed a.negative a.magnitude +ℤ signed b.negative b.magnitude *ℤ pos (10 ^ b_places)) *ℤ pos (10 ^ places))
        result }
{
    match raised_sum(a, b, b_places) {
        Some(sum) => raised(sum, places, kind),
        None => None,
    }
}

/// `a * 10^a_places + b * 10^b_places`
pub fn scaled_sum(a: Signed, a_places: u8, b: Signed, b_places: u8, kind: SqlType) -> Option<i128>
    requires numeric { IsNumeric kind }
    requires a_small { a.magnitude ≤ 2 ^ 127 }
    requires b_small { b.magnitude ≤ 2 ^ 127 }
    ensures { IsExact kind
        (signed a.negative a.magnitude *ℤ pos (10 ^ a_places) +ℤ signed b.negative b.magnitude *ℤ pos (10 ^ b_places))
        result }
{
    if a_places <= b_places {
        raised_twice(a, b, b_places - a_places, a_places, kind)
    } else {
        raised_twice(b, a, a_places - b_places, b_places, kind)
    }
}
