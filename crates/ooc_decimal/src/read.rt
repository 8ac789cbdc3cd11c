//! Reading a number.
ghost use Rattle.std.specs.Prelude.{◌≡◌, ◌≤◌, ◌<◌, ◌++◌, ◌+◌, length};
ghost use Rattle.ooc_decimal.specs.Numeric.{IsNumeric};
ghost use Rattle.ooc_decimal.specs.Numeral.{whole_of, part_of};
ghost use Rattle.ooc_decimal.specs.Digits.{ReadsNarrow, ReadsOn, ReadsScaled, ReadsRounded, ReadsMagnitude};
ghost use Rattle.ooc_decimal.specs.Read.{IsReadAs};

use crate::digits::{are_digits, read_digits, read_narrow, times_power};
use crate::range::{scale, within};
use crate::trim::{split_sign, trim};
use ooc_types::SqlType;

// The number that the digits of both spell together, at most 18 of them.
fn read_narrow_pair(front: &[u8], back: &[u8]) -> Option<u64>
    requires { length front.now + length back.now ≤ 18 }
    ensures { ReadsNarrow 0 (front.now ++ back.now) result }
{
    match read_narrow(front, 0) {
        Some(value) => read_narrow(back, value),
        None => None,
    }
}

// The same for any number of digits.
fn read_pair(front: &[u8], back: &[u8]) -> Option<u128>
    ensures { ReadsOn 0 (front.now ++ back.now) result }
{
    if front.len() <= 18 && back.len() <= 18 - front.len() {
        return read_narrow_pair(front, back).map(u128::from);
    }
    match read_digits(front, 0) {
        Some(value) => read_digits(back, value),
        None => None,
    }
}

// The digits of a number that has no more places than its type.
fn read_exact(whole: &[u8], part: &[u8], zeros: u8) -> Option<u128>
    ensures { ReadsScaled (whole.now ++ part.now) zeros result }
{
    match read_pair(whole, part) {
        Some(value) => times_power(value, zeros),
        None => None,
    }
}

// The digits of a number that has more places than its type: the first of those dropped decides.
fn read_rounded(whole: &[u8], kept: &[u8], dropped: &[u8]) -> Option<u128>
    requires { 0 < length dropped.now }
    ensures { ReadsRounded (whole.now ++ kept.now) dropped.now (length kept.now) result }
{
    let value = match read_pair(whole, kept) {
        Some(value) => value,
        None => return None,
    };
    if !are_digits(dropped) {
        return None;
    }
    if dropped[0] < b'5' {
        Some(value)
    } else {
        value.checked_add(1)
    }
}

fn read_magnitude(whole: &[u8], part: &[u8], scale: u8) -> Option<u128>
    ensures { ReadsMagnitude whole.now part.now scale result }
{
    if whole.is_empty() && part.is_empty() {
        return None;
    }
    let places = usize::from(scale);
    if part.len() <= places {
        return read_exact(whole, part, scale - part.len() as u8);
    }
    let (kept, dropped) = part.split_at(places);
    read_rounded(whole, kept, dropped)
}

// The bytes before and behind the point, which only a decimal may have.
fn split_at_point(numeral: &[u8], kind: SqlType) -> (&[u8], &[u8])
    ensures whole { result.0.now ≡ whole_of kind numeral.now }
    ensures part { result.1.now ≡ part_of kind numeral.now }
{
    if let SqlType::Decimal { .. } = kind {
        for (at, byte) in numeral.iter().enumerate() {
            if *byte == b'.' {
                return (&numeral[..at], &numeral[at + 1..]);
            }
        }
    }
    (numeral, &numeral[numeral.len()..])
}

/// The number that a text spells, as digits at the type's scale. Spaces and tabs at the ends are ignored. An integer
/// is an optional sign and digits; a decimal may have a point, and is rounded to its scale, half away from zero.
pub fn read_number(text: &[u8], kind: SqlType) -> Option<i128>
    requires { IsNumeric kind }
    ensures { IsReadAs kind text.now result }
{
    let (negative, numeral) = split_sign(trim(text));
    let (whole, part) = split_at_point(numeral, kind);
    match read_magnitude(whole, part, scale(kind)) {
        Some(magnitude) => within(negative, magnitude, kind),
        None => None,
    }
}
