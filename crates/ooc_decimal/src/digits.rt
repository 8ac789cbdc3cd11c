//! Reading digits.
ghost use Rattle.std.specs.Prelude.{◌≡◌, ◌-◌, ◌*◌, ◌<◌, ◌≤◌, ◌^◌, [], ◌∷◌, true, length};
ghost use Rattle.std.specs.Option.{SomeIff};
ghost use Rattle.std.specs.Str.{all_ascii_digits};
ghost use Rattle.ooc_decimal.specs.Digits.{ReadsNarrow, ReadsOn};

use crate::powers::power_of_ten;

// The digits of `value` and one more.
fn next_digit(value: u128, byte: u8) -> Option<u128>
    ensures { ReadsOn value (byte ∷ []) result }
{
    if !byte.is_ascii_digit() {
        return None;
    }
    value.checked_mul(10)?.checked_add(u128::from(byte - b'0'))
}

/// The digits of `start` and then these, 18 in all at most; none where a byte is no digit.
pub fn read_narrow(digits: &[u8], start: u64) -> Option<u64>
    requires few { length digits.now ≤ 18 }
    requires small { start < 10 ^ (18 - length digits.now) }
    ensures { ReadsNarrow start digits.now result }
{
    let mut value = start;
    for byte in digits {
        if !byte.is_ascii_digit() {
            return None;
        }
        value = value * 10 + u64::from(byte - b'0');
    }
    Some(value)
}

/// The digits of `start` and then these; none where a byte is no digit, or the number needs more than 128 bits.
pub fn read_digits(digits: &[u8], start: u128) -> Option<u128>
    ensures { ReadsOn start digits.now result }
{
    let mut value = start;
    for byte in digits {
        match next_digit(value, *byte) {
            Some(next) => value = next,
            None => return None,
        }
    }
    Some(value)
}

/// Whether all bytes are digits.
pub fn are_digits(bytes: &[u8]) -> bool
    ensures { result ≡ all_ascii_digits bytes.now }
{
    for byte in bytes {
        if !byte.is_ascii_digit() {
            return false;
        }
    }
    true
}

/// The number with as many zeros behind it; none where it needs more than 128 bits.
pub fn times_power(number: u128, places: u8) -> Option<u128>
    ensures { SomeIff result (number * 10 ^ places < 2 ^ 128) (number * 10 ^ places) }
{
    if number < 1 << 64 && places < 20 {
        return Some(number * power_of_ten(places));
    }
    if number == 0 {
        return Some(0);
    }
    if places > 38 {
        return None;
    }
    number.checked_mul(power_of_ten(places))
}
