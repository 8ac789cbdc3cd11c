//! Printing a number.
ghost use Rattle.std.specs.Prelude.{◌≡◌, ◌++◌, ◌+◌, ◌*◌, ◌^◌, ◌≤◌, ◌/◌, ◌%◌, unsigned_abs, length, OnOk, OnErr};
ghost use Rattle.ooc_decimal.specs.Printed.{places, magnitude_text, number_text};
ghost use Rattle.ooc_decimal.specs.Kept.{KeepsFront};

use crate::places::{digit_count, push_places};
use crate::powers::{narrow_power_of_ten, power_of_ten};
use ooc_types::OutOfMemory;

// The integer part of `n` hundredths, thousandths and so on, and what is behind the point.
fn split_at_point(n: u128, scale: u8) -> (u128, u128)
    ensures whole { result.0 ≡ n / 10 ^ scale }
    ensures part { result.1 ≡ n % 10 ^ scale }
{
    if scale > 38 {
        return (0, n);
    }
    if n < 1 << 64 {
        return split_narrow(n as u64, scale);
    }
    let unit = power_of_ten(scale);
    (n / unit, n % unit)
}

fn split_narrow(n: u64, scale: u8) -> (u128, u128)
    ensures whole { result.0 ≡ n / 10 ^ scale }
    ensures part { result.1 ≡ n % 10 ^ scale }
{
    if scale > 19 {
        return (0, u128::from(n));
    }
    let unit = narrow_power_of_ten(scale);
    (u128::from(n / unit), u128::from(n % unit))
}

fn push_magnitude(into: &mut Vec<u8>, n: u128, scale: u8) -> Result<(), OutOfMemory>
    requires { n ≤ 2 ^ 127 }
    ensures ok { OnOk result (into.new.items ≡ into.old.items ++ magnitude_text n scale) }
    ensures err { OnErr result (KeepsFront into.old.items into.new.items) }
{
    if scale == 0 {
        return push_places(into, digit_count(n), n);
    }
    let (whole, part) = split_at_point(n, scale);
    push_places(into, digit_count(whole), whole)?;
    into.push(b'.')?;
    push_places(into, scale, part)
}

fn push_number(digits: i128, scale: u8, into: &mut Vec<u8>) -> Result<(), OutOfMemory>
    ensures ok { OnOk result (into.new.items ≡ into.old.items ++ number_text digits scale) }
    ensures err { OnErr result (KeepsFront into.old.items into.new.items) }
{
    if digits < 0 {
        into.push(b'-')?;
    }
    push_magnitude(into, digits.unsigned_abs(), scale)
}

/// Appends the text of `digits / 10^scale`: `-` where it is negative, the integer part, and, where the scale
/// isn't 0, a point and exactly `scale` digits.
pub fn print_number(digits: i128, scale: u8, into: &mut Vec<u8>) -> Result<(), OutOfMemory>
    ensures ok { OnOk result (into.new.items ≡ into.old.items ++ number_text digits scale) }
    ensures err { OnErr result (into.new.items ≡ into.old.items) }
{
    let start = into.len();
    match push_number(digits, scale, into) {
        Ok(()) => Ok(()),
        Err(OutOfMemory) => {
            into.truncate(start);
            Err(OutOfMemory)
        }
    }
}

fn magnitude_length(n: u128, scale: u8) -> usize
    requires { n ≤ 2 ^ 127 }
    ensures length { result ≡ length (magnitude_text n scale) }
    ensures short { result ≤ 295 }
{
    if scale == 0 {
        return usize::from(digit_count(n));
    }
    let (whole, _part) = split_at_point(n, scale);
    usize::from(digit_count(whole)) + 1 + usize::from(scale)
}

/// How many bytes `print_number` appends, at most 296.
pub fn number_length(digits: i128, scale: u8) -> usize
    ensures length { result ≡ length (number_text digits scale) }
    ensures short { result ≤ 296 }
{
    usize::from(digits < 0) + magnitude_length(digits.unsigned_abs(), scale)
}
