//! Numbers: digits with at most one point.
ghost use Rattle.std.specs.Prelude.{◌≡◌, ◌+◌, ◌<◌, ◌≤◌, ◌*◌, ◌^◌, ℕ, MatchOption, true, IsTrue, length, slice_index, nat_lt, Some, None, if◌then◌else◌};
ghost use Rattle.std.specs.Char.{is_ascii_digit};
ghost use Rattle.std.specs.Str.Parse.{digits_value, digits_value_after};
ghost use Rattle.sql_lex.specs.Numbers as numbers;

/// The widest decimal, in digits.
pub const WIDTH_LIMIT: usize = 38;

/// Whether a text begins with a digit.
fn begins_with_digit(text: &[u8]) -> bool
    ensures { result ≡ numbers.begins_with_digit text.now }
{
    match text {
        [first, ..] => first.is_ascii_digit(),
        [] => false,
    }
}

/// Whether a text begins with a point.
pub fn begins_with_point(text: &[u8]) -> bool
    ensures point { result ≡ numbers.begins_with_point text.now }
    ensures some { IsTrue result → 0 < length text.now }
{
    match text {
        [first, ..] => *first == b'.',
        [] => false,
    }
}

/// Whether a text begins with a digit, or with a point and a digit.
pub fn begins_with_number(text: &[u8]) -> bool
    ensures { result ≡ numbers.begins_with_number text.now }
{
    begins_with_digit(text) || (begins_with_point(text) && begins_with_digit(&text[1..]))
}

/// The number of digits at the front of a text.
pub fn digits_length(text: &[u8]) -> usize
    ensures digits { result ≡ numbers.digits_length text.now }
    ensures within { result ≤ length text.now }
{
    text.iter().take_while(|byte| byte.is_ascii_digit()).count()
}

/// The number of zeros at the front of a text.
pub fn zeros_length(text: &[u8]) -> usize
    ensures { result ≡ numbers.zeros_length text.now }
{
    text.iter().take_while(|byte| **byte == b'0').count()
}

/// The width of a decimal with the digits at the front of `text` before its point, and those of `fraction` behind it.
pub fn decimal_width(text: &[u8], fraction: &[u8]) -> usize
    ensures { result ≡ numbers.decimal_width text.now fraction.now }
{
    let whole = digits_length(text) - zeros_length(text);
    (whole + digits_length(fraction)).max(1)
}

/// A tenth of 2^127 - 1, the greatest integer, whose last digit is 7.
const TENTH: u128 = 17_014_118_346_046_923_173_168_730_371_588_410_572;

/// An integer with one more digit behind it, if that is at most 2^127 - 1.
fn with_digit(value: u128, digit: u8) -> Option<u128>
    requires { digit < 10 }
    ensures { MatchOption result (2 ^ 127 ≤ value * 10 + digit) (λ more. (more ≡ value * 10 + digit) × (more < 2 ^ 127)) }
{
    if value > TENTH || (value == TENTH && digit > 7) {
        return None;
    }
    Some(value * 10 + u128::from(digit))
}

/// The integer that digits write, if it is at most 2^127 - 1.
pub fn integer_of(digits: &[u8]) -> Option<u128>
    requires { (k : ℕ) → k < length digits.now → is_ascii_digit (slice_index digits.now k) ≡ true }
    ensures { result ≡ (if nat_lt (digits_value 10 digits.now) (2 ^ 127) then Some (digits_value 10 digits.now) else None) }
{
    let mut value: u128 = 0;
    for byte in digits {
        match with_digit(value, *byte - b'0') {
            Some(more) => value = more,
            None => return None,
        }
    }
    Some(value)
}

/// The number that digits write when they follow those of `value`.
pub fn digits_behind(value: u128, digits: &[u8]) -> u128
    requires digits { (k : ℕ) → k < length digits.now → is_ascii_digit (slice_index digits.now k) ≡ true }
    requires room { (value + 1) * 10 ^ length digits.now ≤ 2 ^ 127 }
    ensures number { result ≡ digits_value_after 10 value digits.now }
    ensures small { result + 1 ≤ (value + 1) * 10 ^ length digits.now }
{
    let mut number = value;
    for byte in digits {
        number = number * 10 + u128::from(*byte - b'0');
    }
    number
}
