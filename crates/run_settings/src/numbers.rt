//! The numbers of a command line.
ghost use Rattle.std.specs.Prelude.{◌≡◌, ◌<◌, ◌^◌, ◌&&◌, nat_le, IsTrue, SomeIff, length, option_map};
ghost use Rattle.std.specs.List.{list_all};
ghost use Rattle.run_settings.specs.Limits.{is_page, is_thread_count, most_digits};
ghost use Rattle.run_settings.specs.Numbers.{is_digit, is_numeral, number_of, number_or, value_of};

use crate::limits::{MOST_DIGITS, MOST_THREADS};

fn is_digit(byte: u8) -> bool
    ensures { result ≡ is_digit byte }
{
    byte >= b'0' && byte <= b'9'
}

fn are_digits(text: &[u8]) -> bool
    ensures { result ≡ list_all is_digit text.now }
{
    text.iter().all(|byte| is_digit(*byte))
}

// Between one byte and as many as the longest number has.
fn has_length(text: &[u8]) -> bool
    ensures { result ≡ (nat_le 1 (length text.now) && nat_le (length text.now) most_digits) }
{
    text.len() >= 1 && text.len() <= MOST_DIGITS
}

fn is_numeral(text: &[u8]) -> bool
    ensures { result ≡ is_numeral text.now }
{
    has_length(text) && are_digits(text)
}

// The number that the digits spell, of which there are so few that it has less than 128 bits.
fn value_of(text: &[u8]) -> u128
    requires { IsTrue (is_numeral text.now) }
    ensures { result ≡ value_of text.now }
{
    let mut value = 0;
    for byte in text {
        value = value * 10 + u128::from(*byte - b'0');
    }
    value
}

// A number that fits 64 bits.
fn narrow(value: u128) -> Option<u64>
    ensures { SomeIff result (value < 2 ^ 64) value }
{
    u64::try_from(value).ok()
}

/// The number that a text of 1 to 20 digits spells, where it is below 2^64.
#[tactic(auto, unfolding(crate::specs::Numbers::number_of))]
pub fn number_of(text: &[u8]) -> Option<u64>
    ensures { result ≡ number_of text.now }
{
    if is_numeral(text) {
        narrow(value_of(text))
    } else {
        None
    }
}

/// The number of a text, or another where none is given.
pub fn number_or(other: u64, text: Option<&str>) -> Option<u64>
    ensures { result ≡ number_or other (option_map (λ t. t.now) text.entry) }
{
    match text {
        Some(text) => number_of(text.as_bytes()),
        None => Some(other),
    }
}

/// From 1 to 64.
pub fn is_thread_count(count: u64) -> bool
    ensures { result ≡ is_thread_count count }
{
    count >= 1 && count <= MOST_THREADS
}

/// A power of two from 4,096 to 262,144.
pub fn is_page(bytes: u64) -> bool
    ensures { result ≡ is_page bytes }
{
    matches!(bytes, 4096 | 8192 | 16384 | 32768 | 65536 | 131072 | 262144)
}
