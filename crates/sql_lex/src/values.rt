//! What tokens stand for.
ghost use Rattle.std.specs.Prelude.{◌≡◌, ◌<◌, ◌^◌, pos, IfOk};
ghost use Rattle.sql_lex.specs.Values as values;

use crate::numbers::{
    WIDTH_LIMIT, begins_with_number, begins_with_point, decimal_width, digits_behind,
    digits_length, integer_of, zeros_length,
};
use crate::quotes::written_length;
use std::alloc::{AllocError, Global};

/// The value of a decimal: `digits` in units of ten to the minus `scale`, with its width in digits.
#[derive(Clone, Copy, Debug, PartialEq, Eq)]
pub struct DecimalValue {
    pub digits: i128,
    pub scale: u8,
    pub width: u8,
}

/// The decimal of these digits.
fn decimal_of(digits: u128, scale: u8, width: u8) -> DecimalValue
    requires { digits < 2 ^ 127 }
    ensures { result ≡ record { digits = pos digits; scale = scale; width = width } }
{
    DecimalValue {
        digits: digits as i128,
        scale,
        width,
    }
}

/// The value of an integer's text, or `None` where a text is no integer of at most 2^127 - 1.
pub fn integer_value(text: &[u8]) -> Option<i128>
    ensures { result ≡ values.integer_value text.now }
{
    if text.is_empty() || digits_length(text) < text.len() {
        return None;
    }
    match integer_of(text) {
        Some(value) => Some(value as i128),
        None => None,
    }
}

/// Whether a text is a decimal: digits, a point and digits, with one digit at least and a width of at most 38.
fn is_decimal(text: &[u8]) -> bool
    ensures { result ≡ values.is_decimal text.now }
{
    let whole = digits_length(text);
    if !begins_with_number(text) || !begins_with_point(&text[whole..]) {
        return false;
    }
    let fraction = &text[whole + 1..];
    digits_length(fraction) == fraction.len() && decimal_width(text, fraction) <= WIDTH_LIMIT
}

/// The value of a decimal's text, or `None` where a text is no decimal of a width of at most 38.
pub fn decimal_value(text: &[u8]) -> Option<DecimalValue>
    ensures { result ≡ values.decimal_value text.now }
{
    if !is_decimal(text) {
        return None;
    }
    let whole = digits_length(text);
    let zeros = zeros_length(text);
    let fraction = &text[whole + 1..];
    let before = digits_behind(0, &text[zeros..whole]);
    let digits = digits_behind(before, fraction);
    let scale = fraction.len() as u8;
    let width = decimal_width(text, fraction) as u8;
    Some(decimal_of(digits, scale, width))
}

/// What the text of a quoted name or of a text literal stands for: what is between its quotes, with each doubled quote as one.
pub fn unquoted(alloc: Global, text: &[u8]) -> Result<Vec<u8>, AllocError>
    ensures { IfOk result (λ bytes. bytes.items ≡ values.unquoted text.now) }
{
    let mut bytes = Vec::new(alloc);
    if text.len() < 2 {
        return Ok(bytes);
    }
    let quote = text[0];
    let inside = &text[1..text.len() - 1];
    let mut at = 0;
    while at < inside.len() {
        let written = written_length(quote, inside, at);
        bytes.push(inside[at])?;
        at += written;
    }
    Ok(bytes)
}
