//! The canonical bytes of a key: equal numbers of different scales have equal bytes.
ghost use Rattle.std.specs.Prelude.{◌≡◌, ◌∷◌, ◌++◌, ℕ, ℤ, IfOk, OnOk, All};
ghost use Rattle.ooc_types.specs.Canonical as spec;
ghost use Rattle.ooc_types.specs.Keys.{IsHeld};

use crate::memory::OutOfMemory;
use crate::value::Value;
use std::alloc::Global;

// A tenth of the digits, where the last of them is zero.
fn tenth(digits: i128) -> Option<i128>
    ensures { result ≡ spec.tenth digits }
{
    if digits % 10 == 0 {
        Some(digits / 10)
    } else {
        None
    }
}

/// The digits and the scale without the zeros at the end of the fraction.
pub fn reduce(mut digits: i128, mut scale: u8) -> (i128, u8)
    ensures { result ≡ spec.reduce digits scale }
{
    while scale > 0 {
        match tenth(digits) {
            Some(fewer) => digits = fewer,
            None => break,
        }
        scale -= 1;
    }
    (digits, scale)
}

/// The bytes of a number's digits.
pub fn digits_bytes(digits: i128) -> [u8; 16]
    ensures { result ≡ spec.digits_bytes digits }
{
    digits.to_le_bytes()
}

fn push_parts(into: &mut Vec<u8>, digits: i128, scale: u8) -> Result<(), OutOfMemory>
    ensures { OnOk result (into.new.items ≡ into.old.items ++ spec.number_bytes (digits, scale)) }
{
    into.push(1)?;
    into.push(scale)?;
    into.extend_from_slice(&digits_bytes(digits))?;
    Ok(())
}

fn push_number(into: &mut Vec<u8>, digits: i128, scale: u8) -> Result<(), OutOfMemory>
    ensures { OnOk result (into.new.items ≡ into.old.items ++ spec.number_bytes (spec.reduce digits scale)) }
{
    let (digits, scale) = reduce(digits, scale);
    push_parts(into, digits, scale)
}

/// The bytes of a date's day.
pub fn day_bytes(day: i32) -> [u8; 4]
    ensures { result ≡ spec.day_bytes day }
{
    day.to_le_bytes()
}

/// The bytes of a text's length.
#[tactic(auto, unfolding(crate::specs::Canonical::length_bytes))]
pub fn length_bytes(length: usize) -> [u8; 4]
    ensures { result ≡ spec.length_bytes length }
{
    let low = (length % 4_294_967_296) as u32;
    low.to_le_bytes()
}

fn push_day(into: &mut Vec<u8>, day: i32) -> Result<(), OutOfMemory>
    ensures { OnOk result (into.new.items ≡ into.old.items ++ 4 ∷ spec.day_bytes day) }
{
    into.push(4)?;
    into.extend_from_slice(&day_bytes(day))?;
    Ok(())
}

fn push_text(into: &mut Vec<u8>, text: &[u8]) -> Result<(), OutOfMemory>
    ensures { OnOk result (into.new.items ≡ into.old.items ++ spec.text_bytes text.now) }
{
    into.push(3)?;
    into.extend_from_slice(&length_bytes(text.len()))?;
    into.extend_from_slice(text)?;
    Ok(())
}

fn push_value(into: &mut Vec<u8>, value: &Value) -> Result<(), OutOfMemory>
    ensures held { IsHeld value.now }
    ensures bytes { OnOk result (into.new.items ≡ into.old.items ++ spec.value_bytes value.now) }
{
    match value {
        Value::Null => {
            into.push(0)?;
            Ok(())
        }
        Value::Truth(truth) => {
            into.push(2)?;
            into.push(u8::from(*truth))?;
            Ok(())
        }
        Value::Number { digits, scale } => push_number(into, *digits, *scale),
        Value::Day(day) => push_day(into, *day),
        Value::Text(text) => push_text(into, text.as_bytes()),
    }
}

/// The canonical bytes of the values in order. docs/FORMATS.md has their layout.
pub fn canonical_bytes(alloc: Global, key: &[Value]) -> Result<Vec<u8>, OutOfMemory>
    ensures held { IfOk result (λ _. All IsHeld key.now) }
    ensures bytes { IfOk result (λ bytes. bytes.items ≡ spec.canonical key.now) }
{
    let mut bytes = Vec::new(alloc);
    for value in key {
        push_value(&mut bytes, value)?;
    }
    Ok(bytes)
}
