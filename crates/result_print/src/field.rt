//! One field of a line.
ghost use Rattle.std.specs.Prelude.{◌≡◌, ◌++◌, List, ℕ, OnOk, OnErr};
ghost use Rattle.std.specs.List.{list_any};
ghost use Rattle.result_print.specs.Printed as spec;
ghost use Rattle.result_print.specs.Printed.{doubled, quoted, field_text, column_text, value_text};
ghost use Rattle.ooc_decimal.specs.Kept.{KeepsFront};

use date_values::print_date;
use ooc_decimal::print_number;
use ooc_types::{Column, OutOfMemory, Text, Value};

fn is_special(byte: u8) -> bool
    ensures { result ≡ spec.is_special byte }
{
    byte == b',' || byte == b'"' || byte == b'\r' || byte == b'\n'
}

fn has_special(bytes: &[u8]) -> bool
    ensures { result ≡ list_any spec.is_special bytes.now }
{
    for byte in bytes {
        if is_special(*byte) {
            return true;
        }
    }
    false
}

/// Whether a text stands in quotes.
pub fn needs_quotes(bytes: &[u8]) -> bool
    ensures { result ≡ spec.needs_quotes bytes.now }
{
    bytes.is_empty() || bytes == b"NULL".as_slice() || has_special(bytes)
}

fn push_doubled(byte: u8, into: &mut Vec<u8>) -> Result<(), OutOfMemory>
    ensures ok { OnOk result (into.new.items ≡ into.old.items ++ doubled byte) }
    ensures err { OnErr result (KeepsFront into.old.items into.new.items) }
{
    if byte == b'"' {
        into.push(b'"')?;
    }
    into.push(byte)?;
    Ok(())
}

fn push_quoted(bytes: &[u8], into: &mut Vec<u8>) -> Result<(), OutOfMemory>
    ensures ok { OnOk result (into.new.items ≡ into.old.items ++ quoted bytes.now) }
    ensures err { OnErr result (KeepsFront into.old.items into.new.items) }
{
    into.push(b'"')?;
    for byte in bytes {
        push_doubled(*byte, into)?;
    }
    into.push(b'"')?;
    Ok(())
}

/// Appends a text or name as a field. A failed call leaves what was there, with a part of the field behind it at most.
pub fn push_field(bytes: &[u8], into: &mut Vec<u8>) -> Result<(), OutOfMemory>
    ensures ok { OnOk result (into.new.items ≡ into.old.items ++ field_text bytes.now) }
    ensures err { OnErr result (KeepsFront into.old.items into.new.items) }
{
    if needs_quotes(bytes) {
        return push_quoted(bytes, into);
    }
    into.extend_from_slice(bytes)?;
    Ok(())
}

fn push_word(word: &[u8], into: &mut Vec<u8>) -> Result<(), OutOfMemory>
    ensures ok { OnOk result (into.new.items ≡ into.old.items ++ word.now) }
    ensures err { OnErr result (KeepsFront into.old.items into.new.items) }
{
    into.extend_from_slice(word)?;
    Ok(())
}

/// What stands between the commas of a line.
pub trait Field {
    ghost text: { Self → List ℕ };

    /// Appends the field. A failed call leaves a part of it at most.
    fn push_to(&self, into: &mut Vec<u8>) -> Result<(), OutOfMemory>
        ensures ok { OnOk result (into.new.items ≡ into.old.items ++ text self.now) }
        ensures err { OnErr result (KeepsFront into.old.items into.new.items) };
}

impl Field for Value {
    ghost text = { value_text };

    fn push_to(&self, into: &mut Vec<u8>) -> Result<(), OutOfMemory> {
        match self {
            Value::Number { digits, scale } => print_number(*digits, *scale, into),
            Value::Day(day) => push_word(&print_date(*day), into),
            Value::Text(text) => push_field(text.as_bytes(), into),
            Value::Null => push_word(b"NULL", into),
            Value::Truth(true) => push_word(b"true", into),
            Value::Truth(false) => push_word(b"false", into),
        }
    }
}

impl Field for Text {
    ghost text = { field_text };

    fn push_to(&self, into: &mut Vec<u8>) -> Result<(), OutOfMemory> {
        push_field(self.as_bytes(), into)
    }
}

impl Field for Column {
    ghost text = { column_text };

    fn push_to(&self, into: &mut Vec<u8>) -> Result<(), OutOfMemory> {
        push_field(self.name.as_bytes(), into)
    }
}
