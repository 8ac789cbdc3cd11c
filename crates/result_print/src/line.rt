//! The lines of a result.
ghost use Rattle.std.specs.Prelude.{◌≡◌, ◌∷◌, ◌++◌, map, OnOk, OnErr};
ghost use Rattle.std.specs.List.{flat_map};
ghost use Rattle.result_print.specs.Printed.{header_text, row_text, line_text, joined};
ghost use Rattle.ooc_decimal.specs.Kept.{KeepsFront};

use crate::field::Field;
use ooc_types::{OutOfMemory, Row, Schema};

fn push_next<F: Field>(field: &F, into: &mut Vec<u8>) -> Result<(), OutOfMemory>
    ensures ok { OnOk result (into.new.items ≡ into.old.items ++ 44 ∷ F.text field.now) }
    ensures err { OnErr result (KeepsFront into.old.items into.new.items) }
{
    into.push(b',')?;
    field.push_to(into)
}

fn push_others<F: Field>(fields: &[F], into: &mut Vec<u8>) -> Result<(), OutOfMemory>
    ensures ok { OnOk result (into.new.items ≡ into.old.items ++ flat_map (λ f. 44 ∷ F.text f) fields.now) }
    ensures err { OnErr result (KeepsFront into.old.items into.new.items) }
{
    for field in fields {
        push_next(field, into)?;
    }
    Ok(())
}

fn push_fields<F: Field>(fields: &[F], into: &mut Vec<u8>) -> Result<(), OutOfMemory>
    ensures ok { OnOk result (into.new.items ≡ into.old.items ++ joined (map F.text fields.now)) }
    ensures err { OnErr result (KeepsFront into.old.items into.new.items) }
{
    match fields.split_first() {
        Some((first, others)) => {
            first.push_to(into)?;
            push_others(others, into)
        }
        None => Ok(()),
    }
}

fn push_line<F: Field>(fields: &[F], into: &mut Vec<u8>) -> Result<(), OutOfMemory>
    ensures ok { OnOk result (into.new.items ≡ into.old.items ++ line_text (map F.text fields.now)) }
    ensures err { OnErr result (KeepsFront into.old.items into.new.items) }
{
    push_fields(fields, into)?;
    into.push(b'\n')?;
    Ok(())
}

/// Appends the line of these fields, with its line feed. After a refusal `into` is as before.
pub fn print_line<F: Field>(fields: &[F], into: &mut Vec<u8>) -> Result<(), OutOfMemory>
    ensures ok { OnOk result (into.new.items ≡ into.old.items ++ line_text (map F.text fields.now)) }
    ensures err { OnErr result (into.new.items ≡ into.old.items) }
{
    let start = into.len();
    match push_line(fields, into) {
        Ok(()) => Ok(()),
        Err(OutOfMemory) => {
            into.truncate(start);
            Err(OutOfMemory)
        }
    }
}

/// Appends the line of the columns' names, with its line feed. After a refusal `into` is as before.
#[tactic(auto, unfolding(crate::specs::Printed::header_text))]
pub fn print_header(schema: &Schema, into: &mut Vec<u8>) -> Result<(), OutOfMemory>
    ensures ok { OnOk result (into.new.items ≡ into.old.items ++ header_text schema.now) }
    ensures err { OnErr result (into.new.items ≡ into.old.items) }
{
    print_line(schema.as_slice(), into)
}

/// Appends the line of a row of this schema, with its line feed. After a refusal `into` is as before.
#[tactic(auto, unfolding(crate::specs::Printed::row_text))]
pub fn print_row(_schema: &Schema, row: &Row, into: &mut Vec<u8>) -> Result<(), OutOfMemory>
    ensures ok { OnOk result (into.new.items ≡ into.old.items ++ row_text row.now) }
    ensures err { OnErr result (into.new.items ≡ into.old.items) }
{
    print_line(row.as_slice(), into)
}
