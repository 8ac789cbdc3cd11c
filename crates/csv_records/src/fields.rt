//! The fields of a record that may have quotes.
ghost use Rattle.std.specs.Prelude.{◌≡◌, ◌≢◌, ◌<◌, ◌≤◌, ◌+◌, ◌++◌, ◌∷◌, [], false, Some, length, IfOk, OnOk, IsSome, option_map};
ghost use Rattle.csv.specs.Machine.{step, is_end, fields_after, field_after};
ghost use Rattle.csv.specs.Records.{fields_of, partial_of, field_at};
ghost use Rattle.csv_records.specs.Table.{after, state_after, IsDelimiter};
ghost use Rattle.csv_records.specs.Fields.{csv_config, fields};
ghost use Rattle.csv_records.specs.Unquoting.{csv_state, csv_action};
ghost use Rattle.csv_records.specs.declared.mark.Mark.TheVariants.{FieldStart};

use crate::mark::Mark;
use csv::ByteRecord;
use std::alloc::{AllocError, Global};
use std::marker::Model;

/// What a byte of a record does to the field at hand.
#[derive(Clone, Copy, Debug)]
pub enum Part {
    Skip,
    Copy,
    EndField,
}

// The state after a byte that doesn't end the record, and what the byte does.
fn unquote(delimiter: u8, mark: Mark, byte: u8) -> (Mark, Part)
    requires delimiter { IsDelimiter delimiter }
    requires runs { IsSome (after delimiter mark byte) }
    ensures mark { after delimiter mark byte ≡ Some result.0 }
    ensures step { step (csv_config delimiter) (csv_state mark) byte ≡ (csv_state result.0, csv_action result.1) }
{
    match mark {
        Mark::Quoted => {
            if byte == b'"' {
                return (Mark::QuoteSeen, Part::Skip);
            }
            return (Mark::Quoted, Part::Copy);
        }
        Mark::Plain => {}
        Mark::FieldStart => {
            if byte == b'"' {
                return (Mark::Quoted, Part::Skip);
            }
        }
        Mark::QuoteSeen => {
            if byte == b'"' {
                return (Mark::Quoted, Part::Copy);
            }
        }
    }
    if byte == delimiter {
        return (Mark::FieldStart, Part::EndField);
    }
    (Mark::Plain, Part::Copy)
}

// Takes a byte that doesn't end the record.
fn take_byte(
    delimiter: u8,
    mark: Mark,
    byte: u8,
    fields: &mut ByteRecord,
    field: &mut Vec<u8>,
) -> Result<Mark, AllocError>
    requires delimiter { IsDelimiter delimiter }
    requires runs { IsSome (after delimiter mark byte) }
    requires partial { partial_of fields.old ≡ [] }
    ensures mark { IfOk result (λ next. after delimiter mark byte ≡ Some next) }
    ensures state { IfOk result (λ next. (step (csv_config delimiter) (csv_state mark) byte).0 ≡ csv_state next) }
    ensures goes_on { OnOk result (is_end (step (csv_config delimiter) (csv_state mark) byte).1 ≡ false) }
    ensures fields { OnOk result (fields_of fields.new ≡ fields_after (step (csv_config delimiter) (csv_state mark) byte).1 (fields_of fields.old) field.old.items) }
    ensures field { OnOk result (field.new.items ≡ field_after (step (csv_config delimiter) (csv_state mark) byte).1 byte field.old.items) }
    ensures partial { OnOk result (partial_of fields.new ≡ []) }
    ensures count { OnOk result (length (fields_of fields.new) ≤ length (fields_of fields.old) + 1) }
{
    let (next, part) = unquote(delimiter, mark, byte);
    match part {
        Part::Skip => {}
        Part::Copy => field.push(byte)?,
        Part::EndField => {
            fields.push_field(field.as_slice())?;
            field.clear();
        }
    }
    Ok(next)
}

// Puts the fields of a record in place of those that are there.
fn split_fields(
    delimiter: u8,
    bytes: &[u8],
    into: &mut ByteRecord,
    field: &mut Vec<u8>,
) -> Result<(), AllocError>
    requires delimiter { IsDelimiter delimiter }
    requires some { 0 < length bytes.now }
    requires runs { IsSome (state_after delimiter FieldStart bytes.now) }
    ensures fields { OnOk result (fields_of into.new ≡ fields delimiter bytes.now) }
    ensures count { OnOk result (length (fields_of into.new) ≤ length bytes.now + 1) }
{
    into.clear();
    field.clear();
    let mut mark = Mark::FieldStart;
    for byte in bytes {
        mark = take_byte(delimiter, mark, *byte, into, field)?;
    }
    into.push_field(field.as_slice())
}

/// The fields of a record, which contracts see as their list. Its memory is used again for the next record.
#[derive(Drop)]
pub struct Fields {
    fields: ByteRecord,
    // The field at hand.
    field: Vec<u8>,
}

impl Model for Fields {
    ghost use Rattle.std.specs.Prelude.{List, ℕ};
    ghost use Rattle.csv.specs.Records.{fields_of};

    ghost Value = { List (List ℕ) };

    ghost view = { λ f. fields_of f.fields };
}

impl Fields {
    /// No fields, which take no memory yet.
    pub fn new_fields(alloc: Global) -> Fields
        ensures { result ≡ [] }
    {
        Fields {
            fields: ByteRecord::new(alloc),
            field: Vec::new(alloc),
        }
    }

    /// Puts the fields of a record in place of those that are there.
    pub fn read(&mut self, delimiter: u8, bytes: &[u8]) -> Result<(), AllocError>
        requires delimiter { IsDelimiter delimiter }
        requires some { 0 < length bytes.now }
        requires runs { IsSome (state_after delimiter FieldStart bytes.now) }
        ensures fields { OnOk result (self.new ≡ fields delimiter bytes.now) }
        ensures count { OnOk result (length self.new ≤ length bytes.now + 1) }
    {
        split_fields(delimiter, bytes, &mut self.fields, &mut self.field)
    }

    /// How many fields there are.
    pub fn len(&self) -> usize
        ensures { result ≡ length self.now }
    {
        self.fields.len()
    }

    /// The field at a place.
    pub fn get(&self, place: usize) -> Option<&[u8]>
        ensures { option_map (λ f. f.now) result ≡ field_at self.now place }
    {
        self.fields.get(place)
    }
}
