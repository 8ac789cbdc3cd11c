//! The value of a field as it is read where its record lies.

/// The value of a field, whose text lies in its record.
#[derive(Clone, Copy)]
pub enum FieldRead<'a> {
    Null,
    Truth(bool),
    Number { digits: i128, scale: u8 },
    Day(i32),
    Text(&'a [u8]),
}
