//! A value of SQL.

use crate::text::Text;

/// A value. A number is its digits divided by ten to the power of its scale; an integer has the scale 0. A date is
/// the number of its day, counted from 1970-01-01.
#[derive(Clone, Debug, Drop, PartialEq, Eq)]
pub enum Value {
    Null,
    Truth(bool),
    Number { digits: i128, scale: u8 },
    Day(i32),
    Text(Text),
}
