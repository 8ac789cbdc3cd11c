//! A date of the civil calendar.

/// A year, a month and a day of it.
#[derive(Clone, Copy, Debug)]
pub struct Date {
    pub year: u16,
    pub month: u8,
    pub day: u8,
}
