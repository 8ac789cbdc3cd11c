//! Dates as day numbers, counted from 1970-01-01, and their texts.
#![tactic(auto)]

mod date;
mod days;
mod digits;
mod laws;
mod text;

pub use days::{add_days, nearest_day};
pub use laws::{dates_are_told_apart_by_their_texts, days_count_from_1970};
pub use text::{print_date, read_date};

#[cfg(test)]
mod tests;
