//! Exact decimal numbers: arithmetic, reading and printing.
#![tactic(auto)]

mod arithmetic;
mod digits;
mod ends;
mod narrow;
mod places;
mod powers;
mod print;
mod range;
mod read;
mod signed;
mod trim;

pub use arithmetic::{add, mul, negate, quotient, remainder, sub};
pub use ends::{greatest, least, nearest_number};
pub use print::{number_length, print_number};
pub use range::scale;
pub use read::read_number;

#[cfg(test)]
mod tests;
