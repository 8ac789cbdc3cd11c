//! The bytes that a result is printed as.
#![tactic(auto)]

mod field;
mod length;
mod line;

pub use field::{Field, push_field};
pub use length::row_length;
pub use line::{print_header, print_line, print_row};

#[cfg(test)]
mod tests;
