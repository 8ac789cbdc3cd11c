//! Tests of exact decimals: the ends of each type, and rounding. They stand in a crate of their own, so that a row more
//! proves nothing above `ooc_decimal` again.
#![tactic(auto)]

#[cfg(test)]
mod tests;
