//! Files and what they give, worked out by hand from the rules in docs/LANGUAGE.md.

mod boundaries;
mod faults;
mod fields;
mod lines;
mod long;
mod nulls;
mod numbers;
mod options;
mod refusals;
