//! The hash of a key, and what is taken of it: a salt and a part's number.
#![tactic(auto)]

mod fnv;
mod hash;
mod parts;

pub use hash::hash_key;
pub use parts::{radix, salt};

#[cfg(test)]
mod tests;
