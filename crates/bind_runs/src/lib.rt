//! Tests of binding: statements with what they are bound to, or with their refusal. They stand in a crate of their own,
//! since a crate with tests is proved twice.
#![tactic(auto)]

#[cfg(test)]
mod selects;
#[cfg(test)]
mod tables;
#[cfg(test)]
mod tests;
