//! Tests of the run of a script: from the words to the bytes that are written. What is expected was written by hand from the
//! rules. They stand in a crate of their own, since a crate with tests is proved twice.
#![tactic(auto)]

#[cfg(test)]
mod orders;
#[cfg(test)]
mod outside;
#[cfg(test)]
mod random;
#[cfg(test)]
mod refusals;
#[cfg(test)]
mod runs;
#[cfg(test)]
mod spilling;
#[cfg(test)]
mod worked;
