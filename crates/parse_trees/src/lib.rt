//! Tests of the parser: scripts with their trees. They stand in a crate of their own, since a crate with tests is proved twice.
#![tactic(auto)]

#[cfg(test)]
mod printing;
#[cfg(test)]
mod tests;
