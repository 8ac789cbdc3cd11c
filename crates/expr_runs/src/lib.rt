//! Runs of expressions over a row. They stand in a crate of their own, since a crate with tests is proved twice.
#![tactic(auto)]

#[cfg(test)]
mod build;
#[cfg(test)]
mod deep;
#[cfg(test)]
mod runs;
