//! Texts of plans, as EXPLAIN prints them, written by hand. They stand in a crate of their own, since a crate with
//! tests is proved twice.
#![tactic(auto)]

#[cfg(test)]
mod above;
#[cfg(test)]
mod exprs;
#[cfg(test)]
mod free;
#[cfg(test)]
mod numbered;
#[cfg(test)]
mod runs;
#[cfg(test)]
mod sketch;
#[cfg(test)]
mod words;
#[cfg(test)]
mod written;
