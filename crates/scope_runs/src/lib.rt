//! Tests of scopes: expressions of a select's items, bound over the columns of two sources. They stand in a crate of
//! their own, since a crate with tests is proved twice.
#![tactic(auto)]

#[cfg(test)]
mod expression;
#[cfg(test)]
mod printing;
#[cfg(test)]
mod tests;
