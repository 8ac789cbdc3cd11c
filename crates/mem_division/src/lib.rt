//! The division of a number of frames among those that want some.
#![tactic(auto)]

mod laws;
mod level;

pub use laws::grants_fit_the_total;
pub use level::divide;

#[cfg(test)]
mod tests;
