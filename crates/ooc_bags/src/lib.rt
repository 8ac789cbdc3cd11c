//! Lists that hold the same rows equally often, and counts of steps.
#![tactic(auto)]

mod laws;
mod same;
mod steps;

pub use laws::{
    bags_stay_the_same, each_row_stands_once, folds_ignore_order, loops_stand_in_either_order,
    parts_make_the_whole, same_bags_are_an_equivalence, same_bags_are_rearranged,
};
pub use same::same_bag;
pub use steps::Steps;

#[cfg(test)]
mod tests;
