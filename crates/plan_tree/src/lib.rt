//! Plans of SELECTs: the stages of a plan, the plan that a bound SELECT has, and the law that it means the SELECT.
#![tactic(auto)]

mod laws;
mod parts;
mod stages;

pub use laws::{columns_alone_matter, plans_mean_the_select};
pub use parts::{Entry, Linked, SourcePlan};
pub use stages::{KeyColumns, PlanConjunct, PlanCore, PlanInput, PlanRows, PlanSelect, PlanSource};
