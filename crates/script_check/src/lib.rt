//! Scripts checked without data: each statement is bound and planned over tables of no rows.
#![tactic(auto)]

mod check;
mod statement;
mod tables;

pub use check::check_script;
