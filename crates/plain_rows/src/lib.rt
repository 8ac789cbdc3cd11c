//! The plain evaluator's parts over lists of rows: conditions, items and order, each as the meaning says it.
#![tactic(auto)]

mod answer;
mod compare;
mod cut;
mod distinct;
mod items;
mod judging;
mod kept;
mod order;
mod sets;
mod source;
mod table;
mod test;

pub use answer::{Answer, add_answer, add_fault, add_faults, add_row, add_rows, copy_row};
pub use compare::{cmp_rows, cmp_strictly, is_null};
pub use cut::{cut_answer, cut_rows};
pub use distinct::{distinct_answer, distinct_rows, same_row};
pub use items::{project, values_of};
pub use judging::judge;
pub use kept::kept_rows;
pub use order::order_rows;
pub use sets::{combine, combine_rows};
pub use source::{Source, from_rows, join};
pub use table::{keep_answer, project_answer, select_table};
pub use test::{Test, is_plain_test, test_truth, tests_of};
