//! A SELECT over the rows of one table.
ghost use Rattle.std.specs.Prelude.{◌≡◌, All, IfOk, map, [], ◌∷◌, if◌then◌else◌};
ghost use Rattle.sql_meaning.specs.Found.{if_clean};
ghost use Rattle.sql_meaning.specs.Judged.{kept};
ghost use Rattle.sql_meaning.specs.Select.{cut_found, projected, selected};
ghost use Rattle.sql_meaning.specs.Statements.{cut_of, row_value_of};
ghost use Rattle.plain_rows.specs.Answers.{found_in, distinct_found};
ghost use Rattle.plain_rows.specs.Cores.{CanSelect, plain_core, table_source};
ghost use Rattle.plain_rows.specs.Tests.{condition_in, FitsItem, IsReady};

use crate::answer::Answer;
use crate::cut::cut_answer;
use crate::distinct::distinct_answer;
use crate::items::project;
use crate::kept::kept_rows;
use crate::test::Test;
use bound_tree::Cut;
use ooc_types::{OutOfMemory, Row};
use sql_expr::Expr;
use std::alloc::Global;

/// The rows of an answer that conditions keep. Where a fault was noted no rows are left.
pub fn keep_answer(alloc: Global, tests: &[Test<'_>], answer: Answer) -> Result<Answer, OutOfMemory>
    requires { All (λ row. All (IsReady row) tests.now) answer.rows.items }
    ensures { IfOk result (λ left. found_in left ≡ if_clean (found_in answer) (kept (map condition_in tests.now))) }
{
    let Answer { rows, faults } = answer;
    if faults.is_empty() {
        return kept_rows(alloc, tests, rows.as_slice());
    }
    Ok(Answer {
        rows: Vec::new(alloc),
        faults,
    })
}

/// The items over the rows of an answer. Where a fault was noted no rows are left.
pub fn project_answer(alloc: Global, items: &[Expr], answer: Answer) -> Result<Answer, OutOfMemory>
    requires { All (λ row. All (FitsItem row) items.now) answer.rows.items }
    ensures { IfOk result (λ left. found_in left ≡ if_clean (found_in answer) (projected (map row_value_of items.now))) }
{
    let Answer { rows, faults } = answer;
    if faults.is_empty() {
        return project(alloc, items, rows.as_slice());
    }
    Ok(Answer {
        rows: Vec::new(alloc),
        faults,
    })
}

/// A SELECT over the rows of one table, without grouping: the rows that WHERE keeps, the items over each, each row once under DISTINCT,
/// in order, without those of OFFSET, and of the rest as many as LIMIT says. Where a fault was noted there are no rows.
pub fn select_table(
    alloc: Global,
    tests: &[Test<'_>],
    items: &[Expr],
    distinct: bool,
    cut: &Option<Cut>,
    rows: &[Row],
) -> Result<Answer, OutOfMemory>
    requires { CanSelect tests.now items.now rows.now }
    ensures { IfOk result (λ answer. found_in answer
        ≡ cut_found (cut_of cut.now) (selected (plain_core (map condition_in tests.now) (map row_value_of items.now) distinct) (table_source rows.now ∷ []))) }
{
    let kept = kept_rows(alloc, tests, rows)?;
    let shown = project_answer(alloc, items, kept)?;
    let left = distinct_answer(alloc, distinct, shown)?;
    cut_answer(alloc, cut, left)
}
