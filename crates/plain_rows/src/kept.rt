//! The rows that conditions keep.
ghost use Rattle.std.specs.Prelude.{◌≡◌, All, IfOk, OnOk, map};
ghost use Rattle.sql_meaning.specs.Judged.{kept};
ghost use Rattle.plain_rows.specs.Answers.{Adds, found_in};
ghost use Rattle.plain_rows.specs.Tests.{condition_in, IsReady, kept_of};

use crate::answer::{Answer, add_fault, add_row, copy_row};
use crate::judging::judge;
use crate::test::Test;
use ooc_types::{OutOfMemory, Row};
use sql_expr::EvalFault;
use std::alloc::Global;

fn keep(tests: &[Test<'_>], row: &Row, into: &mut Answer) -> Result<(), OutOfMemory>
    requires { All (IsReady row.now) tests.now }
    ensures { OnOk result (Adds into.old into.new (kept_of (map condition_in tests.now) row.now)) }
{
    match judge(tests, row.as_slice()) {
        Ok(true) => add_row(into, copy_row(row)?),
        Ok(false) => Ok(()),
        Err(EvalFault::Fault(fault)) => add_fault(into, fault),
        Err(EvalFault::OutOfMemory) => Err(OutOfMemory),
    }
}

/// The rows that the conditions keep, and the faults of those that have one.
pub fn kept_rows(alloc: Global, tests: &[Test<'_>], rows: &[Row]) -> Result<Answer, OutOfMemory>
    requires { All (λ row. All (IsReady row) tests.now) rows.now }
    ensures { IfOk result (λ answer. found_in answer ≡ kept (map condition_in tests.now) rows.now) }
{
    let mut answer = Answer::new_answer(alloc);
    for row in rows {
        keep(tests, row, &mut answer)?;
    }
    Ok(answer)
}
