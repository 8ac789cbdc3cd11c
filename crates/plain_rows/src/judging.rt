//! Judging a row by conditions.
ghost use Rattle.std.specs.Prelude.{◌≡◌, All, filter, map};
ghost use Rattle.sql_meaning.specs.Judged.{judged, plain_first};
ghost use Rattle.plain_rows.specs.Outcomes.{Told};
ghost use Rattle.plain_rows.specs.Tests.{condition_in, IsReady, acts_here, judged_by_one};

use crate::test::{Test, is_plain_test, test_truth};
use ooc_types::{Truth, Value};
use sql_expr::EvalFault;

// Whether a test keeps a row; one that isn't of this kind, plain or not, keeps each.
fn judge_one(test: &Test<'_>, plain: bool, row: &[Value]) -> Result<bool, EvalFault>
    requires { IsReady row.now test.now }
    ensures { Told (judged_by_one plain (condition_in test.now) row.now) result }
{
    if is_plain_test(test) != plain {
        return Ok(true);
    }
    match test_truth(test, row) {
        Ok(Truth::Yes) => Ok(true),
        Ok(Truth::No) => Ok(false),
        Ok(Truth::Unknown) => Ok(false),
        Err(fault) => Err(fault),
    }
}

// The tests of this kind, from left to right: the first that isn't true settles it.
fn judge_some(tests: &[Test<'_>], plain: bool, row: &[Value]) -> Result<bool, EvalFault>
    requires { All (IsReady row.now) tests.now }
    ensures { Told (judged (filter (acts_here plain) (map condition_in tests.now)) row.now) result }
{
    for one in tests {
        match judge_one(one, plain, row) {
            Ok(true) => {}
            Ok(false) => return Ok(false),
            Err(fault) => return Err(fault),
        }
    }
    Ok(true)
}

/// Whether the tests keep a row, or the fault of the first that has none. The plain ones act first.
pub fn judge(tests: &[Test<'_>], row: &[Value]) -> Result<bool, EvalFault>
    requires { All (IsReady row.now) tests.now }
    ensures { Told (judged (plain_first (map condition_in tests.now)) row.now) result }
{
    match judge_some(tests, true, row) {
        Ok(keeps) => {
            if keeps {
                judge_some(tests, false, row)
            } else {
                Ok(false)
            }
        }
        Err(fault) => Err(fault),
    }
}
