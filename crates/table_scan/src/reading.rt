//! What is read of each row.
ghost use Rattle.std.specs.Prelude.{IfOk, OnOk};
ghost use Rattle.table_scan.specs.Scan.{conditions_among};
ghost use Rattle.table_scan.specs.Typed.{AddsTest, AreTests};

use bound_tree::Conjunct;
use ooc_types::{OutOfMemory, Schema, SqlType};
use plain_rows::Test;
use sql_expr::Expr;
use std::alloc::Global;

/// The types of the table's columns, the conditions by which rows are judged, the items over those that are kept, and the
/// columns that these make.
#[derive(Drop)]
pub(crate) struct Reading<'a> {
    pub kinds: &'a [SqlType],
    pub tests: Vec<Test<'a>>,
    pub items: &'a [Expr],
    pub columns: &'a Schema,
}

// Adds the test of a conjunct without a subquery.
fn add_test<'a>(conjunct: &'a Conjunct, into: &mut Vec<Test<'a>>) -> Result<(), OutOfMemory>
    ensures { OnOk result (AddsTest into.old.items into.new.items conjunct.now) }
{
    match conjunct {
        Conjunct::Condition(expr) => {
            into.push(Test::Condition(expr))?;
            Ok(())
        }
        Conjunct::Member { .. } => Ok(()),
    }
}

/// The conditions among conjuncts as tests.
pub(crate) fn tests_of<'a>(
    alloc: Global,
    conjuncts: &'a [Conjunct],
) -> Result<Vec<Test<'a>>, OutOfMemory>
    ensures { IfOk result (λ tests. AreTests tests.items (conditions_among conjuncts.now)) }
{
    let mut tests = Vec::new(alloc);
    for conjunct in conjuncts {
        add_test(conjunct, &mut tests)?;
    }
    Ok(tests)
}
