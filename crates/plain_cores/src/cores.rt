//! A SELECT without set operations and order, over what its subqueries gave.
ghost use Rattle.std.specs.Prelude.{◌≡◌, ◌++◌, IfOk, IfSome, OnOk, flat_map, map};
ghost use Rattle.std.specs.Option.{option_map};
ghost use Rattle.bound_tree.specs.declared.select.BoundRows.TheViews.{out-BoundCore};
ghost use Rattle.sql_meaning.specs.Found.{and_then, clean, if_clean};
ghost use Rattle.sql_meaning.specs.From.{from_rows as rows_of_from};
ghost use Rattle.sql_meaning.specs.Judged.{kept};
ghost use Rattle.sql_meaning.specs.Select.{below_having as below_of, perhaps_grouped};
ghost use Rattle.sql_meaning.specs.Statements.{grouping_of};
ghost use Rattle.plain_rows.specs.Answers.{distinct_found, found_in};
ghost use Rattle.plain_rows.specs.Froms.{source_in};
ghost use Rattle.plain_rows.specs.Tests.{parts_in, parts_of};
ghost use Rattle.plain_groups.specs.Grouped.{CanGroup};
ghost use Rattle.plain_cores.specs.Cores.{CanCore, CanFilter, CanShow, conditions_of, core_in, core_found, having_exprs, above_of};
ghost use Rattle.plain_cores.specs.Known.{faults_in};

use crate::known::{Known, note_all_known, tests_of_known};
use bound_tree::{BoundCore, Grouping};
use ooc_types::OutOfMemory;
use plain_groups::group;
use plain_rows::{
    Answer, Source, Test, add_faults, distinct_answer, from_rows, keep_answer, kept_rows,
    project_answer, tests_of,
};
use sql_expr::{Expr, ValueFault};
use std::alloc::Global;

// The faults of the subqueries in FROM and in WHERE.
fn inner_faults(
    alloc: Global,
    sources: &[Source<'_>],
    knowns: &[Known<'_>],
) -> Result<Vec<ValueFault>, OutOfMemory>
    ensures { IfOk result (λ faults. faults.items ≡ flat_map (λ source. source.found.faults.items) sources.now ++ flat_map faults_in knowns.now) }
{
    let mut faults = Vec::new(alloc);
    for source in sources {
        add_faults(source.found.faults.as_slice(), &mut faults)?;
    }
    note_all_known(knowns, &mut faults)?;
    Ok(faults)
}

// WHERE.
fn filter_rows(alloc: Global, knowns: &[Known<'_>], from: Answer) -> Result<Answer, OutOfMemory>
    requires { CanFilter knowns.now from.rows.items }
    ensures { IfOk result (λ answer. found_in answer ≡ and_then (found_in from) (kept (conditions_of knowns.now))) }
{
    let tests = tests_of_known(alloc, knowns)?;
    let kept = kept_rows(alloc, tests.as_slice(), from.rows.as_slice())?;
    let mut faults = from.faults;
    add_faults(kept.faults.as_slice(), &mut faults)?;
    Ok(Answer {
        rows: kept.rows,
        faults,
    })
}

// An answer behind faults that were noted: where there is one there are no rows.
fn behind_faults(
    alloc: Global,
    noted: Vec<ValueFault>,
    answer: Answer,
) -> Result<Answer, OutOfMemory>
    ensures { IfOk result (λ behind. found_in behind ≡ if_clean (record { rows = answer.rows.items; faults = noted.items ++ answer.faults.items }) clean) }
{
    let mut faults = noted;
    add_faults(answer.faults.as_slice(), &mut faults)?;
    if faults.is_empty() {
        return Ok(Answer {
            rows: answer.rows,
            faults,
        });
    }
    Ok(Answer {
        rows: Vec::new(alloc),
        faults,
    })
}

// GROUP BY and aggregates, where the SELECT has them. Where a fault was noted there are no rows.
fn group_rows(
    alloc: Global,
    grouping: &Option<Grouping>,
    filtered: Answer,
) -> Result<Answer, OutOfMemory>
    requires { IfSome grouping.now (λ grouping. CanGroup grouping filtered.rows.items) }
    ensures { IfOk result (λ answer. found_in answer ≡ if_clean (and_then (found_in filtered) (perhaps_grouped (option_map grouping_of grouping.now))) clean) }
{
    match grouping {
        Some(grouping) => {
            let grouped = group(alloc, grouping, filtered.rows.as_slice())?;
            behind_faults(alloc, filtered.faults, grouped)
        }
        None => {
            let Answer { rows, faults } = filtered;
            let answer = Answer::of_rows(alloc, rows);
            behind_faults(alloc, faults, answer)
        }
    }
}

// FROM, WHERE and grouping.
fn below_having(
    alloc: Global,
    core: &BoundCore,
    sources: &[Source<'_>],
    knowns: &[Known<'_>],
) -> Result<Answer, OutOfMemory>
    requires { CanCore core.now sources.now knowns.now }
    ensures { IfOk result (λ answer. found_in answer ≡ if_clean (below_of (core_in core.now knowns.now) (map source_in sources.now)) clean) }
{
    let from = from_rows(alloc, sources)?;
    let filtered = filter_rows(alloc, knowns, from)?;
    group_rows(alloc, &core.grouping, filtered)
}

fn having_tests<'a>(
    alloc: Global,
    grouping: &'a Option<Grouping>,
) -> Result<Vec<Test<'a>>, OutOfMemory>
    ensures { IfOk result (λ tests. map parts_in tests.items ≡ map parts_of (having_exprs grouping.now)) }
{
    match grouping {
        Some(grouping) => match &grouping.having {
            Some(list) => tests_of(alloc, list.as_slice()),
            None => Ok(Vec::new(alloc)),
        },
        None => Ok(Vec::new(alloc)),
    }
}

// HAVING, the items and DISTINCT.
fn above_groups(
    alloc: Global,
    grouping: &Option<Grouping>,
    items: &[Expr],
    distinct: bool,
    below: Answer,
) -> Result<Answer, OutOfMemory>
    requires { CanShow (having_exprs grouping.now) items.now below.rows.items }
    ensures { IfOk result (λ answer. found_in answer ≡ above_of (having_exprs grouping.now) items.now distinct (found_in below)) }
{
    let tests = having_tests(alloc, grouping)?;
    let kept = keep_answer(alloc, tests.as_slice(), below)?;
    let shown = project_answer(alloc, items, kept)?;
    distinct_answer(alloc, distinct, shown)
}

/// A core over its answered subqueries.
pub fn core_answer(
    alloc: Global,
    core: &BoundCore,
    sources: &[Source<'_>],
    knowns: &[Known<'_>],
) -> Result<Answer, OutOfMemory>
    requires { CanCore core.now sources.now knowns.now }
    ensures { IfOk result (λ answer. found_in answer ≡ core_found core.now sources.now knowns.now) }
{
    let faults = inner_faults(alloc, sources, knowns)?;
    if !faults.is_empty() {
        return Ok(Answer {
            rows: Vec::new(alloc),
            faults,
        });
    }
    let below = below_having(alloc, core, sources, knowns)?;
    above_groups(
        alloc,
        &core.grouping,
        core.items.as_slice(),
        core.distinct,
        below,
    )
}
