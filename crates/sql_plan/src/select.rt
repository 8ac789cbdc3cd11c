//! The plan of a SELECT, from its sources to its order.
ghost use Rattle.std.specs.Prelude.{◌≡◌, ◌<◌, IfOk, is_some, map};
ghost use Rattle.std.specs.List.{AllByRecursion};
ghost use Rattle.bound_tree.specs.declared.select.BoundRows.TheViews.{out-BoundSelect};
ghost use Rattle.sql_meaning.specs.Same.{Agrees};
ghost use Rattle.sql_meaning.specs.Statements.{Tables, cut_of, select_meaning};
ghost use Rattle.plan_tree.specs.Means.{plan_meaning};
ghost use Rattle.plan_tree.specs.Plannable.{IsPlannable, columns_of_sources};
ghost use Rattle.plan_tree.specs.Planned.{other_conjuncts, plan_of_conjunct, plan_of_core, plan_of_input, plan_of_rows, plan_of_select, plan_of_source, written_stages};
ghost use Rattle.sql_plan.specs.Chosen.{columns_limit};
ghost use Rattle.sql_plan.specs.Cores.{conjunct_by, from_of};
ghost use Rattle.sql_plan.specs.Counted.{counts_in};
ghost use Rattle.sql_plan.specs.Numbered.{AreNumbered, AreNumberedConjunct, AreNumberedCore, AreNumberedInput, AreNumberedRows, AreNumberedSource};
ghost use Rattle.sql_plan.specs.Sources.{plain_conjunct};

use crate::cores::{
    condition, copy_table, core_over, core_rows, member, select_over, set_rows, subquery,
    written_from, written_stage,
};
use crate::counts::TableCount;
use crate::free::{FromPlan, free_from};
use crate::places::Places;
use crate::sources::{first_if_free, is_plain_conjunct, width_of};
use crate::steps::one_more;
use bound_tree::{BoundCore, BoundRows, BoundSelect, BoundSource, Conjunct, SourceRows};
use ooc_types::OutOfMemory;
use plan_tree::{PlanConjunct, PlanCore, PlanInput, PlanRows, PlanSelect, PlanSource};
use sqlite_items::Items;
use std::alloc::Global;

#[cycle(plan)]
fn plan_input(
    alloc: Global,
    counts: &[TableCount],
    rows: &SourceRows,
) -> Result<PlanInput, OutOfMemory>
    requires { AreNumberedInput rows.now }
    ensures { IfOk result (λ input. input ≡ plan_of_input (counts_in counts.now) rows.now) }
{
    match rows {
        SourceRows::Table(name) => copy_table(name),
        SourceRows::Query(select) => subquery(alloc, plan_select(alloc, counts, select.get())),
    }
}

// The sources in written order.
#[cycle(plan)]
fn plan_sources(
    alloc: Global,
    counts: &[TableCount],
    sources: &[BoundSource],
) -> Result<Items<PlanSource>, OutOfMemory>
    requires columns { columns_of_sources sources.now < columns_limit }
    requires numbered { AllByRecursion AreNumberedSource sources.now }
    ensures { IfOk result (λ stages. stages ≡ written_stages 0 (map (plan_of_source (counts_in counts.now)) sources.now)) }
{
    let mut stages = Ok(Items::new(alloc));
    let mut at = 0;
    for source in sources {
        let input = plan_input(alloc, counts, &source.rows);
        stages = one_more(stages, written_stage(alloc, at, source, input));
        at += width_of(source);
    }
    stages
}

#[cycle(plan)]
fn plan_conjunct(
    alloc: Global,
    counts: &[TableCount],
    places: &Places,
    conjunct: &Conjunct,
) -> Result<PlanConjunct, OutOfMemory>
    requires { AreNumberedConjunct conjunct.now }
    ensures { IfOk result (λ c. c ≡ conjunct_by places.now (plan_of_conjunct (counts_in counts.now) conjunct.now)) }
{
    match conjunct {
        Conjunct::Condition(expr) => condition(alloc, places, expr),
        Conjunct::Member { of, query, negated } => member(
            alloc,
            places,
            of,
            plan_select(alloc, counts, query.get()),
            *negated,
        ),
    }
}

// The conjuncts of WHERE that aren't plain.
#[cycle(plan)]
fn plan_others(
    alloc: Global,
    counts: &[TableCount],
    places: &Places,
    conjuncts: &[Conjunct],
) -> Result<Items<PlanConjunct>, OutOfMemory>
    requires { AllByRecursion AreNumberedConjunct conjuncts.now }
    ensures { IfOk result (λ others. others ≡ map (conjunct_by places.now) (other_conjuncts (map (plan_of_conjunct (counts_in counts.now)) conjuncts.now))) }
{
    let mut others = Ok(Items::new(alloc));
    for conjunct in conjuncts {
        if !is_plain_conjunct(conjunct) {
            others = one_more(others, plan_conjunct(alloc, counts, places, conjunct));
        }
    }
    others
}

#[cycle(plan)]
fn plan_from(
    alloc: Global,
    counts: &[TableCount],
    core: &BoundCore,
) -> Result<FromPlan, OutOfMemory>
    requires { AreNumberedCore core.now }
    ensures { IfOk result (λ from. from ≡ from_of (counts_in counts.now) core.now) }
{
    let sources = core.sources.as_slice();
    let conjuncts = core.conjuncts.as_slice();
    match first_if_free(sources) {
        Some(first) => free_from(alloc, counts, first, sources, conjuncts),
        None => written_from(alloc, plan_sources(alloc, counts, sources), conjuncts),
    }
}

#[cycle(plan)]
fn plan_core(
    alloc: Global,
    counts: &[TableCount],
    core: &BoundCore,
) -> Result<PlanCore, OutOfMemory>
    requires { AreNumberedCore core.now }
    ensures { IfOk result (λ to. to ≡ plan_of_core (counts_in counts.now) core.now) }
{
    match plan_from(alloc, counts, core) {
        Ok(from) => {
            let others = plan_others(alloc, counts, &from.places, core.conjuncts.as_slice());
            core_over(alloc, from, others, core)
        }
        Err(fault) => Err(fault),
    }
}

#[cycle(plan)]
fn plan_rows(
    alloc: Global,
    counts: &[TableCount],
    rows: &BoundRows,
) -> Result<PlanRows, OutOfMemory>
    requires { AreNumberedRows rows.now }
    ensures { IfOk result (λ to. to ≡ plan_of_rows (counts_in counts.now) rows.now) }
{
    match rows {
        BoundRows::Core(core) => core_rows(plan_core(alloc, counts, core)),
        BoundRows::Set {
            kind,
            all,
            left,
            right,
            ..
        } => set_rows(
            alloc,
            *kind,
            *all,
            plan_rows(alloc, counts, left.get()),
            plan_rows(alloc, counts, right.get()),
        ),
    }
}

#[cycle(plan)]
fn plan_select(
    alloc: Global,
    counts: &[TableCount],
    select: &BoundSelect,
) -> Result<PlanSelect, OutOfMemory>
    requires { AreNumbered select.now }
    ensures { IfOk result (λ to. to ≡ plan_of_select (counts_in counts.now) select.now) }
{
    let rows = plan_rows(alloc, counts, select.rows.get());
    select_over(alloc, rows, &select.columns, &select.cut)
}

/// The plan of a SELECT over tables of which these counts say how many rows they have; one that has no count is taken
/// for empty.
pub fn plan(
    alloc: Global,
    select: &BoundSelect,
    counts: &[TableCount],
) -> Result<PlanSelect, OutOfMemory>
    requires { AreNumbered select.now }
    ensures stages { IfOk result (λ plan. plan ≡ plan_of_select (counts_in counts.now) select.now) }
    ensures means { IfOk result (λ plan. (tables : Tables) → IsPlannable tables select.now → Agrees (cut_of (out-BoundSelect select.now).cut) (plan_meaning tables plan) (select_meaning tables select.now)) }
{
    plan_select(alloc, counts, select)
}
