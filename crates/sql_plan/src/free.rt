//! A free FROM: its tables in the order of the plan, with the conjuncts that act at each.
ghost use Rattle.std.specs.Prelude.{◌≡◌, ◌+◌, ◌<◌, ◌^◌, true, false, is_some, IfOk, IfSome, map, filter, not, [], length, slice_index_or};
ghost use Rattle.std.specs.List.{list_all, filter_map};
ghost use Rattle.plan_tree.specs.Plannable.{columns_of_sources};
ghost use Rattle.plan_tree.specs.Split.{linked_columns as linked_by};
ghost use Rattle.plan_tree.specs.FreeFrom.{names_columns as names};
ghost use Rattle.plan_tree.specs.Order.{picks};
ghost use Rattle.sql_plan.specs.Chosen.{columns_limit, columns_chosen, chosen_of, places_of_chosen};
ghost use Rattle.sql_plan.specs.Counted.{counts_in};
ghost use Rattle.sql_plan.specs.Places.{moved_by};
ghost use Rattle.sql_plan.specs.declared.places.Places.TheVariants.{Moved};
ghost use Rattle.sql_plan.specs.Sources.{is_free_source as is_free_one, table_name};
ghost use Rattle.sql_plan.specs.Stages.{table_stage as stage_of_table, free_stage as free_stage_of, free_stages as stages_of, free_from as from_of, bound_entries, is_named};
ghost use Rattle.bound_tree.specs.declared.select.BoundRows.TheViews.{out-BoundSource};

use crate::counts::TableCount;
use crate::keys::linked_columns;
use crate::moves::move_expr;
use crate::order::{Chosen, choose, places};
use crate::places::Places;
use crate::sources::{entries, pool, table_input};
use crate::span::top;
use crate::split::{Parts, split_ready};
use bound_tree::{BoundSource, Conjunct};
use ooc_types::OutOfMemory;
use plan_tree::{Entry, Linked, PlanSource};
use sql_expr::{Expr, Exprs};
use sqlite_items::Items;
use std::alloc::Global;

/// A FROM as it is planned, and the plain conjuncts that are left in WHERE, over the columns in the plan's order.
#[derive(Drop)]
pub(crate) struct FromPlan {
    /// Where the written columns stand in the plan's row.
    pub places: Places,
    pub sources: Items<PlanSource>,
    pub plain: Exprs,
}

fn equalities(alloc: Global, pool: &[Expr]) -> Result<Items<Linked>, OutOfMemory>
    ensures { IfOk result (λ links. links ≡ filter_map linked_by pool.now) }
{
    let mut links = Items::new(alloc);
    for expr in pool {
        if let Some(two) = linked_columns(expr) {
            links.push(two)?;
        }
    }
    Ok(links)
}

fn names_columns(expr: &Expr) -> bool
    ensures { result ≡ names expr.now }
{
    top(expr) > 0
}

// Those of the pool that name columns, or those that name none, at their places afterwards.
fn moved_conjuncts(
    alloc: Global,
    places: &Places,
    named: bool,
    pool: &[Expr],
) -> Result<Exprs, OutOfMemory>
    ensures { IfOk result (λ es. es ≡ map (moved_by places.now) (filter (is_named named) pool.now)) }
{
    let mut moved = Items::new(alloc);
    for expr in pool {
        if names_columns(expr) == named {
            moved.push(move_expr(alloc, places, expr)?)?;
        }
    }
    Ok(moved)
}

fn table_stage(source: &BoundSource, width: u32, parts: Parts) -> Result<PlanSource, OutOfMemory>
    requires { is_some (table_name (out-BoundSource source.now).rows) ≡ true }
    ensures { IfOk result (λ stage. stage ≡ stage_of_table source.now width parts) }
{
    let name = source.name.clone()?;
    let rows = table_input(&source.rows)?;
    let Parts {
        filters,
        keys,
        rest,
    } = parts;
    Ok(PlanSource {
        name,
        rows,
        width,
        pads: false,
        filters,
        keys,
        rest,
    })
}

fn source_at<'a>(
    first: &'a BoundSource,
    sources: &'a [BoundSource],
    place: usize,
) -> &'a BoundSource
    ensures { result.now ≡ slice_index_or sources.now place first.now }
{
    match sources.get(place) {
        Some(source) => source,
        None => first,
    }
}

// The stage of a table whose columns begin at this place.
fn free_stage(
    alloc: Global,
    source: &BoundSource,
    low: u64,
    at: u32,
    width: u32,
    conjuncts: &[Expr],
) -> Result<PlanSource, OutOfMemory>
    requires { is_some (table_name (out-BoundSource source.now).rows) ≡ true }
    ensures { IfOk result (λ stage. stage ≡ free_stage_of source.now low at width conjuncts.now) }
{
    let parts = split_ready(alloc, low, at, width, conjuncts)?;
    table_stage(source, width, parts)
}

// The stages of the tables in the plan's order; each conjunct acts at the first table at which all its columns are
// there.
fn free_stages(
    alloc: Global,
    first: &BoundSource,
    sources: &[BoundSource],
    chosen: &[Chosen],
    conjuncts: &[Expr],
) -> Result<Items<PlanSource>, OutOfMemory>
    requires free { list_all is_free_one sources.now ≡ true }
    requires free_first { is_free_one first.now ≡ true }
    requires columns { columns_chosen chosen.now < columns_limit }
    ensures { IfOk result (λ stages. stages ≡ stages_of first.now sources.now 0 0 chosen.now conjuncts.now) }
{
    let mut stages = Items::new(alloc);
    let mut at = 0;
    let mut low = 0;
    for one in chosen {
        let source = source_at(first, sources, one.entry.place);
        let stage = free_stage(alloc, source, low, at, one.entry.width, conjuncts)?;
        stages.push(stage)?;
        at += one.entry.width;
        low = u64::from(at) + 1;
    }
    Ok(stages)
}

// The tables in the plan's order, by the equalities of the pool.
fn chosen_by(
    alloc: Global,
    counts: &[TableCount],
    sources: &[BoundSource],
    pool: &[Expr],
) -> Result<Items<Chosen>, OutOfMemory>
    requires { columns_of_sources sources.now < columns_limit }
    ensures { IfOk result (λ chosen. chosen ≡ map chosen_of (picks (length (bound_entries (counts_in counts.now) sources.now)) (filter_map linked_by pool.now) [] (bound_entries (counts_in counts.now) sources.now))) }
{
    let links = equalities(alloc, pool)?;
    let entries = entries(alloc, counts, sources)?;
    choose(alloc, links.as_slice(), entries)
}

// The stages of these tables, and the conjuncts that name no columns.
fn from_chosen(
    alloc: Global,
    first: &BoundSource,
    sources: &[BoundSource],
    chosen: &[Chosen],
    pool: &[Expr],
) -> Result<FromPlan, OutOfMemory>
    requires free { list_all is_free_one sources.now ≡ true }
    requires free_first { is_free_one first.now ≡ true }
    requires columns { columns_chosen chosen.now < columns_limit }
    ensures { IfOk result (λ from. from ≡ record {
      places = Moved (places_of_chosen 0 chosen.now);
      sources = stages_of first.now sources.now 0 0 chosen.now (map (moved_by (Moved (places_of_chosen 0 chosen.now))) (filter (is_named true) pool.now));
      plain = map (moved_by (Moved (places_of_chosen 0 chosen.now))) (filter (is_named false) pool.now);
    }) }
{
    let places = Places::Moved(places(alloc, 0, chosen)?);
    let named = moved_conjuncts(alloc, &places, true, pool)?;
    let sources = free_stages(alloc, first, sources, chosen, named.as_slice())?;
    let plain = moved_conjuncts(alloc, &places, false, pool)?;
    Ok(FromPlan {
        places,
        sources,
        plain,
    })
}

/// A free FROM.
pub(crate) fn free_from(
    alloc: Global,
    counts: &[TableCount],
    first: &BoundSource,
    sources: &[BoundSource],
    conjuncts: &[Conjunct],
) -> Result<FromPlan, OutOfMemory>
    requires free { list_all is_free_one sources.now ≡ true }
    requires free_first { is_free_one first.now ≡ true }
    requires columns { columns_of_sources sources.now < columns_limit }
    ensures { IfOk result (λ from. from ≡ from_of (counts_in counts.now) first.now sources.now conjuncts.now) }
{
    let pool = pool(alloc, sources, conjuncts)?;
    let chosen = chosen_by(alloc, counts, sources, pool.as_slice())?;
    from_chosen(alloc, first, sources, chosen.as_slice(), pool.as_slice())
}
