//! The sources of a FROM, and whether it is free.
ghost use Rattle.std.specs.Prelude.{◌≡◌, ◌<◌, ◌++◌, true, is_some, IfOk, OnOk, map};
ghost use Rattle.std.specs.List.{list_all, filter_map};
ghost use Rattle.std.specs.Option.{option_copied};
ghost use Rattle.bound_tree.specs.declared.select.BoundRows.TheViews.{out-BoundSource};
ghost use Rattle.sql_meaning.specs.Statements.{pads_of};
ghost use Rattle.plan_tree.specs.Split.{is_plain_expr};
ghost use Rattle.plan_tree.specs.FreeFrom.{entries_from};
ghost use Rattle.plan_tree.specs.Plannable.{columns_of_source, columns_of_sources};
ghost use Rattle.plan_tree.specs.Planned.{rows_counted};
ghost use Rattle.sql_plan.specs.Counted.{counts_in};
ghost use Rattle.sql_plan.specs.Chosen.{columns_limit};
ghost use Rattle.sql_plan.specs.Sources.{table_name, table_input as input_of, is_free_source as is_free_one, bound_table, plain_conjunct as plain_of, ons_in, first_of_free};

use crate::counts::{TableCount, rows_of};
use crate::moves::move_expr;
use crate::places::Places;
use bound_tree::{BoundSource, Conjunct, JoinKind, SourceRows};
use ooc_types::OutOfMemory;
use plan_tree::{Entry, PlanInput};
use sql_expr::{Expr, Exprs, is_plain};
use sqlite_items::Items;
use std::alloc::Global;

fn is_table(rows: &SourceRows) -> bool
    ensures { result ≡ is_some (table_name rows.now) }
{
    match rows {
        SourceRows::Table(_) => true,
        SourceRows::Query(_) => false,
    }
}

fn rows_counted_of(counts: &[TableCount], rows: &SourceRows) -> u64
    ensures { result ≡ rows_counted (counts_in counts.now) (table_name rows.now) }
{
    match rows {
        SourceRows::Table(name) => rows_of(counts, name),
        SourceRows::Query(_) => 0,
    }
}

/// The table as a plan reads it.
pub(crate) fn table_input(rows: &SourceRows) -> Result<PlanInput, OutOfMemory>
    requires { is_some (table_name rows.now) ≡ true }
    ensures { IfOk result (λ input. input ≡ input_of (table_name rows.now)) }
{
    match rows {
        SourceRows::Table(name) => Ok(PlanInput::Table(name.clone()?)),
        SourceRows::Query(_) => unreachable!(),
    }
}

/// Whether it is a LEFT JOIN.
pub(crate) fn is_padded(join: JoinKind) -> bool
    ensures { result ≡ pads_of join }
{
    match join {
        JoinKind::Left => true,
        JoinKind::First | JoinKind::Inner | JoinKind::Cross => false,
    }
}

fn are_plain(on: &[Expr]) -> bool
    ensures { result ≡ list_all is_plain_expr on.now }
{
    for expr in on {
        if !is_plain(expr) {
            return false;
        }
    }
    true
}

fn is_free_source(source: &BoundSource) -> bool
    ensures { result ≡ is_free_one source.now }
{
    is_table(&source.rows) && !is_padded(source.join) && are_plain(source.on.as_slice())
}

fn are_free(sources: &[BoundSource]) -> bool
    ensures { result ≡ list_all is_free_one sources.now }
{
    for source in sources {
        if !is_free_source(source) {
            return false;
        }
    }
    true
}

/// The first source of a free FROM, of which all sources are tables, all joins inner, and all conjuncts of ON plain;
/// None where the FROM isn't free.
pub(crate) fn first_if_free(sources: &[BoundSource]) -> Option<&BoundSource>
    ensures { option_copied result ≡ first_of_free sources.now }
{
    match sources {
        [first, ..] if are_free(sources) => Some(first),
        _ => None,
    }
}

/// How many columns the source has.
pub(crate) fn width_of(source: &BoundSource) -> u32
    requires { columns_of_source source.now < columns_limit }
    ensures { result ≡ columns_of_source source.now }
{
    source.kinds.len() as u32
}

/// The tables of a free FROM with their places, columns and rows.
pub(crate) fn entries(
    alloc: Global,
    counts: &[TableCount],
    sources: &[BoundSource],
) -> Result<Items<Entry>, OutOfMemory>
    requires { columns_of_sources sources.now < columns_limit }
    ensures { IfOk result (λ entries. entries ≡ entries_from 0 0 (map (bound_table (counts_in counts.now)) sources.now)) }
{
    let mut entries = Items::new(alloc);
    let mut start = 0;
    for (place, source) in sources.iter().enumerate() {
        let width = width_of(source);
        entries.push(Entry {
            place,
            start,
            width,
            rows: rows_counted_of(counts, &source.rows),
        })?;
        start += width;
    }
    Ok(entries)
}

/// The plain conjuncts of WHERE.
pub(crate) fn plain_conjuncts(alloc: Global, conjuncts: &[Conjunct]) -> Result<Exprs, OutOfMemory>
    ensures { IfOk result (λ plain. plain ≡ filter_map plain_of conjuncts.now) }
{
    let mut plain = Items::new(alloc);
    for conjunct in conjuncts {
        match conjunct {
            Conjunct::Condition(expr) if is_plain(expr) => {
                plain.push(move_expr(alloc, &Places::Kept, expr)?)?;
            }
            _ => {}
        }
    }
    Ok(plain)
}

fn add_copies(alloc: Global, pool: &mut Exprs, on: &[Expr]) -> Result<(), OutOfMemory>
    ensures { OnOk result (pool.new ≡ pool.old ++ on.now) }
{
    for expr in on {
        pool.push(move_expr(alloc, &Places::Kept, expr)?)?;
    }
    Ok(())
}

/// The plain conjuncts of WHERE, and behind these the conjuncts of each ON.
pub(crate) fn pool(
    alloc: Global,
    sources: &[BoundSource],
    conjuncts: &[Conjunct],
) -> Result<Exprs, OutOfMemory>
    ensures { IfOk result (λ pool. pool ≡ filter_map plain_of conjuncts.now ++ ons_in sources.now) }
{
    let mut pool = plain_conjuncts(alloc, conjuncts)?;
    for source in sources {
        add_copies(alloc, &mut pool, source.on.as_slice())?;
    }
    Ok(pool)
}

/// Whether it is a plain condition.
pub(crate) fn is_plain_conjunct(conjunct: &Conjunct) -> bool
    ensures { result ≡ is_some (plain_of conjunct.now) }
{
    match conjunct {
        Conjunct::Condition(expr) => is_plain(expr),
        Conjunct::Member { .. } => false,
    }
}
