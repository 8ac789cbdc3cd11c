//! The parts of a core that stand above its FROM.
ghost use Rattle.std.specs.Prelude.{◌≡◌, ◌<◌, IfOk, map};
ghost use Rattle.std.specs.Option.{option_map};
ghost use Rattle.bound_tree.specs.declared.select.BoundRows.TheViews.{out-BoundCore, out-BoundSource};
ghost use Rattle.plan_tree.specs.declared.stages.PlanConjunct.TheOpen.{PlanRows-F, PlanConjunct-F, PlanInput-F};
ghost use Rattle.plan_tree.specs.declared.stages.PlanConjunct.TheViews.{roll-PlanCore, roll-PlanRows, roll-PlanSelect, roll-PlanConjunct, roll-PlanInput};
ghost use Rattle.plan_tree.specs.Split.{split_on as divided};
ghost use Rattle.plan_tree.specs.Plannable.{columns_of_source};
ghost use Rattle.sql_plan.specs.Chosen.{columns_limit};
ghost use Rattle.sql_plan.specs.Conjuncts.{parts_of};
ghost use Rattle.sql_plan.specs.Cores.{aggregate_by, grouping_by, items_by, core_by, core_with, top_by, written_stage as stage_of_source, written_from as from_of};
ghost use Rattle.sql_plan.specs.Places.{moved_by};
ghost use Rattle.sql_plan.specs.Steps.{GoesOn, GoesOnBoth};

use crate::free::FromPlan;
use crate::moves::{move_expr, move_list};
use crate::places::Places;
use crate::sources::{is_padded, plain_conjuncts, width_of};
use crate::split::{Parts, split_on};
use crate::steps::both;
use bound_tree::{Aggregate, BoundCore, BoundSource, Conjunct, Cut, Grouping, SetKind};
use ooc_types::{OutOfMemory, Schema, Text};
use plan_tree::{PlanConjunct, PlanCore, PlanInput, PlanRows, PlanSelect, PlanSource};
use sql_expr::{Expr, Exprs};
use sqlite_items::{Boxed, Items};
use std::alloc::Global;

fn argument(
    alloc: Global,
    places: &Places,
    of: &Option<Boxed<Expr>>,
) -> Result<Option<Boxed<Expr>>, OutOfMemory>
    ensures { IfOk result (λ to. to ≡ option_map (moved_by places.now) of.now) }
{
    match of {
        Some(expr) => {
            let expr = move_expr(alloc, places, expr.get())?;
            Ok(Some(Boxed::new(alloc, expr)?))
        }
        None => Ok(None),
    }
}

fn move_aggregates(
    alloc: Global,
    places: &Places,
    aggregates: &[Aggregate],
) -> Result<Items<Aggregate>, OutOfMemory>
    ensures { IfOk result (λ to. to ≡ map (aggregate_by places.now) aggregates.now) }
{
    let mut moved = Items::new(alloc);
    for aggregate in aggregates {
        moved.push(Aggregate {
            kind: aggregate.kind,
            of: argument(alloc, places, &aggregate.of)?,
            result: aggregate.result,
        })?;
    }
    Ok(moved)
}

fn copy_having(alloc: Global, having: &Option<Exprs>) -> Result<Option<Exprs>, OutOfMemory>
    ensures { IfOk result (λ to. to ≡ having.now) }
{
    match having {
        Some(list) => Ok(Some(move_list(alloc, &Places::Kept, list.as_slice())?)),
        None => Ok(None),
    }
}

fn move_grouping(
    alloc: Global,
    places: &Places,
    grouping: &Option<Grouping>,
) -> Result<Option<Grouping>, OutOfMemory>
    ensures { IfOk result (λ to. to ≡ option_map (grouping_by places.now) grouping.now) }
{
    match grouping {
        Some(grouping) => {
            let keys = move_list(alloc, places, grouping.keys.as_slice())?;
            let aggregates = move_aggregates(alloc, places, grouping.aggregates.as_slice())?;
            let having = copy_having(alloc, &grouping.having)?;
            Ok(Some(Grouping {
                keys,
                aggregates,
                having,
            }))
        }
        None => Ok(None),
    }
}

// Above a grouping the items are over the group's row, whose columns stay.
fn move_items(
    alloc: Global,
    places: &Places,
    grouping: &Option<Grouping>,
    items: &[Expr],
) -> Result<Exprs, OutOfMemory>
    ensures { IfOk result (λ to. to ≡ items_by places.now grouping.now items.now) }
{
    match grouping {
        Some(_) => move_list(alloc, &Places::Kept, items),
        None => move_list(alloc, places, items),
    }
}

fn top_over(
    alloc: Global,
    places: &Places,
    core: &BoundCore,
) -> Result<(Option<Grouping>, Exprs), OutOfMemory>
    ensures { IfOk result (λ top. top ≡ top_by places.now core.now) }
{
    let grouping = move_grouping(alloc, places, &core.grouping)?;
    let items = move_items(alloc, places, &core.grouping, core.items.as_slice())?;
    Ok((grouping, items))
}

fn core_of(
    from: FromPlan,
    parts: Result<(Items<PlanConjunct>, (Option<Grouping>, Exprs)), OutOfMemory>,
    distinct: bool,
) -> Result<PlanCore, OutOfMemory>
    ensures { GoesOn (λ p. core_with from distinct p.0 p.1) parts result }
{
    let (others, top) = parts?;
    let (grouping, items) = top;
    let FromPlan {
        places: _,
        sources,
        plain,
    } = from;
    Ok(PlanCore {
        sources,
        plain,
        others,
        grouping,
        items,
        distinct,
    })
}

/// A core over its FROM and the conjuncts that are left in WHERE and aren't plain.
pub(crate) fn core_over(
    alloc: Global,
    from: FromPlan,
    others: Result<Items<PlanConjunct>, OutOfMemory>,
    core: &BoundCore,
) -> Result<PlanCore, OutOfMemory>
    ensures { GoesOn (λ others. core_by from others core.now) others result }
{
    let top = top_over(alloc, &from.places, core);
    core_of(from, both(others, top), core.distinct)
}

/// A FROM in written order.
pub(crate) fn written_from(
    alloc: Global,
    sources: Result<Items<PlanSource>, OutOfMemory>,
    conjuncts: &[Conjunct],
) -> Result<FromPlan, OutOfMemory>
    ensures { GoesOn (λ sources. from_of sources conjuncts.now) sources result }
{
    let sources = sources?;
    let plain = plain_conjuncts(alloc, conjuncts)?;
    Ok(FromPlan {
        places: Places::Kept,
        sources,
        plain,
    })
}

/// The stage of a source in written order, whose columns begin at this place.
pub(crate) fn written_stage(
    alloc: Global,
    at: u32,
    source: &BoundSource,
    input: Result<PlanInput, OutOfMemory>,
) -> Result<PlanSource, OutOfMemory>
    requires { columns_of_source source.now < columns_limit }
    ensures { GoesOn (λ input. stage_of_source at source.now input) input result }
{
    let rows = input?;
    let name = source.name.clone()?;
    let width = width_of(source);
    let Parts {
        filters,
        keys,
        rest,
    } = split_on(alloc, at, width, source.on.as_slice())?;
    Ok(PlanSource {
        name,
        rows,
        width,
        pads: is_padded(source.join),
        filters,
        keys,
        rest,
    })
}

pub(crate) fn copy_table(name: &Text) -> Result<PlanInput, OutOfMemory>
    ensures { IfOk result (λ input. input ≡ roll-PlanInput (PlanInput-F.Table name.now)) }
{
    Ok(PlanInput::Table(name.clone()?))
}

pub(crate) fn subquery(
    alloc: Global,
    select: Result<PlanSelect, OutOfMemory>,
) -> Result<PlanInput, OutOfMemory>
    ensures { GoesOn (λ select. roll-PlanInput (PlanInput-F.Query select)) select result }
{
    let select = select?;
    Ok(PlanInput::Query(Boxed::new(alloc, select)?))
}

pub(crate) fn condition(
    alloc: Global,
    places: &Places,
    expr: &Expr,
) -> Result<PlanConjunct, OutOfMemory>
    ensures { IfOk result (λ c. c ≡ roll-PlanConjunct (PlanConjunct-F.Condition (moved_by places.now expr.now))) }
{
    Ok(PlanConjunct::Condition(move_expr(alloc, places, expr)?))
}

pub(crate) fn member(
    alloc: Global,
    places: &Places,
    of: &Expr,
    query: Result<PlanSelect, OutOfMemory>,
    negated: bool,
) -> Result<PlanConjunct, OutOfMemory>
    ensures { GoesOn (λ query. roll-PlanConjunct (PlanConjunct-F.Member (moved_by places.now of.now) query negated)) query result }
{
    let query = Boxed::new(alloc, query?)?;
    let of = move_expr(alloc, places, of)?;
    Ok(PlanConjunct::Member { of, query, negated })
}

pub(crate) fn core_rows(core: Result<PlanCore, OutOfMemory>) -> Result<PlanRows, OutOfMemory>
    ensures { GoesOn (λ core. roll-PlanRows (PlanRows-F.Core core)) core result }
{
    Ok(PlanRows::Core(core?))
}

fn boxed_rows(
    alloc: Global,
    rows: Result<PlanRows, OutOfMemory>,
) -> Result<Boxed<PlanRows>, OutOfMemory>
    ensures { GoesOn (λ rows. rows) rows result }
{
    Ok(Boxed::new(alloc, rows?)?)
}

fn set_of(
    kind: SetKind,
    all: bool,
    parts: Result<(Boxed<PlanRows>, Boxed<PlanRows>), OutOfMemory>,
) -> Result<PlanRows, OutOfMemory>
    ensures { GoesOn (λ p. roll-PlanRows (PlanRows-F.Set kind all p.0 p.1)) parts result }
{
    let (left, right) = parts?;
    Ok(PlanRows::Set {
        kind,
        all,
        left,
        right,
    })
}

pub(crate) fn set_rows(
    alloc: Global,
    kind: SetKind,
    all: bool,
    left: Result<PlanRows, OutOfMemory>,
    right: Result<PlanRows, OutOfMemory>,
) -> Result<PlanRows, OutOfMemory>
    ensures { GoesOnBoth (λ left right. roll-PlanRows (PlanRows-F.Set kind all left right)) left right result }
{
    set_of(
        kind,
        all,
        both(boxed_rows(alloc, left), boxed_rows(alloc, right)),
    )
}

fn copy_cut(alloc: Global, cut: &Option<Cut>) -> Result<Option<Cut>, OutOfMemory>
    ensures { IfOk result (λ to. to ≡ cut.now) }
{
    match cut {
        Some(cut) => Ok(Some(Cut {
            keys: Items::from_slice(alloc, cut.keys.as_slice())?,
            limit: cut.limit,
            offset: cut.offset,
        })),
        None => Ok(None),
    }
}

pub(crate) fn select_over(
    alloc: Global,
    rows: Result<PlanRows, OutOfMemory>,
    columns: &Schema,
    cut: &Option<Cut>,
) -> Result<PlanSelect, OutOfMemory>
    ensures { GoesOn (λ rows. roll-PlanSelect (record { rows = rows; columns = columns.now; cut = cut.now })) rows result }
{
    let rows = Boxed::new(alloc, rows?)?;
    let columns = columns.clone()?;
    let cut = copy_cut(alloc, cut)?;
    Ok(PlanSelect { rows, columns, cut })
}
