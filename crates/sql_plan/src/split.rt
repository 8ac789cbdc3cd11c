//! The conjuncts of a join: filters of the new source, keys, and a rest.
ghost use Rattle.std.specs.Prelude.{◌≡◌, ◌+◌, ◌++◌, IfOk, OnOk, filter, not, []};
ghost use Rattle.plan_tree.specs.Split.{is_plain_expr, own_places as own_columns, split, split_on as divided};
ghost use Rattle.sql_plan.specs.Conjuncts.{is_ready as ready_at, parts_of, with_plain};
ghost use Rattle.sql_plan.specs.declared.places.Places.TheVariants.{Moved};

use crate::keys::key;
use crate::moves::move_expr;
use crate::places::Places;
use crate::span::{is_own, top};
use ooc_types::OutOfMemory;
use plan_tree::KeyColumns;
use sql_expr::{Expr, Exprs, is_plain};
use sqlite_items::Items;
use std::alloc::Global;

/// What a stage of a join has in place of ON.
#[derive(Drop)]
pub(crate) struct Parts {
    pub filters: Exprs,
    pub keys: Items<KeyColumns>,
    pub rest: Exprs,
}

fn no_parts(alloc: Global) -> Parts
    ensures { result ≡ parts_of (split 0 0 [] []) }
{
    Parts {
        filters: Items::new(alloc),
        keys: Items::new(alloc),
        rest: Items::new(alloc),
    }
}

// The columns of a source, which begin at this place, by themselves.
fn own_places(alloc: Global, at: u32, width: u32) -> Result<Places, OutOfMemory>
    ensures { IfOk result (λ places. places ≡ Moved (own_columns at width)) }
{
    let mut places = Items::from_vec(vec![in alloc; 0; at as usize]?);
    for place in 0..width {
        places.push(place)?;
    }
    Ok(Places::Moved(places))
}

fn add_plain(
    alloc: Global,
    own: &Places,
    at: u32,
    parts: &mut Parts,
    expr: &Expr,
) -> Result<(), OutOfMemory>
    ensures { OnOk result (parts.new ≡ with_plain own.now at parts.old expr.now) }
{
    if is_own(at, expr) {
        let filter = move_expr(alloc, own, expr)?;
        parts.filters.push(filter)?;
    } else if let Some(columns) = key(at, expr) {
        parts.keys.push(columns)?;
    } else {
        let copy = move_expr(alloc, &Places::Kept, expr)?;
        parts.rest.push(copy)?;
    }
    Ok(())
}

fn plain_parts(alloc: Global, at: u32, width: u32, on: &[Expr]) -> Result<Parts, OutOfMemory>
    ensures { IfOk result (λ parts. parts ≡ parts_of (split at width (filter is_plain_expr on.now) [])) }
{
    let own = own_places(alloc, at, width)?;
    let mut parts = no_parts(alloc);
    for expr in on {
        if is_plain(expr) {
            add_plain(alloc, &own, at, &mut parts, expr)?;
        }
    }
    Ok(parts)
}

fn add_others(alloc: Global, rest: &mut Exprs, on: &[Expr]) -> Result<(), OutOfMemory>
    ensures { OnOk result (rest.new ≡ rest.old ++ filter (λ expr. not (is_plain_expr expr)) on.now) }
{
    for expr in on {
        if !is_plain(expr) {
            let copy = move_expr(alloc, &Places::Kept, expr)?;
            rest.push(copy)?;
        }
    }
    Ok(())
}

/// The conjuncts of the ON of a source whose columns begin at this place: the plain ones are filters, keys or rest,
/// and the others stand behind these in the rest.
pub(crate) fn split_on(
    alloc: Global,
    at: u32,
    width: u32,
    on: &[Expr],
) -> Result<Parts, OutOfMemory>
    ensures { IfOk result (λ parts. parts ≡ parts_of (divided at width on.now)) }
{
    let mut parts = plain_parts(alloc, at, width, on)?;
    add_others(alloc, &mut parts.rest, on)?;
    Ok(parts)
}

fn is_ready(low: u64, end: u64, expr: &Expr) -> bool
    ensures { result ≡ ready_at low end expr.now }
{
    let top = top(expr);
    low <= top && top <= end
}

/// The conjuncts that act at this table, of which each has all its columns before the table's end and none had all
/// before `low`.
pub(crate) fn split_ready(
    alloc: Global,
    low: u64,
    at: u32,
    width: u32,
    conjuncts: &[Expr],
) -> Result<Parts, OutOfMemory>
    ensures { IfOk result (λ parts. parts ≡ parts_of (split at width (filter (ready_at low (at + width)) conjuncts.now) [])) }
{
    let end = u64::from(at) + u64::from(width);
    let own = own_places(alloc, at, width)?;
    let mut parts = no_parts(alloc);
    for expr in conjuncts {
        if is_ready(low, end, expr) {
            add_plain(alloc, &own, at, &mut parts, expr)?;
        }
    }
    Ok(parts)
}
