//! Expressions over the same columns at other places.
ghost use Rattle.std.specs.Prelude.{◌≡◌, IfOk, map};
ghost use Rattle.sql_plan.specs.Places.{moved_by, link_moved_by};
ghost use Rattle.sql_plan.specs.Steps.{GoesOn};

use crate::nodes::{
    between, bounds, chain, column, comparison, constant, either, every, like, minus, negation,
    null_test, one_of,
};
use crate::places::Places;
use crate::steps::one_more;
use ooc_types::{OutOfMemory, SqlType};
use sql_expr::{ChainSign, Expr, Exprs, Link, Links};
use sqlite_items::Items;
use std::alloc::Global;

/// Expressions with their columns at their places afterwards.
#[cycle(moves)]
pub(crate) fn move_list(alloc: Global, places: &Places, list: &[Expr]) -> Result<Exprs, OutOfMemory>
    ensures { IfOk result (λ es. es ≡ map (moved_by places.now) list.now) }
{
    let mut moved = Ok(Items::new(alloc));
    for expr in list {
        moved = one_more(moved, move_expr(alloc, places, expr));
    }
    moved
}

fn link(
    sign: ChainSign,
    right: Result<Expr, OutOfMemory>,
    kind: SqlType,
) -> Result<Link, OutOfMemory>
    ensures { GoesOn (λ right. record { sign = sign; right = right; kind = kind }) right result }
{
    let right = right?;
    Ok(Link { sign, right, kind })
}

#[cycle(moves)]
fn move_links(alloc: Global, places: &Places, links: &[Link]) -> Result<Links, OutOfMemory>
    ensures { IfOk result (λ ls. ls ≡ map (link_moved_by places.now) links.now) }
{
    let mut moved = Ok(Items::new(alloc));
    for one in links {
        let right = move_expr(alloc, places, &one.right);
        moved = one_more(moved, link(one.sign, right, one.kind));
    }
    moved
}

/// The expression with its columns at their places afterwards.
#[cycle(moves)]
pub(crate) fn move_expr(alloc: Global, places: &Places, expr: &Expr) -> Result<Expr, OutOfMemory>
    ensures { IfOk result (λ e. e ≡ moved_by places.now expr.now) }
{
    match expr {
        Expr::Constant { value, kind } => constant(value, *kind),
        Expr::Column { place, kind } => Ok(column(places, *place, *kind)),
        Expr::Not { of } => negation(alloc, move_expr(alloc, places, of.get())),
        Expr::Minus { of, kind } => minus(alloc, move_expr(alloc, places, of.get()), *kind),
        Expr::Every { list } => every(move_list(alloc, places, list.as_slice())),
        Expr::Either { list } => either(move_list(alloc, places, list.as_slice())),
        Expr::Chain { first, links } => chain(
            alloc,
            move_expr(alloc, places, first.get()),
            move_links(alloc, places, links.as_slice()),
        ),
        Expr::Compare { sign, left, right } => comparison(
            alloc,
            *sign,
            move_expr(alloc, places, left.get()),
            move_expr(alloc, places, right.get()),
        ),
        Expr::IsNull { of, negated } => {
            null_test(alloc, move_expr(alloc, places, of.get()), *negated)
        }
        Expr::Like {
            of,
            pattern,
            negated,
        } => like(alloc, move_expr(alloc, places, of.get()), pattern, *negated),
        Expr::OneOf { of, list, negated } => one_of(
            alloc,
            move_expr(alloc, places, of.get()),
            move_list(alloc, places, list.as_slice()),
            *negated,
        ),
        Expr::Between {
            of,
            low,
            high,
            negated,
        } => between(
            alloc,
            move_expr(alloc, places, of.get()),
            bounds(
                alloc,
                move_expr(alloc, places, low.get()),
                move_expr(alloc, places, high.get()),
            ),
            *negated,
        ),
    }
}
