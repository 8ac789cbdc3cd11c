//! Nodes of expressions over their operands, where memory may have run out at an operand.
ghost use Rattle.std.specs.Prelude.{◌≡◌, IfOk};
ghost use Rattle.sql_expr.specs.declared.tree.Expr.TheVariants as tree;
ghost use Rattle.sql_plan.specs.Places.{moved_by};
ghost use Rattle.sql_plan.specs.Steps.{GoesOn, GoesOnBoth};

use crate::places::Places;
use crate::steps::both;
use ooc_types::{OutOfMemory, SqlType, Text, Value};
use sql_expr::{CompareSign, Expr, Exprs, Links};
use sqlite_items::Boxed;
use std::alloc::Global;

fn boxed(alloc: Global, of: Result<Expr, OutOfMemory>) -> Result<Boxed<Expr>, OutOfMemory>
    ensures { GoesOn (λ of. of) of result }
{
    Ok(Boxed::new(alloc, of?)?)
}

pub(crate) fn constant(value: &Value, kind: SqlType) -> Result<Expr, OutOfMemory>
    ensures { IfOk result (λ e. e ≡ tree.Constant value.now kind) }
{
    let value = value.clone()?;
    Ok(Expr::Constant { value, kind })
}

/// The column at its place afterwards; one that has none is NULL.
pub(crate) fn column(places: &Places, place: u32, kind: SqlType) -> Expr
    ensures { result ≡ moved_by places.now (tree.Column place kind) }
{
    match places {
        Places::Kept => Expr::Column { place, kind },
        Places::Moved(list) => match list.get(place as usize) {
            Some(to) => Expr::Column { place: *to, kind },
            None => Expr::Constant {
                value: Value::Null,
                kind,
            },
        },
    }
}

pub(crate) fn negation(alloc: Global, of: Result<Expr, OutOfMemory>) -> Result<Expr, OutOfMemory>
    ensures { GoesOn tree.Not of result }
{
    let of = boxed(alloc, of)?;
    Ok(Expr::Not { of })
}

pub(crate) fn minus(
    alloc: Global,
    of: Result<Expr, OutOfMemory>,
    kind: SqlType,
) -> Result<Expr, OutOfMemory>
    ensures { GoesOn (λ of. tree.Minus of kind) of result }
{
    let of = boxed(alloc, of)?;
    Ok(Expr::Minus { of, kind })
}

pub(crate) fn every(list: Result<Exprs, OutOfMemory>) -> Result<Expr, OutOfMemory>
    ensures { GoesOn tree.Every list result }
{
    Ok(Expr::Every { list: list? })
}

pub(crate) fn either(list: Result<Exprs, OutOfMemory>) -> Result<Expr, OutOfMemory>
    ensures { GoesOn tree.Either list result }
{
    Ok(Expr::Either { list: list? })
}

pub(crate) fn chain(
    alloc: Global,
    first: Result<Expr, OutOfMemory>,
    links: Result<Links, OutOfMemory>,
) -> Result<Expr, OutOfMemory>
    ensures { GoesOnBoth tree.Chain first links result }
{
    let first = boxed(alloc, first)?;
    let links = links?;
    Ok(Expr::Chain { first, links })
}

fn comparison_of(
    sign: CompareSign,
    parts: Result<(Boxed<Expr>, Boxed<Expr>), OutOfMemory>,
) -> Result<Expr, OutOfMemory>
    ensures { GoesOn (λ p. tree.Compare sign p.0 p.1) parts result }
{
    let (left, right) = parts?;
    Ok(Expr::Compare { sign, left, right })
}

pub(crate) fn comparison(
    alloc: Global,
    sign: CompareSign,
    left: Result<Expr, OutOfMemory>,
    right: Result<Expr, OutOfMemory>,
) -> Result<Expr, OutOfMemory>
    ensures { GoesOnBoth (tree.Compare sign) left right result }
{
    comparison_of(sign, both(boxed(alloc, left), boxed(alloc, right)))
}

pub(crate) fn null_test(
    alloc: Global,
    of: Result<Expr, OutOfMemory>,
    negated: bool,
) -> Result<Expr, OutOfMemory>
    ensures { GoesOn (λ of. tree.IsNull of negated) of result }
{
    let of = boxed(alloc, of)?;
    Ok(Expr::IsNull { of, negated })
}

pub(crate) fn like(
    alloc: Global,
    of: Result<Expr, OutOfMemory>,
    pattern: &Text,
    negated: bool,
) -> Result<Expr, OutOfMemory>
    ensures { GoesOn (λ of. tree.Like of pattern.now negated) of result }
{
    let of = boxed(alloc, of)?;
    let pattern = pattern.clone()?;
    Ok(Expr::Like {
        of,
        pattern,
        negated,
    })
}

pub(crate) fn one_of(
    alloc: Global,
    of: Result<Expr, OutOfMemory>,
    list: Result<Exprs, OutOfMemory>,
    negated: bool,
) -> Result<Expr, OutOfMemory>
    ensures { GoesOnBoth (λ of list. tree.OneOf of list negated) of list result }
{
    let of = boxed(alloc, of)?;
    let list = list?;
    Ok(Expr::OneOf { of, list, negated })
}

pub(crate) fn bounds(
    alloc: Global,
    low: Result<Expr, OutOfMemory>,
    high: Result<Expr, OutOfMemory>,
) -> Result<(Boxed<Expr>, Boxed<Expr>), OutOfMemory>
    ensures { GoesOnBoth (λ low high. (low, high)) low high result }
{
    both(boxed(alloc, low), boxed(alloc, high))
}

fn between_of(
    parts: Result<(Boxed<Expr>, (Boxed<Expr>, Boxed<Expr>)), OutOfMemory>,
    negated: bool,
) -> Result<Expr, OutOfMemory>
    ensures { GoesOn (λ p. tree.Between p.0 p.1.0 p.1.1 negated) parts result }
{
    let (of, bounds) = parts?;
    let (low, high) = bounds;
    Ok(Expr::Between {
        of,
        low,
        high,
        negated,
    })
}

pub(crate) fn between(
    alloc: Global,
    of: Result<Expr, OutOfMemory>,
    bounds: Result<(Boxed<Expr>, Boxed<Expr>), OutOfMemory>,
    negated: bool,
) -> Result<Expr, OutOfMemory>
    ensures { GoesOnBoth (λ of bounds. tree.Between of bounds.0 bounds.1 negated) of bounds result }
{
    between_of(both(boxed(alloc, of), bounds), negated)
}
