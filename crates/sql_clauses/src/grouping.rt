//! Expressions over the row of a group: its keys, and then its aggregates.
ghost use Rattle.std.specs.Prelude.{◌≡◌, ◌≤◌, ◌++◌, ◌∷◌, [], IfOk, map, length};
ghost use Rattle.sql_expr.specs.declared.tree.Expr.TheVariants as typed;
ghost use Rattle.sql_clauses.specs.Aggregates.{AreAmong};
ghost use Rattle.sql_clauses.specs.Grouping as rules;
ghost use Rattle.sql_clauses.specs.Makes.{Makes, MakesBoth, MakesThree};

use crate::aggregates::CallColumn;
use ooc_types::{OutOfMemory, SqlType, Text, Value};
use sql_expr::{ChainSign, CompareSign, Expr, Exprs, Link, Links, kind_of};
use sql_scope::same;
use sqlite_items::{Boxed, Items};
use std::alloc::Global;

/// An expression over the row of a group.
type Over = Result<Expr, OutOfMemory>;

fn key_place(keys: &[Expr], tree: &Expr) -> Option<u32>
    requires { length keys.now ≤ rules.most_places }
    ensures { result ≡ rules.key_from 0 keys.now tree.now }
{
    for place in 0..keys.len() {
        if same(&keys[place], tree) {
            return Some(place as u32);
        }
    }
    None
}

fn is_of_call(width: usize, place: usize, call: CallColumn) -> bool
    ensures { result ≡ rules.is_of_call width place call }
{
    width <= place && place - width == call.place
}

fn group_place(keys: usize, width: usize, calls: &[CallColumn], place: u32) -> u32
    requires keys { keys ≤ rules.most_places }
    requires calls { AreAmong rules.most_places calls.now }
    ensures { result ≡ rules.group_place keys width calls.now place }
{
    for call in calls {
        if is_of_call(width, place as usize, *call) {
            return (keys + call.at) as u32;
        }
    }
    place
}

fn constant(value: &Value, kind: SqlType) -> Over
    ensures { IfOk result (λ e. e ≡ typed.Constant value.now kind) }
{
    Ok(Expr::Constant {
        value: value.clone()?,
        kind,
    })
}

fn negation(alloc: Global, of: Over) -> Over
    ensures { Makes (λ a. typed.Not a) of result }
{
    Ok(Expr::Not {
        of: Boxed::new(alloc, of?)?,
    })
}

fn minus(alloc: Global, of: Over, kind: SqlType) -> Over
    ensures { Makes (λ a. typed.Minus a kind) of result }
{
    Ok(Expr::Minus {
        of: Boxed::new(alloc, of?)?,
        kind,
    })
}

fn every(list: Result<Exprs, OutOfMemory>) -> Over
    ensures { Makes (λ a. typed.Every a) list result }
{
    Ok(Expr::Every { list: list? })
}

fn either(list: Result<Exprs, OutOfMemory>) -> Over
    ensures { Makes (λ a. typed.Either a) list result }
{
    Ok(Expr::Either { list: list? })
}

fn boxed(alloc: Global, of: Over) -> Result<Boxed<Expr>, OutOfMemory>
    ensures { Makes (λ a. a) of result }
{
    Ok(Boxed::new(alloc, of?)?)
}

// Two parts that were made. What drops the one where the other is missing is proved here, once for all types.
fn both<A: Drop, B: Drop>(
    first: Result<A, OutOfMemory>,
    second: Result<B, OutOfMemory>,
) -> Result<(A, B), OutOfMemory>
    ensures { MakesBoth (λ a b. (a, b)) first second result }
{
    let first = first?;
    let second = second?;
    Ok((first, second))
}

fn chain_of(parts: Result<(Boxed<Expr>, Links), OutOfMemory>) -> Over
    ensures { Makes (λ p. typed.Chain p.0 p.1) parts result }
{
    let (first, links) = parts?;
    Ok(Expr::Chain { first, links })
}

fn chain(alloc: Global, first: Over, links: Result<Links, OutOfMemory>) -> Over
    ensures { MakesBoth (λ a b. typed.Chain a b) first links result }
{
    chain_of(both(boxed(alloc, first), links))
}

fn comparison_of(sign: CompareSign, parts: Result<(Boxed<Expr>, Boxed<Expr>), OutOfMemory>) -> Over
    ensures { Makes (λ p. typed.Compare sign p.0 p.1) parts result }
{
    let (left, right) = parts?;
    Ok(Expr::Compare { sign, left, right })
}

fn comparison(alloc: Global, sign: CompareSign, left: Over, right: Over) -> Over
    ensures { MakesBoth (λ a b. typed.Compare sign a b) left right result }
{
    comparison_of(sign, both(boxed(alloc, left), boxed(alloc, right)))
}

fn null_test(alloc: Global, of: Over, negated: bool) -> Over
    ensures { Makes (λ a. typed.IsNull a negated) of result }
{
    Ok(Expr::IsNull {
        of: Boxed::new(alloc, of?)?,
        negated,
    })
}

fn like(alloc: Global, of: Over, pattern: &Text, negated: bool) -> Over
    ensures { Makes (λ a. typed.Like a pattern.now negated) of result }
{
    let of = of?;
    Ok(Expr::Like {
        of: Boxed::new(alloc, of)?,
        pattern: pattern.clone()?,
        negated,
    })
}

fn one_of_parts(parts: Result<(Boxed<Expr>, Exprs), OutOfMemory>, negated: bool) -> Over
    ensures { Makes (λ p. typed.OneOf p.0 p.1 negated) parts result }
{
    let (of, list) = parts?;
    Ok(Expr::OneOf { of, list, negated })
}

fn one_of(alloc: Global, of: Over, list: Result<Exprs, OutOfMemory>, negated: bool) -> Over
    ensures { MakesBoth (λ a b. typed.OneOf a b negated) of list result }
{
    one_of_parts(both(boxed(alloc, of), list), negated)
}

fn bounds(alloc: Global, low: Over, high: Over) -> Result<(Boxed<Expr>, Boxed<Expr>), OutOfMemory>
    ensures { MakesBoth (λ a b. (a, b)) low high result }
{
    both(boxed(alloc, low), boxed(alloc, high))
}

fn between_of(
    parts: Result<(Boxed<Expr>, (Boxed<Expr>, Boxed<Expr>)), OutOfMemory>,
    negated: bool,
) -> Over
    ensures { Makes (λ p. typed.Between p.0 p.1.0 p.1.1 negated) parts result }
{
    let (of, bounds) = parts?;
    let (low, high) = bounds;
    Ok(Expr::Between {
        of,
        low,
        high,
        negated,
    })
}

fn between(alloc: Global, of: Over, low: Over, high: Over, negated: bool) -> Over
    ensures { MakesThree (λ a b d. typed.Between a b d negated) of low high result }
{
    between_of(both(boxed(alloc, of), bounds(alloc, low, high)), negated)
}

fn item_behind<T: Drop>(
    list: Result<Items<T>, OutOfMemory>,
    item: Result<T, OutOfMemory>,
) -> Result<Items<T>, OutOfMemory>
    ensures { MakesBoth (λ list item. list ++ item ∷ []) list item result }
{
    let mut list = list?;
    let item = item?;
    list.push(item)?;
    Ok(list)
}

fn one_more(list: Result<Exprs, OutOfMemory>, tree: Over) -> Result<Exprs, OutOfMemory>
    ensures { MakesBoth rules.with_tree list tree result }
{
    item_behind(list, tree)
}

fn link(sign: ChainSign, right: Over, kind: SqlType) -> Result<Link, OutOfMemory>
    ensures { Makes (λ right. record { sign = sign; right = right; kind = kind }) right result }
{
    let right = right?;
    Ok(Link { sign, right, kind })
}

fn one_link(
    links: Result<Links, OutOfMemory>,
    sign: ChainSign,
    right: Over,
    kind: SqlType,
) -> Result<Links, OutOfMemory>
    ensures { MakesBoth (rules.with_link sign kind) links right result }
{
    item_behind(links, link(sign, right, kind))
}

/// Expressions over the row of a group.
#[cycle(group)]
pub(crate) fn list_over(
    alloc: Global,
    list: &[Expr],
    keys: &[Expr],
    width: usize,
    calls: &[CallColumn],
) -> Result<Exprs, OutOfMemory>
    requires keys { length keys.now ≤ rules.most_places }
    requires calls { AreAmong rules.most_places calls.now }
    ensures { IfOk result (λ over. over ≡ rules.list_over keys.now (rules.group_place (length keys.now) width calls.now) list.now) }
{
    let mut over = Ok(Items::new(alloc));
    for tree in list {
        over = one_more(over, tree_over(alloc, tree, keys, width, calls));
    }
    over
}

#[cycle(group)]
fn links_over(
    alloc: Global,
    links: &[Link],
    keys: &[Expr],
    width: usize,
    calls: &[CallColumn],
) -> Result<Links, OutOfMemory>
    requires keys { length keys.now ≤ rules.most_places }
    requires calls { AreAmong rules.most_places calls.now }
    ensures { IfOk result (λ over. over ≡ rules.links_over keys.now (rules.group_place (length keys.now) width calls.now) links.now) }
{
    let mut over = Ok(Items::new(alloc));
    for link in links {
        let right = tree_over(alloc, &link.right, keys, width, calls);
        over = one_link(over, link.sign, right, link.kind);
    }
    over
}

/// An expression over the row of a group.
#[cycle(group)]
pub(crate) fn tree_over(
    alloc: Global,
    tree: &Expr,
    keys: &[Expr],
    width: usize,
    calls: &[CallColumn],
) -> Over
    requires keys { length keys.now ≤ rules.most_places }
    requires calls { AreAmong rules.most_places calls.now }
    ensures { IfOk result (λ over. over ≡ rules.over_group keys.now (rules.group_place (length keys.now) width calls.now) tree.now) }
{
    if let Some(place) = key_place(keys, tree) {
        return Ok(Expr::Column {
            place,
            kind: kind_of(tree),
        });
    }
    match tree {
        Expr::Constant { value, kind } => constant(value, *kind),
        Expr::Column { place, kind } => Ok(Expr::Column {
            place: group_place(keys.len(), width, calls, *place),
            kind: *kind,
        }),
        Expr::Not { of } => negation(alloc, tree_over(alloc, of.get(), keys, width, calls)),
        Expr::Minus { of, kind } => {
            minus(alloc, tree_over(alloc, of.get(), keys, width, calls), *kind)
        }
        Expr::Every { list } => every(list_over(alloc, list.as_slice(), keys, width, calls)),
        Expr::Either { list } => either(list_over(alloc, list.as_slice(), keys, width, calls)),
        Expr::Chain { first, links } => chain(
            alloc,
            tree_over(alloc, first.get(), keys, width, calls),
            links_over(alloc, links.as_slice(), keys, width, calls),
        ),
        Expr::Compare { sign, left, right } => comparison(
            alloc,
            *sign,
            tree_over(alloc, left.get(), keys, width, calls),
            tree_over(alloc, right.get(), keys, width, calls),
        ),
        Expr::IsNull { of, negated } => null_test(
            alloc,
            tree_over(alloc, of.get(), keys, width, calls),
            *negated,
        ),
        Expr::Like {
            of,
            pattern,
            negated,
        } => like(
            alloc,
            tree_over(alloc, of.get(), keys, width, calls),
            pattern,
            *negated,
        ),
        Expr::OneOf { of, list, negated } => one_of(
            alloc,
            tree_over(alloc, of.get(), keys, width, calls),
            list_over(alloc, list.as_slice(), keys, width, calls),
            *negated,
        ),
        Expr::Between {
            of,
            low,
            high,
            negated,
        } => between(
            alloc,
            tree_over(alloc, of.get(), keys, width, calls),
            tree_over(alloc, low.get(), keys, width, calls),
            tree_over(alloc, high.get(), keys, width, calls),
            *negated,
        ),
    }
}
