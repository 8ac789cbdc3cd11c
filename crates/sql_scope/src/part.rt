//! What an expression is bound to.
ghost use Rattle.std.specs.Prelude.{◌≡◌, ◌++◌, Ok};
ghost use Rattle.sql_scope.specs.Answer.{Gives};
ghost use Rattle.sql_scope.specs.Parts as rules;

use crate::equality::same;
use crate::fault::BindFault;
use crate::scope::Scope;
use bound_tree::Aggregate;
use sql_expr::Expr;
use sqlite_items::{Boxed, Items};
use std::alloc::Global;

/// An aggregate as it is written; `place` is that of its function's name.
#[derive(Drop)]
pub struct Call {
    pub place: usize,
    pub aggregate: Aggregate,
}

/// A bound expression. An aggregate in it is a column behind those of the sources, at its byte of the script.
#[derive(Drop)]
pub struct Part {
    pub tree: Boxed<Expr>,
    /// The place of the first column outside aggregates that no key of GROUP BY covers.
    pub bare: Option<usize>,
    /// Its aggregates, as they are written.
    pub calls: Items<Call>,
}

/// A bound expression, or why it isn't one.
pub type BoundPart = Result<Part, BindFault>;

fn is_key(keys: &[Expr], tree: &Expr) -> bool
    ensures { result ≡ rules.is_key keys.now tree.now }
{
    for key in keys {
        if same(key, tree) {
            return true;
        }
    }
    false
}

fn uncovered(keys: &[Expr], tree: &Expr, bare: Option<usize>) -> Option<usize>
    ensures { result ≡ rules.uncovered keys.now tree.now bare }
{
    match bare {
        None => None,
        Some(_) if is_key(keys, tree) => None,
        Some(place) => Some(place),
    }
}

/// A node over operands whose first uncovered column and aggregates are these.
pub fn part_over(
    alloc: Global,
    scope: &Scope<'_>,
    tree: Expr,
    bare: Option<usize>,
    calls: Items<Call>,
) -> BoundPart
    ensures { Gives (Ok (rules.part_of scope.now tree bare calls)) result }
{
    let bare = uncovered(scope.keys(), &tree, bare);
    Ok(Part {
        tree: Boxed::new(alloc, tree)?,
        bare,
        calls,
    })
}

pub(crate) fn first_of(first: Option<usize>, other: Option<usize>) -> Option<usize>
    ensures { result ≡ rules.first_of first other }
{
    match first {
        Some(place) => Some(place),
        None => other,
    }
}

/// Calls, and those written behind them.
pub(crate) fn calls_of(first: Items<Call>, others: Items<Call>) -> Result<Items<Call>, BindFault>
    ensures { Gives (Ok (first ++ others)) result }
{
    let mut calls = first;
    calls.append(others)?;
    Ok(calls)
}
