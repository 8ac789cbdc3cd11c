//! Parts, made of operands that were bound: the fault of an operand is handed on.
ghost use Rattle.std.specs.Prelude.{◌≡◌, Ok, []};
ghost use Rattle.sql_scope.specs.Answer.{Gives, GoesOn, GoesOnBoth, GoesOnThree};
ghost use Rattle.sql_scope.specs.Parts as rules;
ghost use Rattle.sql_scope.specs.Scopes as scopes;

use crate::fault::BindFault;
use crate::literals::literal_tree;
use crate::names::column_tree;
use crate::part::{BoundPart, Part, calls_of, first_of, part_over};
use crate::scope::Scope;
use crate::trees;
use sql_expr::Expr;
use sql_grammar::tree::{ColumnName, CompareSign, Literal, Span};
use sqlite_items::Items;
use std::alloc::Global;

/// A literal.
pub fn literal(alloc: Global, scope: &Scope<'_>, written: Literal) -> BoundPart
    ensures { Gives (rules.literal scope.now written) result }
{
    let tree = literal_tree(alloc, scope, written)?;
    part_over(alloc, scope, tree, None, Items::new(alloc))
}

fn first_token(source: Option<Span>, name: Span) -> usize
    ensures { result ≡ scopes.first_token source name }
{
    match source {
        Some(source) => source.start,
        None => name.start,
    }
}

/// The column that a name means.
pub fn column(alloc: Global, scope: &Scope<'_>, written: ColumnName) -> BoundPart
    ensures { Gives (rules.column scope.now written) result }
{
    let tree = column_tree(alloc, scope, written)?;
    let place = first_token(written.source, written.name);
    part_over(alloc, scope, tree, Some(place), Items::new(alloc))
}

pub fn minus(alloc: Global, scope: &Scope<'_>, place: usize, operand: BoundPart) -> BoundPart
    ensures { GoesOn (rules.minus scope.now place) operand result }
{
    let Part { tree, bare, calls } = operand?;
    let tree = trees::minus(place, tree)?;
    part_over(alloc, scope, tree, bare, calls)
}

pub fn negation(alloc: Global, scope: &Scope<'_>, place: usize, operand: BoundPart) -> BoundPart
    ensures { GoesOn (rules.negation scope.now place) operand result }
{
    let Part { tree, bare, calls } = operand?;
    let tree = trees::negation(place, tree)?;
    part_over(alloc, scope, tree, bare, calls)
}

pub fn comparison(
    alloc: Global,
    scope: &Scope<'_>,
    place: usize,
    sign: CompareSign,
    left: BoundPart,
    right: BoundPart,
) -> BoundPart
    ensures { GoesOnBoth (rules.comparison scope.now place sign) left right result }
{
    let left = left?;
    let right = right?;
    let tree = trees::comparison(place, sign, left.tree, right.tree)?;
    let calls = calls_of(left.calls, right.calls)?;
    part_over(alloc, scope, tree, first_of(left.bare, right.bare), calls)
}

pub fn null_test(alloc: Global, scope: &Scope<'_>, negated: bool, operand: BoundPart) -> BoundPart
    ensures { GoesOn (rules.null_test scope.now negated) operand result }
{
    let Part { tree, bare, calls } = operand?;
    part_over(
        alloc,
        scope,
        Expr::IsNull { of: tree, negated },
        bare,
        calls,
    )
}

pub fn like(
    alloc: Global,
    scope: &Scope<'_>,
    place: usize,
    negated: bool,
    operand: BoundPart,
    pattern: Span,
) -> BoundPart
    ensures { GoesOn (rules.like scope.now place negated pattern) operand result }
{
    let Part { tree, bare, calls } = operand?;
    let tree = trees::like(alloc, scope, place, negated, pattern, tree)?;
    part_over(alloc, scope, tree, bare, calls)
}

pub fn between(
    alloc: Global,
    scope: &Scope<'_>,
    place: usize,
    negated: bool,
    operand: BoundPart,
    low: BoundPart,
    high: BoundPart,
) -> BoundPart
    ensures { GoesOnThree (rules.between scope.now place negated) operand low high result }
{
    let of = operand?;
    let low = low?;
    let high = high?;
    let tree = trees::between(place, negated, of.tree, low.tree, high.tree)?;
    let calls = calls_of(of.calls, calls_of(low.calls, high.calls)?)?;
    let bare = first_of(of.bare, first_of(low.bare, high.bare));
    part_over(alloc, scope, tree, bare, calls)
}

pub fn one_of(
    alloc: Global,
    scope: &Scope<'_>,
    place: usize,
    negated: bool,
    operand: BoundPart,
    list: Result<Items<Expr>, BindFault>,
) -> BoundPart
    ensures { GoesOnBoth (rules.one_of scope.now place negated) operand list result }
{
    let Part { tree, bare, calls } = operand?;
    let tree = trees::one_of(place, negated, tree, list?)?;
    part_over(alloc, scope, tree, bare, calls)
}
