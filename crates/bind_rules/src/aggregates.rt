//! Whether an aggregate stands in an expression. What a subquery has counts for the subquery alone.
ghost use Rattle.std.specs.Prelude.{◌≡◌, ◌||◌, IfOk};
ghost use Rattle.sql_clauses.specs.Makes.{MakesBoth};
ghost use Rattle.bind_rules.specs.Bound as rules;
ghost use Rattle.bind_rules.specs.Expressions.{some_of};

use ooc_types::OutOfMemory;
use sql_grammar::tree::{Argument, Expr, Item, Link, Operand};
use sql_scope::{Scope, function_at};
use std::alloc::Global;

/// Whether it stands somewhere, or why that isn't known.
type Stands = Result<bool, OutOfMemory>;

fn or(first: Stands, other: Stands) -> Stands
    ensures { MakesBoth (λ a b. a || b) first other result }
{
    let first = first?;
    let other = other?;
    Ok(first || other)
}

#[cycle(aggregates)]
fn in_links(alloc: Global, scope: &Scope<'_>, links: &[Link]) -> Stands
    ensures { IfOk result (λ stands. stands ≡ some_of (rules.link_aggregates scope.now.script) links.now) }
{
    let mut stands = Ok(false);
    for link in links {
        stands = or(stands, in_expression(alloc, scope, link.right.get()));
    }
    stands
}

#[cycle(aggregates)]
fn in_operands(alloc: Global, scope: &Scope<'_>, others: &[Operand]) -> Stands
    ensures { IfOk result (λ stands. stands ≡ some_of (rules.operand_aggregates scope.now.script) others.now) }
{
    let mut stands = Ok(false);
    for operand in others {
        stands = or(stands, in_expression(alloc, scope, operand.right.get()));
    }
    stands
}

#[cycle(aggregates)]
fn in_argument(alloc: Global, scope: &Scope<'_>, argument: &Argument) -> Stands
    ensures { IfOk result (λ stands. stands ≡ (rules.argument_binding argument.now).aggregates scope.now.script) }
{
    match argument {
        Argument::Star => Ok(false),
        Argument::Value(value) => in_expression(alloc, scope, value.get()),
        Argument::Distinct(value) => in_expression(alloc, scope, value.get()),
    }
}

#[cycle(aggregates)]
fn in_expression(alloc: Global, scope: &Scope<'_>, expr: &Expr) -> Stands
    ensures { IfOk result (λ stands. stands ≡ (rules.expr_binding expr.now).aggregates scope.now.script) }
{
    match expr {
        Expr::Literal(_literal) => Ok(false),
        Expr::Column(_column) => Ok(false),
        Expr::Call { name, argument } => {
            let function = function_at(alloc, scope, *name)?;
            let inner = in_argument(alloc, scope, argument);
            or(Ok(function.is_some()), inner)
        }
        Expr::Minus { operand, .. } => in_expression(alloc, scope, operand.get()),
        Expr::Not { operand, .. } => in_expression(alloc, scope, operand.get()),
        Expr::IsNull { operand, .. } => in_expression(alloc, scope, operand.get()),
        Expr::Like { operand, .. } => in_expression(alloc, scope, operand.get()),
        Expr::OneOf { operand, .. } => in_expression(alloc, scope, operand.get()),
        Expr::Member { operand, .. } => in_expression(alloc, scope, operand.get()),
        Expr::Chain { first, links } => {
            let first = in_expression(alloc, scope, first.get());
            or(first, in_links(alloc, scope, links.as_slice()))
        }
        Expr::Every { first, others } => {
            let first = in_expression(alloc, scope, first.get());
            or(first, in_operands(alloc, scope, others.as_slice()))
        }
        Expr::Either { first, others } => {
            let first = in_expression(alloc, scope, first.get());
            or(first, in_operands(alloc, scope, others.as_slice()))
        }
        Expr::Compare { left, right, .. } => {
            let left = in_expression(alloc, scope, left.get());
            let right = in_expression(alloc, scope, right.get());
            or(left, right)
        }
        Expr::Between {
            operand,
            low,
            high,
            ..
        } => {
            let operand = in_expression(alloc, scope, operand.get());
            let low = in_expression(alloc, scope, low.get());
            let high = in_expression(alloc, scope, high.get());
            or(operand, or(low, high))
        }
    }
}

fn in_item(alloc: Global, scope: &Scope<'_>, item: &Item) -> Stands
    ensures { IfOk result (λ stands. stands ≡ (rules.item_binding item.now).aggregates scope.now.script) }
{
    match item {
        Item::Star(_place) => Ok(false),
        Item::SourceStar(_source) => Ok(false),
        Item::Value { value, .. } => in_expression(alloc, scope, value.get()),
    }
}

/// Whether a core with these items is grouped: it has GROUP BY or HAVING, or an aggregate stands in an item.
pub fn is_grouped(
    alloc: Global,
    scope: &Scope<'_>,
    keys: bool,
    having: bool,
    items: &[Item],
) -> Stands
    ensures { IfOk result (λ grouped. grouped ≡ ((keys || having) || some_of (rules.item_aggregates scope.now.script) items.now)) }
{
    let mut grouped = keys || having;
    for item in items {
        let stands = in_item(alloc, scope, item)?;
        grouped = grouped || stands;
    }
    Ok(grouped)
}
