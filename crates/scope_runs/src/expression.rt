//! Expressions, bound operand by operand.

use ooc_types::OutOfMemory;
use sql_grammar::tree::{Argument, Expr, Link, Operand};
use sql_scope::{
    BindFault, BoundPart, Chain, Conditions, Scope, argument_scope, begun, between, column,
    comparison, constants, distinct_call, either, ended, every, function_at, joined, like, linked,
    literal, minus, negation, null_test, one_of, star_call, started, value_call,
};
use std::alloc::Global;

/// The links of a chain, behind its first operand.
#[cycle(bind)]
fn bind_links(
    alloc: Global,
    scope: &Scope<'_>,
    first: BoundPart,
    links: &[Link],
) -> Result<Chain, BindFault> {
    let mut chain = begun(alloc, first);
    for link in links {
        let right = bind_expr(alloc, scope, link.right.get());
        chain = linked(link.place, link.sign, chain, right);
    }
    chain
}

/// The operands of AND or OR, behind the first.
#[cycle(bind)]
fn bind_operands(
    alloc: Global,
    scope: &Scope<'_>,
    first: BoundPart,
    others: &[Operand],
) -> Result<Conditions, BindFault> {
    let mut all = started(alloc, first);
    for operand in others {
        let right = bind_expr(alloc, scope, operand.right.get());
        all = joined(operand.place, all, right);
    }
    all
}

/// An expression with its columns found and its types known.
#[cycle(bind)]
pub(crate) fn bind_expr(alloc: Global, scope: &Scope<'_>, expr: &Expr) -> BoundPart {
    match expr {
        Expr::Literal(written) => literal(alloc, scope, *written),
        Expr::Column(written) => column(alloc, scope, *written),
        Expr::Minus { place, operand } => {
            minus(alloc, scope, *place, bind_expr(alloc, scope, operand.get()))
        }
        Expr::Not { place, operand } => {
            negation(alloc, scope, *place, bind_expr(alloc, scope, operand.get()))
        }
        Expr::Chain { first, links } => {
            let first = bind_expr(alloc, scope, first.get());
            ended(
                alloc,
                scope,
                bind_links(alloc, scope, first, links.as_slice()),
            )
        }
        Expr::Every { first, others } => {
            let first = bind_expr(alloc, scope, first.get());
            every(
                alloc,
                scope,
                bind_operands(alloc, scope, first, others.as_slice()),
            )
        }
        Expr::Either { first, others } => {
            let first = bind_expr(alloc, scope, first.get());
            either(
                alloc,
                scope,
                bind_operands(alloc, scope, first, others.as_slice()),
            )
        }
        Expr::Compare {
            place,
            sign,
            left,
            right,
        } => {
            let left = bind_expr(alloc, scope, left.get());
            let right = bind_expr(alloc, scope, right.get());
            comparison(alloc, scope, *place, *sign, left, right)
        }
        Expr::IsNull {
            negated,
            operand,
            ..
        } => null_test(
            alloc,
            scope,
            *negated,
            bind_expr(alloc, scope, operand.get()),
        ),
        Expr::Call { name, argument } => {
            let function = match function_at(alloc, scope, *name) {
                Ok(function) => function,
                Err(OutOfMemory) => return Err(BindFault::OutOfMemory),
            };
            match argument {
                Argument::Star => star_call(alloc, scope, name.start, function),
                Argument::Value(value) => {
                    let inner = argument_scope(scope, function);
                    let bound = bind_expr(alloc, &inner, value.get());
                    value_call(alloc, scope, name.start, function, bound)
                }
                Argument::Distinct(value) => {
                    let inner = argument_scope(scope, function);
                    let bound = bind_expr(alloc, &inner, value.get());
                    distinct_call(alloc, scope, name.start, function, bound)
                }
            }
        }
        Expr::Like {
            place,
            negated,
            operand,
            pattern,
        } => {
            let operand = bind_expr(alloc, scope, operand.get());
            like(alloc, scope, *place, *negated, operand, *pattern)
        }
        Expr::OneOf {
            place,
            negated,
            operand,
            list,
        } => {
            let operand = bind_expr(alloc, scope, operand.get());
            let list = constants(alloc, scope, list.as_slice());
            one_of(alloc, scope, *place, *negated, operand, list)
        }
        // Subqueries don't stand in these tests.
        Expr::Member { operand, .. } => bind_expr(alloc, scope, operand.get()),
        Expr::Between {
            place,
            negated,
            operand,
            low,
            high,
        } => {
            let operand = bind_expr(alloc, scope, operand.get());
            let low = bind_expr(alloc, scope, low.get());
            let high = bind_expr(alloc, scope, high.get());
            between(alloc, scope, *place, *negated, operand, low, high)
        }
    }
}
