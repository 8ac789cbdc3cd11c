//! Which columns an expression names.
ghost use Rattle.std.specs.Prelude.{◌≡◌, map};
ghost use Rattle.plan_tree.specs.Columns.{columns_of, link_columns, together};
ghost use Rattle.plan_tree.specs.Split.{is_own as owns, top as top_column};
ghost use Rattle.sql_plan.specs.Spans.{span_of, wider as widened};

use sql_expr::{Expr, Link};

/// The first and the last of some columns.
#[derive(Clone, Copy)]
pub(crate) struct Span {
    pub first: u32,
    pub last: u32,
}

fn wider(a: Option<Span>, b: Option<Span>) -> Option<Span>
    ensures { result ≡ widened a b }
{
    match (a, b) {
        (None, b) => b,
        (a, None) => a,
        (Some(a), Some(b)) => Some(Span {
            first: a.first.min(b.first),
            last: a.last.max(b.last),
        }),
    }
}

#[cycle(span)]
fn list_span(list: &[Expr]) -> Option<Span>
    ensures { result ≡ span_of (together (map columns_of list.now)) }
{
    let mut span = None;
    for expr in list {
        span = wider(span, expr_span(expr));
    }
    span
}

#[cycle(span)]
fn links_span(links: &[Link]) -> Option<Span>
    ensures { result ≡ span_of (together (map link_columns links.now)) }
{
    let mut span = None;
    for link in links {
        span = wider(span, expr_span(&link.right));
    }
    span
}

#[cycle(span)]
fn expr_span(expr: &Expr) -> Option<Span>
    ensures { result ≡ span_of (columns_of expr.now) }
{
    match expr {
        Expr::Constant { .. } => None,
        Expr::Column { place, .. } => Some(Span {
            first: *place,
            last: *place,
        }),
        Expr::Not { of }
        | Expr::Minus { of, .. }
        | Expr::IsNull { of, .. }
        | Expr::Like { of, .. } => expr_span(of.get()),
        Expr::Every { list } | Expr::Either { list } => list_span(list.as_slice()),
        Expr::Chain { first, links } => {
            wider(expr_span(first.get()), links_span(links.as_slice()))
        }
        Expr::Compare { left, right, .. } => wider(expr_span(left.get()), expr_span(right.get())),
        Expr::OneOf { of, list, .. } => wider(expr_span(of.get()), list_span(list.as_slice())),
        Expr::Between { of, low, high, .. } => {
            let bounds = wider(expr_span(low.get()), expr_span(high.get()));
            wider(expr_span(of.get()), bounds)
        }
    }
}

/// One more than the last column that is named; 0 where none is.
pub(crate) fn top(expr: &Expr) -> u64
    ensures { result ≡ top_column expr.now }
{
    match expr_span(expr) {
        Some(span) => u64::from(span.last) + 1,
        None => 0,
    }
}

/// Whether it names columns, and none before this place.
pub(crate) fn is_own(at: u32, expr: &Expr) -> bool
    ensures { result ≡ owns at expr.now }
{
    match expr_span(expr) {
        Some(span) => at <= span.first,
        None => false,
    }
}
