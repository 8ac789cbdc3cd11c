//! The walk over a SELECT. Nothing in it ends early: what a part was bound to, or why it wasn't, goes on to the rule of
//! the whole, which hands on the first fault.
ghost use Rattle.std.specs.Prelude.{◌≡◌, Ok, []};
ghost use Rattle.sql_scope.specs.Answer.{Gives, GoesOn, each};
ghost use Rattle.bind_rules.specs.Bound as rules;

use crate::clauses::{core_is_grouped, from_clause};
use bind_rules::{
    FromClause, bound_core, join_kind, keys_of, set, width_of, with_conjuncts, with_selected,
};
use bound_tree::{BoundSelect, Conjunct, JoinKind};
use sql_clauses::{
    Filter, FilterOperand, Joined, NamedRows, Outputs, Selected, Sources, Unordered, combined,
    join_on, join_plainly, member, misplaced, no_outputs, no_sources, operand, plain_operand,
    query_source, select, source_item, star_item, table_source, unmixed, value_item, with_having,
    with_key, without_having,
};
use sql_expr::Exprs;
use sql_grammar::tree::{
    Argument, Condition, Expr, Item, Join, Link, Operand, Rows, Select, SetOperand, Source, Span,
};
use sql_scope::{
    BindFault, BoundPart, Chain, Conditions, Scope, argument_scope, begun, between, column,
    comparison, constants, distinct_call, either, ended, every, function_at, joined, like, linked,
    literal, minus, negation, null_test, one_of, star_call, started, value_call,
};
use sqlite_items::{Boxed, Items};
use std::alloc::Global;

/// A bound SELECT, or why it isn't one.
type Query = Result<Boxed<BoundSelect>, BindFault>;

// ---- expressions

#[cycle(walk)]
fn bind_links(
    alloc: Global,
    scope: &Scope<'_>,
    links: &[Link],
    first: Result<Chain, BindFault>,
) -> Result<Chain, BindFault>
    ensures { GoesOn (λ chain. each (rules.link_behind scope.now) (Ok chain) links.now) first result }
{
    let mut chain = first;
    for link in links {
        let right = bind_expr(alloc, scope, link.right.get());
        chain = linked(link.place, link.sign, chain, right);
    }
    chain
}

#[cycle(walk)]
fn bind_operands(
    alloc: Global,
    scope: &Scope<'_>,
    others: &[Operand],
    first: Result<Conditions, BindFault>,
) -> Result<Conditions, BindFault>
    ensures { GoesOn (λ all. each (rules.operand_behind scope.now) (Ok all) others.now) first result }
{
    let mut all = first;
    for other in others {
        let right = bind_expr(alloc, scope, other.right.get());
        all = joined(other.place, all, right);
    }
    all
}

#[cycle(walk)]
fn bind_argument(alloc: Global, scope: &Scope<'_>, argument: &Argument, name: Span) -> BoundPart
    ensures { Gives ((rules.argument_binding argument.now).call scope.now name) result }
{
    let function = function_at(alloc, scope, name)?;
    match argument {
        Argument::Star => star_call(alloc, scope, name.start, function),
        Argument::Value(value) => {
            let inner = argument_scope(scope, function);
            let part = bind_expr(alloc, &inner, value.get());
            value_call(alloc, scope, name.start, function, part)
        }
        Argument::Distinct(value) => {
            let inner = argument_scope(scope, function);
            let part = bind_expr(alloc, &inner, value.get());
            distinct_call(alloc, scope, name.start, function, part)
        }
    }
}

#[cycle(walk)]
fn bind_expr(alloc: Global, scope: &Scope<'_>, expr: &Expr) -> BoundPart
    ensures { Gives ((rules.expr_binding expr.now).part scope.now) result }
{
    match expr {
        Expr::Literal(written) => literal(alloc, scope, *written),
        Expr::Column(written) => column(alloc, scope, *written),
        Expr::Call { name, argument } => bind_argument(alloc, scope, argument, *name),
        Expr::Minus { place, operand } => {
            let of = bind_expr(alloc, scope, operand.get());
            minus(alloc, scope, *place, of)
        }
        Expr::Not { place, operand } => {
            let of = bind_expr(alloc, scope, operand.get());
            negation(alloc, scope, *place, of)
        }
        Expr::Chain { first, links } => {
            let head = bind_expr(alloc, scope, first.get());
            let chain = bind_links(alloc, scope, links.as_slice(), begun(alloc, head));
            ended(alloc, scope, chain)
        }
        Expr::Every { first, others } => {
            let head = bind_expr(alloc, scope, first.get());
            let all = bind_operands(alloc, scope, others.as_slice(), started(alloc, head));
            every(alloc, scope, all)
        }
        Expr::Either { first, others } => {
            let head = bind_expr(alloc, scope, first.get());
            let all = bind_operands(alloc, scope, others.as_slice(), started(alloc, head));
            either(alloc, scope, all)
        }
        Expr::Compare {
            place,
            sign,
            left,
            right,
        } => {
            let of = bind_expr(alloc, scope, left.get());
            let with = bind_expr(alloc, scope, right.get());
            comparison(alloc, scope, *place, *sign, of, with)
        }
        Expr::IsNull {
            negated,
            operand,
            ..
        } => {
            let of = bind_expr(alloc, scope, operand.get());
            null_test(alloc, scope, *negated, of)
        }
        Expr::Like {
            place,
            negated,
            operand,
            pattern,
        } => {
            let of = bind_expr(alloc, scope, operand.get());
            like(alloc, scope, *place, *negated, of, *pattern)
        }
        Expr::OneOf {
            place,
            negated,
            operand,
            list,
        } => {
            let of = bind_expr(alloc, scope, operand.get());
            let list = constants(alloc, scope, list.as_slice());
            one_of(alloc, scope, *place, *negated, of, list)
        }
        Expr::Member {
            place,
            operand,
            query,
            ..
        } => {
            let of = bind_expr(alloc, scope, operand.get());
            let found = bind_select(alloc, scope, query.get());
            misplaced(*place, query.get().place, of, found)
        }
        Expr::Between {
            place,
            negated,
            operand,
            low,
            high,
        } => {
            let of = bind_expr(alloc, scope, operand.get());
            let least = bind_expr(alloc, scope, low.get());
            let most = bind_expr(alloc, scope, high.get());
            between(alloc, scope, *place, *negated, of, least, most)
        }
    }
}

// ---- WHERE

/// An operand of WHERE's outermost AND.
#[cycle(walk)]
fn bind_conjunct(alloc: Global, scope: &Scope<'_>, expr: &Expr) -> Result<FilterOperand, BindFault>
    ensures { Gives ((rules.expr_binding expr.now).operand scope.now) result }
{
    match expr {
        Expr::Member {
            place,
            negated,
            operand,
            query,
        } => {
            let of = bind_expr(alloc, scope, operand.get());
            let found = bind_select(alloc, scope, query.get());
            member(*place, query.get().place, *negated, of, found)
        }
        _ => plain_operand(bind_expr(alloc, scope, expr)),
    }
}

#[cycle(walk)]
fn bind_conjuncts(
    alloc: Global,
    scope: &Scope<'_>,
    others: &[Operand],
    first: Result<Filter, BindFault>,
) -> Result<Filter, BindFault>
    ensures { GoesOn (λ filter. each (rules.filter_behind scope.now) (Ok filter) others.now) first result }
{
    let mut filter = first;
    for other in others {
        let right = bind_conjunct(alloc, scope, other.right.get());
        filter = sql_clauses::joined(other.place, filter, right);
    }
    filter
}

#[cycle(walk)]
fn bind_filter(alloc: Global, scope: &Scope<'_>, expr: &Expr) -> Result<Filter, BindFault>
    ensures { Gives ((rules.expr_binding expr.now).filter scope.now) result }
{
    match expr {
        Expr::Every { first, others } => {
            let head = bind_conjunct(alloc, scope, first.get());
            let begun = sql_clauses::begun(alloc, head);
            bind_conjuncts(alloc, scope, others.as_slice(), begun)
        }
        _ => sql_clauses::begun(alloc, bind_conjunct(alloc, scope, expr)),
    }
}

#[cycle(walk)]
fn bind_where(
    alloc: Global,
    scope: &Scope<'_>,
    filter: &Option<Condition>,
) -> Result<Items<Conjunct>, BindFault>
    ensures { Gives (rules.conjuncts scope.now filter.now) result }
{
    match filter {
        Some(condition) => {
            let all = bind_filter(alloc, scope, condition.test.get());
            sql_clauses::ended(condition.place, all)
        }
        None => Ok(Items::new(alloc)),
    }
}

// ---- FROM

#[cycle(walk)]
fn bind_source(
    alloc: Global,
    scope: &Scope<'_>,
    source: &Source,
    join: JoinKind,
    before: Result<Sources, BindFault>,
) -> Result<Sources, BindFault>
    ensures { GoesOn ((rules.source_binding source.now).sources scope.now join) before result }
{
    match source {
        Source::Table { name, alias } => table_source(alloc, scope, join, *name, *alias, before),
        Source::Query {
            place,
            query,
            alias,
        } => {
            let found = bind_select(alloc, scope, query.get());
            query_source(alloc, scope, join, *place, *alias, before, found)
        }
    }
}

#[cycle(walk)]
fn bind_join(
    alloc: Global,
    scope: &Scope<'_>,
    join: &Join,
    before: Result<Sources, BindFault>,
) -> Result<Sources, BindFault>
    ensures { GoesOn ((rules.join_binding join.now).sources scope.now) before result }
{
    match join {
        Join::Cross(source) => bind_source(alloc, scope, source, JoinKind::Cross, before),
        Join::On { outer, source, .. } => {
            let kind = join_kind(*outer);
            bind_source(alloc, scope, source, kind, before)
        }
    }
}

#[cycle(walk)]
fn bind_joins(
    alloc: Global,
    scope: &Scope<'_>,
    joins: &[Join],
    first: Result<Sources, BindFault>,
) -> Result<Sources, BindFault>
    ensures { GoesOn (λ sources. each (rules.source_behind scope.now) (Ok sources) joins.now) first result }
{
    let mut sources = first;
    for join in joins {
        sources = bind_join(alloc, scope, join, sources);
    }
    sources
}

/// The ON of a join; it sees the columns of its own source and of those before it.
#[cycle(walk)]
fn bind_on(
    alloc: Global,
    scope: &Scope<'_>,
    join: &Join,
    before: Result<Joined, BindFault>,
) -> Result<Joined, BindFault>
    ensures { GoesOn ((rules.join_binding join.now).on scope.now) before result }
{
    match join {
        Join::Cross(_source) => join_plainly(alloc, before),
        Join::On { on, .. } => {
            let seen = scope.front(width_of(&before));
            let part = bind_expr(alloc, &seen, on.test.get());
            join_on(alloc, on.place, before, part)
        }
    }
}

#[cycle(walk)]
fn bind_ons(
    alloc: Global,
    scope: &Scope<'_>,
    joins: &[Join],
    first: Result<Joined, BindFault>,
) -> Result<Joined, BindFault>
    ensures { GoesOn (λ all. each (rules.on_behind scope.now) (Ok all) joins.now) first result }
{
    let mut all = first;
    for join in joins {
        all = bind_on(alloc, scope, join, all);
    }
    all
}

// ---- GROUP BY, the items, HAVING

#[cycle(walk)]
fn bind_keys(alloc: Global, scope: &Scope<'_>, group: &[Boxed<Expr>]) -> Result<Exprs, BindFault>
    ensures { Gives (each (rules.key_behind scope.now) (Ok []) group.now) result }
{
    let mut keys = Ok(Items::new(alloc));
    for key in group {
        let part = bind_expr(alloc, scope, key.get());
        keys = with_key(keys, part);
    }
    keys
}

#[cycle(walk)]
fn bind_item(
    alloc: Global,
    scope: &Scope<'_>,
    item: &Item,
    grouped: bool,
    before: Result<Outputs, BindFault>,
) -> Result<Outputs, BindFault>
    ensures { GoesOn ((rules.item_binding item.now).outputs scope.now grouped) before result }
{
    match item {
        Item::Star(place) => star_item(alloc, scope, grouped, *place, before),
        Item::SourceStar(source) => source_item(alloc, scope, grouped, *source, before),
        Item::Value { value, alias } => {
            let part = bind_expr(alloc, scope, value.get());
            value_item(alloc, scope, grouped, *alias, before, part)
        }
    }
}

#[cycle(walk)]
fn bind_items(
    alloc: Global,
    scope: &Scope<'_>,
    items: &[Item],
    grouped: bool,
) -> Result<Outputs, BindFault>
    ensures { Gives (each (rules.item_behind scope.now grouped) (Ok rules.no_outputs) items.now) result }
{
    let mut outputs = Ok(no_outputs(alloc));
    for item in items {
        outputs = bind_item(alloc, scope, item, grouped, outputs);
    }
    outputs
}

#[cycle(walk)]
fn bind_having(
    alloc: Global,
    scope: &Scope<'_>,
    having: &Option<Condition>,
    outputs: Result<Outputs, BindFault>,
) -> Result<Selected, BindFault>
    ensures { GoesOn (rules.selected scope.now having.now) outputs result }
{
    match having {
        Some(condition) => {
            let part = bind_expr(alloc, scope, condition.test.get());
            with_having(condition.place, outputs, part)
        }
        None => without_having(outputs),
    }
}

// ---- SELECT

#[cycle(walk)]
fn bind_sets(
    alloc: Global,
    scope: &Scope<'_>,
    others: &[SetOperand],
    first: Result<NamedRows, BindFault>,
) -> Result<NamedRows, BindFault>
    ensures { GoesOn (λ left. each (rules.set_behind scope.now) (Ok left) others.now) first result }
{
    let mut left = first;
    for other in others {
        let rows = bind_rows(alloc, scope, other.right.get());
        let right = operand(alloc, rows);
        left = combined(alloc, other.kind, other.all, other.place, left, right);
    }
    left
}

#[cycle(walk)]
fn bind_rows(alloc: Global, scope: &Scope<'_>, rows: &Rows) -> Result<Unordered, BindFault>
    ensures { Gives ((rules.rows_binding rows.now).rows scope.now) result }
{
    match rows {
        Rows::Core {
            place,
            distinct,
            items,
            first,
            joins,
            filter,
            group,
            having,
        } => {
            let items = items.as_slice();
            let joins = joins.as_slice();
            let group = group.as_slice();
            let grouped = core_is_grouped(alloc, scope, items, group, having)?;
            let begun = bind_source(alloc, scope, first, JoinKind::First, Ok(no_sources(alloc)));
            let sources = bind_joins(alloc, scope, joins, begun);
            let FromClause { columns, joined } = from_clause(alloc, first, sources);
            let over = (&*scope).over_columns(columns.as_slice());
            let ons = bind_ons(alloc, &over, joins, join_plainly(alloc, joined));
            let conjuncts = bind_where(alloc, &over, filter);
            let filtered = with_conjuncts(ons, conjuncts);
            let keys = bind_keys(alloc, &over, group);
            let inner = over.over_keys(keys_of(&keys));
            let outputs = bind_items(alloc, &inner, items, grouped);
            let selected = unmixed(bind_having(alloc, &inner, having, outputs));
            let shown = with_selected(keys, selected);
            bound_core(*place, *distinct, grouped, columns, filtered, shown)
        }
        Rows::Sets { first, others } => {
            let rows = bind_rows(alloc, scope, first.get());
            let left = operand(alloc, rows);
            set(bind_sets(alloc, scope, others.as_slice(), left))
        }
    }
}

#[cycle(walk)]
pub(crate) fn bind_select(alloc: Global, scope: &Scope<'_>, query: &Select) -> Query
    ensures { Gives ((rules.select_binding query.now).select scope.now) result }
{
    let rows = bind_rows(alloc, scope, query.rows.get());
    select(
        alloc,
        scope,
        rows,
        query.order.as_slice(),
        query.limit,
        query.offset,
    )
}
