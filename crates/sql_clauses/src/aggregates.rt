//! The aggregates of a core: each different one once, as written in its items and its HAVING.
ghost use Rattle.std.specs.Prelude.{◌≡◌, IfOk, length, reverse};
ghost use Rattle.sql_clauses.specs.Aggregates as rules;

use bound_tree::{Aggregate, AggregateKind};
use ooc_types::OutOfMemory;
use sql_scope::{Call, same};
use sqlite_items::Items;
use std::alloc::Global;

/// Which of the aggregates of a core the one is whose name stands at `place`.
#[derive(Clone, Copy)]
pub(crate) struct CallColumn {
    pub place: usize,
    pub at: usize,
}

/// The aggregates of a core, each once, and the calls as they are written.
#[derive(Drop)]
pub(crate) struct Gathered {
    pub aggregates: Items<Aggregate>,
    pub calls: Items<CallColumn>,
}

fn same_kind(left: AggregateKind, right: AggregateKind) -> bool
    ensures { result ≡ rules.same_kind left right }
{
    match (left, right) {
        (AggregateKind::CountRows, AggregateKind::CountRows)
        | (AggregateKind::Count, AggregateKind::Count)
        | (AggregateKind::CountDistinct, AggregateKind::CountDistinct)
        | (AggregateKind::Sum, AggregateKind::Sum)
        | (AggregateKind::Min, AggregateKind::Min)
        | (AggregateKind::Max, AggregateKind::Max) => true,
        _ => false,
    }
}

fn same_aggregate(left: &Aggregate, right: &Aggregate) -> bool
    ensures { result ≡ rules.same_aggregate left.now right.now }
{
    if !same_kind(left.kind, right.kind) {
        return false;
    }
    match (&left.of, &right.of) {
        (Some(left), Some(right)) => same(left.get(), right.get()),
        (None, None) => true,
        _ => false,
    }
}

fn place_of(aggregates: &[Aggregate], aggregate: &Aggregate) -> usize
    ensures { result ≡ rules.place_from 0 aggregates.now aggregate.now }
{
    for place in 0..aggregates.len() {
        if same_aggregate(&aggregates[place], aggregate) {
            return place;
        }
    }
    aggregates.len()
}

fn with_call(gathered: Gathered, call: Call) -> Result<Gathered, OutOfMemory>
    ensures { IfOk result (λ all. all ≡ rules.with_call gathered call) }
{
    let Gathered {
        mut aggregates,
        mut calls,
    } = gathered;
    let at = place_of(aggregates.as_slice(), &call.aggregate);
    calls.push(CallColumn {
        place: call.place,
        at,
    })?;
    if aggregates.len() <= at {
        aggregates.push(call.aggregate)?;
    }
    Ok(Gathered { aggregates, calls })
}

fn reversed(alloc: Global, calls: Items<Call>) -> Result<Items<Call>, OutOfMemory>
    ensures { IfOk result (λ back. back ≡ reverse calls) }
{
    let mut rest = calls;
    let mut back = Items::new(alloc);
    while let Some(call) = rest.pop() {
        back.push(call)?;
    }
    Ok(back)
}

/// The aggregates of these calls.
pub(crate) fn gather(alloc: Global, calls: Items<Call>) -> Result<Gathered, OutOfMemory>
    ensures gathered { IfOk result (λ all. all ≡ rules.gathered calls) }
    ensures among { IfOk result (λ all. rules.AreAmong (length all.aggregates) all.calls) }
{
    let mut all = Gathered {
        aggregates: Items::new(alloc),
        calls: Items::new(alloc),
    };
    let mut rest = reversed(alloc, calls)?;
    while let Some(call) = rest.pop() {
        all = with_call(all, call)?;
    }
    Ok(all)
}

fn is_distinct(kind: AggregateKind) -> bool
    ensures { result ≡ rules.is_distinct kind }
{
    match kind {
        AggregateKind::CountDistinct => true,
        AggregateKind::CountRows
        | AggregateKind::Count
        | AggregateKind::Sum
        | AggregateKind::Min
        | AggregateKind::Max => false,
    }
}

fn has_distinct(calls: &[Call]) -> bool
    ensures { result ≡ rules.has_distinct calls.now }
{
    for call in calls {
        if is_distinct(call.aggregate.kind) {
            return true;
        }
    }
    false
}

fn has_other(first: &Aggregate, calls: &[Call]) -> bool
    ensures { result ≡ rules.has_other first.now calls.now }
{
    for call in calls {
        if !same_aggregate(first, &call.aggregate) {
            return true;
        }
    }
    false
}

/// Whether no `count(DISTINCT x)` stands beside another aggregate.
pub(crate) fn are_unmixed(calls: &[Call]) -> bool
    ensures { result ≡ rules.are_unmixed calls.now }
{
    match calls {
        [first, ..] => !(has_distinct(calls) && has_other(&first.aggregate, calls)),
        [] => true,
    }
}

/// The place of the first aggregate as written.
pub(crate) fn first_call(calls: &[Call]) -> usize
    ensures { result ≡ rules.first_call calls.now }
{
    match calls {
        [first, ..] => first.place,
        [] => 0,
    }
}
