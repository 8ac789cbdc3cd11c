//! The lines of single stages.
ghost use Rattle.std.specs.Prelude.{◌≡◌, ◌++◌, length, string_bytes, IfOk, OnOk, OnErr};
ghost use Rattle.std.specs.List.{list_any};
ghost use Rattle.ooc_decimal.specs.Kept.{KeepsFront};
ghost use Rattle.plan_tree.specs.declared.stages.PlanConjunct.TheViews.{out-PlanSource};
ghost use Rattle.plan_text.specs.Lines as spec;
ghost use Rattle.plan_text.specs.Lines.{subquery_line, end_line, scan_counts, scan_line, join_words, join_counts, join_line, filter_line, group_line, two_group_lines, group_lines, having_line, grouping_lines, project_line, distinct_line, set_line, order_line, limit_line, cut_lines};

use bound_tree::{Aggregate, AggregateKind, Cut, Grouping, SetKind};
use ooc_types::{OutOfMemory, Text};
use plan_tree::PlanSource;
use std::alloc::{AllocError, Global};

/// Appends a text. A failed call leaves what was there, as any in this file, with a part of the text behind it at most.
pub(crate) fn push_text(text: &[u8], into: &mut Vec<u8>) -> Result<(), OutOfMemory>
    ensures ok { OnOk result (into.new.items ≡ into.old.items ++ text.now) }
    ensures err { OnErr result (KeepsFront into.old.items into.new.items) }
{
    into.extend_from_slice(text)?;
    Ok(())
}

/// The line before a subquery of FROM.
pub(crate) fn push_subquery(name: &Text, into: &mut Vec<u8>) -> Result<(), OutOfMemory>
    ensures ok { OnOk result (into.new.items ≡ into.old.items ++ subquery_line name.now) }
    ensures err { OnErr result (KeepsFront into.old.items into.new.items) }
{
    push_text(b"subquery ", into)?;
    push_text(name.as_bytes(), into)?;
    push_text(b"\n", into)
}

/// The line behind it.
pub(crate) fn push_end(name: &Text, into: &mut Vec<u8>) -> Result<(), OutOfMemory>
    ensures ok { OnOk result (into.new.items ≡ into.old.items ++ end_line name.now) }
    ensures err { OnErr result (KeepsFront into.old.items into.new.items) }
{
    push_text(b"end ", into)?;
    push_text(name.as_bytes(), into)?;
    push_text(b"\n", into)
}

fn push_scan_counts(alloc: Global, filters: usize, into: &mut Vec<u8>) -> Result<(), OutOfMemory>
    ensures ok { OnOk result (into.new.items ≡ into.old.items ++ scan_counts filters) }
    ensures err { OnErr result (KeepsFront into.old.items into.new.items) }
{
    let line = format!(in alloc; " filter {filters}\n")?;
    push_text(line.as_bytes(), into)
}

/// The line of the first source.
pub(crate) fn push_scan(
    alloc: Global,
    source: &PlanSource,
    into: &mut Vec<u8>,
) -> Result<(), OutOfMemory>
    ensures ok { OnOk result (into.new.items ≡ into.old.items ++ scan_line (out-PlanSource source.now).name (length (out-PlanSource source.now).filters)) }
    ensures err { OnErr result (KeepsFront into.old.items into.new.items) }
{
    push_text(b"scan ", into)?;
    push_text(source.name.as_bytes(), into)?;
    push_scan_counts(alloc, source.filters.len(), into)
}

fn push_join_words(pads: bool, into: &mut Vec<u8>) -> Result<(), OutOfMemory>
    ensures ok { OnOk result (into.new.items ≡ into.old.items ++ join_words pads) }
    ensures err { OnErr result (KeepsFront into.old.items into.new.items) }
{
    match pads {
        true => push_text(b"join left ", into),
        false => push_text(b"join inner ", into),
    }
}

fn push_join_counts(
    alloc: Global,
    keys: usize,
    filters: usize,
    rest: usize,
    into: &mut Vec<u8>,
) -> Result<(), OutOfMemory>
    ensures ok { OnOk result (into.new.items ≡ into.old.items ++ join_counts keys filters rest) }
    ensures err { OnErr result (KeepsFront into.old.items into.new.items) }
{
    let line = format!(in alloc; " keys {keys} filter {filters} rest {rest}\n")?;
    push_text(line.as_bytes(), into)
}

/// The line of a later source.
pub(crate) fn push_join(
    alloc: Global,
    source: &PlanSource,
    into: &mut Vec<u8>,
) -> Result<(), OutOfMemory>
    ensures ok { OnOk result (into.new.items ≡ into.old.items ++ join_line (out-PlanSource source.now).pads (out-PlanSource source.now).name (length (out-PlanSource source.now).keys) (length (out-PlanSource source.now).filters) (length (out-PlanSource source.now).rest)) }
    ensures err { OnErr result (KeepsFront into.old.items into.new.items) }
{
    let rest = source.rest.len();
    push_join_words(source.pads, into)?;
    push_text(source.name.as_bytes(), into)?;
    push_join_counts(alloc, source.keys.len(), source.filters.len(), rest, into)
}

/// The line of the conjuncts that are left in WHERE, where any are.
pub(crate) fn push_filter(
    alloc: Global,
    plain: usize,
    others: usize,
    into: &mut Vec<u8>,
) -> Result<(), OutOfMemory>
    ensures ok { OnOk result (into.new.items ≡ into.old.items ++ filter_line plain others) }
    ensures err { OnErr result (KeepsFront into.old.items into.new.items) }
{
    if plain == 0 && others == 0 {
        return Ok(());
    }
    let line = format!(in alloc; "filter {plain} then {others}\n")?;
    push_text(line.as_bytes(), into)
}

fn is_distinct_count(aggregate: &Aggregate) -> bool
    ensures { result ≡ spec.is_distinct_count aggregate.now }
{
    match aggregate.kind {
        AggregateKind::CountDistinct => true,
        AggregateKind::CountRows
        | AggregateKind::Count
        | AggregateKind::Sum
        | AggregateKind::Min
        | AggregateKind::Max => false,
    }
}

fn has_distinct_count(aggregates: &[Aggregate]) -> bool
    ensures { result ≡ list_any spec.is_distinct_count aggregates.now }
{
    for aggregate in aggregates {
        if is_distinct_count(aggregate) {
            return true;
        }
    }
    false
}

fn push_group(
    alloc: Global,
    keys: u128,
    aggregates: usize,
    into: &mut Vec<u8>,
) -> Result<(), OutOfMemory>
    ensures ok { OnOk result (into.new.items ≡ into.old.items ++ group_line keys aggregates) }
    ensures err { OnErr result (KeepsFront into.old.items into.new.items) }
{
    let line = format!(in alloc; "group keys {keys} aggregates {aggregates}\n")?;
    push_text(line.as_bytes(), into)
}

fn push_two_groups(
    alloc: Global,
    keys: usize,
    aggregates: usize,
    into: &mut Vec<u8>,
) -> Result<(), OutOfMemory>
    ensures ok { OnOk result (into.new.items ≡ into.old.items ++ two_group_lines keys aggregates) }
    ensures err { OnErr result (KeepsFront into.old.items into.new.items) }
{
    let keys = keys as u128;
    push_group(alloc, keys + 1, 0, into)?;
    push_group(alloc, keys, aggregates, into)
}

fn push_groups(alloc: Global, grouping: &Grouping, into: &mut Vec<u8>) -> Result<(), OutOfMemory>
    ensures ok { OnOk result (into.new.items ≡ into.old.items ++ group_lines (length grouping.now.keys) grouping.now.aggregates) }
    ensures err { OnErr result (KeepsFront into.old.items into.new.items) }
{
    let keys = grouping.keys.len();
    let aggregates = grouping.aggregates.len();
    if has_distinct_count(grouping.aggregates.as_slice()) {
        return push_two_groups(alloc, keys, aggregates, into);
    }
    push_group(alloc, keys as u128, aggregates, into)
}

fn push_having(stands: bool, into: &mut Vec<u8>) -> Result<(), OutOfMemory>
    ensures ok { OnOk result (into.new.items ≡ into.old.items ++ having_line stands) }
    ensures err { OnErr result (KeepsFront into.old.items into.new.items) }
{
    match stands {
        true => push_text(b"having\n", into),
        false => Ok(()),
    }
}

/// The lines of a grouping and its HAVING, where there is one.
pub(crate) fn push_grouping(
    alloc: Global,
    grouping: &Option<Grouping>,
    into: &mut Vec<u8>,
) -> Result<(), OutOfMemory>
    ensures ok { OnOk result (into.new.items ≡ into.old.items ++ grouping_lines grouping.now) }
    ensures err { OnErr result (KeepsFront into.old.items into.new.items) }
{
    match grouping {
        Some(grouping) => {
            push_groups(alloc, grouping, into)?;
            push_having(grouping.having.is_some(), into)
        }
        None => Ok(()),
    }
}

/// The line of the output's columns.
pub(crate) fn push_project(
    alloc: Global,
    columns: usize,
    into: &mut Vec<u8>,
) -> Result<(), OutOfMemory>
    ensures ok { OnOk result (into.new.items ≡ into.old.items ++ project_line columns) }
    ensures err { OnErr result (KeepsFront into.old.items into.new.items) }
{
    let line = format!(in alloc; "project {columns}\n")?;
    push_text(line.as_bytes(), into)
}

/// The line of DISTINCT, where it stands.
pub(crate) fn push_distinct(stands: bool, into: &mut Vec<u8>) -> Result<(), OutOfMemory>
    ensures ok { OnOk result (into.new.items ≡ into.old.items ++ distinct_line stands) }
    ensures err { OnErr result (KeepsFront into.old.items into.new.items) }
{
    match stands {
        true => push_text(b"distinct\n", into),
        false => Ok(()),
    }
}

/// The line of a set operation.
pub(crate) fn push_set(kind: SetKind, all: bool, into: &mut Vec<u8>) -> Result<(), OutOfMemory>
    ensures ok { OnOk result (into.new.items ≡ into.old.items ++ set_line kind all) }
    ensures err { OnErr result (KeepsFront into.old.items into.new.items) }
{
    match (kind, all) {
        (SetKind::Union, true) => push_text(b"union all\n", into),
        (SetKind::Union, false) => push_text(b"union\n", into),
        (SetKind::Except, true) => push_text(b"except all\n", into),
        (SetKind::Except, false) => push_text(b"except\n", into),
        (SetKind::Intersect, true) => push_text(b"intersect all\n", into),
        (SetKind::Intersect, false) => push_text(b"intersect\n", into),
    }
}

fn push_order(alloc: Global, keys: usize, into: &mut Vec<u8>) -> Result<(), OutOfMemory>
    ensures ok { OnOk result (into.new.items ≡ into.old.items ++ order_line keys) }
    ensures err { OnErr result (KeepsFront into.old.items into.new.items) }
{
    let line = format!(in alloc; "order {keys}\n")?;
    push_text(line.as_bytes(), into)
}

fn limit_text(
    alloc: Global,
    limit: Option<u128>,
    offset: Option<u128>,
) -> Result<String, AllocError>
    ensures { IfOk result (λ text. string_bytes text ≡ limit_line limit offset) }
{
    match (limit, offset) {
        (None, None) => Ok(String::new(alloc)),
        (None, Some(offset)) => format!(in alloc; "limit all offset {offset}\n"),
        (Some(limit), None) => format!(in alloc; "limit {limit} offset 0\n"),
        (Some(limit), Some(offset)) => format!(in alloc; "limit {limit} offset {offset}\n"),
    }
}

fn push_limit(
    alloc: Global,
    limit: Option<u128>,
    offset: Option<u128>,
    into: &mut Vec<u8>,
) -> Result<(), OutOfMemory>
    ensures ok { OnOk result (into.new.items ≡ into.old.items ++ limit_line limit offset) }
    ensures err { OnErr result (KeepsFront into.old.items into.new.items) }
{
    let line = limit_text(alloc, limit, offset)?;
    push_text(line.as_bytes(), into)
}

/// The lines of ORDER BY, LIMIT and OFFSET, where any of them stands.
pub(crate) fn push_cut(
    alloc: Global,
    cut: &Option<Cut>,
    into: &mut Vec<u8>,
) -> Result<(), OutOfMemory>
    ensures ok { OnOk result (into.new.items ≡ into.old.items ++ cut_lines cut.now) }
    ensures err { OnErr result (KeepsFront into.old.items into.new.items) }
{
    match cut {
        Some(cut) => {
            push_order(alloc, cut.keys.len(), into)?;
            push_limit(alloc, cut.limit, cut.offset, into)
        }
        None => Ok(()),
    }
}
