//! The text of a plan, SELECT by SELECT. What was written so far is handed on unopened, so that no function ends early.
ghost use Rattle.std.specs.Prelude.{◌≡◌, ◌++◌, OnOk, OnErr};
ghost use Rattle.std.specs.List.{flat_map};
ghost use Rattle.ooc_decimal.specs.Kept.{KeepsFront};
ghost use Rattle.plan_text.specs.Explained.{plan_text, select_lines, rows_lines, core_lines, conjunct_lines, query_lines};
ghost use Rattle.plan_text.specs.Going.{Continues};

use crate::parts::{add_operation, add_order, add_stages, add_text, begin_query, end_query};
use ooc_types::OutOfMemory;
use plan_tree::{PlanConjunct, PlanCore, PlanInput, PlanRows, PlanSelect, PlanSource};
use std::alloc::Global;

// The lines of a source's subquery, if it is one.
#[cycle(walk)]
fn add_query(
    alloc: Global,
    written: Result<(), OutOfMemory>,
    source: &PlanSource,
    into: &mut Vec<u8>,
) -> Result<(), OutOfMemory>
    ensures { Continues written into.old.items (query_lines source.now) result into.new.items }
{
    match &source.rows {
        PlanInput::Query(inner) => {
            let begun = begin_query(written, &source.name, into);
            let lines = add_select(alloc, begun, inner.get(), into);
            end_query(lines, &source.name, into)
        }
        PlanInput::Table(_) => written,
    }
}

#[cycle(walk)]
fn add_queries(
    alloc: Global,
    written: Result<(), OutOfMemory>,
    sources: &[PlanSource],
    into: &mut Vec<u8>,
) -> Result<(), OutOfMemory>
    ensures { Continues written into.old.items (flat_map query_lines sources.now) result into.new.items }
{
    let mut lines = written;
    for source in sources {
        lines = add_query(alloc, lines, source, into);
    }
    lines
}

// The lines of a conjunct's subquery, if it is IN with one.
#[cycle(walk)]
fn add_member(
    alloc: Global,
    written: Result<(), OutOfMemory>,
    conjunct: &PlanConjunct,
    into: &mut Vec<u8>,
) -> Result<(), OutOfMemory>
    ensures { Continues written into.old.items (conjunct_lines conjunct.now) result into.new.items }
{
    match conjunct {
        PlanConjunct::Member { query, .. } => {
            let begun = add_text(written, b"subquery in\n", into);
            let lines = add_select(alloc, begun, query.get(), into);
            add_text(lines, b"end in\n", into)
        }
        PlanConjunct::Condition(_) => written,
    }
}

#[cycle(walk)]
fn add_members(
    alloc: Global,
    written: Result<(), OutOfMemory>,
    conjuncts: &[PlanConjunct],
    into: &mut Vec<u8>,
) -> Result<(), OutOfMemory>
    ensures { Continues written into.old.items (flat_map conjunct_lines conjuncts.now) result into.new.items }
{
    let mut lines = written;
    for conjunct in conjuncts {
        lines = add_member(alloc, lines, conjunct, into);
    }
    lines
}

#[cycle(walk)]
fn add_core(
    alloc: Global,
    written: Result<(), OutOfMemory>,
    core: &PlanCore,
    into: &mut Vec<u8>,
) -> Result<(), OutOfMemory>
    ensures { Continues written into.old.items (core_lines core.now) result into.new.items }
{
    let sources = core.sources.as_slice();
    let others = core.others.as_slice();
    let from = add_queries(alloc, written, sources, into);
    let filter = add_members(alloc, from, others, into);
    add_stages(alloc, filter, core, into)
}

#[cycle(walk)]
fn add_rows(
    alloc: Global,
    written: Result<(), OutOfMemory>,
    plan: &PlanRows,
    into: &mut Vec<u8>,
) -> Result<(), OutOfMemory>
    ensures { Continues written into.old.items (rows_lines plan.now) result into.new.items }
{
    match plan {
        PlanRows::Core(inner) => add_core(alloc, written, inner, into),
        PlanRows::Set {
            kind,
            all,
            left,
            right,
        } => {
            let first = add_rows(alloc, written, left.get(), into);
            let second = add_rows(alloc, first, right.get(), into);
            add_operation(*kind, *all, second, into)
        }
    }
}

#[cycle(walk)]
fn add_select(
    alloc: Global,
    written: Result<(), OutOfMemory>,
    plan: &PlanSelect,
    into: &mut Vec<u8>,
) -> Result<(), OutOfMemory>
    ensures { Continues written into.old.items (select_lines plan.now) result into.new.items }
{
    let lines = add_rows(alloc, written, plan.rows.get(), into);
    add_order(alloc, lines, &plan.cut, into)
}

// The header, the lines, and an empty line.
fn push_block(alloc: Global, plan: &PlanSelect, into: &mut Vec<u8>) -> Result<(), OutOfMemory>
    ensures ok { OnOk result (into.new.items ≡ into.old.items ++ plan_text plan.now) }
    ensures err { OnErr result (KeepsFront into.old.items into.new.items) }
{
    let header = add_text(Ok(()), b"plan\n", into);
    let lines = add_select(alloc, header, plan, into);
    add_text(lines, b"\n", into)
}

/// Appends what EXPLAIN prints of a plan: the line `plan`, a line for each stage, and an empty line. After a refusal
/// `into` is as before.
pub fn explain(alloc: Global, plan: &PlanSelect, into: &mut Vec<u8>) -> Result<(), OutOfMemory>
    ensures ok { OnOk result (into.new.items ≡ into.old.items ++ plan_text plan.now) }
    ensures err { OnErr result (into.new.items ≡ into.old.items) }
{
    let start = into.len();
    match push_block(alloc, plan, into) {
        Ok(()) => Ok(()),
        Err(OutOfMemory) => {
            into.truncate(start);
            Err(OutOfMemory)
        }
    }
}
