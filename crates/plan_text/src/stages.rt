//! The stages of a core behind its subqueries.
ghost use Rattle.std.specs.Prelude.{◌≡◌, ◌++◌, OnOk, OnErr};
ghost use Rattle.std.specs.List.{flat_map};
ghost use Rattle.ooc_decimal.specs.Kept.{KeepsFront};
ghost use Rattle.plan_tree.specs.declared.stages.PlanConjunct.TheViews.{out-PlanCore};
ghost use Rattle.plan_text.specs.Explained.{join_of, from_of, stages_of};
ghost use Rattle.plan_text.specs.Going.{Continues};

use crate::lines::{push_distinct, push_filter, push_grouping, push_join, push_project, push_scan};
use ooc_types::OutOfMemory;
use plan_tree::{PlanCore, PlanSource};
use std::alloc::Global;

// What was written so far is handed on unopened, so that the loop doesn't end early.
fn add_join(
    alloc: Global,
    written: Result<(), OutOfMemory>,
    source: &PlanSource,
    into: &mut Vec<u8>,
) -> Result<(), OutOfMemory>
    ensures { Continues written into.old.items (join_of source.now) result into.new.items }
{
    match written {
        Ok(()) => push_join(alloc, source, into),
        Err(OutOfMemory) => Err(OutOfMemory),
    }
}

fn add_joins(
    alloc: Global,
    written: Result<(), OutOfMemory>,
    sources: &[PlanSource],
    into: &mut Vec<u8>,
) -> Result<(), OutOfMemory>
    ensures { Continues written into.old.items (flat_map join_of sources.now) result into.new.items }
{
    let mut lines = written;
    for source in sources {
        lines = add_join(alloc, lines, source, into);
    }
    lines
}

fn push_joins(alloc: Global, sources: &[PlanSource], into: &mut Vec<u8>) -> Result<(), OutOfMemory>
    ensures ok { OnOk result (into.new.items ≡ into.old.items ++ flat_map join_of sources.now) }
    ensures err { OnErr result (KeepsFront into.old.items into.new.items) }
{
    add_joins(alloc, Ok(()), sources, into)
}

fn push_from(alloc: Global, sources: &[PlanSource], into: &mut Vec<u8>) -> Result<(), OutOfMemory>
    ensures ok { OnOk result (into.new.items ≡ into.old.items ++ from_of sources.now) }
    ensures err { OnErr result (KeepsFront into.old.items into.new.items) }
{
    match sources.split_first() {
        Some((first, later)) => {
            push_scan(alloc, first, into)?;
            push_joins(alloc, later, into)
        }
        None => Ok(()),
    }
}

/// The lines of a core's stages.
pub(crate) fn push_stages(
    alloc: Global,
    core: &PlanCore,
    into: &mut Vec<u8>,
) -> Result<(), OutOfMemory>
    ensures ok { OnOk result (into.new.items ≡ into.old.items ++ stages_of core.now) }
    ensures err { OnErr result (KeepsFront into.old.items into.new.items) }
{
    push_from(alloc, core.sources.as_slice(), into)?;
    push_filter(alloc, core.plain.len(), core.others.len(), into)?;
    push_grouping(alloc, &core.grouping, into)?;
    push_project(alloc, core.items.len(), into)?;
    push_distinct(core.distinct, into)
}
