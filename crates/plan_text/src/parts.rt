//! The parts of a text, each behind what was written so far; where memory ran out before, nothing is added.
ghost use Rattle.plan_text.specs.Lines.{subquery_line, end_line, set_line, cut_lines};
ghost use Rattle.plan_text.specs.Explained.{stages_of};
ghost use Rattle.plan_text.specs.Going.{Continues};

use crate::lines::{push_cut, push_end, push_set, push_subquery, push_text};
use crate::stages::push_stages;
use bound_tree::{Cut, SetKind};
use ooc_types::{OutOfMemory, Text};
use plan_tree::PlanCore;
use std::alloc::Global;

/// A text.
pub(crate) fn add_text(
    written: Result<(), OutOfMemory>,
    text: &[u8],
    into: &mut Vec<u8>,
) -> Result<(), OutOfMemory>
    ensures { Continues written into.old.items text.now result into.new.items }
{
    match written {
        Ok(()) => push_text(text, into),
        Err(OutOfMemory) => Err(OutOfMemory),
    }
}

/// The line before a subquery of FROM.
pub(crate) fn begin_query(
    written: Result<(), OutOfMemory>,
    name: &Text,
    into: &mut Vec<u8>,
) -> Result<(), OutOfMemory>
    ensures { Continues written into.old.items (subquery_line name.now) result into.new.items }
{
    match written {
        Ok(()) => push_subquery(name, into),
        Err(OutOfMemory) => Err(OutOfMemory),
    }
}

/// The line behind a subquery of FROM.
pub(crate) fn end_query(
    written: Result<(), OutOfMemory>,
    name: &Text,
    into: &mut Vec<u8>,
) -> Result<(), OutOfMemory>
    ensures { Continues written into.old.items (end_line name.now) result into.new.items }
{
    match written {
        Ok(()) => push_end(name, into),
        Err(OutOfMemory) => Err(OutOfMemory),
    }
}

/// The lines of a core behind those of its subqueries.
pub(crate) fn add_stages(
    alloc: Global,
    written: Result<(), OutOfMemory>,
    core: &PlanCore,
    into: &mut Vec<u8>,
) -> Result<(), OutOfMemory>
    ensures { Continues written into.old.items (stages_of core.now) result into.new.items }
{
    match written {
        Ok(()) => push_stages(alloc, core, into),
        Err(OutOfMemory) => Err(OutOfMemory),
    }
}

/// The line of a set operation.
pub(crate) fn add_operation(
    kind: SetKind,
    all: bool,
    written: Result<(), OutOfMemory>,
    into: &mut Vec<u8>,
) -> Result<(), OutOfMemory>
    ensures { Continues written into.old.items (set_line kind all) result into.new.items }
{
    match written {
        Ok(()) => push_set(kind, all, into),
        Err(OutOfMemory) => Err(OutOfMemory),
    }
}

/// The lines of ORDER BY, LIMIT and OFFSET.
pub(crate) fn add_order(
    alloc: Global,
    written: Result<(), OutOfMemory>,
    cut: &Option<Cut>,
    into: &mut Vec<u8>,
) -> Result<(), OutOfMemory>
    ensures { Continues written into.old.items (cut_lines cut.now) result into.new.items }
{
    match written {
        Ok(()) => push_cut(alloc, cut, into),
        Err(OutOfMemory) => Err(OutOfMemory),
    }
}
