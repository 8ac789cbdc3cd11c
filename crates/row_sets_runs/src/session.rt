//! Whole runs: a set is written, another one beside it, the first is read back and copied, and all are retired.
ghost use Rattle.std.specs.Prelude.{◌+◌, ◌≤◌};
ghost use Rattle.row_sets.specs.Holds.{nothing, Unpinned};
ghost use Rattle.row_sets.specs.Changes.{Changes};
ghost use Rattle.row_sets.specs.Sets.{Formed, IsHere, NoRowPins, set_ids};
ghost use Rattle.row_sets_runs.specs.Columns.{MayBeColumns};

use crate::forms::are_columns;
use crate::reading::{count_on_pages, count_same};
use crate::writing::build;
use ooc_types::{Row, SqlType};
use page_body::{Pages, PoolFault};
use row_cursors::copy_of;
use row_sets::{RowSet, retire_set};
use std::alloc::Global;

/// What a run saw: whether the set beside it met a fault, the set's rows and row pages, how many of its rows came back,
/// how many came page by page, and how many came back of its copy.
#[derive(Clone, Copy, Debug, PartialEq, Eq)]
pub struct Report {
    pub fault: Option<PoolFault>,
    pub rows: u64,
    pub row_pages: usize,
    pub same: usize,
    pub on_pages: usize,
    pub copied: usize,
}

/// Writes a set, and another one beside it, whose fault is noted; reads the first one back, and a copy of it; and retires
/// all of them.
pub fn run<P: Pages>(
    alloc: Global,
    pages: &mut P,
    kinds: &[SqlType],
    rows: &[Row],
    others: &[Row],
) -> Result<Option<Report>, PoolFault>
    requires room { (P.view pages.old).held + 9 ≤ (P.view pages.old).grant }
    ensures changes { Changes P.terms nothing nothing (P.view pages.old) (P.view pages.new) }
{
    if !are_columns(kinds) {
        return Ok(None);
    }
    let set = build(alloc, pages, kinds, rows)?;
    let report = try_out(alloc, pages, &set, kinds, rows, others);
    retire_set(pages, set);
    match report {
        Ok(report) => Ok(Some(report)),
        Err(fault) => Err(fault),
    }
}

// Writes others beside a set, reads it back, and copies it.
fn try_out<P: Pages>(
    alloc: Global,
    pages: &mut P,
    set: &RowSet<P::Page>,
    kinds: &[SqlType],
    rows: &[Row],
    others: &[Row],
) -> Result<Report, PoolFault>
    requires columns { MayBeColumns kinds.now }
    requires formed { Formed P.terms set.now }
    requires here { IsHere (P.view pages.old) set.now }
    requires unpinned { Unpinned P.terms (P.view pages.old) (set_ids P.terms set.now) }
    requires room { (P.view pages.old).held + 9 ≤ (P.view pages.old).grant }
    ensures changes { Changes P.terms nothing nothing (P.view pages.old) (P.view pages.new) }
{
    let beside = build_and_retire(alloc, pages, kinds, others);
    read_back(alloc, pages, set, rows, beside.err())
}

// Reads a set back, and a copy of it.
fn read_back<P: Pages>(
    alloc: Global,
    pages: &mut P,
    set: &RowSet<P::Page>,
    rows: &[Row],
    fault: Option<PoolFault>,
) -> Result<Report, PoolFault>
    requires formed { Formed P.terms set.now }
    requires here { IsHere (P.view pages.old) set.now }
    requires unpinned { Unpinned P.terms (P.view pages.old) (set_ids P.terms set.now) }
    requires room { (P.view pages.old).held + 9 ≤ (P.view pages.old).grant }
    ensures changes { Changes P.terms nothing nothing (P.view pages.old) (P.view pages.new) }
{
    let same = count_same(alloc, pages, set, rows)?;
    let on_pages = count_on_pages(alloc, pages, set)?;
    let copied = copy_and_count(alloc, pages, set, rows)?;
    Ok(Report {
        fault,
        rows: set.len(),
        row_pages: set.row_pages(),
        same,
        on_pages,
        copied,
    })
}

// How many rows come back of a copy.
fn copy_and_count<P: Pages>(
    alloc: Global,
    pages: &mut P,
    set: &RowSet<P::Page>,
    rows: &[Row],
) -> Result<usize, PoolFault>
    requires formed { Formed P.terms set.now }
    requires here { IsHere (P.view pages.old) set.now }
    requires alone { NoRowPins P.terms (P.view pages.old) set.now }
    requires room { (P.view pages.old).held + 9 ≤ (P.view pages.old).grant }
    ensures changes { Changes P.terms nothing nothing (P.view pages.old) (P.view pages.new) }
{
    let copy = copy_of(alloc, pages, set)?;
    let same = count_same(alloc, pages, &copy, rows);
    retire_set(pages, copy);
    same
}

// Writes a set and retires it.
fn build_and_retire<P: Pages>(
    alloc: Global,
    pages: &mut P,
    kinds: &[SqlType],
    rows: &[Row],
) -> Result<(), PoolFault>
    requires columns { MayBeColumns kinds.now }
    requires room { (P.view pages.old).held + 4 ≤ (P.view pages.old).grant }
    ensures changes { Changes P.terms nothing nothing (P.view pages.old) (P.view pages.new) }
{
    let set = build(alloc, pages, kinds, rows)?;
    retire_set(pages, set);
    Ok(())
}
