//! The work that is timed, over any pool.
ghost use Rattle.std.specs.Prelude.{◌+◌, ◌≤◌, ◌<◌, length};
ghost use Rattle.page_body.specs.Keeps.{Kept};
ghost use Rattle.rebase_pins.specs.RowPages.{IsOwned};
ghost use Rattle.row_sets.specs.Holds.{nothing};
ghost use Rattle.row_sets.specs.Changes.{Changes};
ghost use Rattle.row_sets.specs.Cursors.{IsPageOf};
ghost use Rattle.row_sets.specs.Sets.{Formed, IsHere, NoRowPins};

use ooc_types::{Row, SqlType};
use page_body::{Pages, PoolFault};
use rebase_pins::{CellRead, RowPins, RowView, release};
use row_cursors::copy_of;
use row_sets::{RowSet, pin_page, retire_set};
use row_sets_runs::{are_columns, build};
use std::alloc::Global;

/// Writes a set, reads a column of its first page so often, and retires the set.
pub fn read_set<P: Pages>(
    alloc: Global,
    pages: &mut P,
    kinds: &[SqlType],
    rows: &[Row],
    column: u32,
    rounds: u32,
) -> Result<u64, PoolFault>
    requires room { (P.view pages.old).held + 9 ≤ (P.view pages.old).grant }
    ensures changes { Changes P.terms nothing nothing (P.view pages.old) (P.view pages.new) }
{
    if !are_columns(kinds) {
        return Ok(0);
    }
    let set = build(alloc, pages, kinds, rows)?;
    let sum = read_page(pages, &set, column, rounds);
    retire_set(pages, set);
    sum
}

/// Writes a set, copies it so often, and retires it.
pub fn copy_set<P: Pages>(
    alloc: Global,
    pages: &mut P,
    kinds: &[SqlType],
    rows: &[Row],
    rounds: u32,
) -> Result<u64, PoolFault>
    requires room { (P.view pages.old).held + 9 ≤ (P.view pages.old).grant }
    ensures changes { Changes P.terms nothing nothing (P.view pages.old) (P.view pages.new) }
{
    if !are_columns(kinds) {
        return Ok(0);
    }
    let set = build(alloc, pages, kinds, rows)?;
    let sum = copy_often(alloc, pages, &set, rounds);
    retire_set(pages, set);
    sum
}

// Reads a column of the first page so often, under one view.
fn read_page<P: Pages>(
    pages: &mut P,
    set: &RowSet<P::Page>,
    column: u32,
    rounds: u32,
) -> Result<u64, PoolFault>
    requires formed { Formed P.terms set.now }
    requires here { IsHere (P.view pages.old) set.now }
    requires alone { NoRowPins P.terms (P.view pages.old) set.now }
    requires room { (P.view pages.old).held + 5 ≤ (P.view pages.old).grant }
    ensures kept { Kept (P.view pages.old) (P.view pages.new) }
{
    if set.row_pages() == 0 {
        return Ok(0);
    }
    let pins = pin_page(pages, set, 0)?;
    let sum = read_under(pages, &pins, set, column, rounds);
    release(pages, pins);
    Ok(sum)
}

fn read_under<P: Pages>(
    pages: &P,
    pins: &RowPins<P::Pin>,
    set: &RowSet<P::Page>,
    column: u32,
    rounds: u32,
) -> u64
    requires own { IsOwned P.terms (P.view pages.now) pins.now }
    requires is { IsPageOf P.terms set.now 0 pins.now }
{
    let view = RowView::new_view(pages, pins, &set.layout);
    if column >= view.columns() {
        return 0;
    }
    let mut sum: u64 = 0;
    for _ in 0..rounds {
        sum = sum.wrapping_add(read_column(&view, column));
    }
    sum
}

fn read_column(view: &RowView, column: u32) -> u64
    requires { column < length view.now.kinds }
{
    let mut sum: u64 = 0;
    for row in 0..view.rows() {
        sum = sum.wrapping_add(digit(view.value(row, column)));
    }
    sum
}

// A number, or the last byte of a text.
fn digit(read: CellRead) -> u64 {
    match read {
        CellRead::Null => 0,
        CellRead::Number(number) => u64::try_from(number).unwrap_or(0),
        CellRead::Text(text) => match text {
            [.., last] => u64::from(*last),
            _ => 0,
        },
    }
}

// Copies a set so often, and retires each copy.
fn copy_often<P: Pages>(
    alloc: Global,
    pages: &mut P,
    set: &RowSet<P::Page>,
    rounds: u32,
) -> Result<u64, PoolFault>
    requires formed { Formed P.terms set.now }
    requires here { IsHere (P.view pages.old) set.now }
    requires alone { NoRowPins P.terms (P.view pages.old) set.now }
    requires room { (P.view pages.old).held + 9 ≤ (P.view pages.old).grant }
    ensures changes { Changes P.terms nothing nothing (P.view pages.old) (P.view pages.new) }
{
    let mut sum: u64 = 0;
    for round in 0..rounds {
        let pages_made = copy_once(alloc, pages, set)?;
        sum = sum.saturating_add(pages_made);
    }
    Ok(sum)
}

fn copy_once<P: Pages>(
    alloc: Global,
    pages: &mut P,
    set: &RowSet<P::Page>,
) -> Result<u64, PoolFault>
    requires formed { Formed P.terms set.now }
    requires here { IsHere (P.view pages.old) set.now }
    requires alone { NoRowPins P.terms (P.view pages.old) set.now }
    requires room { (P.view pages.old).held + 9 ≤ (P.view pages.old).grant }
    ensures changes { Changes P.terms nothing nothing (P.view pages.old) (P.view pages.new) }
{
    let copy = copy_of(alloc, pages, set)?;
    let made = copy.row_pages() as u64;
    retire_set(pages, copy);
    Ok(made)
}

/// Writes a set of these rows so often, and retires each.
pub fn write_often<P: Pages>(
    alloc: Global,
    pages: &mut P,
    kinds: &[SqlType],
    rows: &[Row],
    rounds: u32,
) -> Result<u64, PoolFault>
    requires room { (P.view pages.old).held + 9 ≤ (P.view pages.old).grant }
    ensures changes { Changes P.terms nothing nothing (P.view pages.old) (P.view pages.new) }
{
    let mut sum: u64 = 0;
    for round in 0..rounds {
        let made = write_once(alloc, pages, kinds, rows)?;
        sum = sum.saturating_add(made);
    }
    Ok(sum)
}

fn write_once<P: Pages>(
    alloc: Global,
    pages: &mut P,
    kinds: &[SqlType],
    rows: &[Row],
) -> Result<u64, PoolFault>
    requires room { (P.view pages.old).held + 9 ≤ (P.view pages.old).grant }
    ensures changes { Changes P.terms nothing nothing (P.view pages.old) (P.view pages.new) }
{
    if !are_columns(kinds) {
        return Ok(0);
    }
    let set = build(alloc, pages, kinds, rows)?;
    let made = set.len();
    retire_set(pages, set);
    Ok(made)
}
