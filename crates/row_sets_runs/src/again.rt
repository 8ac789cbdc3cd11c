//! Sets that are read back over reads that fail.
ghost use Rattle.std.specs.Prelude.{◌+◌, ◌≤◌};
ghost use Rattle.page_body.specs.Keeps.{Kept};
ghost use Rattle.row_sets.specs.Holds.{nothing};
ghost use Rattle.row_sets.specs.Changes.{Changes};
ghost use Rattle.row_sets.specs.Sets.{Formed, IsHere, NoRowPins};

use crate::forms::are_columns;
use crate::reading::{count_one, is_row};
use crate::writing::build;
use ooc_types::{Row, SqlType};
use page_body::{Pages, PoolFault};
use row_cursors::RowCursor;
use row_sets::{RowSet, retire_set};
use std::alloc::Global;

/// How many of a set's rows came back, and how many calls were refused.
#[derive(Clone, Copy, Debug, PartialEq, Eq)]
pub struct Again {
    pub same: usize,
    pub refused: usize,
}

/// Writes a set and reads it back, each row once more where a call is refused, and retires it.
pub fn run_again<P: Pages>(
    alloc: Global,
    pages: &mut P,
    kinds: &[SqlType],
    rows: &[Row],
) -> Result<Option<Again>, PoolFault>
    requires room { (P.view pages.old).held + 9 ≤ (P.view pages.old).grant }
    ensures changes { Changes P.terms nothing nothing (P.view pages.old) (P.view pages.new) }
{
    if !are_columns(kinds) {
        return Ok(None);
    }
    let set = build(alloc, pages, kinds, rows)?;
    let again = count_again(alloc, pages, &set, rows);
    retire_set(pages, set);
    match again {
        Ok(again) => Ok(Some(again)),
        Err(fault) => Err(fault),
    }
}

// How many rows come back in order, with their numbers as hashes.
fn count_again<P: Pages>(
    alloc: Global,
    pages: &mut P,
    set: &RowSet<P::Page>,
    rows: &[Row],
) -> Result<Again, PoolFault>
    requires formed { Formed P.terms set.now }
    requires here { IsHere (P.view pages.old) set.now }
    requires alone { NoRowPins P.terms (P.view pages.old) set.now }
    requires room { (P.view pages.old).held + 5 ≤ (P.view pages.old).grant }
    ensures kept { Kept (P.view pages.old) (P.view pages.new) }
{
    let mut cursor = RowCursor::new_cursor::<P>(set);
    let mut row = Row::new_row(alloc);
    let mut same: usize = 0;
    let mut refused: usize = 0;
    for number in 0..rows.len() {
        let read = next_again(alloc, pages, &mut cursor, set, &mut row, &mut refused)?;
        same = count_one(same, is_row(read, &row, number as u64, &rows[number]));
    }
    Ok(Again { same, refused })
}

// The next row, asked for once more where the first call is refused.
fn next_again<P: Pages>(
    alloc: Global,
    pages: &mut P,
    cursor: &mut RowCursor,
    set: &RowSet<P::Page>,
    row: &mut Row,
    refused: &mut usize,
) -> Result<Option<u64>, PoolFault>
    requires formed { Formed P.terms set.now }
    requires here { IsHere (P.view pages.old) set.now }
    requires alone { NoRowPins P.terms (P.view pages.old) set.now }
    requires room { (P.view pages.old).held + 5 ≤ (P.view pages.old).grant }
    ensures kept { Kept (P.view pages.old) (P.view pages.new) }
{
    match cursor.next_row(alloc, pages, set, row) {
        Ok(read) => Ok(read),
        Err(_) => {
            *refused = refused.saturating_add(1);
            cursor.next_row(alloc, pages, set, row)
        }
    }
}
