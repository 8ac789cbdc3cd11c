//! Sets that are read back beside the rows that they are to have.
ghost use Rattle.std.specs.Prelude.{◌+◌, ◌<◌, ◌≤◌, length};
ghost use Rattle.page_body.specs.Keeps.{Kept};
ghost use Rattle.row_sets.specs.Sets.{Formed, IsHere, NoRowPins};

use ooc_types::{Row, Value};
use page_body::{Pages, PoolFault};
use row_cursors::RowCursor;
use row_sets::RowSet;
use std::alloc::Global;

/// How many of a set's rows are, one after the other, those of a list, with their numbers as hashes. None are where the
/// set has more rows.
pub fn count_same<P: Pages>(
    alloc: Global,
    pages: &mut P,
    set: &RowSet<P::Page>,
    rows: &[Row],
) -> Result<usize, PoolFault>
    requires formed { Formed P.terms set.now }
    requires here { IsHere (P.view pages.old) set.now }
    requires alone { NoRowPins P.terms (P.view pages.old) set.now }
    requires room { (P.view pages.old).held + 5 ≤ (P.view pages.old).grant }
    ensures kept { Kept (P.view pages.old) (P.view pages.new) }
{
    let mut cursor = RowCursor::new_cursor::<P>(set);
    let mut row = Row::new_row(alloc);
    let mut same: usize = 0;
    for number in 0..rows.len() {
        let read = cursor.next_row(alloc, pages, set, &mut row)?;
        same = count_one(same, is_row(read, &row, number as u64, &rows[number]));
    }
    match cursor.next_row(alloc, pages, set, &mut row)? {
        Some(_) => Ok(0),
        None => Ok(same),
    }
}

/// How many rows come from the pages of a set, page by page.
pub fn count_on_pages<P: Pages>(
    alloc: Global,
    pages: &mut P,
    set: &RowSet<P::Page>,
) -> Result<usize, PoolFault>
    requires formed { Formed P.terms set.now }
    requires here { IsHere (P.view pages.old) set.now }
    requires alone { NoRowPins P.terms (P.view pages.old) set.now }
    requires room { (P.view pages.old).held + 5 ≤ (P.view pages.old).grant }
    ensures kept { Kept (P.view pages.old) (P.view pages.new) }
{
    let mut row = Row::new_row(alloc);
    let mut count: usize = 0;
    for page in 0..set.row_pages() {
        let more = count_on_page(alloc, pages, set, page, &mut row)?;
        count = count.saturating_add(more);
    }
    Ok(count)
}

// How many rows come from a page, where at its end no row comes.
fn count_on_page<P: Pages>(
    alloc: Global,
    pages: &mut P,
    set: &RowSet<P::Page>,
    page: usize,
    row: &mut Row,
) -> Result<usize, PoolFault>
    requires formed { Formed P.terms set.now }
    requires here { IsHere (P.view pages.old) set.now }
    requires alone { NoRowPins P.terms (P.view pages.old) set.now }
    requires room { (P.view pages.old).held + 5 ≤ (P.view pages.old).grant }
    requires page { page < length set.now.pages.items }
    ensures kept { Kept (P.view pages.old) (P.view pages.new) }
{
    let mut cursor = RowCursor::on_page::<P>(set, page);
    let mut count: usize = 0;
    for _ in 0..set.rows_on(page) {
        let read = cursor.next_row(alloc, pages, set, row)?;
        count = count_one(count, read.is_some());
    }
    match cursor.next_row(alloc, pages, set, row)? {
        Some(_) => Ok(0),
        None => Ok(count),
    }
}

/// One more where it is so.
pub fn count_one(count: usize, is: bool) -> usize {
    if is { count.saturating_add(1) } else { count }
}

/// Whether a row that was read is the one that is wanted, and its hash.
pub fn is_row(read: Option<u64>, row: &Row, hash: u64, wanted: &Row) -> bool {
    read == Some(hash) && are_same(row.as_slice(), wanted.as_slice())
}

fn are_same(row: &[Value], wanted: &[Value]) -> bool {
    if row.len() != wanted.len() {
        return false;
    }
    for column in 0..row.len() {
        if row[column] != wanted[column] {
            return false;
        }
    }
    true
}
