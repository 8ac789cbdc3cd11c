//! The rows of a set, one after the other.
ghost use Rattle.std.specs.Prelude.{◌≡◌, ◌≢◌, ◌+◌, ◌≤◌, ◌<◌, [], IsTrue, IfOk, IfErr, IfSome, OnErr, OnOk, length, get_or};
ghost use Rattle.ooc_types.specs.Meets.{Meets};
ghost use Rattle.row_image.specs.Rules.{text_limit};
ghost use Rattle.page_body.specs.Keeps.{Kept};
ghost use Rattle.page_body.specs.Refusals.{CallFails};
ghost use Rattle.rebase_pins.specs.RowPages.{IsOwned};
ghost use Rattle.row_sets.specs.SetRows.{row_as};
ghost use Rattle.row_sets.specs.Sets.{Formed, IsHere, NoRowPins, set_lists, set_rows};
ghost use Rattle.row_sets.specs.Cursors.{IsPageOf, rows_under};
ghost use Rattle.row_cursors.specs.RowCursors.{rest_cells, rest_rows, no_row, row_at, IsNextRow, Steps, IsSettled};

use crate::pinned_rows::{count_under, read_values};
use ooc_types::Row;
use page_body::{Pages, PoolFault};
use rebase_pins::{RowPins, RowView, release};
use row_sets::{RowSet, pin_page};
use std::alloc::Global;

/// A place among the rows of a set: a row of a row page, before the end of some pages.
#[derive(Clone, Copy)]
pub struct RowCursor {
    pub page: usize,
    pub row: u64,
    pub end: usize,
}

impl RowCursor {
    /// Before a set's first row.
    pub fn new_cursor<P: Pages>(set: &RowSet<P::Page>) -> RowCursor
        ensures { rest_rows P.terms set.now result ≡ set_rows P.terms set.now }
    {
        RowCursor {
            page: 0,
            row: 0,
            end: set.pages.len(),
        }
    }

    /// Before the first row of a row page, for the rows of that page alone.
    pub fn on_page<P: Pages>(set: &RowSet<P::Page>, page: usize) -> RowCursor
        requires { page < length set.now.pages.items }
        ensures { rest_cells P.terms set.now result ≡ get_or (set_lists P.terms set.now) page [] }
    {
        RowCursor {
            page,
            row: 0,
            end: page + 1,
        }
    }

    /// Puts the values of the next row into a buffer and gives its hash, and None exactly at the end. It keeps no pin. A
    /// refusal leaves the cursor as it was, and the buffer empty.
    pub fn next_row<P: Pages>(
        &mut self,
        alloc: Global,
        pages: &mut P,
        set: &RowSet<P::Page>,
        into: &mut Row,
    ) -> Result<Option<u64>, PoolFault>
        requires formed { Formed P.terms set.now }
        requires here { IsHere (P.view pages.old) set.now }
        requires alone { NoRowPins P.terms (P.view pages.old) set.now }
        requires room { (P.view pages.old).held + 5 ≤ (P.view pages.old).grant }
        ensures next { IsTrue P.terms.told → IfOk result (IsNextRow P.terms set.now self.old self.new into.new) }
        ensures steps { IfOk result (Steps P.terms set.now self.old self.new) }
        ensures meets { IfOk result (λ hash. IfSome hash (λ _. Meets (text_limit set.now.page_bytes) set.now.kinds into.new)) }
        ensures same { OnErr result (self.new ≡ self.old) }
        ensures empty { OnErr result (into.new ≡ []) }
        ensures cause { IfErr result (CallFails P.terms.told (P.view pages.old).faults (P.view pages.new).faults) }
        ensures kept { Kept (P.view pages.old) (P.view pages.new) }
    {
        into.clear();
        let at = self.settle::<P>(set);
        if at.page >= at.end {
            return Ok(None);
        }
        if at.page >= set.pages.len() {
            return Ok(None);
        }
        match read_row_on(alloc, pages, set, at, into) {
            Ok(hash) => {
                *self = RowCursor {
                    page: at.page,
                    row: at.row + 1,
                    end: at.end,
                };
                Ok(Some(hash))
            }
            Err(fault) => {
                into.clear();
                Err(fault)
            }
        }
    }

    // The same place, on the page behind where the page has no row at it.
    fn settle<P: Pages>(&self, set: &RowSet<P::Page>) -> RowCursor
        requires { Formed P.terms set.now }
        ensures { IsSettled P.terms set.now self.now result }
    {
        if self.page < self.end
            && self.page < set.pages.len()
            && self.row >= set.pages[self.page].rows
        {
            return RowCursor {
                page: self.page + 1,
                row: 0,
                end: self.end,
            };
        }
        *self
    }
}

// Adds the values of a row to those of an empty buffer, and gives its hash.
fn read_row_on<P: Pages>(
    alloc: Global,
    pages: &mut P,
    set: &RowSet<P::Page>,
    at: RowCursor,
    into: &mut Row,
) -> Result<u64, PoolFault>
    requires formed { Formed P.terms set.now }
    requires here { IsHere (P.view pages.old) set.now }
    requires alone { NoRowPins P.terms (P.view pages.old) set.now }
    requires room { (P.view pages.old).held + 5 ≤ (P.view pages.old).grant }
    requires page { at.page < length set.now.pages.items }
    requires row { at.row < length (get_or (set_lists P.terms set.now) at.page []) }
    requires empty { into.old ≡ [] }
    ensures row { IsTrue P.terms.told → IfOk result (λ hash. row_as set.now.kinds (row_at P.terms set.now at.page at.row) ≡ record { hash = hash; values = into.new }) }
    ensures meets { OnOk result (Meets (text_limit set.now.page_bytes) set.now.kinds into.new) }
    ensures cause { IfErr result (CallFails P.terms.told (P.view pages.old).faults (P.view pages.new).faults) }
    ensures kept { Kept (P.view pages.old) (P.view pages.new) }
{
    let pins = pin_page(pages, set, at.page)?;
    let read = read_pinned(alloc, pages, &pins, set, at, into);
    release(pages, pins);
    read
}

// The same under pins.
fn read_pinned<P: Pages>(
    alloc: Global,
    pages: &P,
    pins: &RowPins<P::Pin>,
    set: &RowSet<P::Page>,
    at: RowCursor,
    into: &mut Row,
) -> Result<u64, PoolFault>
    requires formed { Formed P.terms set.now }
    requires page_bytes { set.now.page_bytes ≡ (P.view pages.now).page_bytes }
    requires own { IsOwned P.terms (P.view pages.now) pins.now }
    requires page { at.page < length set.now.pages.items }
    requires is { IsPageOf P.terms set.now at.page pins.now }
    requires row { at.row < length (get_or (set_lists P.terms set.now) at.page []) }
    requires empty { into.old ≡ [] }
    ensures row { IsTrue P.terms.told → IfOk result (λ hash. row_as set.now.kinds (row_at P.terms set.now at.page at.row) ≡ record { hash = hash; values = into.new }) }
    ensures meets { OnOk result (Meets (text_limit set.now.page_bytes) set.now.kinds into.new) }
    ensures cause { IfErr result (CallFails P.terms.told (P.view pages.now).faults (P.view pages.now).faults) }
{
    let count = count_under(pages, pins, set, at.page)?;
    let row = narrow(at.row, count);
    let view = RowView::new_view(pages, pins, &set.layout);
    match read_values(alloc, &view, set.kinds.as_slice(), row, into) {
        Ok(()) => Ok(view.hash(row)),
        Err(_) => Err(PoolFault::OutOfMemory),
    }
}

// A row's number, which is below the count of a page's rows.
fn narrow(row: u64, count: u32) -> u32
    requires { row < count }
    ensures { result ≡ row }
{
    let _count = count;
    row as u32
}
