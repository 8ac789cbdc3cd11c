//! The rows of a set, page by page.
ghost use Rattle.std.specs.Prelude.{◌≡◌, ◌+◌, ◌≤◌, ◌<◌, IfOk, IfErr, OnErr, length};
ghost use Rattle.page_body.specs.Keeps.{Kept};
ghost use Rattle.page_body.specs.Refusals.{CallFails};
ghost use Rattle.row_sets.specs.Sets.{Formed, IsHere, NoRowPins};
ghost use Rattle.row_sets.specs.Cursors.{IsPageOf, ArePinned, IsNext, TakesNext};

use crate::row_set::RowSet;
use page_body::{Pages, PoolFault};
use rebase_pins::{RowPins, pin_rows};

/// Pins a row page of a set and its heap pages, for a view of its rows. After a refusal the worker's pins are those from
/// before.
pub fn pin_page<P: Pages>(
    pages: &mut P,
    set: &RowSet<P::Page>,
    page: usize,
) -> Result<RowPins<P::Pin>, PoolFault>
    requires formed { Formed P.terms set.now }
    requires here { IsHere (P.view pages.old) set.now }
    requires alone { NoRowPins P.terms (P.view pages.old) set.now }
    requires room { (P.view pages.old).held + 5 ≤ (P.view pages.old).grant }
    requires page { page < length set.now.pages.items }
    ensures rows { IfOk result (IsPageOf P.terms set.now page) }
    ensures pinned { IfOk result (ArePinned P.terms (P.view pages.old) (P.view pages.new)) }
    ensures refused { OnErr result (Kept (P.view pages.old) (P.view pages.new)) }
    ensures cause { IfErr result (CallFails P.terms.told (P.view pages.old).faults (P.view pages.new).faults) }
{
    pin_rows(pages, &set.pages[page].page, &set.layout)
}

/// A place between a set's row pages.
#[derive(Clone, Copy)]
pub struct Cursor {
    pub page: usize,
}

impl Cursor {
    /// Before a set's first row page.
    pub fn new_cursor() -> Cursor
        ensures { result ≡ record { page = 0 } }
    {
        Cursor { page: 0 }
    }

    /// Pins the next row page, for a view of its rows, and steps behind it. It answers None exactly at the end. A refusal
    /// leaves the cursor and the worker's pins as they were.
    pub fn next_page<P: Pages>(
        &mut self,
        pages: &mut P,
        set: &RowSet<P::Page>,
    ) -> Result<Option<RowPins<P::Pin>>, PoolFault>
        requires formed { Formed P.terms set.now }
        requires here { IsHere (P.view pages.old) set.now }
        requires alone { NoRowPins P.terms (P.view pages.old) set.now }
        requires room { (P.view pages.old).held + 5 ≤ (P.view pages.old).grant }
        ensures next { IfOk result (IsNext P.terms set.now self.old self.new) }
        ensures pinned { IfOk result (TakesNext P.terms (P.view pages.old) (P.view pages.new)) }
        ensures same { OnErr result (self.new ≡ self.old) }
        ensures refused { OnErr result (Kept (P.view pages.old) (P.view pages.new)) }
        ensures cause { IfErr result (CallFails P.terms.told (P.view pages.old).faults (P.view pages.new).faults) }
    {
        if self.page >= set.pages.len() {
            return Ok(None);
        }
        let pins = pin_page(pages, set, self.page)?;
        self.page += 1;
        Ok(Some(pins))
    }
}
