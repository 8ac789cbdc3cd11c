//! The rows of a page under pins.
ghost use Rattle.std.specs.Prelude.{◌≡◌, ◌++◌, ◌≤◌, ◌<◌, [], IsTrue, IfOk, IfErr, OnOk, length, map};
ghost use Rattle.ooc_types.specs.Meets.{Meets};
ghost use Rattle.row_image.specs.declared.limits.TheConstants.{MOST_COLUMNS};
ghost use Rattle.row_image.specs.Rules.{text_limit};
ghost use Rattle.page_body.specs.Refusals.{CallFails};
ghost use Rattle.rebase_pins.specs.RowPages.{IsOwned};
ghost use Rattle.rebase_pins.specs.Seen.{rows_seen, seen_under, values_seen};
ghost use Rattle.row_sets.specs.Cursors.{IsPageOf, rows_under};
ghost use Rattle.row_sets.specs.Sets.{Formed};
ghost use Rattle.row_sets.specs.SetRows.{cell_kinds, values_as};
ghost use Rattle.row_cursors.specs.PinnedRows.{IsMiscounted};

use crate::values::push_values;
use ooc_types::{OutOfMemory, Row, SqlType};
use page_body::{Pages, PoolFault};
use rebase_pins::{CellRead, RowPins, RowView};
use row_image::{Damage, DamageField};
use row_sets::RowSet;
use std::alloc::Global;

/// How many rows a page under pins has: as many as it was sealed with. A page that was read back in a pool that isn't told
/// may have others.
pub fn count_under<P: Pages>(
    pages: &P,
    pins: &RowPins<P::Pin>,
    set: &RowSet<P::Page>,
    page: usize,
) -> Result<u32, PoolFault>
    requires formed { Formed P.terms set.now }
    requires page { page < length set.now.pages.items }
    requires is { IsPageOf P.terms set.now page pins.now }
    requires own { IsOwned P.terms (P.view pages.now) pins.now }
    ensures same { IfOk result (λ count. (count ≡ length (rows_under P.terms set.now pins.now)) × (count ≡ length (rows_seen (seen_under P.terms set.now.layout pins.now)))) }
    ensures told { IsTrue P.terms.told → rows_seen (seen_under P.terms set.now.layout pins.now) ≡ rows_under P.terms set.now pins.now }
    ensures cause { IfErr result (CallFails P.terms.told (P.view pages.now).faults (P.view pages.now).faults) }
{
    let view = RowView::new_view(pages, pins, &set.layout);
    count_rows(&view, set.pages[page].rows)
}

// The count of the rows that a view shows, which is to be that many.
fn count_rows(view: &RowView, rows: u64) -> Result<u32, PoolFault>
    ensures same { IfOk result (λ count. (count ≡ rows) × (count ≡ length (rows_seen view.now))) }
    ensures other { IfErr result (IsMiscounted rows (length (rows_seen view.now))) }
{
    let count = view.rows();
    if u64::from(count) != rows {
        return Err(PoolFault::Damaged(Damage {
            field: DamageField::Rows,
            found: u64::from(count),
            bound: rows,
        }));
    }
    Ok(count)
}

/// Adds the values of a row to those of a buffer.
pub fn read_values(
    alloc: Global,
    view: &RowView,
    kinds: &[SqlType],
    row: u32,
    into: &mut Row,
) -> Result<(), OutOfMemory>
    requires row { row < length (rows_seen view.now) }
    requires kinds { view.now.kinds ≡ cell_kinds kinds.now }
    requires few { length kinds.now ≤ MOST_COLUMNS }
    ensures values { OnOk result (into.new ≡ into.old ++ values_as kinds.now (values_seen view.now row)) }
    ensures meets { Meets (text_limit (length view.now.image)) kinds.now (values_as kinds.now (values_seen view.now row)) }
{
    let mut cells = [CellRead::Null; 65];
    let cells = &mut cells[..kinds.len()];
    view.read_row(row, cells);
    push_values(alloc, kinds, cells, into)
}
