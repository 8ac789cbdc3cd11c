//! Copies of sets.
ghost use Rattle.std.specs.Prelude.{◌≡◌, ◌+◌, ◌-◌, ◌≤◌, ◌<◌, ◌++◌, IsTrue, IfOk, IfErr, OnOk, length, take};
ghost use Rattle.page_body.specs.Refusals.{CallFails};
ghost use Rattle.page_body.specs.PageLists.{Differ};
ghost use Rattle.rebase_pins.specs.RowPages.{IsOwned};
ghost use Rattle.row_sets.specs.Holds.{nothing, Unpinned};
ghost use Rattle.row_sets.specs.Changes.{Changes};
ghost use Rattle.row_sets.specs.Closing.{SameColumns};
ghost use Rattle.row_sets.specs.Sets.{Formed, IsHere, NoRowPins, set_cells, set_ids};
ghost use Rattle.row_sets.specs.Given.{set_given};
ghost use Rattle.row_sets.specs.Cursors.{IsPageOf, rows_under};
ghost use Rattle.row_sets.specs.Writers.{HasFrames, written_cells, writer_holding, writer_ids, Writing, IsWriterHere};

use crate::pinned_rows::count_under;
use crate::stretches::{copy_stretch, long_in_row};
use page_body::{Pages, PoolFault};
use rebase_pins::{RowPins, RowView, release};
use row_sets::{RowSet, Writer, abandon, finish, get_room, pin_page};
use std::alloc::Global;

/// Adds the rows of a set to those of a writer. Each row page is pinned once, and as many of its rows are read under one
/// view as the writer has room for. After a refusal the first of them were added.
pub fn copy_rows<P: Pages>(
    pages: &mut P,
    set: &RowSet<P::Page>,
    writer: &mut Writer<P::Page>,
) -> Result<(), PoolFault>
    requires formed { Formed P.terms set.now }
    requires here { IsHere (P.view pages.old) set.now }
    requires alone { NoRowPins P.terms (P.view pages.old) set.now }
    requires writing { Writing P.terms writer.old }
    requires writer_here { IsWriterHere P.terms (P.view pages.old) writer.old }
    requires kinds { writer.old.kinds ≡ set.now.kinds }
    requires apart { Differ P.terms (λ y. set_ids P.terms set.now y + writer_ids P.terms writer.old y) }
    requires room { (P.view pages.old).held + 7 ≤ (P.view pages.old).grant + (writer_holding P.terms writer.old).held }
    ensures rows { IsTrue P.terms.told → OnOk result (written_cells P.terms writer.new ≡ written_cells P.terms writer.old ++ set_cells P.terms set.now) }
    ensures front { IsTrue P.terms.told → written_cells P.terms writer.new ≡ written_cells P.terms writer.old ++ take (writer.new.rows - writer.old.rows) (set_cells P.terms set.now) }
    ensures counted { OnOk result (writer.new.rows ≡ writer.old.rows + set.now.rows) }
    ensures columns { SameColumns writer.old writer.new }
    ensures writing { Writing P.terms writer.new }
    ensures writer_here { IsWriterHere P.terms (P.view pages.new) writer.new }
    ensures cause { IfErr result (CallFails P.terms.told (P.view pages.old).faults (P.view pages.new).faults) }
    ensures changes { Changes P.terms (writer_holding P.terms writer.old) (writer_holding P.terms writer.new) (P.view pages.old) (P.view pages.new) }
{
    for page in 0..set.pages.len() {
        let pins = pin_page(pages, set, page)?;
        let copied = copy_page(pages, &pins, set, page, writer);
        release(pages, pins);
        copied?;
    }
    Ok(())
}

// Adds the rows of a page under pins.
fn copy_page<P: Pages>(
    pages: &mut P,
    pins: &RowPins<P::Pin>,
    set: &RowSet<P::Page>,
    page: usize,
    writer: &mut Writer<P::Page>,
) -> Result<(), PoolFault>
    requires formed { Formed P.terms set.now }
    requires page_bytes { set.now.page_bytes ≡ (P.view pages.old).page_bytes }
    requires page { page < length set.now.pages.items }
    requires is { IsPageOf P.terms set.now page pins.now }
    requires own { IsOwned P.terms (P.view pages.old) pins.now }
    requires writing { Writing P.terms writer.old }
    requires here { IsWriterHere P.terms (P.view pages.old) writer.old }
    requires kinds { writer.old.kinds ≡ set.now.kinds }
    requires frames { HasFrames P.terms (P.view pages.old) writer.old }
    ensures rows { IsTrue P.terms.told → OnOk result (written_cells P.terms writer.new ≡ written_cells P.terms writer.old ++ rows_under P.terms set.now pins.now) }
    ensures front { IsTrue P.terms.told → written_cells P.terms writer.new ≡ written_cells P.terms writer.old ++ take (writer.new.rows - writer.old.rows) (rows_under P.terms set.now pins.now) }
    ensures grows { writer.old.rows ≤ writer.new.rows }
    ensures counted { OnOk result (writer.new.rows ≡ writer.old.rows + length (rows_under P.terms set.now pins.now)) }
    ensures own { IsOwned P.terms (P.view pages.new) pins.now }
    ensures columns { SameColumns writer.old writer.new }
    ensures writing { Writing P.terms writer.new }
    ensures here { IsWriterHere P.terms (P.view pages.new) writer.new }
    ensures cause { IfErr result (CallFails P.terms.told (P.view pages.old).faults (P.view pages.new).faults) }
    ensures changes { Changes P.terms (writer_holding P.terms writer.old) (writer_holding P.terms writer.new) (P.view pages.old) (P.view pages.new) }
{
    let count = count_under(pages, pins, set, page)?;
    let mut row = 0;
    while row < count {
        let long = long_in_row(&RowView::new_view(pages, pins, &set.layout), row);
        get_room(writer, pages, long)?;
        let view = RowView::new_view(pages, pins, &set.layout);
        row = copy_stretch::<P>(&view, row, writer);
    }
    Ok(())
}

/// A set with the rows of another.
pub fn copy_of<P: Pages>(
    alloc: Global,
    pages: &mut P,
    set: &RowSet<P::Page>,
) -> Result<RowSet<P::Page>, PoolFault>
    requires formed { Formed P.terms set.now }
    requires here { IsHere (P.view pages.old) set.now }
    requires alone { NoRowPins P.terms (P.view pages.old) set.now }
    requires room { (P.view pages.old).held + 7 ≤ (P.view pages.old).grant }
    ensures rows { IsTrue P.terms.told → IfOk result (λ made. set_cells P.terms made ≡ set_cells P.terms set.now) }
    ensures counted { IfOk result (λ made. made.rows ≡ set.now.rows) }
    ensures kinds { IfOk result (λ made. made.kinds ≡ set.now.kinds) }
    ensures formed { IfOk result (Formed P.terms) }
    ensures here { IfOk result (IsHere (P.view pages.new)) }
    ensures unpinned { IfOk result (λ made. Unpinned P.terms (P.view pages.new) (set_ids P.terms made)) }
    ensures cause { IfErr result (CallFails P.terms.told (P.view pages.old).faults (P.view pages.new).faults) }
    ensures changes { Changes P.terms nothing (set_given P.terms result) (P.view pages.old) (P.view pages.new) }
{
    let mut writer = Writer::new_writer(alloc, set.kinds.as_slice(), set.page_bytes);
    match copy_rows(pages, set, &mut writer) {
        Ok(()) => finish(writer, pages),
        Err(fault) => {
            abandon(writer, pages);
            Err(fault)
        }
    }
}
