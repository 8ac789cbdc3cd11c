//! Sets of rows that come from outside.
ghost use Rattle.std.specs.Prelude.{◌≡◌, ◌+◌, ◌≤◌, IfOk};
ghost use Rattle.row_sets.specs.Holds.{nothing, Unpinned};
ghost use Rattle.row_sets.specs.Changes.{Changes};
ghost use Rattle.row_sets.specs.Closing.{SameColumns};
ghost use Rattle.row_sets.specs.Given.{set_given};
ghost use Rattle.row_sets.specs.Sets.{Formed, IsHere, set_ids};
ghost use Rattle.row_sets.specs.Writers.{writer_holding, Writing, IsWriterHere};
ghost use Rattle.row_sets_runs.specs.Columns.{MayBeColumns};

use crate::forms::row_meets;
use ooc_types::{Row, SqlType, Value};
use page_body::{Pages, PoolFault};
use row_cursors::append_values;
use row_image::text_limit;
use row_sets::{RowSet, Writer, abandon, finish};
use std::alloc::Global;

/// A set of those of the rows that meet the types. The hash of each is its number.
pub fn build<P: Pages>(
    alloc: Global,
    pages: &mut P,
    kinds: &[SqlType],
    rows: &[Row],
) -> Result<RowSet<P::Page>, PoolFault>
    requires columns { MayBeColumns kinds.now }
    requires room { (P.view pages.old).held + 4 ≤ (P.view pages.old).grant }
    ensures formed { IfOk result (Formed P.terms) }
    ensures here { IfOk result (IsHere (P.view pages.new)) }
    ensures unpinned { IfOk result (λ set. Unpinned P.terms (P.view pages.new) (set_ids P.terms set)) }
    ensures changes { Changes P.terms nothing (set_given P.terms result) (P.view pages.old) (P.view pages.new) }
{
    let page = pages.page_bytes();
    let mut writer = Writer::new_writer(alloc, kinds, page);
    match fill(&mut writer, pages, rows) {
        Ok(()) => finish(writer, pages),
        Err(fault) => {
            abandon(writer, pages);
            Err(fault)
        }
    }
}

// Adds those of the rows that meet the types.
fn fill<P: Pages>(
    writer: &mut Writer<P::Page>,
    pages: &mut P,
    rows: &[Row],
) -> Result<(), PoolFault>
    requires writing { Writing P.terms writer.old }
    requires here { IsWriterHere P.terms (P.view pages.old) writer.old }
    requires room { (P.view pages.old).held + 4 ≤ (P.view pages.old).grant }
    ensures writing { Writing P.terms writer.new }
    ensures here { IsWriterHere P.terms (P.view pages.new) writer.new }
    ensures changes { Changes P.terms (writer_holding P.terms writer.old) (writer_holding P.terms writer.new) (P.view pages.old) (P.view pages.new) }
{
    for number in 0..rows.len() {
        append_if_it_meets(writer, pages, rows[number].as_slice(), number as u64)?;
    }
    Ok(())
}

// Adds a row that meets the types.
fn append_if_it_meets<P: Pages>(
    writer: &mut Writer<P::Page>,
    pages: &mut P,
    row: &[Value],
    hash: u64,
) -> Result<(), PoolFault>
    requires writing { Writing P.terms writer.old }
    requires here { IsWriterHere P.terms (P.view pages.old) writer.old }
    requires room { (P.view pages.old).held + 2 ≤ (P.view pages.old).grant }
    ensures writing { Writing P.terms writer.new }
    ensures here { IsWriterHere P.terms (P.view pages.new) writer.new }
    ensures changes { Changes P.terms (writer_holding P.terms writer.old) (writer_holding P.terms writer.new) (P.view pages.old) (P.view pages.new) }
{
    if row_meets(
        text_limit(writer.page_bytes as usize) as usize,
        writer.kinds.as_slice(),
        row,
    ) {
        return append_values(writer, pages, row, hash);
    }
    Ok(())
}
