//! Rows of SQL values, added to a set that is being written.
ghost use Rattle.std.specs.Prelude.{◌≡◌, ◌+◌, ◌≤◌, ◌++◌, ◌∷◌, [], IfErr, OnErr, OnOk, length};
ghost use Rattle.ooc_types.specs.Meets.{Meets};
ghost use Rattle.row_image.specs.declared.limits.TheConstants.{MOST_COLUMNS};
ghost use Rattle.row_image.specs.Rules.{text_limit};
ghost use Rattle.page_body.specs.Refusals.{RoomFails};
ghost use Rattle.row_sets.specs.Changes.{Changes};
ghost use Rattle.row_sets.specs.Closing.{SameColumns};
ghost use Rattle.row_sets.specs.Writers.{HasFrames, Writing, IsWriterHere, written_cells, written_rows, writer_holding};

use crate::values::fill_kept;
use ooc_types::Value;
use page_body::{Pages, PoolFault};
use rebase_pins::CellRead;
use row_sets::{Writer, append};

/// Rows of at most so many columns are added by way of a short list of cells.
const FEW_COLUMNS: usize = 8;

/// Adds a row of SQL values at the end, whatever room there was. After a refusal the rows are those from before.
pub fn append_values<P: Pages>(
    writer: &mut Writer<P::Page>,
    pages: &mut P,
    row: &[Value],
    hash: u64,
) -> Result<(), PoolFault>
    requires writing { Writing P.terms writer.old }
    requires here { IsWriterHere P.terms (P.view pages.old) writer.old }
    requires meets { Meets (text_limit writer.old.page_bytes) writer.old.kinds row.now }
    requires frames { HasFrames P.terms (P.view pages.old) writer.old }
    ensures rows { OnOk result (written_rows P.terms writer.new ≡ written_rows P.terms writer.old ++ record { hash = hash; values = row.now } ∷ []) }
    ensures same { OnErr result (written_cells P.terms writer.new ≡ written_cells P.terms writer.old) }
    ensures columns { SameColumns writer.old writer.new }
    ensures writing { Writing P.terms writer.new }
    ensures here { IsWriterHere P.terms (P.view pages.new) writer.new }
    ensures cause { IfErr result (RoomFails (P.view pages.old).faults (P.view pages.new).faults) }
    ensures changes { Changes P.terms (writer_holding P.terms writer.old) (writer_holding P.terms writer.new) (P.view pages.old) (P.view pages.new) }
{
    if row.len() <= FEW_COLUMNS {
        append_few(writer, pages, row, hash)
    } else {
        append_many(writer, pages, row, hash)
    }
}

fn append_few<P: Pages>(
    writer: &mut Writer<P::Page>,
    pages: &mut P,
    row: &[Value],
    hash: u64,
) -> Result<(), PoolFault>
    requires few { length row.now ≤ 8 }
    requires writing { Writing P.terms writer.old }
    requires here { IsWriterHere P.terms (P.view pages.old) writer.old }
    requires meets { Meets (text_limit writer.old.page_bytes) writer.old.kinds row.now }
    requires frames { HasFrames P.terms (P.view pages.old) writer.old }
    ensures rows { OnOk result (written_rows P.terms writer.new ≡ written_rows P.terms writer.old ++ record { hash = hash; values = row.now } ∷ []) }
    ensures same { OnErr result (written_cells P.terms writer.new ≡ written_cells P.terms writer.old) }
    ensures columns { SameColumns writer.old writer.new }
    ensures writing { Writing P.terms writer.new }
    ensures here { IsWriterHere P.terms (P.view pages.new) writer.new }
    ensures cause { IfErr result (RoomFails (P.view pages.old).faults (P.view pages.new).faults) }
    ensures changes { Changes P.terms (writer_holding P.terms writer.old) (writer_holding P.terms writer.new) (P.view pages.old) (P.view pages.new) }
{
    let mut cells = [CellRead::Null; 8];
    let cells = &mut cells[..row.len()];
    fill_kept(row, cells);
    append(writer, pages, cells, hash)
}

fn append_many<P: Pages>(
    writer: &mut Writer<P::Page>,
    pages: &mut P,
    row: &[Value],
    hash: u64,
) -> Result<(), PoolFault>
    requires few { length row.now ≤ MOST_COLUMNS }
    requires writing { Writing P.terms writer.old }
    requires here { IsWriterHere P.terms (P.view pages.old) writer.old }
    requires meets { Meets (text_limit writer.old.page_bytes) writer.old.kinds row.now }
    requires frames { HasFrames P.terms (P.view pages.old) writer.old }
    ensures rows { OnOk result (written_rows P.terms writer.new ≡ written_rows P.terms writer.old ++ record { hash = hash; values = row.now } ∷ []) }
    ensures same { OnErr result (written_cells P.terms writer.new ≡ written_cells P.terms writer.old) }
    ensures columns { SameColumns writer.old writer.new }
    ensures writing { Writing P.terms writer.new }
    ensures here { IsWriterHere P.terms (P.view pages.new) writer.new }
    ensures cause { IfErr result (RoomFails (P.view pages.old).faults (P.view pages.new).faults) }
    ensures changes { Changes P.terms (writer_holding P.terms writer.old) (writer_holding P.terms writer.new) (P.view pages.old) (P.view pages.new) }
{
    let mut cells = [CellRead::Null; 65];
    let cells = &mut cells[..row.len()];
    fill_kept(row, cells);
    append(writer, pages, cells, hash)
}
