//! Rows in order, and a part of them.
ghost use Rattle.std.specs.Prelude.{◌≡◌, min};
ghost use Rattle.sql_meaning.specs.Ordered.{limited};
ghost use Rattle.table_scan.specs.Outcomes.{ShowsCut, ShowsPart};

use crate::fault::SelectFault;
use crate::lines::{MOST_RESULT, end_text, is_over, print_lines};
use crate::order::sort_rows;
use bound_tree::Cut;
use ooc_types::{Row, Schema};
use result_print::print_header;
use std::alloc::Global;

// The smaller of the two.
fn at_most(wanted: u128, most: usize) -> usize
    ensures { result ≡ min wanted most }
{
    if wanted < most as u128 {
        wanted as usize
    } else {
        most
    }
}

// Rows with their header. The lines of those before them count too.
fn print_part(
    alloc: Global,
    columns: &Schema,
    skipped: &[Row],
    rows: &[Row],
) -> Result<Vec<u8>, SelectFault>
    ensures { ShowsPart columns.now skipped.now rows.now result }
{
    let mut text = Vec::new(alloc);
    print_lines(columns, MOST_RESULT, skipped, &mut text)?;
    if is_over(MOST_RESULT, text.as_slice()) {
        return Err(SelectFault::TooLarge);
    }
    let left = MOST_RESULT - text.len() as u128;
    text.clear();
    print_header(columns, &mut text)?;
    let limit = text.len() as u128 + left;
    print_lines(columns, limit, rows, &mut text)?;
    end_text(limit, text)
}

// The first rows of a list, or all of them.
fn first_rows(limit: Option<u128>, rows: &[Row]) -> &[Row]
    ensures { result.now ≡ limited limit rows.now }
{
    match limit {
        Some(limit) => &rows[..at_most(limit, rows.len())],
        None => rows,
    }
}

/// The rows in order, without the first of them, and of the rest as many as there may be. The rows are put in order where
/// they lie.
pub(crate) fn print_cut(
    alloc: Global,
    columns: &Schema,
    cut: &Cut,
    rows: Vec<Row>,
) -> Result<Vec<u8>, SelectFault>
    ensures { ShowsCut columns.now cut.now rows.items result }
{
    let mut ordered = rows;
    sort_rows(cut.keys.as_slice(), &mut ordered);
    let all = ordered.as_slice();
    let offset = at_most(cut.offset.unwrap_or(0), all.len());
    let shown = first_rows(cut.limit, &all[offset..]);
    print_part(alloc, columns, &all[..offset], shown)
}
