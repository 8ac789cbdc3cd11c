//! Lines of a result, as many as its limit allows.
ghost use Rattle.std.specs.Prelude.{◌≡◌, ℕ, nat_lt, length, OnOk};
ghost use Rattle.table_scan.specs.Outcomes.{Ends};
ghost use Rattle.table_scan.specs.Sink as spec;

use crate::fault::SelectFault;
use ooc_types::{OutOfMemory, Row, Schema};
use result_print::print_row;

/// The bytes that the lines of a result may have.
pub(crate) const MOST_RESULT: u128 = 268_435_456;

/// Whether a text is longer than its limit.
pub(crate) fn is_over(limit: u128, text: &[u8]) -> bool
    ensures { result ≡ nat_lt limit (length text.now) }
{
    limit < text.len() as u128
}

/// Prints a row, unless the text is too long already.
pub(crate) fn print_line(
    columns: &Schema,
    limit: u128,
    row: &Row,
    text: &mut Vec<u8>,
) -> Result<(), OutOfMemory>
    ensures { OnOk result (text.new.items ≡ spec.line_behind limit text.old.items row.now) }
{
    if is_over(limit, text.as_slice()) {
        return Ok(());
    }
    print_row(columns, row, text)
}

/// Prints rows until the text is too long.
pub(crate) fn print_lines(
    columns: &Schema,
    limit: u128,
    rows: &[Row],
    text: &mut Vec<u8>,
) -> Result<(), OutOfMemory>
    ensures { OnOk result (text.new.items ≡ spec.lines_behind limit text.old.items rows.now) }
{
    for row in rows {
        print_line(columns, limit, row, text)?;
    }
    Ok(())
}

/// The text with the empty line behind it.
pub(crate) fn end_text(limit: u128, text: Vec<u8>) -> Result<Vec<u8>, SelectFault>
    ensures { Ends limit text.items result }
{
    if is_over(limit, text.as_slice()) {
        return Err(SelectFault::TooLarge);
    }
    let mut text = text;
    match text.push(b'\n') {
        Ok(()) => Ok(text),
        Err(_) => Err(SelectFault::OutOfMemory),
    }
}
