//! What a file gives, as a text: its rows, and then how they end.
ghost use Rattle.std.specs.Prelude.{◌≡◌, ◌≢◌, ◌<◌, true, IfOk};
ghost use Rattle.csv_load.specs.Ahead.{bytes_ahead};
ghost use Rattle.csv_load.specs.declared.stage.Stage.TheVariants.{Failed};

use csv_load::{CsvRows, Refusal, RowFault};
use ooc_io::Files;
use ooc_types::{OutOfMemory, RefusalKind, Row, Value};
use std::alloc::Global;

/// What an open file gives from here on: each row, and `end`, or why there is no next row.
pub fn read_all<F: Files>(
    alloc: Global,
    rows: &mut CsvRows,
    files: &mut F,
) -> Result<Vec<u8>, OutOfMemory>
    requires opened { F.is_open files.old ≡ true }
    requires goes_on { rows.old.stage ≢ Failed }
{
    let mut row = Row::new_row(alloc);
    let mut out = Vec::new(alloc);
    'rows: loop {
        let more = put_next(alloc, rows, files, &mut row, &mut out)?;
        if !more {
            return Ok(out);
        }
    }
}

// Puts the next row, or how the rows end. Answers whether there may be more.
fn put_next<F: Files>(
    alloc: Global,
    rows: &mut CsvRows,
    files: &mut F,
    row: &mut Row,
    out: &mut Vec<u8>,
) -> Result<bool, OutOfMemory>
    requires opened { F.is_open files.old ≡ true }
    requires goes_on { rows.old.stage ≢ Failed }
    ensures opened { F.is_open files.new ≡ true }
    ensures goes_on { IfOk result (λ more. more ≡ true → rows.new.stage ≢ Failed) }
    ensures less { IfOk result (λ more. more ≡ true → bytes_ahead rows.new < bytes_ahead rows.old) }
{
    match rows.next_row(files, row) {
        Ok(more) => {
            if !more {
                put_end(out)?;
                return Ok(false);
            }
            put_row(alloc, row.as_slice(), out)?;
            Ok(true)
        }
        Err(fault) => {
            put_fault(alloc, fault, out)?;
            Ok(false)
        }
    }
}

fn put_end(out: &mut Vec<u8>) -> Result<(), OutOfMemory> {
    put_word("end", out)
}

fn put_fault(alloc: Global, fault: RowFault, out: &mut Vec<u8>) -> Result<(), OutOfMemory> {
    match fault {
        RowFault::Refused(why) => put_refusal(alloc, why, out),
        RowFault::Read => put_word("read fault", out),
        RowFault::OutOfMemory => put_word("out of memory", out),
    }
}

/// Puts a refusal: the number of the record, the column and the kind.
pub fn put_refusal(alloc: Global, why: Refusal, out: &mut Vec<u8>) -> Result<(), OutOfMemory> {
    put_word("record ", out)?;
    put_number(alloc, i128::from(why.number), out)?;
    put_word(" column ", out)?;
    put_number(alloc, i128::from(why.column), out)?;
    put_word(": ", out)?;
    put_word(kind_words(why.kind), out)
}

fn kind_words(kind: RefusalKind) -> &'static str {
    match kind {
        RefusalKind::NoFile => "no file",
        RefusalKind::FileTooLong => "file too long",
        RefusalKind::RecordTooLong => "record too long",
        RefusalKind::OpenQuote => "open quote",
        RefusalKind::FieldCount => "field count",
        RefusalKind::NullRefused => "null refused",
        RefusalKind::BadUtf8 => "bad utf8",
        RefusalKind::TextTooLong => "text too long",
        RefusalKind::BadValue => "bad value",
        _ => "no refusal of a file",
    }
}

/// Puts a row: its values with commas between them, and a semicolon.
pub fn put_row(alloc: Global, row: &[Value], out: &mut Vec<u8>) -> Result<(), OutOfMemory> {
    for place in 0..row.len() {
        if place > 0 {
            put_word(",", out)?;
        }
        put_value(alloc, &row[place], out)?;
    }
    put_word(";", out)
}

// Puts a value: a number as its digits, and behind a colon its scale, where it has one; a date as the number of its day.
fn put_value(alloc: Global, value: &Value, out: &mut Vec<u8>) -> Result<(), OutOfMemory> {
    match value {
        Value::Null => put_word("NULL", out),
        Value::Truth(truth) => put_word(if *truth { "true" } else { "false" }, out),
        Value::Number { digits, scale } => put_decimal(alloc, *digits, *scale, out),
        Value::Day(day) => put_day(alloc, *day, out),
        Value::Text(text) => put_text(text.as_bytes(), out),
    }
}

fn put_decimal(
    alloc: Global,
    digits: i128,
    scale: u8,
    out: &mut Vec<u8>,
) -> Result<(), OutOfMemory> {
    put_number(alloc, digits, out)?;
    if scale > 0 {
        put_word(":", out)?;
        put_number(alloc, i128::from(scale), out)?;
    }
    Ok(())
}

fn put_day(alloc: Global, day: i32, out: &mut Vec<u8>) -> Result<(), OutOfMemory> {
    put_word("day ", out)?;
    put_number(alloc, i128::from(day), out)
}

fn put_text(bytes: &[u8], out: &mut Vec<u8>) -> Result<(), OutOfMemory> {
    put_word("'", out)?;
    out.extend_from_slice(bytes)?;
    put_word("'", out)
}

/// Puts a number.
pub fn put_number(alloc: Global, number: i128, out: &mut Vec<u8>) -> Result<(), OutOfMemory> {
    let text = format!(in alloc; "{number}")?;
    out.extend_from_slice(text.as_bytes())?;
    Ok(())
}

/// Puts words.
pub fn put_word(word: &str, out: &mut Vec<u8>) -> Result<(), OutOfMemory> {
    out.extend_from_slice(word.as_bytes())?;
    Ok(())
}
