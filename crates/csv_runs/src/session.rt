//! Whole runs over a file.
ghost use Rattle.std.specs.Prelude.{◌≡◌, ◌≢◌, ◌≤◌, true, length, IfOk};
ghost use Rattle.csv_records.specs.Table.{IsDelimiter};
ghost use Rattle.csv_load.specs.Values.{are_typed};
ghost use Rattle.csv_load.specs.declared.stage.Stage.TheVariants.{Failed};

use crate::pieces::{PieceFiles, one_file};
use crate::report::{put_word, read_all};
use crate::shape::{Limits, Shape, is_readable, options_of, schema_of};
use csv_load::{CsvOptions, CsvRows};
use ooc_io::{Files, OpenFault};
use ooc_types::{OutOfMemory, Schema};
use std::alloc::Global;

/// The lengths of the pieces in which a file is given.
const PIECES: [usize; 5] = [1, 2, 3, 7, 65_536];

/// Whether a file gives these rows and this end, in pieces of each length.
pub fn gives(
    alloc: Global,
    shape: &Shape,
    file: &[u8],
    wanted: &[u8],
) -> Result<bool, OutOfMemory> {
    for most in PIECES {
        if !gives_in_pieces(alloc, shape, file, most, wanted)? {
            return Ok(false);
        }
    }
    Ok(true)
}

/// The place of the first file that doesn't give its rows and its end.
pub fn first_wrong(
    alloc: Global,
    shape: &Shape,
    cases: &[(&str, &str)],
) -> Result<Option<usize>, OutOfMemory> {
    for place in 0..cases.len() {
        let (file, rows) = cases[place];
        if !gives(alloc, shape, file.as_bytes(), rows.as_bytes())? {
            return Ok(Some(place));
        }
    }
    Ok(None)
}

/// The same of files with a shape each.
pub fn first_wrong_of(
    alloc: Global,
    cases: &[(Shape, &str, &str)],
) -> Result<Option<usize>, OutOfMemory> {
    for place in 0..cases.len() {
        let (shape, file, rows) = cases[place];
        if !gives(alloc, &shape, file.as_bytes(), rows.as_bytes())? {
            return Ok(Some(place));
        }
    }
    Ok(None)
}

fn gives_in_pieces(
    alloc: Global,
    shape: &Shape,
    file: &[u8],
    most: usize,
    wanted: &[u8],
) -> Result<bool, OutOfMemory> {
    let files = one_file(alloc, "t.csv", file, &[])?;
    let mut files = PieceFiles { files, most };
    let out = report_of(alloc, shape, &mut files)?;
    Ok(out.as_slice() == wanted)
}

/// What the file `t.csv` gives.
pub fn report_of<F: Files>(
    alloc: Global,
    shape: &Shape,
    files: &mut F,
) -> Result<Vec<u8>, OutOfMemory> {
    let schema = schema_of(alloc, shape)?;
    let options = options_of(alloc, shape)?;
    if is_readable(&schema, &options) {
        return read_named(alloc, shape.limits, &schema, &options, files);
    }
    words(alloc, "no columns")
}

// The same with columns and options that were looked at.
fn read_named<F: Files>(
    alloc: Global,
    limits: Limits,
    schema: &Schema,
    options: &CsvOptions,
    files: &mut F,
) -> Result<Vec<u8>, OutOfMemory>
    requires few { length schema.now ≤ 64 }
    requires typed { are_typed schema.now ≡ true }
    requires delimiter { IsDelimiter options.now.delimiter }
{
    let mut rows = rows_within(alloc, limits, schema, options)?;
    match files.open("t.csv") {
        Ok(()) => read_all(alloc, &mut rows, files),
        Err(OpenFault::Missing) => words(alloc, "no file"),
        Err(OpenFault::Failed) => words(alloc, "read fault"),
    }
}

// A reader of the rows of a file.
fn rows_within(
    alloc: Global,
    limits: Limits,
    schema: &Schema,
    options: &CsvOptions,
) -> Result<CsvRows, OutOfMemory>
    requires few { length schema.now ≤ 64 }
    requires typed { are_typed schema.now ≡ true }
    requires delimiter { IsDelimiter options.now.delimiter }
    ensures { IfOk result (λ rows. rows.stage ≢ Failed) }
{
    match limits {
        Limits::Page => CsvRows::new_rows(alloc, schema, options, 4096),
        Limits::Within { text, file } => {
            CsvRows::new_rows_within(alloc, schema, options, text as usize, u64::from(file))
        }
    }
}

fn words(alloc: Global, words: &str) -> Result<Vec<u8>, OutOfMemory> {
    let mut out = Vec::new(alloc);
    put_word(words, &mut out)?;
    Ok(out)
}
