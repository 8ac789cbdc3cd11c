//! A file of numbered rows, and its rows as they are to be read back.

use csv_runs::{Shape, one_file, plain_shape, put_number, put_word};
use ooc_io::MemFiles;
use ooc_types::{OutOfMemory, SqlType};
use std::alloc::Global;

static KINDS: [SqlType; 4] = [
    SqlType::Integer,
    SqlType::Decimal {
        width: 12,
        scale: 2,
    },
    SqlType::Date,
    SqlType::Varchar,
];

/// How such a file is read.
pub fn numbered_shape() -> Shape<'static> {
    plain_shape(&KINDS)
}

/// A header, so many rows, and what stands behind them.
pub fn numbered_file(
    alloc: Global,
    count: u32,
    behind: &str,
    failing: u64,
) -> Result<MemFiles, OutOfMemory> {
    let mut out = Vec::new(alloc);
    put_word("id,amount,day,name\n", &mut out)?;
    for number in 0..count {
        put_record(alloc, number, &mut out)?;
    }
    put_word(behind, &mut out)?;
    one_file(alloc, "t.csv", out.as_slice(), &[failing])
}

fn put_record(alloc: Global, number: u32, out: &mut Vec<u8>) -> Result<(), OutOfMemory> {
    put_number(alloc, i128::from(number), out)?;
    put_word(",", out)?;
    put_number(alloc, i128::from(number), out)?;
    put_word(".505,2024-02-29,", out)?;
    if number % 7 == 3 {
        return put_word("\r\n", out);
    }
    put_word("\"customer \"\"", out)?;
    put_number(alloc, i128::from(number), out)?;
    put_word("\"\", long\"\r\n", out)
}

/// The rows of such a file. An amount is a half of a hundredth more than it can be, and so is rounded up.
pub fn numbered_rows(alloc: Global, count: u32) -> Result<Vec<u8>, OutOfMemory> {
    let mut out = Vec::new(alloc);
    for number in 0..count {
        put_wanted(alloc, number, &mut out)?;
    }
    put_word("end", &mut out)?;
    Ok(out)
}

fn put_wanted(alloc: Global, number: u32, out: &mut Vec<u8>) -> Result<(), OutOfMemory> {
    put_number(alloc, i128::from(number), out)?;
    put_word(",", out)?;
    put_number(alloc, i128::from(number) * 100 + 51, out)?;
    put_word(":2,day 19782,", out)?;
    if number % 7 == 3 {
        return put_word("NULL;", out);
    }
    put_word("'customer \"", out)?;
    put_number(alloc, i128::from(number), out)?;
    put_word("\", long';", out)
}
