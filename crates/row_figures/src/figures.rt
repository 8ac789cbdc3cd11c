//! What is measured, and over which rows.
ghost use Rattle.std.specs.Prelude.{◌≡◌};
ghost use Rattle.page_body.specs.MemView.{mem_view};

use crate::work::{copy_set, read_set, write_often};
use ooc_types::{Row, SqlType, Text, Value};
use page_body::{MemPages, PoolFault};
use std::alloc::Global;

/// A column of a page that is read, rows that are written, or a set that is copied.
#[derive(Clone, Copy, Debug, PartialEq, Eq)]
pub enum Figure {
    Read(u32),
    Make,
    Write,
    Copy,
}

const KINDS: [SqlType; 4] = [
    SqlType::BigInt,
    SqlType::Decimal {
        width: 10,
        scale: 2,
    },
    SqlType::Varchar,
    SqlType::Varchar,
];

const SHORT_KINDS: [SqlType; 3] = [
    SqlType::BigInt,
    SqlType::Decimal {
        width: 10,
        scale: 2,
    },
    SqlType::Varchar,
];

/// How many rows are written or copied in a round. 4,000 of them lie on the page that is read.
const ROWS: u32 = 50000;

/// A column's number, or `make`, `write` or `copy`.
pub fn figure_of(word: &str) -> Figure {
    match word.as_bytes() {
        b"make" => Figure::Make,
        b"write" => Figure::Write,
        b"copy" => Figure::Copy,
        _ => Figure::Read(number(word)),
    }
}

/// The number that the digits of a word make.
pub fn number(word: &str) -> u32 {
    let mut value: u32 = 0;
    for &byte in word.as_bytes() {
        if byte >= b'0' {
            value = value
                .saturating_mul(10)
                .saturating_add(u32::from(byte - b'0'));
        }
    }
    value
}

fn text(alloc: Global, bytes: &[u8]) -> Result<Value, PoolFault> {
    let mut made = Vec::new(alloc);
    for place in 0..bytes.len() {
        made.push(bytes[place])?;
    }
    Ok(Value::Text(Text::from_vec(made)))
}

fn push(row: &mut Row, value: Value) -> Result<(), PoolFault> {
    match row.push(value) {
        Ok(()) => Ok(()),
        Err(_) => Err(PoolFault::OutOfMemory),
    }
}

// A row of two numbers and a short text, and a long one where it is wanted.
fn row_of(alloc: Global, digits: u32, long: bool) -> Result<Row, PoolFault> {
    let mut row = Row::new_row(alloc);
    let first = Value::Number {
        digits: i128::from(digits),
        scale: 0,
    };
    let second = Value::Number {
        digits: i128::from(digits),
        scale: 2,
    };
    push(&mut row, first)?;
    push(&mut row, second)?;
    let short = text(alloc, b"abcdefgh")?;
    push(&mut row, short)?;
    if long {
        let last = text(alloc, b"abcdefghijklmnopqrstuvwx")?;
        push(&mut row, last)?;
    }
    Ok(row)
}

fn rows_of(alloc: Global, count: u32, long: bool) -> Result<Vec<Row>, PoolFault> {
    let mut rows = Vec::new(alloc);
    for digits in 0..count {
        let row = row_of(alloc, digits, long)?;
        rows.push(row)?;
    }
    Ok(rows)
}

/// Does one thing so often, on pages of 262,144 bytes.
pub fn measure(alloc: Global, figure: Figure, rounds: u32) -> Result<u64, PoolFault> {
    match figure {
        Figure::Read(column) => read_rows(alloc, column, rounds),
        Figure::Make => make_rows(alloc),
        Figure::Write => write_rows(alloc, rounds),
        Figure::Copy => copy_rows(alloc, rounds),
    }
}

// An empty pool of pages of 262,144 bytes.
fn new_pool(alloc: Global) -> MemPages
    ensures grant { (mem_view result).grant ≡ 24 }
    ensures held { (mem_view result).held ≡ 0 }
{
    MemPages::new_pages(alloc, 262144, 24)
}

fn read_rows(alloc: Global, column: u32, rounds: u32) -> Result<u64, PoolFault> {
    let rows = rows_of(alloc, 4000, true)?;
    let mut pages = new_pool(alloc);
    read_set(alloc, &mut pages, &KINDS, rows.as_slice(), column, rounds)
}

fn make_rows(alloc: Global) -> Result<u64, PoolFault> {
    let rows = rows_of(alloc, ROWS, false)?;
    Ok(rows.len() as u64)
}

fn write_rows(alloc: Global, rounds: u32) -> Result<u64, PoolFault> {
    let rows = rows_of(alloc, ROWS, false)?;
    let mut pages = new_pool(alloc);
    write_often(alloc, &mut pages, &SHORT_KINDS, rows.as_slice(), rounds)
}

fn copy_rows(alloc: Global, rounds: u32) -> Result<u64, PoolFault> {
    let rows = rows_of(alloc, ROWS, false)?;
    let mut pages = new_pool(alloc);
    copy_set(alloc, &mut pages, &SHORT_KINDS, rows.as_slice(), rounds)
}
