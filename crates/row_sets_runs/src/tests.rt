//! Runs at the pool in memory and at the pool of one thread with 24 frames.

ghost use Rattle.std.specs.Prelude.{◌≡◌, ◌+◌, ◌≤◌, length};

use super::*;
use ooc_io::MemLane;
use ooc_types::{Row, SqlType, Text, Value};
use page_body::{MemPages, PoolFault};
use solo_pool::{Solo, SoloTables};
use std::alloc::{AllocError, Global};
use std::test::Fail;

// A run in memory.
fn in_memory(
    alloc: Global,
    kinds: &[SqlType],
    rows: &[Row],
    others: &[Row],
) -> Result<Option<Report>, PoolFault> {
    let mut pages = MemPages::new_pages(alloc, 4096, 24);
    run(alloc, &mut pages, kinds, rows, others)
}

// A run over a lane that fails at some writes.
fn over_lane(
    alloc: Global,
    failing: Vec<u64>,
    kinds: &[SqlType],
    rows: &[Row],
    others: &[Row],
) -> Result<Option<Report>, PoolFault> {
    let mut lane = MemLane::new_lane(alloc, failing, Vec::new(alloc));
    let mut tables = SoloTables::open_tables(alloc, 4096, 24)?;
    let mut pages = Solo::over(&mut tables, &mut lane);
    run(alloc, &mut pages, kinds, rows, others)
}

// What is to be run: types, rows and the bytes of their texts, rows beside them, and a write that fails.
#[derive(Clone, Copy)]
struct Case<'a> {
    kinds: &'a [SqlType],
    count: u32,
    size: usize,
    nulls: bool,
    others: u32,
    failing: Option<u64>,
    row_pages: usize,
}

// A row whose values depend on its number: where it is to have NULLs, every seventh is one.
fn row_of(alloc: Global, case: &Case, number: u32) -> Result<Row, PoolFault> {
    let mut row = Row::new_row(alloc);
    let mut seed = number;
    for column in 0..case.kinds.len() {
        let value = value_of(alloc, case, case.kinds[column], seed)?;
        seed = seed.saturating_add(1);
        if row.push(value).is_err() {
            return Err(PoolFault::OutOfMemory);
        }
    }
    Ok(row)
}

fn value_of(alloc: Global, case: &Case, kind: SqlType, seed: u32) -> Result<Value, PoolFault> {
    if case.nulls && seed % 7 == 3 {
        return Ok(Value::Null);
    }
    match kind {
        SqlType::Varchar => text_of(alloc, seed, case.size),
        _ => Ok(number_of(kind, seed)),
    }
}

fn number_of(kind: SqlType, seed: u32) -> Value {
    match kind {
        SqlType::Boolean => Value::Truth(seed % 2 == 0),
        SqlType::Date => Value::Day((seed % 20000) as i32),
        SqlType::Decimal { scale, .. } => Value::Number {
            digits: i128::from(seed) - 1000,
            scale,
        },
        _ => Value::Number {
            digits: i128::from(seed) - 1000,
            scale: 0,
        },
    }
}

// A text of so many bytes, of one letter.
fn text_of(alloc: Global, seed: u32, size: usize) -> Result<Value, PoolFault> {
    let mut bytes = Vec::new(alloc);
    let letter = (97 + seed % 26) as u8;
    for _ in 0..size {
        bytes.push(letter)?;
    }
    Ok(Value::Text(Text::from_vec(bytes)))
}

fn rows_of(alloc: Global, case: &Case, count: u32) -> Result<Vec<Row>, PoolFault> {
    let mut rows = Vec::new(alloc);
    for number in 0..count {
        let row = row_of(alloc, case, number)?;
        rows.push(row)?;
    }
    Ok(rows)
}

// Whether a run at one of the pools gives all rows back each way, and the fault beside them that is wanted.
fn is_good(
    report: Result<Option<Report>, PoolFault>,
    case: &Case,
    fault: Option<PoolFault>,
) -> bool {
    match report {
        Ok(Some(report)) => {
            report
                == Report {
                    fault,
                    rows: u64::from(case.count),
                    row_pages: case.row_pages,
                    same: case.count as usize,
                    on_pages: case.count as usize,
                    copied: case.count as usize,
                }
        }
        _ => false,
    }
}

fn fault_of(case: &Case) -> Option<PoolFault> {
    match case.failing {
        Some(_) => Some(PoolFault::Spill),
        None => None,
    }
}

fn try_case(alloc: Global, case: &Case) -> Result<bool, PoolFault> {
    let rows = rows_of(alloc, case, case.count)?;
    let others = rows_of(alloc, case, case.others)?;
    let memory = in_memory(alloc, case.kinds, rows.as_slice(), others.as_slice());
    if !is_good(memory, case, None) {
        return Ok(false);
    }
    let mut failing = Vec::new(alloc);
    if let Some(write) = case.failing {
        failing.push(write)?;
    }
    let lane = over_lane(
        alloc,
        failing,
        case.kinds,
        rows.as_slice(),
        others.as_slice(),
    );
    Ok(is_good(lane, case, fault_of(case)))
}

const PLAIN: [SqlType; 3] = [
    SqlType::BigInt,
    SqlType::Decimal {
        width: 10,
        scale: 2,
    },
    SqlType::Varchar,
];

const EACH: [SqlType; 7] = [
    SqlType::Boolean,
    SqlType::Integer,
    SqlType::BigInt,
    SqlType::HugeInt,
    SqlType::Decimal {
        width: 20,
        scale: 3,
    },
    SqlType::Date,
    SqlType::Varchar,
];

fn case_of<'a>(kinds: &'a [SqlType], count: u32, size: usize, row_pages: usize) -> Case<'a> {
    Case {
        kinds,
        count,
        size,
        nulls: true,
        others: 0,
        failing: None,
        row_pages,
    }
}

fn without_nulls<'a>(case: Case<'a>) -> Case<'a> {
    Case {
        nulls: false,
        ..case
    }
}

// With so many rows beside them, where a write fails.
fn beside<'a>(case: Case<'a>, others: u32, failing: Option<u64>) -> Case<'a> {
    Case {
        others,
        failing,
        ..case
    }
}

// A row of three columns takes 41 bytes, so 96 fit a page; of seven 74, so 53; of 65 numbers 537, so 7; of 64 texts 1,040,
// so 3. 64 texts of 63 bytes fill a heap page. Of 33 such texts one row fits a heap page, so a row page has four.
#[test]
fn rows_come_back_from_a_set_and_from_its_copy(rt: HostRuntime) -> Result<(), Fail> {
    let numbers = [SqlType::BigInt; 65];
    let texts = [SqlType::Varchar; 64];
    let cases = [
        case_of(&PLAIN, 0, 0, 0),
        case_of(&PLAIN, 1, 12, 1),
        case_of(&PLAIN, 96, 13, 1),
        case_of(&PLAIN, 97, 0, 2),
        case_of(&EACH, 300, 5, 6),
        case_of(&numbers, 20, 0, 3),
        without_nulls(case_of(&texts, 7, 63, 3)),
        without_nulls(case_of(&texts[..33], 10, 63, 3)),
        // 32 pages and as many of the copy, in 24 frames.
        beside(case_of(&PLAIN, 1500, 40, 16), 100, None),
        beside(case_of(&PLAIN, 40, 13, 1), 3000, Some(3)),
    ];
    for place in 0..cases.len() {
        let good = try_case(rt.alloc(), &cases[place]);
        assert!(rt; good == Ok(true));
    }
    Ok(())
}

fn put(image: &mut [u8; 4096], place: usize, bytes: &[u8])
    requires long { length image.old ≡ 4096 }
    requires room { place + length bytes.now ≤ 4096 }
    ensures { length image.new ≡ 4096 }
{
    let image: &mut [u8] = image;
    image[place..place + bytes.len()].copy_from_slice(bytes);
}

// A row page of three rows of a number and a text, 29 bytes each, in one part of the heap page 0, which lies in frame 1 at
// the base 4096: 7 and a text of 13 bytes at 4160; NULL and `xy`; -1 and a text of 14 bytes at 4173. Their hashes are 0 to 2.
fn three_rows() -> [u8; 4096]
    ensures { length result ≡ 4096 }
{
    let mut image = [0; 4096];
    put(&mut image, 0, &[1, 0, 0, 0, 29, 0, 0, 0, 3, 0, 0, 0, 1]);
    put(&mut image, 36, &[3, 0, 0, 0, 0, 0, 0, 0, 0, 0, 0, 0, 0, 16]);
    put(
        &mut image,
        137,
        &[7, 0, 0, 0, 13, 0, 0, 0, b'a', b'b', b'c', b'd', 64, 16],
    );
    put(&mut image, 157, &[1, 1]);
    put(&mut image, 170, &[2, 0, 0, 0, b'x', b'y']);
    put(&mut image, 187, &[2]);
    put(
        &mut image,
        195,
        &[
            255, 255, 255, 255, 14, 0, 0, 0, b'n', b'o', b'p', b'q', 77, 16,
        ],
    );
    image
}

// Their heap page: the two long texts behind its head.
fn two_texts() -> [u8; 4096]
    ensures { length result ≡ 4096 }
{
    let mut image = [0; 4096];
    put(&mut image, 0, &[2, 0, 0, 0, 27]);
    put(&mut image, 64, b"abcdefghijklmnopqrstuvwxyzA");
    image
}

// A row of a number or NULL, and a text.
fn pair(alloc: Global, number: Option<i128>, text: &[u8]) -> Result<Row, PoolFault> {
    let mut bytes = Vec::new(alloc);
    for place in 0..text.len() {
        bytes.push(text[place])?;
    }
    let first = match number {
        Some(digits) => Value::Number { digits, scale: 0 },
        None => Value::Null,
    };
    let mut row = Row::new_row(alloc);
    if row.push(first).is_err() {
        return Err(PoolFault::OutOfMemory);
    }
    if row.push(Value::Text(Text::from_vec(bytes))).is_err() {
        return Err(PoolFault::OutOfMemory);
    }
    Ok(row)
}

fn three(alloc: Global) -> Result<Vec<Row>, PoolFault> {
    let mut rows = Vec::new(alloc);
    let first = pair(alloc, Some(7), b"abcdefghijklm")?;
    rows.push(first)?;
    let second = pair(alloc, None, b"xy")?;
    rows.push(second)?;
    let third = pair(alloc, Some(-1), b"nopqrstuvwxyzA")?;
    rows.push(third)?;
    Ok(rows)
}

fn writes_three(alloc: Global, rows: &[u8], heap: &[u8]) -> Result<bool, PoolFault> {
    let written = three(alloc)?;
    let mut pages = MemPages::new_pages(alloc, 4096, 24);
    writes_images(
        alloc,
        &mut pages,
        &[SqlType::Integer, SqlType::Varchar],
        written.as_slice(),
        Images { rows, heap },
    )
}

#[test]
fn pages_have_the_bytes_of_their_format(rt: HostRuntime) -> Result<(), Fail> {
    let rows = three_rows();
    let heap = two_texts();
    let same = writes_three(rt.alloc(), &rows, &heap);
    assert!(rt; same == Ok(true));
    Ok(())
}

fn over_failing_reads(
    alloc: Global,
    failing: &[u64],
    case: &Case,
) -> Result<Option<Again>, PoolFault> {
    let rows = rows_of(alloc, case, case.count)?;
    let mut fails = Vec::new(alloc);
    for place in 0..failing.len() {
        fails.push(failing[place])?;
    }
    let mut lane = MemLane::new_lane(alloc, Vec::new(alloc), fails);
    let mut tables = SoloTables::open_tables(alloc, 4096, 24)?;
    let mut pages = Solo::over(&mut tables, &mut lane);
    run_again(alloc, &mut pages, case.kinds, rows.as_slice())
}

// 32 pages in 24 frames, so pages are read while the set is. A read that fails leaves the cursor before the row.
#[test]
fn rows_are_read_again_where_reads_failed(rt: HostRuntime) -> Result<(), Fail> {
    let case = case_of(&PLAIN, 1500, 40, 16);
    let again = over_failing_reads(rt.alloc(), &[1, 4], &case);
    assert!(rt;
        again
            == Ok(Some(Again {
                same: 1500,
                refused: 2
            }))
    );
    Ok(())
}
