//! Calls of the files that fail.

use crate::pieces::{PieceFiles, one_file};
use crate::report::{put_number, put_word};
use crate::session::report_of;
use crate::shape::{Shape, plain_shape};
use ooc_types::{OutOfMemory, SqlType};
use std::alloc::Global;

const NAMES: [SqlType; 2] = [SqlType::Integer, SqlType::Varchar];

// What a run gives while a call is to fail: all rows and no fault, or some of the first rows and one fault, which is told.
#[derive(Clone, Copy, PartialEq, Eq)]
enum Outcome {
    Whole,
    Cut { rows: bool },
    Wrong,
}

fn run_with(
    alloc: Global,
    shape: &Shape,
    file: &[u8],
    most: usize,
    failing: u64,
    whole: &[u8],
) -> Result<Outcome, OutOfMemory> {
    let files = one_file(alloc, "t.csv", file, &[failing])?;
    let mut files = PieceFiles { files, most };
    let out = report_of(alloc, shape, &mut files)?;
    Ok(judge(out.as_slice(), files.files.fault_count(), whole))
}

fn judge(out: &[u8], faults: u64, whole: &[u8]) -> Outcome {
    if faults == 0 && out == whole {
        return Outcome::Whole;
    }
    if faults == 1 && is_cut(out, whole) {
        return Outcome::Cut {
            rows: out.len() > 10,
        };
    }
    Outcome::Wrong
}

// Whether a front of the whole is followed by a read fault.
fn is_cut(out: &[u8], whole: &[u8]) -> bool {
    if out.len() < 10 {
        return false;
    }
    let front = out.len() - 10;
    &out[front..] == b"read fault".as_slice() && whole.starts_with(&out[..front])
}

// The file is opened, three pieces are read, and the end is found at least once.
#[test]
fn each_call_of_the_files_fails_in_turn(rt: HostRuntime) {
    let shape = plain_shape(&NAMES);
    for failing in 1..16u64 {
        let outcome = run_with(
            rt.alloc(),
            &shape,
            b"id,name\n1,ann\n2,bob\n",
            7,
            failing,
            b"1,'ann';2,'bob';end",
        );
        match outcome {
            Ok(Outcome::Cut { .. }) => assert!(rt; failing < 10, "call {failing}"),
            Ok(Outcome::Whole) => assert!(rt; failing > 5, "call {failing}"),
            _ => assert!(rt; false, "call {failing}"),
        }
    }
}

// So many numbered names behind a header.
fn numbered_file(alloc: Global, count: u32) -> Result<Vec<u8>, OutOfMemory> {
    let mut out = Vec::new(alloc);
    put_word("id,name\n", &mut out)?;
    for number in 0..count {
        put_number(alloc, i128::from(number), &mut out)?;
        put_word(",name ", &mut out)?;
        put_number(alloc, i128::from(number), &mut out)?;
        put_word("\n", &mut out)?;
    }
    Ok(out)
}

// Their rows.
fn numbered_rows(alloc: Global, count: u32) -> Result<Vec<u8>, OutOfMemory> {
    let mut out = Vec::new(alloc);
    for number in 0..count {
        put_number(alloc, i128::from(number), &mut out)?;
        put_word(",'name ", &mut out)?;
        put_number(alloc, i128::from(number), &mut out)?;
        put_word("';", &mut out)?;
    }
    put_word("end", &mut out)?;
    Ok(out)
}

// What a run over 10,000 rows gives, which are read by three calls at least.
fn run_long(alloc: Global, failing: u64) -> Result<Outcome, OutOfMemory> {
    let file = numbered_file(alloc, 10_000)?;
    let rows = numbered_rows(alloc, 10_000)?;
    run_with(
        alloc,
        &plain_shape(&NAMES),
        file.as_slice(),
        65_536,
        failing,
        rows.as_slice(),
    )
}

#[test]
fn rows_come_before_a_call_that_fails(rt: HostRuntime) {
    assert!(rt; run_long(rt.alloc(), 1) == Ok(Outcome::Cut { rows: false }));
    assert!(rt; run_long(rt.alloc(), 2) == Ok(Outcome::Cut { rows: false }));
    assert!(rt; run_long(rt.alloc(), 3) == Ok(Outcome::Cut { rows: true }));
    assert!(rt; run_long(rt.alloc(), 4) == Ok(Outcome::Cut { rows: true }));
    assert!(rt; run_long(rt.alloc(), 1000) == Ok(Outcome::Whole));
}
