//! Files that are missing, and calls of the files and of the lane that fail.

use crate::session::{put_outcome, table_of};
use crate::tests::lanes::{lane_failing, load_over};
use crate::tests::numbered::{numbered_file, numbered_rows, numbered_shape};
use csv_runs::one_file;
use ooc_types::OutOfMemory;
use std::alloc::Global;

// What a load gives: all rows and no fault; or a fault of the files or of the lane, which is told and counted, behind no row
// or some of the first.
#[derive(Clone, Copy, PartialEq, Eq)]
enum Outcome {
    Whole,
    Unread,
    Unspilled { rows: bool },
    Wrong,
}

// How often calls of the files and of the lane failed, and what is left of a load: pins and open pages, and pages that rest.
#[derive(Clone, Copy)]
struct Left {
    files: u64,
    lane: u64,
    held: u32,
    live: u64,
}

fn judge(out: &[u8], left: Left, rows: &[u8]) -> Outcome {
    if left.held != 0 || left.live != 0 {
        return Outcome::Wrong;
    }
    if left.files == 0 && left.lane == 0 && out == rows {
        return Outcome::Whole;
    }
    if left.files == 1 && left.lane == 0 && out == b"read fault".as_slice() {
        return Outcome::Unread;
    }
    if left.files == 0 && left.lane == 1 && is_cut(out, rows) {
        return Outcome::Unspilled {
            rows: out.len() > 11,
        };
    }
    Outcome::Wrong
}

// Whether a front of the rows is followed by a spill fault.
fn is_cut(out: &[u8], rows: &[u8]) -> bool {
    if out.len() < 11 {
        return false;
    }
    let front = out.len() - 11;
    &out[front..] == b"spill fault".as_slice() && rows.starts_with(&out[..front])
}

// A load of 3,000 rows in which a call of the files, a write to the lane and a read of it are to fail, by their numbers.
fn load_failing(alloc: Global, call: u64, write: u64, read: u64) -> Result<Outcome, OutOfMemory> {
    let table = table_of(alloc, &numbered_shape())?;
    let mut files = numbered_file(alloc, 3000, "", call)?;
    let mut lane = lane_failing(alloc, write, read)?;
    let mut out = Vec::new(alloc);
    let run = load_over(alloc, &mut lane, &mut files, &table, &mut out)?;
    put_outcome(alloc, run.loaded, &mut out)?;
    let left = Left {
        files: files.fault_count(),
        lane: lane.lane.fault_count(),
        held: run.held,
        live: lane.live,
    };
    let rows = numbered_rows(alloc, 3000)?;
    Ok(judge(out.as_slice(), left, rows.as_slice()))
}

// The file has more than 131,072 bytes, so it is opened, read three times, and found at its end.
#[test]
fn each_call_of_the_files_fails_in_turn(rt: HostRuntime) {
    for call in 1..6u64 {
        assert!(rt;
            load_failing(rt.alloc(), call, 0, 0) == Ok(Outcome::Unread),
            "call {call}"
        );
    }
    assert!(rt; load_failing(rt.alloc(), 1000, 0, 0) == Ok(Outcome::Whole));
}

// The rows take 32 pages and their texts more, so at least 8 of them are written while the file is loaded.
#[test]
fn each_call_of_the_lane_fails_in_turn(rt: HostRuntime) {
    for write in 1..9u64 {
        assert!(rt;
            load_failing(rt.alloc(), 0, write, 0) == Ok(Outcome::Unspilled { rows: false }),
            "write {write}"
        );
    }
    for write in 9..60u64 {
        let outcome = load_failing(rt.alloc(), 0, write, 0);
        assert!(rt;
            outcome == Ok(Outcome::Unspilled { rows: false })
                || outcome == Ok(Outcome::Unspilled { rows: true })
                || outcome == Ok(Outcome::Whole),
            "write {write}"
        );
    }
    // The first page was written, and is read where the first row is.
    assert!(rt; load_failing(rt.alloc(), 0, 0, 1) == Ok(Outcome::Unspilled { rows: false }));
    assert!(rt; load_failing(rt.alloc(), 0, 0, 5) == Ok(Outcome::Unspilled { rows: true }));
    assert!(rt; load_failing(rt.alloc(), 0, 1000, 1000) == Ok(Outcome::Whole));
}

// Whether a load that finds no file says so, and counts no fault.
fn misses(alloc: Global) -> Result<bool, OutOfMemory> {
    let table = table_of(alloc, &numbered_shape())?;
    let mut files = one_file(alloc, "T.csv", b"id\n", &[1])?;
    let mut lane = lane_failing(alloc, 0, 0)?;
    let mut out = Vec::new(alloc);
    let run = load_over(alloc, &mut lane, &mut files, &table, &mut out)?;
    put_outcome(alloc, run.loaded, &mut out)?;
    Ok(out.as_slice() == b"record 0 column 0: no file".as_slice() && files.fault_count() == 0)
}

// Its call is listed to fail, which makes no difference.
#[test]
fn a_missing_file_is_no_fault(rt: HostRuntime) {
    assert!(rt; misses(rt.alloc()) == Ok(true));
}
