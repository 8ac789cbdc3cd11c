//! Files of more rows than the frames hold.

use crate::session::{Counts, table_of};
use crate::tests::lanes::{Run, lane_failing, load_both_over, load_over};
use crate::tests::numbered::{numbered_file, numbered_rows, numbered_shape};
use ooc_types::OutOfMemory;
use std::alloc::Global;
use std::test::Fail;

// What came of a load, how many pages were written to the lane, how many of them weren't given up, and whether the rows
// that were read back are those of the file.
#[derive(Clone, Copy)]
struct Seen {
    run: Run,
    writes: u64,
    live: u64,
    same: bool,
}

fn load_numbered(alloc: Global, count: u32) -> Result<Seen, OutOfMemory> {
    let table = table_of(alloc, &numbered_shape())?;
    let mut files = numbered_file(alloc, count, "", 0)?;
    let mut lane = lane_failing(alloc, 0, 0)?;
    let mut out = Vec::new(alloc);
    let run = load_over(alloc, &mut lane, &mut files, &table, &mut out)?;
    let rows = numbered_rows(alloc, count)?;
    Ok(Seen {
        run,
        writes: lane.lane.write_count(),
        live: lane.live,
        same: out.as_slice() == rows.as_slice(),
    })
}

// A row takes 41 bytes, so 96 fit a page, and 6,000 rows take 63 pages, of which 24 frames hold 24.
#[test]
fn six_thousand_rows_are_read_back(rt: HostRuntime) -> Result<(), Fail> {
    match load_numbered(rt.alloc(), 6000) {
        Ok(seen) => {
            let counts = Counts {
                rows: 6000,
                row_pages: 63,
            };
            assert!(rt; seen.run.loaded == Ok(counts));
            assert_eq!(rt; seen.run.held, 0);
            assert!(rt; seen.same);
            assert!(rt; seen.writes >= 39);
            // The set was retired.
            assert_eq!(rt; seen.live, 0);
        }
        Err(_) => assert!(rt; false, "there is memory"),
    }
    Ok(())
}

// What comes of a file that is refused at its end, and of a good one behind it in the same pool; and how many pages of both
// are left at the lane.
fn load_refused_and_good(alloc: Global, count: u32) -> Result<(bool, u64), OutOfMemory> {
    let table = table_of(alloc, &numbered_shape())?;
    let mut refused = numbered_file(alloc, count, "x,1,2024-02-29,y\n", 0)?;
    let mut good = numbered_file(alloc, count, "", 0)?;
    let mut lane = lane_failing(alloc, 0, 0)?;
    let mut out = Vec::new(alloc);
    load_both_over(alloc, &mut lane, &mut refused, &mut good, &table, &mut out)?;
    let rows = numbered_rows(alloc, count)?;
    Ok((is_refusal_and(out.as_slice(), rows.as_slice()), lane.live))
}

// Whether a text is the refusal of the record 6,001 and then these rows.
fn is_refusal_and(text: &[u8], rows: &[u8]) -> bool {
    let refusal = b"record 6001 column 1: bad value ".as_slice();
    let front = refusal.len().min(text.len());
    &text[..front] == refusal && &text[front..] == rows
}

#[test]
fn a_refused_file_leaves_no_page(rt: HostRuntime) {
    assert!(rt; load_refused_and_good(rt.alloc(), 6000) == Ok((true, 0)));
}
