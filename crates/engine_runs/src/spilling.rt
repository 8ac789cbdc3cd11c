//! Tables larger than the pool: 24 frames of 4,096 bytes.
use crate::runs::{Failing, NOTHING, ROOM, SMALL, WORDS, run, shown};
use std::alloc::Global;
use std::fmt::Write;
use std::test::Fail;

/// So many rows: a number, its half with two digits behind the point, and a text of 16 bytes, which lies on a heap page.
fn rows(alloc: Global, count: u64) -> Result<String, Fail> {
    let mut csv = String::from_str(alloc, "k,d,s\n")?;
    for k in 0..count {
        write!(csv, "{},{}.50,text-{:011}\n", k, k / 2, k)?;
    }
    Ok(csv)
}

const SCRIPT: &str =
    "CREATE TABLE t (k INTEGER, d DECIMAL(12,2), s VARCHAR); COPY t FROM 't.csv'; SELECT k FROM t WHERE k < 2; SELECT s, d FROM t WHERE s = 'text-00000005999' OR k = 3000; SELECT k FROM t ORDER BY k DESC LIMIT 3;";

const OUT: &str =
    "k\n0\n1\n\ns,d\ntext-00000003000,1500.50\ntext-00000005999,2999.50\n\nk\n5999\n5998\n5997\n\n";

#[test]
fn a_table_larger_than_the_pool_is_asked(rt: HostRuntime) -> Result<(), Fail> {
    let alloc = rt.alloc();
    let csv = rows(alloc, 6000)?;
    let given: [(&str, &[u8]); 2] = [
        ("s.sql", SCRIPT.as_bytes()),
        ("t.csv", csv.as_str().as_bytes()),
    ];
    let ended = run(&rt, alloc, SMALL, &given, NOTHING, ROOM)?;
    assert_eq!(rt; shown(ended.out.as_slice()), OUT);
    assert_eq!(rt; ended.status.code(), 0);
    assert_eq!(rt; ended.lane, 0);
    // A row takes at least 1 + 8 + 3 * 16 = 57 bytes less what its types save, so there are more than 24 pages.
    assert!(rt; ended.writes > 24, "{}", ended.writes);
    // With an ample limit nothing is spilled, and the output is the same.
    let ended = run(&rt, alloc, WORDS, &given, NOTHING, ROOM)?;
    assert_eq!(rt; shown(ended.out.as_slice()), OUT);
    assert_eq!(rt; ended.writes, 0);
    Ok(())
}

/// One row, which is asked, and then a table that doesn't fit.
const LATER: &str =
    "CREATE TABLE u (k INTEGER); COPY u FROM 'u.csv'; SELECT k FROM u; CREATE TABLE t (k INTEGER, d DECIMAL(12,2), s VARCHAR); COPY t FROM 't.csv'; SELECT k FROM t WHERE k = 2999; SELECT k FROM u;";

const LATER_OUT: &str = "k\n1\n\nk\n2999\n\nk\n1\n\n";

#[test]
fn each_write_to_the_lane_fails(rt: HostRuntime) -> Result<(), Fail> {
    let alloc = rt.alloc();
    let csv = rows(alloc, 3000)?;
    let given: [(&str, &[u8]); 3] = [
        ("s.sql", LATER.as_bytes()),
        ("t.csv", csv.as_str().as_bytes()),
        ("u.csv", b"k\n1\n".as_slice()),
    ];
    let whole = run(&rt, alloc, SMALL, &given, NOTHING, ROOM)?;
    assert_eq!(rt; shown(whole.out.as_slice()), LATER_OUT);
    let writes = whole.writes;
    assert!(rt; writes > 3, "{writes}");
    for call in 1..=6u64 {
        let failing = Failing {
            writes: call * call,
            ..NOTHING
        };
        let ended = run(&rt, alloc, SMALL, &given, failing, ROOM)?;
        if call * call <= writes {
            assert_eq!(rt;
                shown(ended.out.as_slice()),
                "k\n1\n\nerror: spill fault\n",
                "write {}",
                call * call
            );
            assert_eq!(rt; ended.status.code(), 5);
            assert_eq!(rt; ended.lane, 1);
            assert_eq!(rt; ended.writes, call * call - 1);
        } else {
            assert_eq!(rt; shown(ended.out.as_slice()), LATER_OUT);
            assert_eq!(rt; ended.status.code(), 0);
        }
    }
    Ok(())
}

#[test]
fn reads_from_the_lane_fail(rt: HostRuntime) -> Result<(), Fail> {
    let alloc = rt.alloc();
    let csv = rows(alloc, 3000)?;
    let given: [(&str, &[u8]); 3] = [
        ("s.sql", LATER.as_bytes()),
        ("t.csv", csv.as_str().as_bytes()),
        ("u.csv", b"k\n1\n".as_slice()),
    ];
    for call in 1..=4u64 {
        let failing = Failing {
            reads: call,
            ..NOTHING
        };
        let ended = run(&rt, alloc, SMALL, &given, failing, ROOM)?;
        assert_eq!(rt; ended.status.code(), 5, "read {call}");
        assert_eq!(rt;
            shown(ended.out.as_slice()),
            "k\n1\n\nerror: spill fault\n",
            "read {call}"
        );
        assert_eq!(rt; ended.lane, 1, "read {call}");
    }
    Ok(())
}
