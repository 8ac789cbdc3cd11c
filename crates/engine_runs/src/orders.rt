//! ORDER BY, LIMIT and OFFSET.
use crate::runs::expect;
use std::fmt::Write;
use std::test::Fail;

const TABLE: &str = "CREATE TABLE t (a INTEGER, b DECIMAL(4,1), s VARCHAR); COPY t FROM 't.csv'; ";

const ROWS: &str = "a,b,s\n2,1.5,x\n,0,y\n1,-1,\n2,,x\n1,10,Z\n-3,1.5,abcdefghijklmnop\n";

/// What is asked, and what is written.
static ASKED: [(&str, &str); 12] = [
    (
        "SELECT a, s FROM t ORDER BY a",
        "a,s\n-3,abcdefghijklmnop\n1,Z\n1,NULL\n2,x\n2,x\nNULL,y\n\n",
    ),
    // NULL comes last in both directions.
    (
        "SELECT a, s FROM t ORDER BY a DESC",
        "a,s\n2,x\n2,x\n1,Z\n1,NULL\n-3,abcdefghijklmnop\nNULL,y\n\n",
    ),
    // Texts by their bytes.
    (
        "SELECT s FROM t ORDER BY s",
        "s\nZ\nabcdefghijklmnop\nx\nx\ny\nNULL\n\n",
    ),
    // Two keys, and then the output columns from left to right.
    (
        "SELECT b, a FROM t ORDER BY b DESC, a",
        "b,a\n10.0,1\n1.5,-3\n1.5,2\n0.0,NULL\n-1.0,1\nNULL,2\n\n",
    ),
    (
        "SELECT s, a, b FROM t ORDER BY 1 DESC",
        "s,a,b\ny,NULL,0.0\nx,2,1.5\nx,2,NULL\nabcdefghijklmnop,-3,1.5\nZ,1,10.0\nNULL,1,-1.0\n\n",
    ),
    // Without ORDER BY a limit sorts by all columns.
    ("SELECT a FROM t LIMIT 2", "a\n-3\n1\n\n"),
    ("SELECT a FROM t OFFSET 4", "a\n2\nNULL\n\n"),
    ("SELECT a FROM t ORDER BY a LIMIT 2 OFFSET 3", "a\n2\n2\n\n"),
    ("SELECT a FROM t ORDER BY a LIMIT 0", "a\n\n"),
    ("SELECT a FROM t ORDER BY a OFFSET 7", "a\n\n"),
    (
        "SELECT a FROM t ORDER BY a DESC LIMIT 99999999999999999999999999999999999999 OFFSET 5",
        "a\nNULL\n\n",
    ),
    // An order by an item, of the rows that WHERE keeps.
    (
        "SELECT a * 2 AS twice, b FROM t WHERE b > 0 ORDER BY twice DESC, b DESC",
        "twice,b\n4,1.5\n2,10.0\n-6,1.5\n\n",
    ),
];

#[test]
fn rows_come_in_their_order(rt: HostRuntime) -> Result<(), Fail> {
    let alloc = rt.alloc();
    for (asked, out) in &ASKED {
        let mut script = String::from_str(alloc, TABLE)?;
        script.push_str(asked)?;
        expect(&rt, alloc, script.as_str(), ROWS, 0, out)?;
    }
    Ok(())
}

/// A table of many rows, the keys 0 to 2,999 in a mixed order.
#[test]
fn many_rows_are_sorted(rt: HostRuntime) -> Result<(), Fail> {
    let alloc = rt.alloc();
    let mut csv = String::from_str(alloc, "a,b,s\n")?;
    let mut out = String::from_str(alloc, "a\n")?;
    for k in 0..3000u64 {
        write!(csv, "{},,\n", k * 1009 % 3000)?;
        write!(out, "{k}\n")?;
    }
    out.push_str("\n")?;
    let mut script = String::from_str(alloc, TABLE)?;
    script.push_str("SELECT a FROM t ORDER BY a")?;
    expect(&rt, alloc, script.as_str(), csv.as_str(), 0, out.as_str())
}
