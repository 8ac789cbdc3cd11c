//! Scripts that are refused: the exit status is 1, and what was printed before stands.
use crate::runs::{SMALL, WORDS, expect, expect_files};
use std::test::Fail;

const ROWS: &str = "a,s\n1,x\n2,y\n";

const TABLE: &str = "CREATE TABLE t (a INTEGER NOT NULL, s VARCHAR); COPY t FROM 't.csv'; ";

/// What follows the table, and what is written.
static REFUSED: [(&str, &str); 21] = [
    // The whole script is read first: nothing runs.
    (
        "SELECT a FROM t; SELECT ^",
        "error: script at 93: bad token\n",
    ),
    (
        "SELECT a FROM t; SELECT a a a",
        "error: script at 97: syntax\n",
    ),
    // Statements are bound when their turn comes.
    ("SELECT a FROM u", "error: statement 3 at 83: no table\n"),
    (
        "SELECT a FROM t WHERE a = 1; SELECT b FROM t",
        "a\n1\n\nerror: statement 4 at 105: no column\n",
    ),
    (
        "CREATE TABLE T (a INT)",
        "error: statement 3 at 82: table exists\n",
    ),
    (
        "DROP TABLE t; SELECT a FROM t",
        "error: statement 4 at 97: no table\n",
    ),
    (
        "SELECT a + s FROM t",
        "error: statement 3 at 78: type mismatch\n",
    ),
    (
        "EXPLAIN SELECT z FROM t",
        "error: statement 3 at 84: no column\n",
    ),
    (
        "COPY u FROM 't.csv'",
        "error: statement 3 at 74: no table\n",
    ),
    // What isn't run yet is bound first, and the statements before it ran.
    (
        "SELECT a FROM t GROUP BY b",
        "error: statement 3 at 94: no column\n",
    ),
    (
        "SELECT a FROM t GROUP BY a",
        "error: statement 3: not built\n",
    ),
    ("SELECT count(*) FROM t", "error: statement 3: not built\n"),
    (
        "SELECT DISTINCT a FROM t",
        "error: statement 3: not built\n",
    ),
    (
        "SELECT t.a FROM t CROSS JOIN t AS u",
        "error: statement 3: not built\n",
    ),
    (
        "SELECT a FROM t UNION ALL SELECT a FROM t",
        "error: statement 3: not built\n",
    ),
    (
        "SELECT q.a FROM (SELECT a FROM t) AS q",
        "error: statement 3: not built\n",
    ),
    (
        "SELECT a FROM t WHERE a IN (SELECT a FROM t)",
        "error: statement 3: not built\n",
    ),
    (
        "SELECT s FROM t WHERE a = 2; SELECT max(a) FROM t; SELECT a FROM t",
        "s\ny\n\nerror: statement 4: not built\n",
    ),
    // A fault is noted before the size, whichever row has it.
    (
        "SELECT a + 2147483646 FROM t",
        "error: statement 3: overflow\n",
    ),
    (
        "SELECT a FROM t WHERE a * 2147483647 > 0",
        "error: statement 3: overflow\n",
    ),
    (
        "SELECT a FROM t WHERE a + 2147483646 > 0 LIMIT 1",
        "error: statement 3: overflow\n",
    ),
];

#[test]
fn the_first_refusal_ends_the_run(rt: HostRuntime) -> Result<(), Fail> {
    let alloc = rt.alloc();
    for (asked, out) in &REFUSED {
        let mut script = String::from_str(alloc, TABLE)?;
        script.push_str(asked)?;
        expect(&rt, alloc, script.as_str(), ROWS, 1, out)?;
    }
    Ok(())
}

/// Files that are refused, and what is written.
static FILES: [(&str, &str); 8] = [
    (
        "a,s\n1,x\n,y\n",
        "error: statement 2 record 2 column 1: null refused\n",
    ),
    (
        "a,s\n1,x\n2\n",
        "error: statement 2 record 2 column 0: field count\n",
    ),
    (
        "a,s\n1,x\n2,y,z\n",
        "error: statement 2 record 2 column 0: field count\n",
    ),
    (
        "a,s\none,x\n",
        "error: statement 2 record 1 column 1: bad value\n",
    ),
    (
        "a,s\n2147483648,x\n",
        "error: statement 2 record 1 column 1: bad value\n",
    ),
    (
        "a,s\n1,\"x\n",
        "error: statement 2 record 1 column 2: open quote\n",
    ),
    (
        "a,s\n1.0,x\n",
        "error: statement 2 record 1 column 1: bad value\n",
    ),
    (
        "a,s\n1,x\n1,x\n1,x\n-,x\n",
        "error: statement 2 record 4 column 1: bad value\n",
    ),
];

#[test]
fn a_file_is_refused_at_its_first_bad_record(rt: HostRuntime) -> Result<(), Fail> {
    let alloc = rt.alloc();
    let mut script = String::from_str(alloc, TABLE)?;
    script.push_str("SELECT a FROM t")?;
    for (csv, out) in &FILES {
        expect(&rt, alloc, script.as_str(), csv, 1, out)?;
    }
    Ok(())
}

#[test]
fn missing_files_are_told(rt: HostRuntime) -> Result<(), Fail> {
    let alloc = rt.alloc();
    let out = "error: statement 2 record 0 column 0: no file\n";
    expect_files(&rt, alloc, WORDS, &[("s.sql", TABLE.as_bytes())], 1, out)?;
    let out = "error: script: no file\n";
    expect_files(&rt, alloc, WORDS, &[("t.csv", ROWS.as_bytes())], 1, out)
}

/// A text may be as long as the page allows: 63 bytes with the smallest page.
#[test]
fn the_page_bounds_texts(rt: HostRuntime) -> Result<(), Fail> {
    let alloc = rt.alloc();
    let script = "CREATE TABLE t (a VARCHAR); COPY t FROM 't.csv'; SELECT a FROM t";
    let text = "123456789012345678901234567890123456789012345678901234567890abc";
    let mut csv = String::from_str(alloc, "a\n")?;
    csv.push_str(text)?;
    let mut out = String::from_str(alloc, csv.as_str())?;
    out.push_str("\n\n")?;
    let given: [(&str, &[u8]); 2] = [("s.sql", script.as_bytes()), ("t.csv", csv.as_bytes())];
    expect_files(&rt, alloc, SMALL, &given, 0, out.as_str())?;
    csv.push_str("d")?;
    let given: [(&str, &[u8]); 2] = [("s.sql", script.as_bytes()), ("t.csv", csv.as_bytes())];
    let out = "error: statement 2 record 1 column 1: text too long\n";
    expect_files(&rt, alloc, SMALL, &given, 1, out)
}
