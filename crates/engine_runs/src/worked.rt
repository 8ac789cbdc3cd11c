//! Worked scripts: the file `t.csv`, the script, the exit status, and what is written.
use crate::runs::{SMALL, expect, expect_files};
use std::test::Fail;

const ROWS: &str = "id,name\n1,ann\n2,bob\n3,cy\n";

/// Scripts over one file.
static SINGLE: [(&str, &str, u8, &str); 17] = [
    (
        "CREATE TABLE t (id INTEGER, name VARCHAR); COPY t FROM 't.csv'; SELECT name FROM t WHERE id = 2;",
        ROWS,
        0,
        "name\nbob\n\n",
    ),
    (
        "CREATE TABLE t (id INTEGER, name VARCHAR); COPY t FROM 't.csv'; SELECT * FROM t;",
        "id,name\n",
        0,
        "id,name\n\n",
    ),
    // A sum outside its type.
    (
        "CREATE TABLE t (x BIGINT); COPY t FROM 't.csv'; SELECT x + 1 AS y FROM t;",
        "x\n9223372036854775807\n9223372036854775807\n",
        1,
        "error: statement 3: overflow\n",
    ),
    (
        "CREATE TABLE t (x BIGINT); COPY t FROM 't.csv'; SELECT x // -1 AS y FROM t;",
        "x\n-9223372036854775808\n",
        1,
        "error: statement 3: overflow\n",
    ),
    // A condition without a value comes behind a plain one that is false.
    (
        "CREATE TABLE t (x BIGINT); COPY t FROM 't.csv'; SELECT x FROM t WHERE x * x > 5 AND x < 1000;",
        "x\n3\n4000000000\n",
        0,
        "x\n3\n\n",
    ),
    (
        "CREATE TABLE t (x BIGINT); COPY t FROM 't.csv'; SELECT x FROM t WHERE x * x > 5;",
        "x\n3\n4000000000\n",
        1,
        "error: statement 3: overflow\n",
    ),
    // A quoted text with quotes and a line feed, and lines that end in CR LF.
    (
        "CREATE TABLE t (id INTEGER, s VARCHAR); COPY t FROM 't.csv'; SELECT * FROM t;",
        "id,s\r\n1,\"a,\"\"b\"\"\nc\"\r\n",
        0,
        "id,s\n1,\"a,\"\"b\"\"\nc\"\n\n",
    ),
    (
        "CREATE TABLE t (id INTEGER, name VARCHAR); COPY t FROM 't.csv'; SELECT name FROM t WHERE id = 2;",
        "id,name\n1,x\n2,\"abc",
        1,
        "error: statement 2 record 2 column 2: open quote\n",
    ),
    (
        "CREATE TABLE t (a INTEGER, b INTEGER); COPY t FROM 't.csv'; SELECT a, b FROM t ORDER BY a DESC LIMIT 2;",
        "a,b\n1,5\n2,3\n2,1\n2,4\n",
        0,
        "a,b\n2,1\n2,3\n\n",
    ),
    (
        "CREATE TABLE t (x INTEGER); COPY t FROM 't.csv'; SELECT x // 2 AS q, x % 2 AS r, x // 0 AS z, 1.10 * 2.5 AS p FROM t;",
        "x\n-7\n",
        0,
        "q,r,z,p\n-3,-1,NULL,2.750\n\n",
    ),
    // Each type, as it is printed.
    (
        "CREATE TABLE t (a BOOLEAN, b BIGINT, c HUGEINT, d DECIMAL(5,2), e DATE, f VARCHAR); COPY t FROM 't.csv'; SELECT * FROM t;",
        "a,b,c,d,e,f\ntrue,-1,170141183460469231731687303715884105727,-0.5,2024-02-29,NULL\nF,,,,,\n",
        0,
        "a,b,c,d,e,f\ntrue,-1,170141183460469231731687303715884105727,-0.50,2024-02-29,\"NULL\"\nfalse,NULL,NULL,NULL,NULL,NULL\n\n",
    ),
    // Options of COPY.
    (
        "CREATE TABLE t (a INTEGER, b VARCHAR); COPY t FROM 't.csv' (HEADER FALSE, DELIMITER ';', NULL '-'); SELECT b, a FROM t;",
        "1;x,y\n-;\n",
        0,
        "b,a\n\"x,y\",1\n\"\",NULL\n\n",
    ),
    // A file that is loaded twice.
    (
        "CREATE TABLE t (id INTEGER, name VARCHAR); COPY t FROM 't.csv'; COPY t FROM 't.csv'; SELECT name, id FROM t ORDER BY 2;",
        ROWS,
        0,
        "name,id\nann,1\nann,1\nbob,2\nbob,2\ncy,3\ncy,3\n\n",
    ),
    // Two tables; one ends, and its name comes again.
    (
        "CREATE TABLE t (id INTEGER, name VARCHAR); CREATE TABLE u (id INT, n TEXT); COPY u FROM 't.csv'; SELECT n FROM u WHERE id > 2; DROP TABLE U; CREATE TABLE u (x INT); SELECT x FROM u; SELECT * FROM t",
        ROWS,
        0,
        "n\ncy\n\nx\n\nid,name\n\n",
    ),
    // A plan counts the rows that are there.
    (
        "CREATE TABLE t (id INTEGER, name VARCHAR); CREATE TABLE u (id INT); COPY t FROM 't.csv'; EXPLAIN SELECT t.name FROM u JOIN t ON u.id = t.id WHERE t.id > 1;",
        ROWS,
        0,
        "plan\nscan t filter 1\njoin inner u keys 1 filter 0 rest 0\nproject 1\n\n",
    ),
    // Dates, texts and truths in conditions.
    (
        "CREATE TABLE t (d DATE, s VARCHAR, b BOOLEAN); COPY t FROM 't.csv'; SELECT d + 1 AS next, s FROM t WHERE (s LIKE 'a%' OR s IN ('x', 'y')) AND NOT b AND d BETWEEN DATE '2024-01-01' AND DATE '2024-12-31';",
        "d,s,b\n2024-02-28,abc,f\n2024-12-31,x,f\n2025-01-01,x,f\n2024-05-05,y,t\n2024-05-05,z,f\n2024-05-05,,f\n",
        0,
        "next,s\n2024-02-29,abc\n2025-01-01,x\n\n",
    ),
    // Nothing at all.
    (" ;; -- nothing\n", "", 0, ""),
];

#[test]
fn worked_scripts_write_what_they_say(rt: HostRuntime) -> Result<(), Fail> {
    for (script, csv, code, out) in &SINGLE {
        expect(&rt, rt.alloc(), script, csv, *code, out)?;
    }
    Ok(())
}

#[test]
fn the_smallest_pool_gives_the_same(rt: HostRuntime) -> Result<(), Fail> {
    for (script, csv, code, out) in &SINGLE {
        let given: [(&str, &[u8]); 2] = [("s.sql", script.as_bytes()), ("t.csv", csv.as_bytes())];
        expect_files(&rt, rt.alloc(), SMALL, &given, *code, out)?;
    }
    Ok(())
}

const USAGE: &str = "usage: oocsql [--threads N] [--limit BYTES] [--page BYTES] SCRIPT\n";

/// Words and what is written where no script is opened.
static USAGES: [(&[&str], &str); 7] = [
    (&[], USAGE),
    (&["s.sql", "s.sql"], USAGE),
    (&["--help"], USAGE),
    (&["--threads", "0", "s.sql"], USAGE),
    (&["--page", "5000", "s.sql"], USAGE),
    (
        &["--page", "4096", "--limit", "98303", "s.sql"],
        "usage: 23 frames, 24 needed\n",
    ),
    (
        &["--page=4096", "--limit=68719480832", "s.sql"],
        "usage: 16777217 frames, at most 16777216\n",
    ),
];

#[test]
fn wrong_words_are_told(rt: HostRuntime) -> Result<(), Fail> {
    for (words, out) in &USAGES {
        expect_files(&rt, rt.alloc(), words, &[("s.sql", b"".as_slice())], 2, out)?;
    }
    Ok(())
}

#[test]
fn right_words_in_any_order_run(rt: HostRuntime) -> Result<(), Fail> {
    let script = b"CREATE TABLE t (a INT); SELECT a FROM t".as_slice();
    let tries: [&[&str]; 4] = [
        &["s.sql", "--threads", "1"],
        &["--page=4096", "s.sql", "--limit=98304"],
        &["--threads", "64", "--limit=8388608", "--", "s.sql"],
        &["--limit", "16777216", "s.sql", "--page", "262144"],
    ];
    for words in &tries {
        expect_files(&rt, rt.alloc(), words, &[("s.sql", script)], 0, "a\n\n")?;
    }
    Ok(())
}
