//! Scripts whose check is done: the plan of each SELECT and EXPLAIN, over tables of no rows, and then `ok`.
use crate::runs::expect;
use std::test::Fail;

/// Scripts without a SELECT.
static SILENT: [&str; 8] = [
    "",
    " ;;\n;\t",
    "-- SELECT a FROM t\n/* ? */",
    "CREATE TABLE t (a INTEGER)",
    "CREATE TABLE t (a INTEGER); COPY t FROM 'missing.csv';",
    "CREATE TABLE t (a INT); COPY t FROM 'f' (HEADER FALSE, DELIMITER ';', NULL 'NULL'); DROP TABLE t",
    "CREATE TABLE t (a INT); DROP TABLE T; CREATE TABLE t (a INT); DROP TABLE t;",
    "CREATE TABLE t (a INT); CREATE TABLE u (a INT); CREATE TABLE v (a INT); DROP TABLE u; CREATE TABLE U (a INT); DROP TABLE v; DROP TABLE t",
];

#[test]
fn statements_without_a_plan_write_nothing(rt: HostRuntime) -> Result<(), Fail> {
    for script in &SILENT {
        expect(&rt, rt.alloc(), script.as_bytes(), 0, "ok\n")?;
    }
    Ok(())
}

/// Scripts of a single table, with what is written.
static SINGLE: [(&str, &str); 12] = [
    (
        "CREATE TABLE t (a INTEGER); SELECT a FROM t WHERE a > 1;",
        "plan\nscan t filter 1\nproject 1\n\nok\n",
    ),
    (
        "CREATE TABLE t (a INTEGER); COPY t FROM 'missing.csv'; SELECT * FROM t",
        "plan\nscan t filter 0\nproject 1\n\nok\n",
    ),
    (
        "CREATE TABLE t (a INTEGER); EXPLAIN SELECT a, a + 1 FROM t WHERE a + 1 > a AND a < 3 OR a = 1",
        "plan\nscan t filter 0\nfilter 0 then 1\nproject 2\n\nok\n",
    ),
    (
        "CREATE TABLE t (a INTEGER); EXPLAIN SELECT a, a + 1 FROM t WHERE a + 1 > a AND a < 3",
        "plan\nscan t filter 1\nfilter 0 then 1\nproject 2\n\nok\n",
    ),
    (
        "CREATE TABLE t (a DECIMAL(38,38), b VARCHAR(3) NOT NULL, c DATE, d BOOL, e HUGEINT, f NUMERIC); SELECT * FROM t WHERE d",
        "plan\nscan t filter 1\nproject 6\n\nok\n",
    ),
    // One block for each SELECT and EXPLAIN.
    (
        "CREATE TABLE t (a INT); SELECT a FROM t; EXPLAIN SELECT a FROM t LIMIT 0; SELECT a, a FROM t OFFSET 2",
        "plan\nscan t filter 0\nproject 1\n\nplan\nscan t filter 0\nproject 1\norder 0\nlimit 0 offset 0\n\nplan\nscan t filter 0\nproject 2\norder 0\nlimit all offset 2\n\nok\n",
    ),
    // A name comes again, with other columns.
    (
        "CREATE TABLE t (a INT); DROP TABLE t; CREATE TABLE t (b TEXT); SELECT b FROM t WHERE b LIKE 'x%'",
        "plan\nscan t filter 1\nproject 1\n\nok\n",
    ),
    // Names in other letters; a source is printed in the letters of its FROM.
    (
        "create table Ab (C int); select c from aB where C = 1; select X.c from AB as x; drop table AB; create table AB (d int);",
        "plan\nscan aB filter 1\nproject 1\n\nplan\nscan x filter 0\nproject 1\n\nok\n",
    ),
    (
        "CREATE TABLE \"select\" (\"a \"\"b\" INT); SELECT \"A \"\"B\" FROM \"Select\" AS \"p\"\"q\"; SELECT * FROM \"sELECT\"",
        "plan\nscan p\"q filter 0\nproject 1\n\nplan\nscan sELECT filter 0\nproject 1\n\nok\n",
    ),
    // Groups, and what comes above them.
    (
        "CREATE TABLE t (g INT, x INT); SELECT g, count(*) AS n, sum(x) FROM t GROUP BY g HAVING count(*) > 1 ORDER BY n DESC, g LIMIT 10 OFFSET 3",
        "plan\nscan t filter 0\ngroup keys 1 aggregates 2\nhaving\nproject 3\norder 2\nlimit 10 offset 3\n\nok\n",
    ),
    (
        "CREATE TABLE t (g INT, x INT); SELECT g, count(DISTINCT x) FROM t GROUP BY g",
        "plan\nscan t filter 0\ngroup keys 2 aggregates 0\ngroup keys 1 aggregates 1\nproject 2\n\nok\n",
    ),
    (
        "CREATE TABLE t (g INT, x INT); SELECT DISTINCT g FROM t UNION ALL SELECT x FROM t ORDER BY g OFFSET 2",
        "plan\nscan t filter 0\nproject 1\ndistinct\nscan t filter 0\nproject 1\nunion all\norder 1\nlimit all offset 2\n\nok\n",
    ),
];

#[test]
fn plans_over_a_single_table(rt: HostRuntime) -> Result<(), Fail> {
    for (script, out) in &SINGLE {
        expect(&rt, rt.alloc(), script.as_bytes(), 0, out)?;
    }
    Ok(())
}

/// Scripts of several tables, with what is written. No table has rows, so the order of a join is the written one.
static SEVERAL: [(&str, &str); 5] = [
    (
        "CREATE TABLE a (k INT); CREATE TABLE b (k INT, v TEXT); SELECT a.k, v FROM a JOIN b ON a.k = b.k AND v LIKE 'x%' WHERE a.k > 1",
        "plan\nscan a filter 1\njoin inner b keys 1 filter 1 rest 0\nproject 2\n\nok\n",
    ),
    (
        "CREATE TABLE a (k INT); CREATE TABLE b (k INT, v TEXT); SELECT a.k FROM b LEFT JOIN a ON a.k = b.k AND a.k < b.k",
        "plan\nscan b filter 0\njoin left a keys 1 filter 0 rest 1\nproject 1\n\nok\n",
    ),
    (
        "CREATE TABLE a (k INT); SELECT x.k FROM a AS x CROSS JOIN a AS y WHERE x.k < y.k",
        "plan\nscan x filter 0\njoin inner y keys 0 filter 0 rest 1\nproject 1\n\nok\n",
    ),
    (
        "CREATE TABLE a (k INT); CREATE TABLE b (k INT); CREATE TABLE c (k INT); SELECT a.k FROM a JOIN b ON b.k > 1 JOIN c ON a.k = c.k",
        "plan\nscan a filter 0\njoin inner c keys 1 filter 0 rest 0\njoin inner b keys 0 filter 1 rest 0\nproject 1\n\nok\n",
    ),
    (
        "CREATE TABLE a (k INT); CREATE TABLE b (k INT); SELECT k FROM (SELECT k FROM a WHERE k > 1) AS s WHERE k IN (SELECT k FROM b)",
        "plan\nsubquery s\nscan a filter 1\nproject 1\nend s\nsubquery in\nscan b filter 0\nproject 1\nend in\nscan s filter 0\nfilter 0 then 1\nproject 1\n\nok\n",
    ),
];

#[test]
fn plans_over_several_tables(rt: HostRuntime) -> Result<(), Fail> {
    for (script, out) in &SEVERAL {
        expect(&rt, rt.alloc(), script.as_bytes(), 0, out)?;
    }
    Ok(())
}
