//! Scripts that are refused, by their bytes or by a statement. `^` stands before the token at which a script is refused, and is
//! no part of it.
use crate::runs::expect;
use std::alloc::Global;
use std::process::Abort;
use std::test::Fail;

/// The marked script is refused at its mark, behind a text that was written before.
fn expect_refused<R: Abort>(
    rt: &R,
    alloc: Global,
    marked: &str,
    before: &str,
    subject: &str,
    kind: &str,
) -> Result<(), Fail> {
    let place = marked.find('^').ok_or("no mark")?;
    let script = marked.replace(alloc, '^', "")?;
    let out = format!(in alloc; "{before}error: {subject} at {place}: {kind}\n")?;
    expect(rt, alloc, script.as_bytes(), 1, out.as_str())
}

/// Scripts whose tokens or grammar are refused. Nothing is written before, whatever their statements are.
static SCRIPTS: [(&str, &str); 18] = [
    (
        "CREATE TABLE t (a INT); SELECT a FROM t; SELECT ^? FROM t",
        "bad token",
    ),
    ("SELECT ^'abc", "bad token"),
    ("SELECT ^\"abc FROM t", "bad token"),
    ("CREATE TABLE t (a INT); ^/* on", "bad token"),
    (
        "SELECT ^170141183460469231731687303715884105728 FROM t",
        "bad token",
    ),
    ("SELECT a ^/ b FROM t", "bad token"),
    ("CREATE ^t (a INT)", "syntax"),
    ("CREATE TABLE ^select (a INT)", "syntax"),
    ("CREATE TABLE t (a INT^", "syntax"),
    ("CREATE TABLE t (a INT) ^SELECT a FROM t", "syntax"),
    ("DROP ^t", "syntax"),
    ("COPY t FROM ^f", "syntax"),
    ("SELECT a FROM ^; SELECT a FROM t", "syntax"),
    ("SELECT a FROM t WHERE^", "syntax"),
    ("SELECT a FROM t ^)", "syntax"),
    ("SELECT ^FROM t", "syntax"),
    // The grammar is asked before any statement is bound, and the tokens before the grammar.
    ("SELECT z FROM nothing; SELECT a FROM t t^.b", "syntax"),
    ("SELECT FROM t; SELECT ^?", "bad token"),
];

#[test]
fn scripts_of_wrong_tokens_or_grammar(rt: HostRuntime) -> Result<(), Fail> {
    for (script, kind) in &SCRIPTS {
        expect_refused(&rt, rt.alloc(), script, "", "script", kind)?;
    }
    Ok(())
}

#[test]
fn a_script_is_utf8(rt: HostRuntime) -> Result<(), Fail> {
    let alloc = rt.alloc();
    expect(&rt, alloc, b"? \xFF", 1, "error: script at 2: bad token\n")?;
    expect(&rt, alloc, b"-- \xC3", 1, "error: script at 3: bad token\n")?;
    expect(&rt, alloc, b"-- \xC3\xA4", 0, "ok\n")
}

/// The first statement is refused.
static FIRST: [(&str, &str); 8] = [
    ("CREATE TABLE t (a ^BLOB)", "no type"),
    ("CREATE TABLE t (a INT, ^A INT)", "duplicate name"),
    ("CREATE TABLE t (a ^DECIMAL(39))", "decimal too wide"),
    ("DROP TABLE ^t", "no table"),
    ("COPY ^t FROM 't.csv'", "no table"),
    ("SELECT a FROM ^t", "no table"),
    ("EXPLAIN SELECT a FROM ^t", "no table"),
    // Empty statements have no number.
    (" ;; DROP TABLE ^t; CREATE TABLE t (a INT)", "no table"),
];

#[test]
fn the_first_statement_is_refused(rt: HostRuntime) -> Result<(), Fail> {
    for (script, kind) in &FIRST {
        expect_refused(&rt, rt.alloc(), script, "", "statement 1", kind)?;
    }
    Ok(())
}

/// The second statement is refused.
static SECOND: [(&str, &str); 24] = [
    ("CREATE TABLE t (a INTEGER); SELECT ^b FROM t;", "no column"),
    ("CREATE TABLE t (a INT);;; SELECT ^b FROM t;", "no column"),
    (
        "CREATE TABLE t (a INT); EXPLAIN SELECT ^b FROM t;",
        "no column",
    ),
    (
        "CREATE TABLE t (a INT); CREATE TABLE ^T (b INT)",
        "table exists",
    ),
    ("CREATE TABLE t (a INT); SELECT a FROM ^u", "no table"),
    ("CREATE TABLE t (a INT); SELECT ^u.a FROM t", "no table"),
    (
        "CREATE TABLE t (a INT); COPY t FROM 'f' (HEADER TRUE, ^HEADER TRUE)",
        "bad option",
    ),
    (
        "CREATE TABLE t (a INT); COPY t FROM 'f' (^DELIMITER 'ab')",
        "bad option",
    ),
    (
        "CREATE TABLE t (a INT); SELECT ^a FROM t x CROSS JOIN t y",
        "ambiguous",
    ),
    (
        "CREATE TABLE t (a INT); SELECT a FROM t CROSS JOIN ^T",
        "duplicate name",
    ),
    (
        "CREATE TABLE t (a INT, b TEXT); SELECT a FROM t WHERE a ^= b",
        "type mismatch",
    ),
    (
        "CREATE TABLE t (a INT); SELECT a FROM t WHERE ^a",
        "type mismatch",
    ),
    (
        "CREATE TABLE t (a INT); SELECT ^strange(a) FROM t",
        "no function",
    ),
    (
        "CREATE TABLE t (a INT); SELECT a FROM t WHERE ^count(*) = 1",
        "aggregate here",
    ),
    (
        "CREATE TABLE t (a INT, b INT); SELECT a, ^b FROM t GROUP BY a",
        "not grouped",
    ),
    (
        "CREATE TABLE t (a HUGEINT); SELECT ^sum(a) FROM t",
        "sum too wide",
    ),
    (
        "CREATE TABLE t (a DECIMAL(38)); SELECT a ^+ a FROM t",
        "decimal too wide",
    ),
    (
        "CREATE TABLE t (a INT); SELECT a FROM t ORDER BY ^2",
        "bad position",
    ),
    (
        "CREATE TABLE t (a INT); SELECT a FROM t UNION ^SELECT a, a FROM t",
        "column count",
    ),
    (
        "CREATE TABLE t (a INT); SELECT a ^IN (SELECT a FROM t) FROM t",
        "in here",
    ),
    (
        "CREATE TABLE t (a INT); SELECT ^sum(a), count(DISTINCT a) FROM t",
        "distinct mix",
    ),
    (
        "CREATE TABLE t (a INT); SELECT DATE ^'2023-02-29' FROM t",
        "bad date",
    ),
    (
        "CREATE TABLE t (a INT); SELECT b.a FROM t a CROSS JOIN t b CROSS JOIN t c CROSS JOIN t d CROSS JOIN t e CROSS JOIN t f CROSS JOIN t g CROSS JOIN t h CROSS JOIN ^t i",
        "too many tables",
    ),
    // What stands behind a refusal isn't looked at.
    (
        "CREATE TABLE t (a INT); SELECT ^b FROM t; SELECT a FROM u",
        "no column",
    ),
];

#[test]
fn the_second_statement_is_refused(rt: HostRuntime) -> Result<(), Fail> {
    for (script, kind) in &SECOND {
        expect_refused(&rt, rt.alloc(), script, "", "statement 2", kind)?;
    }
    Ok(())
}

/// The plan of one column of `t`.
const PLAN: &str = "plan\nscan t filter 0\nproject 1\n\n";

/// The third statement is refused, behind what was written before.
static THIRD: [(&str, &str, &str); 6] = [
    (
        "CREATE TABLE t (a INT); DROP TABLE t; SELECT a FROM ^t;",
        "",
        "no table",
    ),
    (
        "CREATE TABLE t (a INT); DROP TABLE t; DROP TABLE ^t",
        "",
        "no table",
    ),
    (
        "CREATE TABLE a (k INT); CREATE TABLE b (k INT); SELECT ^k FROM a JOIN b ON a.k = b.k",
        "",
        "ambiguous",
    ),
    (
        "CREATE TABLE t (a INT); SELECT a FROM t; SELECT ^b FROM t; SELECT a FROM t",
        PLAN,
        "no column",
    ),
    (
        "CREATE TABLE t (a INT); EXPLAIN SELECT a FROM t; CREATE TABLE ^t (b INT)",
        PLAN,
        "table exists",
    ),
    (
        "CREATE TABLE t (a INT); COPY t FROM 'f'; COPY ^u FROM 'f'",
        "",
        "no table",
    ),
];

#[test]
fn the_third_statement_is_refused(rt: HostRuntime) -> Result<(), Fail> {
    for (script, before, kind) in &THIRD {
        expect_refused(&rt, rt.alloc(), script, before, "statement 3", kind)?;
    }
    Ok(())
}

#[test]
fn places_and_numbers_are_written_as_digits(rt: HostRuntime) -> Result<(), Fail> {
    let alloc = rt.alloc();
    let script = b"CREATE TABLE t (a INTEGER); SELECT b FROM t;";
    expect(
        &rt,
        alloc,
        script,
        1,
        "error: statement 2 at 35: no column\n",
    )?;
    let script = b"CREATE TABLE t (a INTEGER); DROP TABLE t; SELECT a FROM t;";
    expect(
        &rt,
        alloc,
        script,
        1,
        "error: statement 3 at 56: no table\n",
    )?;
    expect(&rt, alloc, b"?", 1, "error: script at 0: bad token\n")
}
