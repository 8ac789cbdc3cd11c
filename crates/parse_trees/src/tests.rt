//! Scripts with their trees, or with the place of their fault, written by hand from the grammar.
use crate::printing::{Page, print_script};
use sql_grammar::text_at;
use sql_grammar::tree::Span;
use sql_lex::lex;
use sql_parse::{ParseFault, parse};
use std::alloc::Global;
use std::fmt::Write;
use std::test::Fail;

/// The tree of a script, or its fault.
fn shown(alloc: Global, script: &str) -> Result<String, Fail> {
    let mut page = Page::new(alloc, script);
    let tokens = lex(alloc, script.as_bytes()).ok().ok_or("a bad token")?;
    match parse(alloc, &tokens) {
        Ok(found) => print_script(&found, &mut page),
        Err(ParseFault::Syntax { place }) => write!(page.text, "syntax {place}")?,
        Err(ParseFault::TooDeep { place }) => write!(page.text, "too deep {place}")?,
        Err(ParseFault::OutOfMemory) => page.text.push_str("out of memory")?,
    }
    if page.is_whole {
        Ok(page.text)
    } else {
        Err("out of memory".into())
    }
}

static TREES: [(&str, &str); 45] = [
    ("", ""),
    (";;", ""),
    ("SELECT a FROM t", "(select (items a) (from t))"),
    (
        "SELECT a FROM t; ; select DISTINCT b FROM u;",
        "(select (items a) (from t)) (distinct (items b) (from u))",
    ),
    (
        "SELECT t.*, *, t.a, a b, a AS \"c d\" FROM t AS d",
        "(select (items (all t) * t.a (as b a) (as \"c d\" a)) (from (as d t)))",
    ),
    (
        "SELECT count(*), sum(a + 1) FROM t u",
        "(select (items (call count *) (call sum (chain a (+ (int 1))))) (from (as u t)))",
    ),
    (
        "SELECT 1, 1.5, .5, 'x''y', TRUE, FALSE FROM t",
        "(select (items (int 1) (dec 1.5) (dec .5) (text 'x''y') true false) (from t))",
    ),
    // what binds tighter than what
    (
        "SELECT a OR b AND NOT c = d + e * - f FROM t",
        "(select (items (or a (and b (not (= c (chain d (+ (chain e (* (minus f)))))))))) (from t))",
    ),
    (
        "SELECT NOT a AND b OR c OR d AND e AND f FROM t",
        "(select (items (or (and (not a) b) c (and d e f))) (from t))",
    ),
    (
        "SELECT (a OR b) AND c, NOT (a), - - 1, (a = b) = c FROM t",
        "(select (items (and (or a b) c) (not a) (minus (minus (int 1))) (= (= a b) c)) (from t))",
    ),
    // chains in order, so from the left
    (
        "SELECT a - b - c, a - (b - c), a // b % c * d FROM t",
        "(select (items (chain a (- b) (- c)) (chain a (- (chain b (- c)))) (chain a (// b) (% c) (* d))) (from t))",
    ),
    (
        "SELECT a * b + c // d - e FROM t",
        "(select (items (chain (chain a (* b)) (+ (chain c (// d))) (- e))) (from t))",
    ),
    (
        "SELECT a = b, a <> b, a != b, a < b, a <= b, a > b, a >= b FROM t",
        "(select (items (= a b) (<> a b) (<> a b) (< a b) (<= a b) (> a b) (>= a b)) (from t))",
    ),
    (
        "SELECT a FROM t WHERE a IS NULL AND b IS NOT NULL AND c LIKE 'x%' AND d NOT LIKE 'y'",
        "(select (items a) (from t) (where (and (null a) (not-null b) (like c 'x%') (not-like d 'y'))))",
    ),
    (
        "SELECT a FROM t WHERE a IN (1, -2.5, 'z', TRUE) OR b NOT IN (- 3)",
        "(select (items a) (from t) (where (or (in a (int 1) (minus (dec 2.5)) (text 'z') true) (not-in b (minus (int 3))))))",
    ),
    (
        "SELECT a FROM t WHERE a BETWEEN 1 AND b + 2 AND c NOT BETWEEN - d AND 4",
        "(select (items a) (from t) (where (and (between a (int 1) (chain b (+ (int 2)))) (not-between c (minus d) (int 4)))))",
    ),
    // sources
    (
        "SELECT a FROM t JOIN u ON a = b LEFT OUTER JOIN v AS w ON c INNER JOIN x y ON d LEFT JOIN z ON e",
        "(select (items a) (from t (join u (= a b)) (left (as w v) c) (join (as y x) d) (left z e)))",
    ),
    (
        "SELECT a FROM (SELECT b FROM u) AS s",
        "(select (items a) (from (as s (select (items b) (from u)))))",
    ),
    (
        "SELECT a FROM t JOIN (SELECT * FROM (SELECT c FROM v) x) y ON TRUE",
        "(select (items a) (from t (join (as y (select (items *) (from (as x (select (items c) (from v)))))) true)))",
    ),
    // clauses
    (
        "SELECT a FROM t WHERE b GROUP BY c, d + 1 HAVING count(*) > 1 ORDER BY 1 DESC, a ASC, t.b, 2 LIMIT 3 OFFSET 4",
        "(select (items a) (from t) (where b) (group c (chain d (+ (int 1)))) (having (> (call count *) (int 1))) (order (desc (item 1)) (asc a) (asc t.b) (asc (item 2))) (limit 3) (offset 4))",
    ),
    (
        "SELECT a FROM t OFFSET 4",
        "(select (items a) (from t) (offset 4))",
    ),
    // other statements
    (
        "EXPLAIN SELECT a FROM t",
        "(explain (select (items a) (from t)))",
    ),
    (
        "CREATE TABLE t (a INTEGER NOT NULL, b DECIMAL(10, 2), c VARCHAR(5), d \"integer\")",
        "(create t (column a INTEGER not-null) (column b DECIMAL 10 2) (column c VARCHAR 5) (column d \"integer\"))",
    ),
    ("DROP TABLE t", "(drop t)"),
    ("COPY t FROM 'f'", "(copy t 'f')"),
    (
        "COPY t FROM 'f' (Header TRUE, delimiter ';', NULL '', HEADER FALSE)",
        "(copy t 'f' header (delimiter ';') (null '') no-header)",
    ),
    (
        "CREATE TABLE header (delimiter INT); SELECT header FROM delimiter",
        "(create header (column delimiter INT)) (select (items header) (from delimiter))",
    ),
    // set operations: INTERSECT binds tighter, the others from the left
    (
        "SELECT a FROM t UNION SELECT b FROM u",
        "(sets (select (items a) (from t)) (union @22 (select (items b) (from u))))",
    ),
    (
        "SELECT a FROM t UNION ALL SELECT b FROM u EXCEPT SELECT c FROM v ORDER BY 1 LIMIT 2 OFFSET 3",
        "(sets (select (items a) (from t)) (union-all @26 (select (items b) (from u))) (except @49 (select (items c) (from v))) (order (asc (item 1))) (limit 2) (offset 3))",
    ),
    (
        "SELECT a FROM t UNION SELECT b FROM u INTERSECT ALL SELECT c FROM v EXCEPT ALL SELECT d FROM w",
        "(sets (select (items a) (from t)) (union @22 (sets (select (items b) (from u)) (intersect-all @52 (select (items c) (from v))))) (except-all @79 (select (items d) (from w))))",
    ),
    (
        "SELECT a FROM t INTERSECT SELECT b FROM u UNION SELECT c FROM v",
        "(sets (sets (select (items a) (from t)) (intersect @26 (select (items b) (from u)))) (union @48 (select (items c) (from v))))",
    ),
    (
        "EXPLAIN SELECT a FROM t UNION SELECT DISTINCT a FROM u WHERE b HAVING c",
        "(explain (sets (select (items a) (from t)) (union @30 (distinct (items a) (from u) (where b) (having c)))))",
    ),
    (
        "SELECT a FROM (SELECT b FROM u UNION SELECT c FROM v LIMIT 1) s",
        "(select (items a) (from (as s (sets (select (items b) (from u)) (union @37 (select (items c) (from v))) (limit 1)))))",
    ),
    // joins without a condition
    (
        "SELECT a FROM t CROSS JOIN u",
        "(select (items a) (from t (cross u)))",
    ),
    (
        "SELECT a FROM t CROSS JOIN (SELECT b FROM u) s LEFT JOIN v ON a = b CROSS JOIN w x",
        "(select (items a) (from t (cross (as s (select (items b) (from u)))) (left v (= a b)) (cross (as x w))))",
    ),
    // IN with a subquery
    (
        "SELECT a FROM t WHERE a IN (SELECT b FROM u)",
        "(select (items a) (from t) (where (member @24 a @28 (select (items b) (from u)))))",
    ),
    (
        "SELECT a FROM t WHERE a + 1 NOT IN (SELECT b FROM u EXCEPT SELECT c FROM v) AND d",
        "(select (items a) (from t) (where (and (not-member @32 (chain a (+ (int 1))) @36 (sets (select (items b) (from u)) (except @59 (select (items c) (from v))))) d)))",
    ),
    // aggregates of different values
    (
        "SELECT count(DISTINCT a), count(DISTINCT a + b) FROM t",
        "(select (items (call count (distinct a)) (call count (distinct (chain a (+ b))))) (from t))",
    ),
    // dates, and DATE as a name
    (
        "SELECT DATE '2020-02-29', date, date.a, date(b), DATE . c, d date FROM date date WHERE date > DATE'1-1-1'",
        "(select (items (date '2020-02-29') date date.a (call date b) DATE.c (as date d)) (from (as date date)) (where (> date (date '1-1-1'))))",
    ),
    (
        "SELECT date.*, \"date\" FROM t WHERE - date '' BETWEEN date AND date 'x' ORDER BY date, date.a",
        "(select (items (all date) \"date\") (from t) (where (between (minus (date '')) date (date 'x'))) (order (asc date) (asc date.a)))",
    ),
    (
        "SELECT a FROM t WHERE a IN (DATE '2020-01-01', - date 'x', 'y', TRUE)",
        "(select (items a) (from t) (where (in a (date '2020-01-01') (minus (date 'x')) (text 'y') true)))",
    ),
    (
        "CREATE TABLE date (date DATE NOT NULL)",
        "(create date (column date DATE not-null))",
    ),
    // thirty-two levels
    (
        "SELECT ((((((((((((((((((((((((((((((((a)))))))))))))))))))))))))))))))) FROM t",
        "(select (items a) (from t))",
    ),
    (
        "SELECT a FROM t WHERE (((((((((((((((((((((((((((((((a IN (SELECT b FROM u))))))))))))))))))))))))))))))))",
        "(select (items a) (from t) (where (member @55 a @59 (select (items b) (from u)))))",
    ),
    (
        "SELECT - - - - - - - - - - - - - - - - - - - - - - - - - - - - - - - (a) FROM t",
        "(select (items (minus (minus (minus (minus (minus (minus (minus (minus (minus (minus (minus (minus (minus (minus (minus (minus (minus (minus (minus (minus (minus (minus (minus (minus (minus (minus (minus (minus (minus (minus (minus a)))))))))))))))))))))))))))))))) (from t))",
    ),
];

static FAULTS: [(&str, &str); 52] = [
    ("SELECT a FROM t WHERE", "syntax 21"),
    ("SELECT a FROM t SELECT", "syntax 16"),
    ("SELECT a, FROM t", "syntax 10"),
    ("SELECT t.* + 1 FROM t", "syntax 11"),
    ("SELECT t.* a FROM t", "syntax 11"),
    ("SELECT t.1 FROM t", "syntax 8"),
    ("SELECT t. FROM t", "syntax 10"),
    ("SELECT a AS FROM t", "syntax 12"),
    ("SELECT f() FROM t", "syntax 9"),
    ("SELECT a FROM t WHERE a IN ()", "syntax 28"),
    ("SELECT a FROM t WHERE a IN (a)", "syntax 28"),
    ("SELECT a FROM t WHERE a IN (1,)", "syntax 30"),
    ("SELECT a FROM t WHERE a < b < c", "syntax 28"),
    ("SELECT a FROM t WHERE a NOT NULL", "syntax 28"),
    ("SELECT a FROM t WHERE a IS NOT", "syntax 30"),
    ("SELECT a FROM t WHERE a = NOT b", "syntax 26"),
    ("SELECT a FROM t CROSS u", "syntax 22"),
    ("SELECT a FROM t CROSS JOIN u ON a", "syntax 29"),
    ("SELECT a FROM t UNION (SELECT b FROM u)", "syntax 22"),
    (
        "SELECT a FROM t UNION DISTINCT SELECT b FROM u",
        "syntax 22",
    ),
    (
        "SELECT a FROM t ORDER BY a UNION SELECT b FROM u",
        "syntax 27",
    ),
    ("SELECT a FROM t INTERSECT", "syntax 25"),
    ("SELECT a FROM t WHERE a IN (DATE)", "syntax 32"),
    ("SELECT a FROM t WHERE a IN (date, 1)", "syntax 32"),
    (
        "SELECT a FROM t WHERE a IN ((SELECT b FROM u))",
        "syntax 28",
    ),
    ("SELECT a FROM t WHERE a IN (SELECT b FROM u", "syntax 43"),
    (
        "SELECT a FROM t WHERE a IN (SELECT b FROM u, 1)",
        "syntax 43",
    ),
    ("SELECT a FROM t WHERE a IN SELECT b FROM u", "syntax 27"),
    ("SELECT (SELECT a FROM t) FROM u", "syntax 8"),
    ("SELECT f(SELECT a FROM t) FROM u", "syntax 9"),
    ("CREATE TABLE t (SELECT", "syntax 16"),
    ("SELECT count(DISTINCT *) FROM t", "syntax 22"),
    ("SELECT a DATE 'x' FROM t", "syntax 14"),
    ("SELECT \"date\" 'x' FROM t", "syntax 14"),
    ("SELECT date 'x' 'y' FROM t", "syntax 16"),
    ("SELECT a FROM t, u", "syntax 15"),
    ("SELECT a FROM (SELECT b FROM u)", "syntax 31"),
    ("SELECT a FROM t LIMIT -1", "syntax 22"),
    ("SELECT a FROM t OFFSET 1 LIMIT 2", "syntax 25"),
    ("SELECT a FROM t ORDER BY a + 1", "syntax 27"),
    ("EXPLAIN DROP TABLE t", "syntax 8"),
    ("CREATE TABLE t ()", "syntax 16"),
    ("CREATE TABLE t (a)", "syntax 17"),
    ("DROP t", "syntax 5"),
    ("COPY t FROM 'f' (\"header\" TRUE)", "syntax 17"),
    ("COPY t FROM 'f' (HEADER)", "syntax 23"),
    (
        "SELECT ((((((((((((((((((((((((((((((((((((((((",
        "too deep 39",
    ),
    (
        "SELECT NOT NOT NOT NOT NOT NOT NOT NOT NOT NOT NOT NOT NOT NOT NOT NOT NOT NOT NOT NOT NOT NOT NOT NOT NOT NOT NOT NOT NOT NOT NOT NOT NOT a FROM t",
        "too deep 135",
    ),
    // where IN is behind the last level, a subquery is too deep and a list isn't
    (
        "SELECT a FROM t WHERE ((((((((((((((((((((((((((((((((a IN (SELECT b",
        "too deep 59",
    ),
    (
        "SELECT a FROM t WHERE ((((((((((((((((((((((((((((((((a IN (1,",
        "syntax 62",
    ),
    (
        "SELECT a FROM t WHERE ((((((((((((((((((((((((((((((((a IN (b",
        "syntax 60",
    ),
    (
        "SELECT ) ((((((((((((((((((((((((((((((((((((((((",
        "syntax 7",
    ),
];

#[test]
fn trees_and_faults(rt: HostRuntime) -> Result<(), Fail> {
    for (script, expected) in TREES.iter().chain(FAULTS.iter()) {
        let given = shown(rt.alloc(), script)?;
        assert_eq!(rt; given.as_str(), *expected, "at {script}");
    }
    Ok(())
}

#[test]
fn parts_of_a_script(rt: HostRuntime) -> Result<(), Fail> {
    let inside = Span { start: 4, end: 6 };
    let beyond = Span { start: 4, end: 7 };
    let reversed = Span { start: 6, end: 4 };
    assert_eq!(rt; text_at(b"abcdef", inside), b"ef".as_slice());
    assert_eq!(rt; text_at(b"abcdef", beyond), b"".as_slice());
    assert_eq!(rt; text_at(b"abcdef", reversed), b"".as_slice());
    Ok(())
}
