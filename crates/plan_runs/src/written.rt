//! A FROM that isn't free, and subqueries in FROM and in WHERE.
use crate::runs::{explained, shown};
use std::test::Fail;

static JOINS: [(&str, &str, &str); 7] = [
    (
        "SELECT a.k FROM a LEFT JOIN b ON a.k = b.k AND b.k > 1 AND a.k > 1 WHERE a.k < 1",
        "a #0 #1 = on #1 1 > on #0 1 > on left b #0 1 < where #0 item select end",
        "plan\nscan a filter 0\njoin left b keys 1 filter 1 rest 1\nfilter 1 then 0\nproject 1\n\n",
    ),
    (
        "SELECT c.k FROM c LEFT JOIN a ON c.k = a.k JOIN b ON b.k = c.k CROSS JOIN d",
        "c #0 #1 = on left a #2 #0 = on b cross d #0 item select end",
        "plan\nscan c filter 0\njoin left a keys 1 filter 0 rest 0\njoin inner b keys 1 filter 0 rest 0\njoin inner d keys 0 filter 0 rest 0\nproject 1\n\n",
    ),
    (
        "SELECT c.k FROM c LEFT JOIN a ON c.k = a.k LEFT JOIN b ON a.k = b.k AND c.k = b.k",
        "c #0 #1 = on left a #1 #2 = on #0 #2 = on left b #0 item select end",
        "plan\nscan c filter 0\njoin left a keys 1 filter 0 rest 0\njoin left b keys 2 filter 0 rest 0\nproject 1\n\n",
    ),
    (
        "SELECT c.k FROM c JOIN a ON c.k = a.k AND a.k + 1 = 1 WHERE a.k > 1 AND a.k + 1 > 1",
        "c #0 #1 = on #1 1 + 1 = on a #1 1 > where #1 1 + 1 > where #0 item select end",
        "plan\nscan c filter 0\njoin inner a keys 1 filter 0 rest 1\nfilter 1 then 1\nproject 1\n\n",
    ),
    (
        "SELECT p.k FROM p LEFT JOIN q ON p.k = p.n AND q.k = q.n AND p.k < q.k",
        "p #0 #1 = on #2 #3 = on #0 #2 < on left q #0 item select end",
        "plan\nscan p filter 0\njoin left q keys 0 filter 1 rest 2\nproject 1\n\n",
    ),
    (
        "SELECT a.k FROM a LEFT JOIN b ON TRUE",
        "a true on left b #0 item select end",
        "plan\nscan a filter 0\njoin left b keys 0 filter 0 rest 1\nproject 1\n\n",
    ),
    (
        "SELECT c.k FROM c LEFT JOIN a ON TRUE JOIN b ON a.k = b.k WHERE c.k = a.k",
        "c true on left a #1 #2 = on b #0 #1 = where #0 item select end",
        "plan\nscan c filter 0\njoin left a keys 0 filter 0 rest 1\njoin inner b keys 1 filter 0 rest 0\nfilter 1 then 0\nproject 1\n\n",
    ),
];

static QUERIES: [(&str, &str, &str); 7] = [
    (
        "SELECT k FROM (SELECT k FROM a WHERE k > 1) AS s WHERE k > 1",
        "a #0 1 > where #0 item select end query #0 1 > where #0 item select end",
        "plan\nsubquery s\nscan a filter 1\nproject 1\nend s\nscan s filter 0\nfilter 1 then 0\nproject 1\n\n",
    ),
    (
        "SELECT c.k FROM c JOIN (SELECT k FROM a) AS My ON c.k = My.k AND My.k > 1",
        "a #0 item select end c #0 #1 = on #1 1 > on :My query #0 item select end",
        "plan\nsubquery My\nscan a filter 0\nproject 1\nend My\nscan c filter 0\njoin inner My keys 1 filter 1 rest 0\nproject 1\n\n",
    ),
    (
        "SELECT x.k FROM (SELECT a.k FROM c JOIN a ON c.k = a.k) AS x JOIN (SELECT k FROM (SELECT k FROM b) AS y LIMIT 10) AS z ON x.k = z.k",
        "b #0 item select end :y query #0 item select limit-10 end c #0 #1 = on a #1 item select end :x query #0 #1 = on :z query #0 item select end",
        "plan\nsubquery x\nscan a filter 0\njoin inner c keys 1 filter 0 rest 0\nproject 1\nend x\nsubquery z\nsubquery y\nscan b filter 0\nproject 1\nend y\nscan y filter 0\nproject 1\norder 0\nlimit 10 offset 0\nend z\nscan x filter 0\njoin inner z keys 1 filter 0 rest 0\nproject 1\n\n",
    ),
    (
        "SELECT k FROM a WHERE k IN (SELECT k FROM b WHERE k > 1) AND k > 1",
        "b #0 1 > where #0 item select end a #0 in #0 1 > where #0 item select end",
        "plan\nsubquery in\nscan b filter 1\nproject 1\nend in\nscan a filter 1\nfilter 0 then 1\nproject 1\n\n",
    ),
    (
        "SELECT k FROM a WHERE k NOT IN (SELECT k FROM b) AND TRUE AND k + 1 > 1 AND k IN (SELECT k FROM c)",
        "c #0 item select end b #0 item select end a #0 not-in true where #0 1 + 1 > where #0 in #0 item select end",
        "plan\nsubquery in\nscan b filter 0\nproject 1\nend in\nsubquery in\nscan c filter 0\nproject 1\nend in\nscan a filter 0\nfilter 1 then 3\nproject 1\n\n",
    ),
    (
        "SELECT b.k FROM c JOIN b ON c.k = b.k WHERE c.k IN (SELECT k FROM a)",
        "a #0 item select end c #0 #1 = on b #0 in #1 item select end",
        "plan\nsubquery in\nscan a filter 0\nproject 1\nend in\nscan b filter 0\njoin inner c keys 1 filter 0 rest 0\nfilter 0 then 1\nproject 1\n\n",
    ),
    (
        "SELECT k FROM (SELECT k FROM b) AS s WHERE k NOT IN (SELECT k FROM c UNION SELECT k FROM d)",
        "c #0 item select d #0 item select union end b #0 item select end query #0 not-in #0 item select end",
        "plan\nsubquery s\nscan b filter 0\nproject 1\nend s\nsubquery in\nscan c filter 0\nproject 1\nscan d filter 0\nproject 1\nunion\nend in\nscan s filter 0\nfilter 0 then 1\nproject 1\n\n",
    ),
];

#[test]
fn a_from_that_is_not_free(rt: HostRuntime) -> Result<(), Fail> {
    for (sql, words, expected) in &JOINS {
        let text = explained(rt.alloc(), words)?;
        assert_eq!(rt; shown(text.as_slice()), *expected, "at {sql}");
    }
    Ok(())
}

#[test]
fn subqueries(rt: HostRuntime) -> Result<(), Fail> {
    for (sql, words, expected) in &QUERIES {
        let text = explained(rt.alloc(), words)?;
        assert_eq!(rt; shown(text.as_slice()), *expected, "at {sql}");
    }
    Ok(())
}
