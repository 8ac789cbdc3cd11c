//! A FROM that is free: one table, and the order of several. The tables `a`, `b`, `c`, `d`, `u` have the column `k`,
//! `p` and `q` also `n`, and `t` also `f`, `s` and `d`.
use crate::runs::{explained, shown};
use std::test::Fail;

static ONE: [(&str, &str, &str); 8] = [
    (
        "SELECT k FROM a",
        "a #0 item select end",
        "plan\nscan a filter 0\nproject 1\n\n",
    ),
    (
        "SELECT k FROM t WHERE k > 1",
        "t #0 1 > where #0 item select end",
        "plan\nscan t filter 1\nproject 1\n\n",
    ),
    (
        "SELECT k FROM a WHERE k > 1 AND k + 1 > 1 AND k < 1",
        "a #0 1 > where #0 1 + 1 > where #0 1 < where #0 item select end",
        "plan\nscan a filter 2\nfilter 0 then 1\nproject 1\n\n",
    ),
    (
        "SELECT k FROM a WHERE TRUE AND k = 1 AND 1 < 1 AND 1 + 1 = 1",
        "a true where #0 1 = where 1 1 < where 1 1 + 1 = where #0 item select end",
        "plan\nscan a filter 1\nfilter 2 then 1\nproject 1\n\n",
    ),
    (
        "SELECT k FROM t WHERE f AND NOT k = n AND s LIKE 'x%' AND d IN (DATE '1970-01-01', DATE '1970-01-01') AND k BETWEEN 1 AND n AND s IS NULL AND (f OR k < 1) AND k = - 1 AND (k > 1 AND k < 1 OR f) AND s <> 'x' AND d >= DATE '1970-01-01'",
        "t bool2 where #0 #1 = not where text3 like where date4 day day one-of where #0 1 #1 between where text3 null where bool2 #0 1 < or where #0 1 minus = where #0 1 > #0 1 < and bool2 or where text3 'x' <> where date4 day >= where #0 item select end",
        "plan\nscan t filter 11\nproject 1\n\n",
    ),
    (
        "SELECT k FROM t WHERE k + 1 IS NULL AND NOT k + 1 = 1 AND - k = 1 AND (f OR k + 1 > 1) AND k BETWEEN 1 + 1 AND 1 AND k = - - 1 AND k + 1 IN (1, 1)",
        "t #0 1 + null where #0 1 + 1 = not where #0 minus 1 = where bool2 #0 1 + 1 > or where #0 1 1 + 1 between where #0 1 minus minus = where #0 1 + 1 1 one-of where #0 item select end",
        "plan\nscan t filter 0\nfilter 0 then 7\nproject 1\n\n",
    ),
    (
        "SELECT 1, 'x', DATE '1970-01-01', TRUE FROM u",
        "u 1 item 'x' item day item true item select end",
        "plan\nscan u filter 0\nproject 4\n\n",
    ),
    (
        "SELECT k FROM a AS Ab WHERE k <= 1",
        ":Ab a #0 1 <= where #0 item select end",
        "plan\nscan Ab filter 1\nproject 1\n\n",
    ),
];

static FREE: [(&str, &str, &str); 19] = [
    (
        "SELECT a.k FROM a JOIN b ON a.k = b.k JOIN c ON a.k = c.k AND c.k > 1",
        "a #0 #1 = on b #0 #2 = on #2 1 > on c #0 item select end",
        "plan\nscan a filter 0\njoin inner c keys 1 filter 1 rest 0\njoin inner b keys 1 filter 0 rest 0\nproject 1\n\n",
    ),
    (
        "SELECT b.k FROM c JOIN b ON c.k = b.k",
        "c #0 #1 = on b #1 item select end",
        "plan\nscan b filter 0\njoin inner c keys 1 filter 0 rest 0\nproject 1\n\n",
    ),
    (
        "SELECT b.k FROM b JOIN d ON b.k = d.k",
        "b #0 #1 = on d #0 item select end",
        "plan\nscan b filter 0\njoin inner d keys 1 filter 0 rest 0\nproject 1\n\n",
    ),
    (
        "SELECT b.k FROM d JOIN b ON d.k = b.k",
        "d #0 #1 = on b #1 item select end",
        "plan\nscan d filter 0\njoin inner b keys 1 filter 0 rest 0\nproject 1\n\n",
    ),
    (
        "SELECT a.k FROM a JOIN d ON a.k = d.k JOIN b ON a.k = b.k",
        "a #0 #1 = on d #0 #2 = on b #0 item select end",
        "plan\nscan a filter 0\njoin inner d keys 1 filter 0 rest 0\njoin inner b keys 1 filter 0 rest 0\nproject 1\n\n",
    ),
    (
        "SELECT a.k FROM a CROSS JOIN c JOIN b ON a.k = b.k",
        "a cross c #0 #2 = on b #0 item select end",
        "plan\nscan a filter 0\njoin inner b keys 1 filter 0 rest 0\njoin inner c keys 0 filter 0 rest 0\nproject 1\n\n",
    ),
    (
        "SELECT a.k FROM a CROSS JOIN b CROSS JOIN c",
        "a cross b cross c #0 item select end",
        "plan\nscan a filter 0\njoin inner c keys 0 filter 0 rest 0\njoin inner b keys 0 filter 0 rest 0\nproject 1\n\n",
    ),
    (
        "SELECT a.k FROM b CROSS JOIN a WHERE a.k = b.k",
        "b cross a #1 #0 = where #1 item select end",
        "plan\nscan a filter 0\njoin inner b keys 1 filter 0 rest 0\nproject 1\n\n",
    ),
    (
        "SELECT a.k FROM c JOIN b ON c.k = b.k JOIN a ON b.k = a.k",
        "c #0 #1 = on b #1 #2 = on a #2 item select end",
        "plan\nscan a filter 0\njoin inner b keys 1 filter 0 rest 0\njoin inner c keys 1 filter 0 rest 0\nproject 1\n\n",
    ),
    (
        "SELECT p.k FROM p JOIN q ON p.k = q.k AND q.n = p.n",
        "p #0 #2 = on #3 #1 = on q #0 item select end",
        "plan\nscan p filter 0\njoin inner q keys 2 filter 0 rest 0\nproject 1\n\n",
    ),
    (
        "SELECT a.k FROM a JOIN b ON a.k = b.k JOIN c ON a.k = c.k AND b.k = c.k",
        "a #0 #1 = on b #0 #2 = on #1 #2 = on c #0 item select end",
        "plan\nscan a filter 0\njoin inner c keys 1 filter 0 rest 0\njoin inner b keys 2 filter 0 rest 0\nproject 1\n\n",
    ),
    (
        "SELECT a.k FROM a JOIN b ON a.k < b.k CROSS JOIN c",
        "a #0 #1 < on b cross c #0 item select end",
        "plan\nscan a filter 0\njoin inner c keys 0 filter 0 rest 0\njoin inner b keys 0 filter 0 rest 1\nproject 1\n\n",
    ),
    (
        "SELECT a.k FROM a JOIN b ON a.k = b.k JOIN c ON a.k = c.k WHERE b.k < c.k AND a.k BETWEEN b.k AND c.k AND (a.k = b.k OR a.k = 1)",
        "a #0 #1 = on b #0 #2 = on c #1 #2 < where #0 #1 #2 between where #0 #1 = #0 1 = or where #0 item select end",
        "plan\nscan a filter 0\njoin inner c keys 1 filter 0 rest 0\njoin inner b keys 1 filter 0 rest 3\nproject 1\n\n",
    ),
    (
        "SELECT a.k FROM a JOIN b ON a.k = b.k AND a.k > 1 WHERE b.k > 1 AND a.k < 1 AND a.k + b.k > 1",
        "a #0 #1 = on #0 1 > on b #1 1 > where #0 1 < where #0 #1 + 1 > where #0 item select end",
        "plan\nscan a filter 2\njoin inner b keys 1 filter 1 rest 0\nfilter 0 then 1\nproject 1\n\n",
    ),
    (
        "SELECT p.k FROM p CROSS JOIN q WHERE p.k = p.n",
        "p cross q #0 #1 = where #0 item select end",
        "plan\nscan p filter 1\njoin inner q keys 0 filter 0 rest 0\nproject 1\n\n",
    ),
    (
        "SELECT a.k FROM a JOIN b ON TRUE AND 1 = 1",
        "a true on 1 1 = on b #0 item select end",
        "plan\nscan a filter 0\njoin inner b keys 0 filter 0 rest 0\nfilter 2 then 0\nproject 1\n\n",
    ),
    (
        "SELECT c.k FROM u JOIN c ON u.k = c.k",
        "u #0 #1 = on c #1 item select end",
        "plan\nscan c filter 0\njoin inner u keys 1 filter 0 rest 0\nproject 1\n\n",
    ),
    (
        "SELECT Y.k FROM a AS x JOIN a AS Y ON x.k = Y.k",
        ":x a #0 #1 = on :Y a #1 item select end",
        "plan\nscan x filter 0\njoin inner Y keys 1 filter 0 rest 0\nproject 1\n\n",
    ),
    (
        "SELECT t.k FROM t JOIN p ON t.k = p.k JOIN q ON p.n = q.n JOIN c ON t.n = c.k WHERE p.k < q.k AND t.f",
        "t #0 #5 = on p #6 #8 = on q #1 #9 = on c #5 #7 < where bool2 where #0 item select end",
        "plan\nscan t filter 1\njoin inner c keys 1 filter 0 rest 0\njoin inner p keys 1 filter 0 rest 0\njoin inner q keys 1 filter 0 rest 1\nproject 1\n\n",
    ),
];

#[test]
fn one_table(rt: HostRuntime) -> Result<(), Fail> {
    for (sql, words, expected) in &ONE {
        let text = explained(rt.alloc(), words)?;
        assert_eq!(rt; shown(text.as_slice()), *expected, "at {sql}");
    }
    Ok(())
}

#[test]
fn order_keys_filters_and_rest_of_a_free_from(rt: HostRuntime) -> Result<(), Fail> {
    for (sql, words, expected) in &FREE {
        let text = explained(rt.alloc(), words)?;
        assert_eq!(rt; shown(text.as_slice()), *expected, "at {sql}");
    }
    Ok(())
}
