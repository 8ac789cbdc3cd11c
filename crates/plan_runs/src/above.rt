//! What stands above FROM: groups, set operations and order.
use crate::runs::{explained, shown};
use std::test::Fail;

static GROUPS: [(&str, &str, &str); 9] = [
    (
        "SELECT k, count(*) FROM a GROUP BY k",
        "a #0 key count-rows #0 item #1 item select end",
        "plan\nscan a filter 0\ngroup keys 1 aggregates 1\nproject 2\n\n",
    ),
    (
        "SELECT sum(k), min(k), max(k), count(k) FROM a",
        "a #0 sum #0 min #0 max #0 count #0 item #1 item #2 item #3 item select end",
        "plan\nscan a filter 0\ngroup keys 0 aggregates 4\nproject 4\n\n",
    ),
    (
        "SELECT k FROM a GROUP BY k HAVING count(*) > 1 AND k > 1",
        "a #0 key count-rows #1 1 > having #0 1 > having #0 item select end",
        "plan\nscan a filter 0\ngroup keys 1 aggregates 1\nhaving\nproject 1\n\n",
    ),
    (
        "SELECT 1 FROM a HAVING TRUE",
        "a true having 1 item select end",
        "plan\nscan a filter 0\ngroup keys 0 aggregates 0\nhaving\nproject 1\n\n",
    ),
    (
        "SELECT k FROM p GROUP BY k, n, k",
        "p #0 key #1 key #0 key #0 item select end",
        "plan\nscan p filter 0\ngroup keys 3 aggregates 0\nproject 1\n\n",
    ),
    (
        "SELECT count(DISTINCT k) FROM a",
        "a #0 count-distinct #0 item select end",
        "plan\nscan a filter 0\ngroup keys 1 aggregates 0\ngroup keys 0 aggregates 1\nproject 1\n\n",
    ),
    (
        "SELECT n, count(DISTINCT k) FROM p GROUP BY n, k HAVING count(DISTINCT k) > 1",
        "p #1 key #0 key #0 count-distinct #2 1 > having #0 item #2 item select end",
        "plan\nscan p filter 0\ngroup keys 3 aggregates 0\ngroup keys 2 aggregates 1\nhaving\nproject 2\n\n",
    ),
    (
        "SELECT DISTINCT k FROM a",
        "a distinct #0 item select end",
        "plan\nscan a filter 0\nproject 1\ndistinct\n\n",
    ),
    (
        "SELECT DISTINCT p.n, sum(q.k) FROM p JOIN q ON p.k = q.k AND p.k < q.n WHERE p.k > 1 AND p.k + 1 > 1 GROUP BY p.n HAVING sum(q.k) > 1 ORDER BY n LIMIT 10 OFFSET 3",
        "p #0 #2 = on #0 #3 < on q #0 1 > where #0 1 + 1 > where #1 key #2 sum #1 1 > having distinct #0 item #1 item select sort limit-10 offset-3 end",
        "plan\nscan p filter 1\njoin inner q keys 1 filter 0 rest 1\nfilter 0 then 1\ngroup keys 1 aggregates 1\nhaving\nproject 2\ndistinct\norder 1\nlimit 10 offset 3\n\n",
    ),
];

static SETS: [(&str, &str, &str); 4] = [
    (
        "SELECT k FROM a UNION SELECT k FROM b",
        "a #0 item select b #0 item select union end",
        "plan\nscan a filter 0\nproject 1\nscan b filter 0\nproject 1\nunion\n\n",
    ),
    (
        "SELECT k FROM a UNION ALL SELECT k FROM b EXCEPT SELECT k FROM c",
        "a #0 item select b #0 item select union-all c #0 item select except end",
        "plan\nscan a filter 0\nproject 1\nscan b filter 0\nproject 1\nunion all\nscan c filter 0\nproject 1\nexcept\n\n",
    ),
    (
        "SELECT k FROM a UNION SELECT k FROM b INTERSECT ALL SELECT k FROM c",
        "a #0 item select b #0 item select c #0 item select intersect-all union end",
        "plan\nscan a filter 0\nproject 1\nscan b filter 0\nproject 1\nscan c filter 0\nproject 1\nintersect all\nunion\n\n",
    ),
    (
        "SELECT k FROM a INTERSECT SELECT k FROM b WHERE k > 1 EXCEPT ALL SELECT DISTINCT k FROM c ORDER BY k LIMIT 10",
        "a #0 item select b #0 1 > where #0 item select intersect c distinct #0 item select except-all sort limit-10 end",
        "plan\nscan a filter 0\nproject 1\nscan b filter 1\nproject 1\nintersect\nscan c filter 0\nproject 1\ndistinct\nexcept all\norder 1\nlimit 10 offset 0\n\n",
    ),
];

static ORDERS: [(&str, &str, &str); 5] = [
    (
        "SELECT k, n FROM p ORDER BY k, n",
        "p #0 item #1 item select sort sort end",
        "plan\nscan p filter 0\nproject 2\norder 2\n\n",
    ),
    (
        "SELECT k FROM a LIMIT 10",
        "a #0 item select limit-10 end",
        "plan\nscan a filter 0\nproject 1\norder 0\nlimit 10 offset 0\n\n",
    ),
    (
        "SELECT k FROM a OFFSET 3",
        "a #0 item select offset-3 end",
        "plan\nscan a filter 0\nproject 1\norder 0\nlimit all offset 3\n\n",
    ),
    (
        "SELECT k FROM a ORDER BY k LIMIT 0 OFFSET 0",
        "a #0 item select sort limit-0 offset-0 end",
        "plan\nscan a filter 0\nproject 1\norder 1\nlimit 0 offset 0\n\n",
    ),
    (
        "SELECT k FROM a OFFSET 0",
        "a #0 item select offset-0 end",
        "plan\nscan a filter 0\nproject 1\norder 0\nlimit all offset 0\n\n",
    ),
];

#[test]
fn groups_and_distinct(rt: HostRuntime) -> Result<(), Fail> {
    for (sql, words, expected) in &GROUPS {
        let text = explained(rt.alloc(), words)?;
        assert_eq!(rt; shown(text.as_slice()), *expected, "at {sql}");
    }
    Ok(())
}

#[test]
fn set_operations(rt: HostRuntime) -> Result<(), Fail> {
    for (sql, words, expected) in &SETS {
        let text = explained(rt.alloc(), words)?;
        assert_eq!(rt; shown(text.as_slice()), *expected, "at {sql}");
    }
    Ok(())
}

#[test]
fn order_limit_and_offset(rt: HostRuntime) -> Result<(), Fail> {
    for (sql, words, expected) in &ORDERS {
        let text = explained(rt.alloc(), words)?;
        assert_eq!(rt; shown(text.as_slice()), *expected, "at {sql}");
    }
    Ok(())
}
