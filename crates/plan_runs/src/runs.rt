//! The text of the plan of a SELECT that is put together by words.
use crate::numbered::is_numbered;
use crate::sketch::select_of;
use bound_tree::BoundSelect;
use ooc_types::Text;
use plan_text::explain;
use sql_plan::{TableCount, plan};
use std::alloc::Global;
use std::test::Fail;

/// How many rows the tables have. `u` has no count.
static ROWS: [(&str, u64); 7] = [
    ("a", 5),
    ("b", 3),
    ("c", 2),
    ("d", 3),
    ("p", 4),
    ("q", 4),
    ("t", 9),
];

fn counts(alloc: Global) -> Result<Vec<TableCount>, Fail> {
    let mut counts = Vec::new(alloc);
    for (name, rows) in &ROWS {
        counts.push(TableCount {
            name: Text::from_slice(alloc, name.as_bytes())?,
            rows: *rows,
        })?;
    }
    Ok(counts)
}

fn planned_text(
    alloc: Global,
    select: &BoundSelect,
    counts: &[TableCount],
) -> Result<Vec<u8>, Fail> {
    if !is_numbered(select) {
        return Err("too many columns".into());
    }
    let plan = plan(alloc, select, counts)?;
    let mut text = Vec::new(alloc);
    explain(alloc, &plan, &mut text)?;
    Ok(text)
}

/// What EXPLAIN prints of the SELECT of these words.
pub(crate) fn explained(alloc: Global, words: &str) -> Result<Vec<u8>, Fail> {
    let select = select_of(alloc, words)?;
    let counts = counts(alloc)?;
    planned_text(alloc, &select, counts.as_slice())
}

/// A text that was printed.
pub(crate) fn shown(bytes: &[u8]) -> &str {
    match std::str::from_utf8(bytes) {
        Ok(text) => text,
        Err(_) => "no text",
    }
}
