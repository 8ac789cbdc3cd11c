//! Limits: the bytes of a script, of a name and of a text, the nesting, and the numbers of columns.
use crate::runs::{WORDS, expect, expect_words, repeat};
use std::alloc::Global;
use std::fmt::Write;
use std::process::Abort;
use std::test::Fail;

/// The plan of one column of `t`, and the end of a check that is done.
const PLANNED: &str = "plan\nscan t filter 0\nproject 1\n\nok\n";

/// A script with blanks behind it, up to so many bytes.
fn padded(alloc: Global, script: &str, length: usize) -> Result<String, Fail> {
    let mut text = String::from_str(alloc, script)?;
    let blanks = repeat(alloc, " ", length.saturating_sub(script.len()))?;
    text.push_str(blanks.as_str())?;
    Ok(text)
}

fn expect_length<R: Abort>(
    rt: &R,
    alloc: Global,
    length: usize,
    code: u8,
    out: &str,
) -> Result<(), Fail> {
    let script = padded(alloc, "CREATE TABLE t (a INT); SELECT a FROM t;", length)?;
    assert_eq!(rt; script.len(), length);
    expect(rt, alloc, script.as_bytes(), code, out)
}

#[test]
fn a_script_has_its_length(rt: HostRuntime) -> Result<(), Fail> {
    let alloc = rt.alloc();
    expect_length(&rt, alloc, 65_536, 0, PLANNED)?;
    expect_length(&rt, alloc, 65_537, 0, PLANNED)?;
    expect_length(&rt, alloc, 1_048_576, 0, PLANNED)?;
    expect_length(&rt, alloc, 1_048_577, 1, "error: script: too long\n")
}

/// A nesting of so many levels: the text of a level, that behind it, and so on.
fn nested(alloc: Global, parts: (&str, &str, &str, &str), levels: usize) -> Result<String, Fail> {
    let mut script = String::from_str(alloc, parts.0)?;
    let front = repeat(alloc, parts.1, levels)?;
    script.push_str(front.as_str())?;
    script.push_str(parts.2)?;
    let back = repeat(alloc, parts.3, levels)?;
    script.push_str(back.as_str())?;
    Ok(script)
}

/// What nests: the text before, that of a level, that within and that behind each level.
static NESTS: [((&str, &str, &str, &str), &str); 3] = [
    (
        ("CREATE TABLE t (a INT); SELECT ", "(", "a", ")"),
        "error: script at 63: too deep\n",
    ),
    (
        ("CREATE TABLE t (a BOOL); SELECT ", "NOT ", "a", ""),
        "error: script at 160: too deep\n",
    ),
    (
        ("CREATE TABLE t (a INT); SELECT ", "- ", "a", ""),
        "error: script at 95: too deep\n",
    ),
];

#[test]
fn expressions_have_32_levels(rt: HostRuntime) -> Result<(), Fail> {
    let alloc = rt.alloc();
    for (parts, out) in &NESTS {
        let mut script = nested(alloc, *parts, 33)?;
        script.push_str(" FROM t")?;
        expect(&rt, alloc, script.as_bytes(), 1, out)?;
    }
    for (parts, _) in &NESTS {
        let mut script = nested(alloc, *parts, 32)?;
        script.push_str(" FROM t")?;
        expect(&rt, alloc, script.as_bytes(), 0, PLANNED)?;
    }
    // What the grammar refuses before it is answered.
    let script = nested(alloc, ("SELECT ) ", "(", "a", ")"), 33)?;
    expect(
        &rt,
        alloc,
        script.as_bytes(),
        1,
        "error: script at 7: syntax\n",
    )
}

#[test]
fn subqueries_have_32_levels(rt: HostRuntime) -> Result<(), Fail> {
    let alloc = rt.alloc();
    let parts = (
        "CREATE TABLE t (a INT); SELECT a FROM ",
        "(SELECT a FROM ",
        "t",
        ") AS s",
    );
    let script = nested(alloc, parts, 33)?;
    expect(
        &rt,
        alloc,
        script.as_bytes(),
        1,
        "error: script at 518: too deep\n",
    )?;
    let script = nested(alloc, parts, 32)?;
    let lines = (
        "plan\n",
        "subquery s\n",
        "scan t filter 0\nproject 1\n",
        "end s\nscan s filter 0\nproject 1\n",
    );
    let mut out = nested(alloc, lines, 32)?;
    out.push_str("\nok\n")?;
    expect(&rt, alloc, script.as_bytes(), 0, out.as_str())
}

/// A script with a text of so many bytes, in a comparison.
fn expect_text<R: Abort>(
    rt: &R,
    alloc: Global,
    words: &[&str],
    length: usize,
    is_taken: bool,
) -> Result<(), Fail> {
    let text = repeat(alloc, "x", length)?;
    let script = format!(in alloc; "CREATE TABLE t (a TEXT); SELECT a FROM t WHERE a = '{text}'")?;
    if is_taken {
        let out = "plan\nscan t filter 1\nproject 1\n\nok\n";
        expect_words(rt, alloc, words, Some(script.as_bytes()), 0, out)
    } else {
        let out = "error: statement 2 at 51: text too long\n";
        expect_words(rt, alloc, words, Some(script.as_bytes()), 1, out)
    }
}

#[test]
fn a_text_has_its_length_by_the_page(rt: HostRuntime) -> Result<(), Fail> {
    let alloc = rt.alloc();
    let small = &["--check", "--page", "4096", "--limit", "98304", "s.sql"];
    expect_text(&rt, alloc, small, 63, true)?;
    expect_text(&rt, alloc, small, 64, false)?;
    expect_text(&rt, alloc, WORDS, 64, true)?;
    expect_text(&rt, alloc, WORDS, 4095, true)?;
    expect_text(&rt, alloc, WORDS, 4096, false)
}

/// A table with a name of so many bytes.
fn expect_name<R: Abort>(
    rt: &R,
    alloc: Global,
    length: usize,
    code: u8,
    out: &str,
) -> Result<(), Fail> {
    let name = repeat(alloc, "y", length)?;
    let script = format!(in alloc; "CREATE TABLE {name} (a INT)")?;
    expect(rt, alloc, script.as_bytes(), code, out)
}

#[test]
fn a_name_has_its_length(rt: HostRuntime) -> Result<(), Fail> {
    let alloc = rt.alloc();
    expect_name(&rt, alloc, 63, 0, "ok\n")?;
    expect_name(&rt, alloc, 64, 1, "error: script at 13: bad token\n")
}

/// A table of so many columns.
fn expect_columns<R: Abort>(
    rt: &R,
    alloc: Global,
    count: u32,
    code: u8,
    out: &str,
) -> Result<(), Fail> {
    let mut script = String::from_str(alloc, "CREATE TABLE t (")?;
    for number in 1..count {
        write!(script, "x{number} INT, ")?;
    }
    script.push_str("x INT)")?;
    expect(rt, alloc, script.as_bytes(), code, out)
}

/// A SELECT of so many items.
fn expect_items<R: Abort>(
    rt: &R,
    alloc: Global,
    count: usize,
    code: u8,
    out: &str,
) -> Result<(), Fail> {
    let items = repeat(alloc, "a, ", count.saturating_sub(1))?;
    let script = format!(in alloc; "CREATE TABLE t (a INT); SELECT {items}a FROM t")?;
    expect(rt, alloc, script.as_bytes(), code, out)
}

#[test]
fn columns_and_items_are_64_at_most(rt: HostRuntime) -> Result<(), Fail> {
    let alloc = rt.alloc();
    expect_columns(&rt, alloc, 64, 0, "ok\n")?;
    expect_columns(
        &rt,
        alloc,
        65,
        1,
        "error: statement 1 at 13: too many columns\n",
    )?;
    expect_items(
        &rt,
        alloc,
        64,
        0,
        "plan\nscan t filter 0\nproject 64\n\nok\n",
    )?;
    expect_items(
        &rt,
        alloc,
        65,
        1,
        "error: statement 2 at 24: too many columns\n",
    )
}
