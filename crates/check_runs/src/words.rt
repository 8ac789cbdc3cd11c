//! The words of a check, and scripts that are missing.
use crate::runs::{ROOM, check, expect_words, files, shown, sink};
use std::test::Fail;

const SCRIPT: &str = "CREATE TABLE t (a INT); SELECT a FROM t;";

const PLANNED: &str = "plan\nscan t filter 0\nproject 1\n\nok\n";

const USAGE: &str = "usage: oocsql [--threads N] [--limit BYTES] [--page BYTES] SCRIPT\n";

/// Words that aren't taken, with what is written.
static WRONG: [(&[&str], &str); 24] = [
    (&[], USAGE),
    (&["s.sql"], USAGE),
    (&["--check"], USAGE),
    (&["s.sql", "--check"], USAGE),
    (&["--threads", "1", "--check", "s.sql"], USAGE),
    (&["--check", "--check", "s.sql"], USAGE),
    (&["--CHECK", "s.sql"], USAGE),
    (&["--check", "s.sql", "s.sql"], USAGE),
    (&["--check", "--"], USAGE),
    (&["--check", "-x", "s.sql"], USAGE),
    (&["--check", "--help"], USAGE),
    (&["--check", "s.sql", "--threads"], USAGE),
    (&["--check", "--threads", "0", "s.sql"], USAGE),
    (&["--check", "--threads", "65", "s.sql"], USAGE),
    (&["--check", "--threads", "one", "s.sql"], USAGE),
    (&["--check", "--threads=1", "--threads=1", "s.sql"], USAGE),
    (&["--check", "--page", "2048", "s.sql"], USAGE),
    (&["--check", "--page", "5000", "s.sql"], USAGE),
    (&["--check", "--page", "524288", "s.sql"], USAGE),
    (
        &["--check", "--limit", "18446744073709551616", "s.sql"],
        USAGE,
    ),
    (
        &["--check", "--page", "4096", "--limit", "98303", "s.sql"],
        "usage: 23 frames, 24 needed\n",
    ),
    (
        &["--check", "--limit=0", "s.sql"],
        "usage: 0 frames, 24 needed\n",
    ),
    (
        &["--check", "--limit=68719480832", "--page=4096", "s.sql"],
        "usage: 16777217 frames, at most 16777216\n",
    ),
    (
        &["--check", "--limit", "18446744073709551615", "s.sql"],
        "usage: 70368744177663 frames, at most 16777216\n",
    ),
];

#[test]
fn wrong_words_are_answered_whatever_the_files_are(rt: HostRuntime) -> Result<(), Fail> {
    let alloc = rt.alloc();
    for (words, out) in &WRONG {
        expect_words(&rt, alloc, words, Some(SCRIPT.as_bytes()), 2, out)?;
        expect_words(&rt, alloc, words, None, 2, out)?;
        // No call of the files is made.
        let mut files = files(alloc, Some(SCRIPT.as_bytes()), 1)?;
        let mut sink = sink(alloc, 0, ROOM)?;
        let status = check(alloc, words, &mut files, &mut sink)?;
        assert_eq!(rt; shown(sink.bytes()), *out);
        assert_eq!(rt; status.code(), 2, "at {out}");
        assert_eq!(rt; files.fault_count(), 0, "at {out}");
    }
    Ok(())
}

/// Words that are taken.
static TAKEN: [&[&str]; 9] = [
    &["--check", "s.sql"],
    &["--check", "--", "s.sql"],
    &["--check", "--page", "4096", "--limit", "98304", "s.sql"],
    &["--check", "s.sql", "--threads", "1"],
    &["--check", "--threads=64", "s.sql"],
    &["--check", "--threads", "064", "s.sql"],
    &[
        "--check",
        "--page",
        "262144",
        "--threads",
        "2",
        "s.sql",
        "--limit=6291456",
    ],
    &[
        "--check",
        "--limit=98304",
        "--page=4096",
        "--threads=8",
        "--",
        "s.sql",
    ],
    &["--check", "--page=8192", "s.sql"],
];

#[test]
fn options_change_nothing_of_a_plan(rt: HostRuntime) -> Result<(), Fail> {
    for words in &TAKEN {
        expect_words(&rt, rt.alloc(), words, Some(SCRIPT.as_bytes()), 0, PLANNED)?;
    }
    Ok(())
}

/// Words of scripts that aren't there.
static MISSING: [&[&str]; 6] = [
    &["--check", "t.sql"],
    &["--check", "S.sql"],
    &["--check", "-"],
    &["--check", ""],
    &["--check", "--", "--check"],
    &["--check", "--page=4096", "--limit=98304", "./s.sql"],
];

#[test]
fn a_missing_script_is_no_file(rt: HostRuntime) -> Result<(), Fail> {
    let alloc = rt.alloc();
    let out = "error: script: no file\n";
    for words in &MISSING {
        expect_words(&rt, alloc, words, Some(SCRIPT.as_bytes()), 1, out)?;
    }
    expect_words(&rt, alloc, &["--check", "s.sql"], None, 1, out)
}
