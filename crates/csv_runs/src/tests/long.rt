//! Long records, and long files of them.

use crate::session::gives;
use crate::shape::{Limits, Shape, plain_shape};
use ooc_types::{OutOfMemory, SqlType};
use std::alloc::Global;

/// A front, so many letters, and what stands behind them.
pub fn padded(
    alloc: Global,
    front: &str,
    letters: usize,
    behind: &str,
) -> Result<Vec<u8>, OutOfMemory> {
    let mut bytes = Vec::from_slice(alloc, front.as_bytes())?;
    bytes.resize(front.len().saturating_add(letters), b'x')?;
    bytes.extend_from_slice(behind.as_bytes())?;
    Ok(bytes)
}

// Whether a file with so many letters between a front and an end gives these rows.
fn gives_padded(
    alloc: Global,
    shape: &Shape,
    front: &str,
    letters: usize,
    behind: &str,
    rows: &str,
) -> Result<bool, OutOfMemory> {
    let file = padded(alloc, front, letters, behind)?;
    gives(alloc, shape, file.as_slice(), rows.as_bytes())
}

// The place of the first of such files that doesn't give its rows.
fn first_wrong_padded(
    alloc: Global,
    cases: &[(Shape, &str, usize, &str, &str)],
) -> Result<Option<usize>, OutOfMemory> {
    for place in 0..cases.len() {
        let (shape, front, letters, behind, rows) = cases[place];
        if !gives_padded(alloc, &shape, front, letters, behind, rows)? {
            return Ok(Some(place));
        }
    }
    Ok(None)
}

const TEXTS: [SqlType; 1] = [SqlType::Varchar];

// A record of the limit is read, so its text is too long; one byte more is too many, whatever the record is like.
#[test]
fn a_record_may_have_1048576_bytes(rt: HostRuntime) {
    let headed = plain_shape(&TEXTS);
    let plain = Shape {
        header: false,
        ..headed
    };
    let text = "record 1 column 1: text too long";
    let long = "record 1 column 0: record too long";
    let cases = [
        (plain, "", 1_048_576, "\n", text),
        (plain, "", 1_048_577, "\n", long),
        (plain, "", 1_048_576, "", text),
        (plain, "", 1_048_577, "", long),
        (plain, "\"", 1_048_575, "", "record 1 column 1: open quote"),
        (plain, "\"", 1_048_576, "", long),
        (plain, "\"", 1_048_575, "\"\n", long),
        (
            plain,
            "a\n",
            1_048_577,
            ",\n",
            "'a';record 2 column 0: record too long",
        ),
        (headed, "", 1_048_576, "\na\n", "'a';end"),
        (
            headed,
            "",
            1_048_577,
            "\na\n",
            "record 0 column 0: record too long",
        ),
    ];
    assert!(rt; first_wrong_padded(rt.alloc(), &cases) == Ok(None));
}

// Of one record the file's length comes first, where it has the first byte beyond the limit.
#[test]
fn a_long_record_may_be_beyond_the_end_of_the_file(rt: HostRuntime) {
    let shape = Shape {
        header: false,
        limits: Limits::Within {
            text: 63,
            file: 1_048_600,
        },
        ..plain_shape(&TEXTS)
    };
    let file = "record 1 column 0: file too long";
    let long = "record 1 column 0: record too long";
    let cases = [
        (shape, "", 1_048_600, "", long),
        (shape, "", 1_048_601, "", file),
        (shape, "", 2_000_000, "\n", file),
        (shape, "", 1_048_600, "\n", long),
        (shape, "", 1_048_590, "\nabcdefghijklmnopqrst\n", long),
        (shape, "\"", 1_048_599, "", long),
        (shape, "\"", 1_048_600, "", file),
        (
            shape,
            "a\n",
            1_048_599,
            "",
            "'a';record 2 column 0: file too long",
        ),
        (
            shape,
            "a\n",
            1_048_597,
            "\nb",
            "'a';record 2 column 0: record too long",
        ),
    ];
    assert!(rt; first_wrong_padded(rt.alloc(), &cases) == Ok(None));
}

// Whether a quoted text with so many letters is read, and the one behind it.
fn gives_long_text(alloc: Global, letters: usize) -> Result<bool, OutOfMemory> {
    let shape = Shape {
        header: false,
        limits: Limits::Within {
            text: 1_000_000,
            file: 4_000_000,
        },
        ..plain_shape(&TEXTS)
    };
    let file = padded(alloc, "\"", letters, "\"\"\"\nz\n")?;
    let rows = padded(alloc, "'", letters, "\"';'z';end")?;
    gives(alloc, &shape, file.as_slice(), rows.as_slice())
}

// The buffer has 65,536 bytes at first, and then 196,608.
#[test]
fn a_text_may_be_longer_than_what_is_read_at_once(rt: HostRuntime) {
    for letters in [
        65_530, 65_534, 65_535, 65_536, 131_072, 196_604, 196_608, 700_000,
    ] {
        assert!(rt;
            gives_long_text(rt.alloc(), letters) == Ok(true),
            "{letters}"
        );
    }
}
