//! Checks where a call of the files or of the output fails.
use crate::runs::{ROOM, WORDS, check, files, repeat, shown, sink};
use std::alloc::Global;
use std::process::Abort;
use std::test::Fail;

/// Three statements, the second and third with a plan.
const SCRIPT: &str = "CREATE TABLE t (a INT); SELECT a FROM t; EXPLAIN SELECT a, a FROM t;";

const OUT: &str = "plan\nscan t filter 0\nproject 1\n\nplan\nscan t filter 0\nproject 2\n\nok\n";

/// The block of the second statement.
const FIRST: &str = "plan\nscan t filter 0\nproject 1\n\n";

/// The blocks of the second and third statement.
const BOTH: &str = "plan\nscan t filter 0\nproject 1\n\nplan\nscan t filter 0\nproject 2\n\n";

const READ_FAULT: &str = "error: read fault\n";

/// A check whose files fail in the call of that number; after `calls` calls the script is read.
fn expect_reading<R: Abort>(
    rt: &R,
    alloc: Global,
    script: &[u8],
    failing: u64,
    calls: u64,
) -> Result<(), Fail> {
    let mut files = files(alloc, Some(script), failing)?;
    let mut sink = sink(alloc, 0, ROOM)?;
    let status = check(alloc, WORDS, &mut files, &mut sink)?;
    let fails = failing <= calls;
    let (code, out) = if fails { (3, READ_FAULT) } else { (0, OUT) };
    assert_eq!(rt; shown(sink.bytes()), out, "call {failing}");
    assert_eq!(rt; status.code(), code, "call {failing}");
    assert_eq!(rt; files.fault_count(), u64::from(fails), "call {failing}");
    assert_eq!(rt; sink.fault_count(), 0, "call {failing}");
    Ok(())
}

#[test]
fn each_call_of_the_files_fails(rt: HostRuntime) -> Result<(), Fail> {
    let alloc = rt.alloc();
    for failing in 1..=6u64 {
        // It is opened, read, and read once more for its end.
        expect_reading(&rt, alloc, SCRIPT.as_bytes(), failing, 3)?;
    }
    let mut long = String::from_str(alloc, SCRIPT)?;
    let blanks = repeat(alloc, " ", 65_536)?;
    long.push_str(blanks.as_str())?;
    for failing in 1..=6u64 {
        expect_reading(&rt, alloc, long.as_bytes(), failing, 4)?;
    }
    Ok(())
}

#[test]
fn a_missing_script_is_missing_where_its_opening_fails(rt: HostRuntime) -> Result<(), Fail> {
    let alloc = rt.alloc();
    let mut files = files(alloc, None, 1)?;
    let mut sink = sink(alloc, 0, ROOM)?;
    let status = check(alloc, WORDS, &mut files, &mut sink)?;
    assert_eq!(rt; shown(sink.bytes()), "error: script: no file\n");
    assert_eq!(rt; status.code(), 1);
    assert_eq!(rt; files.fault_count(), 0);
    Ok(())
}

/// A check whose output has so much room, or fails in the call of that number, or neither.
fn expect_writing<R: Abort>(
    rt: &R,
    alloc: Global,
    script: &str,
    room: u32,
    failing: u64,
    code: u8,
    out: &str,
) -> Result<(), Fail> {
    let mut files = files(alloc, Some(script.as_bytes()), 0)?;
    let mut sink = sink(alloc, failing, room)?;
    let status = check(alloc, WORDS, &mut files, &mut sink)?;
    assert_eq!(rt; shown(sink.bytes()), out, "room {room}, call {failing}");
    assert_eq!(rt; status.code(), code, "room {room}, call {failing}");
    assert_eq!(rt;
        sink.fault_count(),
        u64::from(code == 4),
        "room {room}, call {failing}"
    );
    assert_eq!(rt; files.fault_count(), 0, "room {room}, call {failing}");
    Ok(())
}

/// The output's failing call, the code, and what was taken. CREATE writes nothing and is flushed; each block, and the last line,
/// is written and flushed.
static CALLS: [(u64, u8, &str); 8] = [
    (1, 4, ""),
    (2, 4, ""),
    (3, 4, FIRST),
    (4, 4, FIRST),
    (5, 4, BOTH),
    (6, 4, BOTH),
    (7, 4, OUT),
    (8, 0, OUT),
];

#[test]
fn each_call_of_the_output_fails(rt: HostRuntime) -> Result<(), Fail> {
    for (failing, code, out) in &CALLS {
        expect_writing(&rt, rt.alloc(), SCRIPT, ROOM, *failing, *code, out)?;
    }
    Ok(())
}

/// An output that takes so many bytes has a front of the output.
fn expect_front<R: Abort>(
    rt: &R,
    alloc: Global,
    script: &str,
    room: u32,
    out: &str,
) -> Result<u8, Fail> {
    let mut files = files(alloc, Some(script.as_bytes()), 0)?;
    let mut sink = sink(alloc, 0, room)?;
    let status = check(alloc, WORDS, &mut files, &mut sink)?;
    assert!(rt; out.as_bytes().starts_with(sink.bytes()), "room {room}");
    assert_eq!(rt;
        sink.bytes().len(),
        out.len().min(room as usize),
        "room {room}"
    );
    Ok(status.code())
}

/// Each output that is too small fails, and one that has the room doesn't.
fn expect_fronts<R: Abort>(
    rt: &R,
    alloc: Global,
    script: &str,
    code: u8,
    out: &str,
) -> Result<(), Fail> {
    for room in 0..100u32 {
        let found = expect_front(rt, alloc, script, room, out)?;
        let expected = if (room as usize) < out.len() { 4 } else { code };
        assert_eq!(rt; found, expected, "room {room}");
    }
    Ok(())
}

#[test]
fn an_output_takes_so_many_bytes(rt: HostRuntime) -> Result<(), Fail> {
    let alloc = rt.alloc();
    expect_fronts(&rt, alloc, SCRIPT, 0, OUT)?;
    // The line of a refusal is lost too.
    let script = "CREATE TABLE t (a INT); SELECT a FROM t; SELECT b FROM t;";
    let out = "plan\nscan t filter 0\nproject 1\n\nerror: statement 3 at 48: no column\n";
    expect_fronts(&rt, alloc, script, 1, out)
}

#[test]
fn the_line_of_a_status_is_lost_where_the_output_fails(rt: HostRuntime) -> Result<(), Fail> {
    let alloc = rt.alloc();
    let mut files = files(alloc, None, 0)?;
    let mut sink = sink(alloc, 0, 7)?;
    let status = check(alloc, &["--check"], &mut files, &mut sink)?;
    assert_eq!(rt; shown(sink.bytes()), "usage: ");
    assert_eq!(rt; status.code(), 4);
    assert_eq!(rt; sink.fault_count(), 1);
    Ok(())
}
