//! The command over memory forms, and the real forms once each.

ghost use Rattle.std.specs.Prelude.{◌≡◌, IfOk, vec_len};

use super::*;
use ooc_io::{Files, MemFiles, MemLane, MemSink, OpenFault, Sink};
use std::alloc::{AllocError, Global};
use std::env::Args;
use std::process::Abort;
use std::sync::Wait;
use std::test::Fail;
use std::thread::Threads;
use std::{fs, io};

const USAGE: &str = "usage: oocsql [--threads N] [--limit BYTES] [--page BYTES] SCRIPT\n";

/// The arguments behind the program's name, the exit status, and what is written where no file is there.
static COMMANDS: [(&[&str], u8, &str); 4] = [
    (&[], 2, USAGE),
    (&["s.sql"], 1, "error: script: no file\n"),
    (&["s.sql", "s.sql"], 2, USAGE),
    (&["--help"], 2, USAGE),
];

/// Lanes in memory.
fn mem_lanes(alloc: Global) -> Result<Vec<MemLane>, AllocError>
    ensures { IfOk result (λ lanes. vec_len lanes ≡ 64) }
{
    let mut lanes = Vec::with_capacity(alloc, 64)?;
    for _ in 0u32..64 {
        lanes.push(MemLane::new_lane(alloc, Vec::new(alloc), Vec::new(alloc)))?;
    }
    Ok(lanes)
}

/// Runs a command without files, and compares its exit status and what is written.
fn expect<R: Threads + Wait + Sync + Abort>(
    rt: &R,
    alloc: Global,
    args: io::Result<Args>,
    code: u8,
    out: &str,
) -> Result<(), Fail> {
    let mut files = MemFiles::new_files(Vec::new(alloc), Vec::new(alloc));
    let mut sink = MemSink::new_sink(alloc, Vec::new(alloc), 256)?;
    let mut lanes = mem_lanes(alloc)?;
    let status = run(rt, alloc, args, &mut files, &mut sink, lanes.as_mut_slice());
    assert_eq!(rt; sink.bytes(), out.as_bytes());
    assert_eq!(rt; status.code(), code);
    Ok(())
}

#[test]
fn a_command_without_one_script_is_faulty(rt: HostRuntime) -> Result<(), Fail> {
    let alloc = rt.alloc();
    for (words, code, out) in &COMMANDS {
        expect(&rt, alloc, Ok(arguments(alloc, words)?), *code, out)?;
    }
    // An argument that isn't UTF-8, and want of memory.
    let odd = io::Error::from(io::ErrorKind::InvalidData);
    expect(&rt, alloc, Err(odd), 2, USAGE)?;
    let memory = io::Error::from(io::ErrorKind::OutOfMemory);
    expect(&rt, alloc, Err(memory), 7, "error: out of memory\n")
}

/// The arguments behind the program's name, whether they ask for a check, its exit status, and what it writes where no file is
/// there.
static CHECKS: [(&[&str], bool, u8, &str); 5] = [
    (&[], false, 2, USAGE),
    (&["s.sql"], false, 2, USAGE),
    (&["s.sql", "--check"], false, 2, USAGE),
    (&["--check"], true, 2, USAGE),
    (&["--check", "s.sql"], true, 1, "error: script: no file\n"),
];

fn arguments(alloc: Global, words: &[&str]) -> Result<Args, Fail> {
    let mut args = vec![in alloc; String::from_str(alloc, "oocsql")?]?;
    for word in words {
        args.push(String::from_str(alloc, word)?)?;
    }
    Ok(args.into_iter())
}

#[test]
fn a_check_is_asked_for_by_its_first_word(rt: HostRuntime) -> Result<(), Fail> {
    let alloc = rt.alloc();
    for (words, asked, code, out) in &CHECKS {
        assert_eq!(rt; is_check(Ok(arguments(alloc, words)?)), *asked);
        let mut files = MemFiles::new_files(Vec::new(alloc), Vec::new(alloc));
        let mut sink = MemSink::new_sink(alloc, Vec::new(alloc), 256)?;
        let status = check(alloc, Ok(arguments(alloc, words)?), &mut files, &mut sink);
        assert_eq!(rt; sink.bytes(), out.as_bytes());
        assert_eq!(rt; status.code(), *code);
    }
    Ok(())
}

#[test]
fn a_real_file_is_read_to_its_end(rt: HostRuntime) -> Result<(), Fail> {
    fs::write(&rt, "real_files.txt", "one,two")?;
    let mut files = RealFiles::new_files(&rt);
    assert!(rt; files.open("no_such_file.txt") == Err(OpenFault::Missing));
    assert_eq!(rt; files.fault_count(), 0);
    assert!(rt; files.open("real_files.txt/below") == Err(OpenFault::Failed));
    assert_eq!(rt; files.fault_count(), 1);
    let mut piece = [0u8; 16];
    match files.open("real_files.txt") {
        Ok(()) => {
            assert!(rt; files.read(&mut piece) == Ok(7));
            assert_eq!(rt; &piece[..7], b"one,two".as_slice());
            assert!(rt; files.read(&mut piece) == Ok(0));
        }
        Err(_) => assert!(rt; false, "the file is there"),
    }
    // A folder is opened, and can't be read.
    match files.open(".") {
        Ok(()) => assert!(rt; files.read(&mut piece).is_err()),
        Err(fault) => assert!(rt; fault == OpenFault::Failed),
    }
    assert_eq!(rt; files.fault_count(), 2);
    fs::remove_file(&rt, "real_files.txt")?;
    Ok(())
}

#[test]
fn the_standard_output_takes_bytes(rt: HostRuntime) -> Result<(), Fail> {
    let mut sink = RealSink::new_sink(&rt);
    match sink.write(b"some bytes\n") {
        Ok(count) => assert_eq!(rt; count, 11),
        Err(_) => assert!(rt; false, "the output takes bytes"),
    }
    assert!(rt; sink.flush() == Ok(()));
    assert_eq!(rt; sink.fault_count(), 0);
    Ok(())
}

/// A table of 8,000 such rows has more pages than a limit of 24 frames has room for.
const ROW: &str = "1,a name that is longer than what a row keeps of it\n";

/// The words of a run within that limit.
const LIMITED: [&str; 5] = ["--limit", "98304", "--page", "4096", "large.sql"];

/// The file of the first lane.
const FIRST: &str = "oocsql-spill-00.tmp";

/// The script, its exit status, and what it prints.
static LARGE: [(&str, u8, &str); 2] = [
    (
        "CREATE TABLE t (id INTEGER, name VARCHAR); COPY t FROM 'large.csv' (HEADER FALSE); SELECT id FROM t WHERE id = 2;",
        0,
        "id\n\n",
    ),
    (
        "CREATE TABLE t (id INTEGER, name VARCHAR); COPY t FROM 'large.csv' (HEADER FALSE); SELECT other FROM t;",
        1,
        "error: statement 3 at 90: no column\n",
    ),
];

fn large_file(alloc: Global) -> Result<String, AllocError> {
    let mut rows = String::new(alloc);
    for _ in 0u32..8000 {
        rows.push_str(ROW)?;
    }
    Ok(rows)
}

#[test]
fn a_table_larger_than_the_limit_leaves_no_file(rt: HostRuntime) -> Result<(), Fail> {
    let alloc = rt.alloc();
    fs::write(&rt, "large.csv", large_file(alloc)?.as_str())?;
    for (script, code, out) in &LARGE {
        fs::write(&rt, "large.sql", *script)?;
        let mut lanes = file_lanes(&rt, alloc)?;
        let mut files = RealFiles::new_files(&rt);
        let mut sink = MemSink::new_sink(alloc, Vec::new(alloc), 256)?;
        let args = Ok(arguments(alloc, &LIMITED)?);
        let lent = lanes.as_mut_slice();
        let status = run(&rt, alloc, args, &mut files, &mut sink, lent);
        remove_files(lanes.as_slice());
        assert_eq!(rt; sink.bytes(), out.as_bytes());
        assert_eq!(rt; status.code(), *code);
        assert!(rt; fs::metadata(&rt, FIRST).is_err());
    }
    // The file is there until it is removed.
    let mut lanes = file_lanes(&rt, alloc)?;
    let mut files = RealFiles::new_files(&rt);
    let mut sink = MemSink::new_sink(alloc, Vec::new(alloc), 256)?;
    let args = Ok(arguments(alloc, &LIMITED)?);
    let _ = run(
        &rt,
        alloc,
        args,
        &mut files,
        &mut sink,
        lanes.as_mut_slice(),
    );
    assert!(rt; lanes[0].write_count() > 100);
    assert_eq!(rt; lanes[0].fault_count(), 0);
    assert!(rt; fs::metadata(&rt, FIRST).is_ok());
    remove_files(lanes.as_slice());
    assert!(rt; fs::metadata(&rt, FIRST).is_err());
    fs::remove_file(&rt, "large.csv")?;
    fs::remove_file(&rt, "large.sql")?;
    Ok(())
}
