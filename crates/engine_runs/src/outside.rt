//! Runs where a call of the files or of the output fails.
use crate::runs::{Failing, NOTHING, ROOM, WORDS, run, shown};
use std::test::Fail;

/// Two blocks; the second statement opens a file.
const SCRIPT: &str =
    "CREATE TABLE t (a INT); SELECT a FROM t; COPY t FROM 't.csv'; SELECT a FROM t ORDER BY a;";

const ROWS: &str = "a\n2\n1\n";

const FIRST: &str = "a\n\n";

const OUT: &str = "a\n\na\n1\n2\n\n";

#[test]
fn each_call_of_the_files_fails(rt: HostRuntime) -> Result<(), Fail> {
    let alloc = rt.alloc();
    let given: [(&str, &[u8]); 2] = [("s.sql", SCRIPT.as_bytes()), ("t.csv", ROWS.as_bytes())];
    // The script is opened, read, and read once more for its end; then the file, with at least as many calls.
    for call in 1..=12u64 {
        let failing = Failing {
            files: call,
            ..NOTHING
        };
        let ended = run(&rt, alloc, WORDS, &given, failing, ROOM)?;
        let fails = ended.files == 1;
        let (code, out) = match (fails, call <= 3) {
            (true, true) => (3, "error: read fault\n"),
            (true, false) => (3, "a\n\nerror: read fault\n"),
            (false, _) => (0, OUT),
        };
        assert_eq!(rt; shown(ended.out.as_slice()), out, "call {call}");
        assert_eq!(rt; ended.status.code(), code, "call {call}");
        assert!(rt; fails || call > 6, "call {call}");
        assert!(rt; !fails || call < 12, "call {call}");
    }
    Ok(())
}

#[test]
fn each_call_of_the_output_fails(rt: HostRuntime) -> Result<(), Fail> {
    let alloc = rt.alloc();
    let given: [(&str, &[u8]); 2] = [("s.sql", SCRIPT.as_bytes()), ("t.csv", ROWS.as_bytes())];
    for call in 1..=12u64 {
        let failing = Failing {
            sink: call,
            ..NOTHING
        };
        let ended = run(&rt, alloc, WORDS, &given, failing, ROOM)?;
        let fails = ended.sink == 1;
        // What was written is a front of the whole output.
        assert!(rt;
            OUT.as_bytes().starts_with(ended.out.as_slice()),
            "call {call}"
        );
        assert_eq!(rt;
            ended.status.code(),
            if fails { 4 } else { 0 },
            "call {call}"
        );
        if !fails {
            assert_eq!(rt; shown(ended.out.as_slice()), OUT, "call {call}");
        }
        if call == 1 {
            assert!(rt; fails && ended.out.as_slice().is_empty());
        }
    }
    Ok(())
}

#[test]
fn an_output_may_be_too_small(rt: HostRuntime) -> Result<(), Fail> {
    let alloc = rt.alloc();
    let given: [(&str, &[u8]); 2] = [("s.sql", SCRIPT.as_bytes()), ("t.csv", ROWS.as_bytes())];
    for room in 0..=12u32 {
        let ended = run(&rt, alloc, WORDS, &given, NOTHING, room)?;
        let whole = OUT.len() <= room as usize;
        assert_eq!(rt;
            ended.status.code(),
            if whole { 0 } else { 4 },
            "room {room}"
        );
        assert!(rt;
            OUT.as_bytes().starts_with(ended.out.as_slice()),
            "room {room}"
        );
        assert!(rt; ended.out.as_slice().len() <= room as usize, "room {room}");
        // What ran before the failure stands.
        if room >= 3 {
            assert!(rt;
                ended.out.as_slice().starts_with(FIRST.as_bytes()),
                "room {room}"
            );
        }
    }
    Ok(())
}
