//! Runs over files, lanes and outputs in memory.
ghost use Rattle.std.specs.Prelude.{◌≡◌, IfOk, vec_len};

use ooc_engine::run_script;
use ooc_io::{MemFiles, MemLane, MemSink, NoGate};
use run_settings::Status;
use std::alloc::Global;
use std::process::Abort;
use std::sync::Wait;
use std::test::Fail;
use std::thread::Threads;

/// The words of most runs: 32 frames of the largest pages.
pub(crate) const WORDS: &[&str] = &["--limit", "8388608", "s.sql"];

/// The smallest pool of the smallest pages.
pub(crate) const SMALL: &[&str] = &["--page", "4096", "--limit", "98304", "s.sql"];

/// The room of an output that takes all.
pub(crate) const ROOM: u32 = 4_194_304;

/// The numbers, from 1, of the calls that fail: of the files, of the output, of the first lane's writes and of its reads. 0
/// is none.
#[derive(Clone, Copy)]
pub(crate) struct Failing {
    pub files: u64,
    pub sink: u64,
    pub writes: u64,
    pub reads: u64,
}

pub(crate) const NOTHING: Failing = Failing {
    files: 0,
    sink: 0,
    writes: 0,
    reads: 0,
};

/// How a run ended: its status, what it wrote, how often each kind of call failed, and how often the first lane was written.
#[derive(Drop)]
pub(crate) struct Ended {
    pub status: Status,
    pub out: Vec<u8>,
    pub files: u64,
    pub sink: u64,
    pub lane: u64,
    pub writes: u64,
}

/// Files of these names and bytes.
pub(crate) fn files(
    alloc: Global,
    given: &[(&str, &[u8])],
    failing: u64,
) -> Result<MemFiles, Fail> {
    let mut named = Vec::new(alloc);
    for (name, bytes) in given {
        named.push((
            String::from_str(alloc, name)?,
            Vec::from_slice(alloc, bytes)?,
        ))?;
    }
    Ok(MemFiles::new_files(named, vec![in alloc; failing]?))
}

// The lanes of a run, of which the first fails in these calls.
fn lanes(alloc: Global, failing: Failing) -> Result<Vec<MemLane>, Fail>
    ensures { IfOk result (λ lanes. vec_len lanes ≡ 64) }
{
    let mut lanes = Vec::with_capacity(alloc, 64)?;
    lanes.push(MemLane::new_lane(
        alloc,
        vec![in alloc; failing.writes]?,
        vec![in alloc; failing.reads]?,
    ))?;
    for _ in 0u32..63 {
        lanes.push(MemLane::new_lane(alloc, Vec::new(alloc), Vec::new(alloc)))?;
    }
    Ok(lanes)
}

/// Runs what these words say over these files.
pub(crate) fn run<R: Threads + Wait + Sync + Abort>(
    rt: &R,
    alloc: Global,
    words: &[&str],
    given: &[(&str, &[u8])],
    failing: Failing,
    room: u32,
) -> Result<Ended, Fail> {
    let mut list = Vec::new(alloc);
    for word in words {
        list.push(String::from_str(alloc, word)?)?;
    }
    let mut files = files(alloc, given, failing.files)?;
    let mut sink = MemSink::new_sink(alloc, vec![in alloc; failing.sink]?, room)?;
    let mut lanes = lanes(alloc, failing)?;
    let words = list.as_slice();
    let status = run_script(
        rt,
        alloc,
        words,
        &mut files,
        &mut sink,
        lanes.as_mut_slice(),
        &NoGate,
    );
    let (lane, writes) = match lanes.as_slice().first() {
        Some(first) => (first.fault_count(), first.write_count()),
        None => (0, 0),
    };
    Ok(Ended {
        status,
        out: Vec::from_slice(alloc, sink.bytes())?,
        files: files.fault_count(),
        sink: sink.fault_count(),
        lane,
        writes,
    })
}

/// A text that was written.
pub(crate) fn shown(bytes: &[u8]) -> &str {
    match std::str::from_utf8(bytes) {
        Ok(text) => text,
        Err(_) => "no text",
    }
}

/// A run where nothing from outside fails ends with this code and writes this text.
pub(crate) fn expect_files<R: Threads + Wait + Sync + Abort>(
    rt: &R,
    alloc: Global,
    words: &[&str],
    given: &[(&str, &[u8])],
    code: u8,
    out: &str,
) -> Result<(), Fail> {
    let ended = run(rt, alloc, words, given, NOTHING, ROOM)?;
    assert_eq!(rt; shown(ended.out.as_slice()), out);
    assert_eq!(rt; ended.status.code(), code, "at {out}");
    assert_eq!(rt; ended.files, 0, "at {out}");
    assert_eq!(rt; ended.sink, 0, "at {out}");
    assert_eq!(rt; ended.lane, 0, "at {out}");
    Ok(())
}

/// The same of a script over the one file `t.csv`.
pub(crate) fn expect<R: Threads + Wait + Sync + Abort>(
    rt: &R,
    alloc: Global,
    script: &str,
    csv: &str,
    code: u8,
    out: &str,
) -> Result<(), Fail> {
    let given: [(&str, &[u8]); 2] = [("s.sql", script.as_bytes()), ("t.csv", csv.as_bytes())];
    expect_files(rt, alloc, WORDS, &given, code, out)
}
