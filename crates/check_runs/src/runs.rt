//! Checks over files and outputs in memory.
use ooc_io::{MemFiles, MemSink};
use run_settings::Status;
use script_check::check_script;
use std::alloc::Global;
use std::process::Abort;
use std::test::Fail;

/// The words of most checks.
pub(crate) const WORDS: &[&str] = &["--check", "s.sql"];

/// The room of an output that takes all.
pub(crate) const ROOM: u32 = 65536;

/// The file `s.sql` with these bytes, where it's there. `failing` is the number, from 1, of the call that fails; 0 is none.
pub(crate) fn files(alloc: Global, script: Option<&[u8]>, failing: u64) -> Result<MemFiles, Fail> {
    let mut named = Vec::new(alloc);
    if let Some(script) = script {
        named.push((
            String::from_str(alloc, "s.sql")?,
            Vec::from_slice(alloc, script)?,
        ))?;
    }
    Ok(MemFiles::new_files(named, vec![in alloc; failing]?))
}

/// An output with so much room, whose call of that number, from 1, fails; 0 is none.
pub(crate) fn sink(alloc: Global, failing: u64, room: u32) -> Result<MemSink, Fail> {
    Ok(MemSink::new_sink(alloc, vec![in alloc; failing]?, room)?)
}

/// Checks what these words say.
pub(crate) fn check(
    alloc: Global,
    words: &[&str],
    files: &mut MemFiles,
    sink: &mut MemSink,
) -> Result<Status, Fail> {
    let mut given = Vec::new(alloc);
    for word in words {
        given.push(String::from_str(alloc, word)?)?;
    }
    Ok(check_script(alloc, given.as_slice(), files, sink))
}

/// A text that was written.
pub(crate) fn shown(bytes: &[u8]) -> &str {
    match std::str::from_utf8(bytes) {
        Ok(text) => text,
        Err(_) => "no text",
    }
}

/// A check where nothing from outside fails ends with this code and writes this text.
pub(crate) fn expect_words<R: Abort>(
    rt: &R,
    alloc: Global,
    words: &[&str],
    script: Option<&[u8]>,
    code: u8,
    out: &str,
) -> Result<(), Fail> {
    let mut files = files(alloc, script, 0)?;
    let mut sink = sink(alloc, 0, ROOM)?;
    let status = check(alloc, words, &mut files, &mut sink)?;
    assert_eq!(rt; shown(sink.bytes()), out);
    assert_eq!(rt; status.code(), code, "at {out}");
    assert_eq!(rt; files.fault_count(), 0, "at {out}");
    assert_eq!(rt; sink.fault_count(), 0, "at {out}");
    Ok(())
}

/// The same under the words of most checks.
pub(crate) fn expect<R: Abort>(
    rt: &R,
    alloc: Global,
    script: &[u8],
    code: u8,
    out: &str,
) -> Result<(), Fail> {
    expect_words(rt, alloc, WORDS, Some(script), code, out)
}

/// A text so many times.
pub(crate) fn repeat(alloc: Global, text: &str, count: usize) -> Result<String, Fail> {
    let mut all = String::new(alloc);
    for _ in 0..count {
        all.push_str(text)?;
    }
    Ok(all)
}
