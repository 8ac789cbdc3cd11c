//! The program: `oocsql SCRIPT` runs a script over CSV files of the current folder, and prints each query's result.
//!
//! What it does with the words, the files, the output and the lanes that it is handed is proved in `ooc_engine`. Here are the
//! real files, the standard output and the files to which pages are spilled, of whose contents nothing is told.
#![tactic(auto)]

mod checking;
mod command;
mod lanes;
mod real_files;
mod real_sink;

pub use checking::{check, is_check};
pub use command::run;
pub use lanes::{file_lanes, remove_files};
pub use real_files::RealFiles;
pub use real_sink::RealSink;
use run_settings::Status;
use script_says::end;
use std::env;
use std::process::ExitCode;

// Runs over lanes whose files lie in the current folder, and are removed at the end, however the run ends.
fn main(rt: HostRuntime) -> ExitCode {
    let alloc = rt.alloc();
    let (mut files, mut out) = (RealFiles::new_files(&rt), RealSink::new_sink(&rt));
    if is_check(env::args(&rt)) {
        return ExitCode::from(check(alloc, env::args(&rt), &mut files, &mut out).code());
    }
    let status = match file_lanes(&rt, alloc) {
        Ok(mut lanes) => {
            let lent = lanes.as_mut_slice();
            let status = run(&rt, alloc, env::args(&rt), &mut files, &mut out, lent);
            remove_files(lanes.as_slice());
            status
        }
        Err(_) => end(alloc, &mut out, Status::OutOfMemory),
    };
    ExitCode::from(status.code())
}

#[cfg(test)]
mod tests;
