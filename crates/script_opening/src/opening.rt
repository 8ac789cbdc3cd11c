//! A script's file, opened.
ghost use Rattle.std.specs.Prelude.{◌≡◌, ◌<◌, ◌≤◌, ◌^◌, IfErr, IfOk, IfSome, Err, Ok, length, vec_len};
ghost use Rattle.std.specs.FinMap.{get};
ghost use Rattle.ooc_io.specs.Counts.{Rose};
ghost use Rattle.script_opening.specs.Limits.{most_script};
ghost use Rattle.script_opening.specs.Opened.{IsOpenedAs};
ghost use Rattle.script_opening.specs.Reading.{IsOfFiles};
ghost use Rattle.script_opening.specs.Trees.{IsTreeOf};

use crate::reading::read_script;
use crate::tokens::parse_script;
use ooc_io::Files;
use run_settings::Status;
use sql_parse::tree::Script;
use std::alloc::Global;

/// A script: its bytes, into which the spans of its statements point, and the statements.
#[derive(Drop)]
pub struct OpenedScript {
    pub bytes: Vec<u8>,
    pub script: Script,
}

/// Reads the script of that name to its end, at most 1,048,576 bytes, and parses it whole.
pub fn open_script<F: Files>(
    alloc: Global,
    files: &mut F,
    name: &str,
) -> Result<OpenedScript, Status>
    // The script of the file; its first refusal: there is no file, it is too long, it has a bad token, or the grammar refuses it;
    // or a read fault or want of memory.
    ensures opened { IfSome (F.holds files.old) (λ held. IsOpenedAs (get held name.now) result) }
    // Whatever the files tell, the statements are those of the bytes that were read.
    ensures tree { IfOk result (λ opened. IsTreeOf opened.bytes.items (Ok opened.script)) }
    ensures short { IfOk result (λ opened. vec_len opened.bytes ≤ most_script) }
    // Its statements can be numbered with 32 bits.
    ensures few { IfOk result (λ opened. length opened.script.statements < 2 ^ 31) }
    ensures holds { F.holds files.new ≡ F.holds files.old }
    ensures later { F.faults files.old ≤ F.faults files.new }
    ensures cause { result ≡ Err Status.ReadFault → Rose (F.faults files.old) (F.faults files.new) }
    ensures kinds { IfErr result IsOfFiles }
{
    let bytes = read_script(alloc, files, name)?;
    let script = parse_script(alloc, bytes.as_slice())?;
    Ok(OpenedScript { bytes, script })
}
