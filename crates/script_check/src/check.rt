//! The check of a script.
ghost use Rattle.std.specs.Prelude.{◌≡◌, ◌≢◌, ◌<◌, ◌≤◌, ◌^◌, List, [], ℕ, length, Ok, Err, IfSome, ◌⊎◌};
ghost use Rattle.std.specs.Io.KnownBytes.{Appends};
ghost use Rattle.ooc_io.specs.Counts.{Rose, Stayed};
ghost use Rattle.row_image.specs.Bytes.{IsPage};
ghost use Rattle.run_settings.specs.Settings.{check_settings};
ghost use Rattle.run_settings.specs.Texts.{words_of};
ghost use Rattle.script_opening.specs.Trees.{MayCut};
ghost use Rattle.script_says.specs.Catalog.{no_tables};
ghost use Rattle.script_says.specs.Checking.{check_closing, check_outcome, check_statement};
ghost use Rattle.script_says.specs.Ends.{EndsAs, EndsBy, HasWriteCause};
ghost use Rattle.script_says.specs.LastLine.{EndsInLine};
ghost use Rattle.script_says.specs.Runs.{Ends, EndsOrCut, IsWritten, Run, Writes};
ghost use Rattle.script_check.specs.Ends.{IsOfCheck, IsOfRun};

use crate::statement::check_statement;
use ooc_io::{Files, Sink};
use row_image::text_limit;
use run_settings::{Settings, Status, read_check_settings};
use script_opening::{OpenedScript, open_script};
use script_says::{end, end_with, write_all};
use sql_parse::tree::Statement;
use std::alloc::Global;

/// The last line of a check that is done.
const CLOSING: &[u8] = b"ok\n";

// The statements of a script, one after another; each block is written as soon as it's there.
fn check_statements<K: Sink>(
    alloc: Global,
    script: &[u8],
    statements: &[Statement],
    limit: usize,
    out: &mut K,
) -> Status
    requires short { length script.now ≤ 1048576 }
    requires few { length statements.now < 2 ^ 31 }
    ensures says { (more : List ℕ) × Appends (K.written out.old) (K.written out.new) more
        × IsWritten (Run (check_statement script.now limit) check_closing 1 no_tables statements.now) more result }
    ensures kinds { IsOfRun result }
    ensures cause { HasWriteCause (K.faults out.old) (K.faults out.new) result }
    ensures last { EndsInLine check_closing (K.written out.old) (K.written out.new) result }
{
    let mut tables = Vec::new(alloc);
    let mut number = 1;
    for statement in statements {
        match check_statement(alloc, script, number, statement, limit, &mut tables) {
            Ok(block) => match write_all(out, block.as_slice()) {
                Ok(()) => {}
                Err(_) => return Status::WriteFault,
            },
            Err(status) => return end(alloc, out, status),
        }
        number += 1;
    }
    end_with(out, CLOSING, Status::Done)
}

// The check of the script that the settings name.
fn check_named<F: Files, K: Sink>(
    alloc: Global,
    settings: &Settings,
    files: &mut F,
    out: &mut K,
) -> Status
    requires { IsPage settings.now.page }
    ensures says { IfSome (F.holds files.old) (λ held. (more : List ℕ)
        × Appends (K.written out.old) (K.written out.new) more
        × IsWritten (Writes check_outcome check_closing (Ok settings.now) held) more result) }
    ensures read_fault { result ≡ Status.ReadFault → Rose (F.faults files.old) (F.faults files.new) }
    ensures read_line { result ≡ Status.ReadFault → EndsBy (K.written out.old) (K.written out.new) Status.ReadFault result }
    ensures later { F.faults files.old ≤ F.faults files.new }
    ensures usage { (fault : _) → result ≢ Status.Usage fault }
    ensures kinds { IsOfCheck result }
    ensures cause { HasWriteCause (K.faults out.old) (K.faults out.new) result }
    ensures last { EndsInLine check_closing (K.written out.old) (K.written out.new) result }
{
    match open_script(alloc, files, settings.script.as_str()) {
        Ok(OpenedScript { bytes, script }) => {
            let limit = text_limit(settings.page as usize) as usize;
            check_statements(
                alloc,
                bytes.as_slice(),
                script.statements.as_slice(),
                limit,
                out,
            )
        }
        Err(status) => end(alloc, out, status),
    }
}

/// Checks a script without its data: reads it, parses it, and binds and plans its statements over tables of no rows. `words`
/// are `--check` and then those of a run. CREATE and DROP act; a COPY is bound, and its file isn't opened; for each SELECT and
/// EXPLAIN the plan is written, and `ok` after the last statement. It always returns.
pub fn check_script<F: Files, K: Sink>(
    alloc: Global,
    words: &[String],
    files: &mut F,
    out: &mut K,
) -> Status
    // What is written is what the script says, statement by statement.
    ensures says { IfSome (F.holds files.old) (λ held. (more : List ℕ)
        × Appends (K.written out.old) (K.written out.new) more
        × IsWritten (Writes check_outcome check_closing (check_settings (words_of words.now)) held) more result) }
    // Usage is answered for wrong words alone, and wrong words are answered so, whatever the files hold or tell. What is then
    // written is the line of their fault.
    ensures usage { (fault : _) → result ≡ Status.Usage fault → check_settings (words_of words.now) ≡ Err fault }
    ensures usage_told { (fault : _) → check_settings (words_of words.now) ≡ Err fault → EndsAs (Status.Usage fault) result }
    ensures usage_line { (fault : _) → check_settings (words_of words.now) ≡ Err fault
        → EndsBy (K.written out.old) (K.written out.new) (Status.Usage fault) result }
    // Done and each refusal come only where the definition ends the check so; where it does, they come unless a fault from
    // outside or want of memory does.
    ensures ends { IfSome (F.holds files.old) (λ held. EndsOrCut check_outcome (check_settings (words_of words.now)) held result) }
    // Each fault has its cause; no lane is used. After a read fault its line is all that was written: no file but the script is
    // read.
    ensures read_fault { result ≡ Status.ReadFault → Rose (F.faults files.old) (F.faults files.new) }
    ensures read_line { result ≡ Status.ReadFault → EndsBy (K.written out.old) (K.written out.new) Status.ReadFault result }
    ensures write_fault { result ≡ Status.WriteFault → Rose (K.faults out.old) (K.faults out.new) }
    ensures write_told { result ≢ Status.WriteFault → K.faults out.new ≡ K.faults out.old }
    ensures no_lane { IsOfCheck result }
    // Whatever the files tell, `ok` or the line of the status stands last, unless the output failed.
    ensures last { EndsInLine check_closing (K.written out.old) (K.written out.new) result }
    // Where no fault came, the status is the script's, or memory ran out.
    ensures complete { Stayed (F.faults files.old) (F.faults files.new) → Stayed (K.faults out.old) (K.faults out.new)
        → IfSome (F.holds files.old) (λ held. Ends check_outcome (check_settings (words_of words.now)) held result
        ⊎ (result ≡ Status.OutOfMemory)) }
{
    match read_check_settings(alloc, words) {
        Ok(settings) => check_named(alloc, &settings, files, out),
        Err(status) => end(alloc, out, status),
    }
}
