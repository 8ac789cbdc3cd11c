//! From the program's arguments to the check of a script.
ghost use Rattle.std.specs.Prelude.{◌≡◌, ◌≢◌, ◌⊎◌, Err, IfSome, List, ℕ, drop};
ghost use Rattle.std.specs.Vec.Iter.{into_iter_items};
ghost use Rattle.run_settings.specs.Texts.{words_of};
ghost use Rattle.std.specs.Io.KnownBytes.{Appends};
ghost use Rattle.ooc_io.specs.Counts.{Rose, Stayed};
ghost use Rattle.run_settings.specs.Settings.{check_settings};
ghost use Rattle.script_check.specs.Ends.{IsOfCheck};
ghost use Rattle.script_says.specs.Checking.{check_closing, check_outcome};
ghost use Rattle.script_says.specs.Ends.{EndsAs, EndsBy};
ghost use Rattle.script_says.specs.LastLine.{EndsInLine};
ghost use Rattle.script_says.specs.Runs.{Ends, EndsOrCut, IsWritten, Writes};
ghost use Rattle.oocsql.specs.Arguments.{is_check_in, words_behind};

use crate::command::words_in;
use ooc_io::{Files, Sink};
use run_settings::Status;
use script_check::check_script;
use script_says::end;
use std::alloc::Global;
use std::env::Args;
use std::io;

/// Whether the first word asks for the check of a script. It is none where the words can't be had.
pub fn is_check(args: io::Result<Args>) -> bool
    ensures { result ≡ is_check_in (words_behind args) }
{
    match args {
        Ok(args) => is_check_behind(args),
        Err(_) => false,
    }
}

fn is_check_behind(args: Args) -> bool
    ensures { result ≡ is_check_in (words_of (drop 1 (into_iter_items args))) }
{
    let mut words = args;
    let _ = words.next();
    match words.next() {
        Some(word) => word.as_bytes() == b"--check".as_slice(),
        None => false,
    }
}

/// Checks the script that the arguments name behind `--check`, without its data. The first argument is the program's name.
pub fn check<F: Files, K: Sink>(
    alloc: Global,
    args: io::Result<Args>,
    files: &mut F,
    out: &mut K,
) -> Status
    // What is written is what the script says, statement by statement.
    ensures says { IfSome (F.holds files.old) (λ held. (more : List ℕ)
        × Appends (K.written out.old) (K.written out.new) more
        × IsWritten (Writes check_outcome check_closing (check_settings (words_behind args)) held) more result) }
    // Usage is answered for wrong words alone, and wrong words are answered so; what is then written is their line.
    ensures usage { (fault : _) → result ≡ Status.Usage fault → check_settings (words_behind args) ≡ Err fault }
    ensures usage_told { (fault : _) → check_settings (words_behind args) ≡ Err fault → EndsAs (Status.Usage fault) result }
    ensures usage_line { (fault : _) → check_settings (words_behind args) ≡ Err fault
        → EndsBy (K.written out.old) (K.written out.new) (Status.Usage fault) result }
    // The check ends as the definition has it, unless a fault from outside or want of memory cuts it.
    ensures ends { IfSome (F.holds files.old) (λ held. EndsOrCut check_outcome (check_settings (words_behind args)) held result) }
    // Each fault has its cause; no lane is used. After a read fault its line is all that was written.
    ensures read_fault { result ≡ Status.ReadFault → Rose (F.faults files.old) (F.faults files.new) }
    ensures read_line { result ≡ Status.ReadFault → EndsBy (K.written out.old) (K.written out.new) Status.ReadFault result }
    ensures write_fault { result ≡ Status.WriteFault → Rose (K.faults out.old) (K.faults out.new) }
    ensures write_told { result ≢ Status.WriteFault → K.faults out.new ≡ K.faults out.old }
    ensures no_lane { IsOfCheck result }
    // Whatever the files tell, `ok` or the line of the status stands last, unless the output failed.
    ensures last { EndsInLine check_closing (K.written out.old) (K.written out.new) result }
    // Where no fault came, the status is the script's, or memory ran out.
    ensures complete { Stayed (F.faults files.old) (F.faults files.new) → Stayed (K.faults out.old) (K.faults out.new)
        → IfSome (F.holds files.old) (λ held. Ends check_outcome (check_settings (words_behind args)) held result
        ⊎ (result ≡ Status.OutOfMemory)) }
{
    match words_in(alloc, args) {
        Ok(words) => check_script(alloc, words.as_slice(), files, out),
        Err(_) => end(alloc, out, Status::OutOfMemory),
    }
}
