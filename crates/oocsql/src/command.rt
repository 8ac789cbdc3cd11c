//! From the program's arguments to a run of the engine.
ghost use Rattle.std.specs.Prelude.{◌≡◌, ◌≢◌, ◌-◌, ◌<◌, ◌^◌, ◌⊎◌, Err, IfOk, IfSome, IsTrue, List, ℕ, drop, length};
ghost use Rattle.std.specs.Vec.Iter.{into_iter_items};
ghost use Rattle.std.specs.Io.KnownBytes.{Appends};
ghost use Rattle.ooc_io.specs.Counts.{Rose, Stayed};
ghost use Rattle.ooc_engine.specs.Lanes.{AllStayed, OthersAs, SomeRose, count_at};
ghost use Rattle.ooc_engine.specs.Written.{PaidForWords};
ghost use Rattle.run_settings.specs.Settings.{settings};
ghost use Rattle.run_settings.specs.Texts.{words_of};
ghost use Rattle.script_says.specs.Ends.{EndsAs, EndsBy};
ghost use Rattle.script_says.specs.LastLine.{EndsInLine};
ghost use Rattle.script_says.specs.Runs.{Ends, EndsOrCut, IsWritten, Writes};
ghost use Rattle.statement_run.specs.Running.{run_closing, run_outcome};
ghost use Rattle.oocsql.specs.Arguments.{words_behind};

use ooc_engine::run_script;
use ooc_io::{Files, NoGate, OutOfMemory, Sink, SpillLane};
use run_settings::Status;
use script_says::end;
use std::alloc::Global;
use std::env::Args;
use std::io;
use std::sync::Wait;
use std::thread::Threads;

// The arguments behind the first.
fn others(alloc: Global, args: Args) -> Result<Vec<String>, OutOfMemory>
    ensures { IfOk result (λ words. words.items ≡ drop 1 (into_iter_items args)) }
{
    Ok(args.skip(1).collect(alloc)?)
}

// The words behind the program's name. An argument that isn't UTF-8 is a faulty word, and leaves no words, which are
// faulty too.
pub(crate) fn words_in(alloc: Global, args: io::Result<Args>) -> Result<Vec<String>, OutOfMemory>
    ensures { IfOk result (λ words. words_of words.items ≡ words_behind args) }
{
    match args {
        Ok(args) => others(alloc, args),
        Err(error) => {
            if error.kind() == io::ErrorKind::OutOfMemory {
                Err(OutOfMemory)
            } else {
                Ok(Vec::new(alloc))
            }
        }
    }
}

/// Runs the script that the arguments name, over these lanes. The first argument is the program's name.
pub fn run<R: Threads + Wait + Sync, F: Files, K: Sink, L: SpillLane + Send>(
    rt: &R,
    alloc: Global,
    args: io::Result<Args>,
    files: &mut F,
    out: &mut K,
    lanes: &mut [L],
) -> Status
    requires { length lanes.old ≡ 64 }
    // What is written is what the script says, statement by statement, over files and lanes that tell.
    ensures says { IsTrue L.Mark.tells → IfSome (F.holds files.old) (λ held. (more : List ℕ)
        × Appends (K.written out.old) (K.written out.new) more
        × IsWritten (Writes (run_outcome held) run_closing (settings (words_behind args)) held) more result) }
    // Usage is answered for wrong words alone, and wrong words are answered so; what is then written is their line.
    ensures usage { (fault : _) → result ≡ Status.Usage fault → settings (words_behind args) ≡ Err fault }
    ensures usage_told { (fault : _) → settings (words_behind args) ≡ Err fault → EndsAs (Status.Usage fault) result }
    ensures usage_line { (fault : _) → settings (words_behind args) ≡ Err fault
        → EndsBy (K.written out.old) (K.written out.new) (Status.Usage fault) result }
    // The script ends as the definition has it, unless a fault from outside or want of memory cuts it.
    ensures ends { IsTrue L.Mark.tells → IfSome (F.holds files.old) (λ held. EndsOrCut (run_outcome held) (settings (words_behind args)) held result) }
    // Each fault has its cause. A page that was read back is damaged only over lanes that don't tell.
    ensures read_fault { result ≡ Status.ReadFault → Rose (F.faults files.old) (F.faults files.new) }
    ensures spill_fault { result ≡ Status.SpillFault → SomeRose L.faults lanes.old lanes.new }
    ensures spill_damaged { (damage : _) → result ≡ Status.SpillDamaged damage → IsTrue L.Mark.tells → ⊥ }
    ensures write_fault { result ≡ Status.WriteFault → Rose (K.faults out.old) (K.faults out.new) }
    ensures write_told { result ≢ Status.WriteFault → K.faults out.new ≡ K.faults out.old }
    // A run that is done wrote the pages that its last tables need to the first lane, but for as many as the frames hold.
    ensures bound { IsTrue L.Mark.tells → result ≡ Status.Done → count_at L.writes lanes.new 0 < 2 ^ 64 - 1
        → IfSome (F.holds files.old) (λ held. PaidForWords (K.written out.old) (K.written out.new) (run_outcome held) (settings (words_behind args)) held
        (count_at L.writes lanes.old 0) (count_at L.writes lanes.new 0)) }
    // The first lane alone is used.
    ensures others { OthersAs 0 lanes.old lanes.new }
    // Whatever files and lanes tell, the line of the status stands last, unless the output failed.
    ensures last { EndsInLine run_closing (K.written out.old) (K.written out.new) result }
    // Where no fault came, the status is the script's, or memory ran out.
    ensures complete { IsTrue L.Mark.tells → Stayed (F.faults files.old) (F.faults files.new) → Stayed (K.faults out.old) (K.faults out.new)
        → AllStayed L.faults lanes.old lanes.new → IfSome (F.holds files.old) (λ held. Ends (run_outcome held) (settings (words_behind args)) held result
        ⊎ (result ≡ Status.OutOfMemory)) }
{
    match words_in(alloc, args) {
        Ok(words) => run_script(rt, alloc, words.as_slice(), files, out, lanes, &NoGate),
        Err(_) => end(alloc, out, Status::OutOfMemory),
    }
}
