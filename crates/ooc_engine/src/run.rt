//! The top call.
ghost use Rattle.std.specs.Prelude.{◌≡◌, ◌≢◌, ◌-◌, ◌<◌, ◌≤◌, ◌^◌, ◌⊎◌, List, ℕ, Ok, Err, IfSome, IsTrue, length};
ghost use Rattle.std.specs.List.{AllByRecursion};
ghost use Rattle.std.specs.Io.KnownBytes.{Appends};
ghost use Rattle.formed_binding.specs.Placed.{StandApart};
ghost use Rattle.ooc_io.specs.Counts.{Rose, Stayed};
ghost use Rattle.row_image.specs.Bytes.{IsPage};
ghost use Rattle.run_settings.specs.Limits.{least_frames, most_frames};
ghost use Rattle.run_settings.specs.Settings.{settings};
ghost use Rattle.run_settings.specs.Texts.{words_of};
ghost use Rattle.script_opening.specs.Limits.{most_script};
ghost use Rattle.script_run.specs.Causes.{HasRunCause};
ghost use Rattle.script_says.specs.Catalog.{no_tables};
ghost use Rattle.script_says.specs.Ends.{EndsAs, EndsBy, HasWriteCause};
ghost use Rattle.script_says.specs.LastLine.{EndsInLine};
ghost use Rattle.script_says.specs.Runs.{Ends, EndsOrCut, IsWritten, Run, Writes};
ghost use Rattle.statement_run.specs.Running.{run_closing, run_outcome, run_statement};
ghost use Rattle.ooc_engine.specs.Lanes.{AllStayed, OthersAs, SomeRose, count_at};
ghost use Rattle.ooc_engine.specs.Written.{PaidFor, PaidForScript, PaidForWords};

use apart_calls::parsed_statements_stand_apart;
use ooc_io::{Files, Gate, OutOfMemory, Sink, SpillLane};
use run_settings::{Settings, Status, read_settings};
use script_opening::{OpenedScript, open_script};
use script_run::run_over;
use script_says::end;
use solo_pool::{Solo, SoloTables};
use sql_parse::tree::Statement;
use std::alloc::Global;
use std::sync::Wait;
use std::thread::Threads;

// Runs the statements of a script over a pool of so many frames, which spills to this lane.
fn run_paged<F: Files, K: Sink, L: SpillLane>(
    alloc: Global,
    settings: &Settings,
    script: &[u8],
    statements: &[Statement],
    files: &mut F,
    out: &mut K,
    lane: &mut L,
) -> Status
    requires page { IsPage settings.now.page }
    requires least { least_frames ≤ settings.now.frames }
    requires most { settings.now.frames ≤ most_frames }
    requires short { length script.now ≤ most_script }
    requires few { length statements.now < 2 ^ 31 }
    requires apart { AllByRecursion StandApart statements.now }
    ensures says { IsTrue L.Mark.tells → IfSome (F.holds files.old) (λ held. (more : List ℕ)
        × Appends (K.written out.old) (K.written out.new) more
        × IsWritten (Run (run_outcome held settings.now script.now) run_closing 1 no_tables statements.now) more result) }
    ensures bound { IsTrue L.Mark.tells → result ≡ Status.Done → L.writes lane.new < 2 ^ 64 - 1
        → IfSome (F.holds files.old) (λ held. PaidFor (K.written out.old) (K.written out.new) (run_outcome held settings.now script.now) statements.now settings.now.page settings.now.frames (L.writes lane.old) (L.writes lane.new)) }
    ensures cause { HasRunCause L.Mark.tells (F.faults files.old) (F.faults files.new) (L.faults lane.old) (L.faults lane.new) result }
    ensures written { HasWriteCause (K.faults out.old) (K.faults out.new) result }
    ensures last { EndsInLine run_closing (K.written out.old) (K.written out.new) result }
    ensures later { F.faults files.old ≤ F.faults files.new }
{
    match SoloTables::open_tables(alloc, settings.page, settings.frames) {
        Ok(opened) => {
            let mut tables = opened;
            let mut pages = Solo::over(&mut tables, lane);
            run_over(alloc, files, &mut pages, script, statements, out)
        }
        Err(OutOfMemory) => end(alloc, out, Status::OutOfMemory),
    }
}

// Runs the script that the settings name, over this lane.
fn run_named<F: Files, K: Sink, L: SpillLane>(
    alloc: Global,
    settings: &Settings,
    files: &mut F,
    out: &mut K,
    lane: &mut L,
) -> Status
    requires page { IsPage settings.now.page }
    requires least { least_frames ≤ settings.now.frames }
    requires most { settings.now.frames ≤ most_frames }
    ensures says { IsTrue L.Mark.tells → IfSome (F.holds files.old) (λ held. (more : List ℕ)
        × Appends (K.written out.old) (K.written out.new) more
        × IsWritten (Writes (run_outcome held) run_closing (Ok settings.now) held) more result) }
    ensures bound { IsTrue L.Mark.tells → result ≡ Status.Done → L.writes lane.new < 2 ^ 64 - 1
        → IfSome (F.holds files.old) (λ held. PaidForScript (K.written out.old) (K.written out.new) (run_outcome held) settings.now held (L.writes lane.old) (L.writes lane.new)) }
    ensures cause { HasRunCause L.Mark.tells (F.faults files.old) (F.faults files.new) (L.faults lane.old) (L.faults lane.new) result }
    ensures written { HasWriteCause (K.faults out.old) (K.faults out.new) result }
    ensures last { EndsInLine run_closing (K.written out.old) (K.written out.new) result }
{
    match open_script(alloc, files, settings.script.as_str()) {
        Ok(OpenedScript { bytes, script }) => {
            parsed_statements_stand_apart();
            let statements = script.statements.as_slice();
            run_paged(
                alloc,
                settings,
                bytes.as_slice(),
                statements,
                files,
                out,
                lane,
            )
        }
        Err(status) => end(alloc, out, status),
    }
}

// Runs the script that the words name, over this lane.
fn run_words<F: Files, K: Sink, L: SpillLane>(
    alloc: Global,
    words: &[String],
    files: &mut F,
    out: &mut K,
    lane: &mut L,
) -> Status
    ensures says { IsTrue L.Mark.tells → IfSome (F.holds files.old) (λ held. (more : List ℕ)
        × Appends (K.written out.old) (K.written out.new) more
        × IsWritten (Writes (run_outcome held) run_closing (settings (words_of words.now)) held) more result) }
    ensures bound { IsTrue L.Mark.tells → result ≡ Status.Done → L.writes lane.new < 2 ^ 64 - 1
        → IfSome (F.holds files.old) (λ held. PaidForWords (K.written out.old) (K.written out.new) (run_outcome held) (settings (words_of words.now)) held (L.writes lane.old) (L.writes lane.new)) }
    ensures usage { (fault : _) → result ≡ Status.Usage fault → settings (words_of words.now) ≡ Err fault }
    ensures usage_told { (fault : _) → settings (words_of words.now) ≡ Err fault → EndsAs (Status.Usage fault) result }
    ensures usage_line { (fault : _) → settings (words_of words.now) ≡ Err fault
        → EndsBy (K.written out.old) (K.written out.new) (Status.Usage fault) result }
    ensures read_fault { result ≡ Status.ReadFault → Rose (F.faults files.old) (F.faults files.new) }
    ensures spill_fault { result ≡ Status.SpillFault → Rose (L.faults lane.old) (L.faults lane.new) }
    ensures spill_damaged { (damage : _) → result ≡ Status.SpillDamaged damage → IsTrue L.Mark.tells → ⊥ }
    ensures written { HasWriteCause (K.faults out.old) (K.faults out.new) result }
    ensures last { EndsInLine run_closing (K.written out.old) (K.written out.new) result }
{
    match read_settings(alloc, words) {
        Ok(settings) => run_named(alloc, &settings, files, out, lane),
        Err(wrong) => end(alloc, out, wrong),
    }
}

// Runs the script that the words name, over the first lane.
fn run_first<F: Files, K: Sink, L: SpillLane>(
    alloc: Global,
    words: &[String],
    files: &mut F,
    out: &mut K,
    lanes: &mut [L],
) -> Status
    requires { length lanes.old ≡ 64 }
    ensures says { IsTrue L.Mark.tells → IfSome (F.holds files.old) (λ held. (more : List ℕ)
        × Appends (K.written out.old) (K.written out.new) more
        × IsWritten (Writes (run_outcome held) run_closing (settings (words_of words.now)) held) more result) }
    ensures usage { (fault : _) → result ≡ Status.Usage fault → settings (words_of words.now) ≡ Err fault }
    ensures usage_told { (fault : _) → settings (words_of words.now) ≡ Err fault → EndsAs (Status.Usage fault) result }
    ensures usage_line { (fault : _) → settings (words_of words.now) ≡ Err fault
        → EndsBy (K.written out.old) (K.written out.new) (Status.Usage fault) result }
    ensures ends { IsTrue L.Mark.tells → IfSome (F.holds files.old) (λ held. EndsOrCut (run_outcome held) (settings (words_of words.now)) held result) }
    ensures read_fault { result ≡ Status.ReadFault → Rose (F.faults files.old) (F.faults files.new) }
    ensures spill_fault { result ≡ Status.SpillFault → SomeRose L.faults lanes.old lanes.new }
    ensures spill_damaged { (damage : _) → result ≡ Status.SpillDamaged damage → IsTrue L.Mark.tells → ⊥ }
    ensures write_fault { result ≡ Status.WriteFault → Rose (K.faults out.old) (K.faults out.new) }
    ensures write_told { result ≢ Status.WriteFault → K.faults out.new ≡ K.faults out.old }
    ensures bound { IsTrue L.Mark.tells → result ≡ Status.Done → count_at L.writes lanes.new 0 < 2 ^ 64 - 1
        → IfSome (F.holds files.old) (λ held. PaidForWords (K.written out.old) (K.written out.new) (run_outcome held) (settings (words_of words.now)) held
        (count_at L.writes lanes.old 0) (count_at L.writes lanes.new 0)) }
    ensures others { OthersAs 0 lanes.old lanes.new }
    ensures last { EndsInLine run_closing (K.written out.old) (K.written out.new) result }
    ensures complete { IsTrue L.Mark.tells → Stayed (F.faults files.old) (F.faults files.new) → Stayed (K.faults out.old) (K.faults out.new)
        → AllStayed L.faults lanes.old lanes.new → IfSome (F.holds files.old) (λ held. Ends (run_outcome held) (settings (words_of words.now)) held result
        ⊎ (result ≡ Status.OutOfMemory)) }
{
    run_words(alloc, words, files, out, &mut lanes[0])
}

/// Runs the script that the words name over these files, and writes what it prints. Its tables lie on pages of a pool that has
/// as many frames as the limit has room for, and spills to the first lane. The other lanes and the gate wait for the parts of
/// the engine that use threads.
pub fn run_script<R: Threads + Wait + Sync, F: Files, K: Sink, L: SpillLane + Send, G: Gate + Sync>(
    _rt: &R,
    alloc: Global,
    words: &[String],
    files: &mut F,
    out: &mut K,
    lanes: &mut [L],
    _gate: &G,
) -> Status
    requires { length lanes.old ≡ 64 }
    // What is written is what the script says, statement by statement, over files and lanes that tell.
    ensures says { IsTrue L.Mark.tells → IfSome (F.holds files.old) (λ held. (more : List ℕ)
        × Appends (K.written out.old) (K.written out.new) more
        × IsWritten (Writes (run_outcome held) run_closing (settings (words_of words.now)) held) more result) }
    // Usage is answered for wrong words alone, and wrong words are answered so, whatever the files hold or tell. What is then
    // written is the line of their fault.
    ensures usage { (fault : _) → result ≡ Status.Usage fault → settings (words_of words.now) ≡ Err fault }
    ensures usage_told { (fault : _) → settings (words_of words.now) ≡ Err fault → EndsAs (Status.Usage fault) result }
    ensures usage_line { (fault : _) → settings (words_of words.now) ≡ Err fault
        → EndsBy (K.written out.old) (K.written out.new) (Status.Usage fault) result }
    // Done and each refusal come only where the definition ends the script so; where it does, they come unless a fault from
    // outside or want of memory does.
    ensures ends { IsTrue L.Mark.tells → IfSome (F.holds files.old) (λ held. EndsOrCut (run_outcome held) (settings (words_of words.now)) held result) }
    // Each fault has its cause. A page that was read back is damaged only over lanes that don't tell.
    ensures read_fault { result ≡ Status.ReadFault → Rose (F.faults files.old) (F.faults files.new) }
    ensures spill_fault { result ≡ Status.SpillFault → SomeRose L.faults lanes.old lanes.new }
    ensures spill_damaged { (damage : _) → result ≡ Status.SpillDamaged damage → IsTrue L.Mark.tells → ⊥ }
    ensures write_fault { result ≡ Status.WriteFault → Rose (K.faults out.old) (K.faults out.new) }
    ensures write_told { result ≢ Status.WriteFault → K.faults out.new ≡ K.faults out.old }
    // A run that is done wrote the pages that its last tables need to the first lane, but for as many as the frames hold.
    ensures bound { IsTrue L.Mark.tells → result ≡ Status.Done → count_at L.writes lanes.new 0 < 2 ^ 64 - 1
        → IfSome (F.holds files.old) (λ held. PaidForWords (K.written out.old) (K.written out.new) (run_outcome held) (settings (words_of words.now)) held
        (count_at L.writes lanes.old 0) (count_at L.writes lanes.new 0)) }
    // The first lane alone is used.
    ensures others { OthersAs 0 lanes.old lanes.new }
    // Whatever files and lanes tell, the line of the status stands last, unless the output failed.
    ensures last { EndsInLine run_closing (K.written out.old) (K.written out.new) result }
    // Where no fault came, the status is the script's, or memory ran out.
    ensures complete { IsTrue L.Mark.tells → Stayed (F.faults files.old) (F.faults files.new) → Stayed (K.faults out.old) (K.faults out.new)
        → AllStayed L.faults lanes.old lanes.new → IfSome (F.holds files.old) (λ held. Ends (run_outcome held) (settings (words_of words.now)) held result
        ⊎ (result ≡ Status.OutOfMemory)) }
{
    run_first(alloc, words, files, out, lanes)
}
