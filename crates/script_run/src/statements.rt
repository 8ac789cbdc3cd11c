//! The statements of a script, one after another.
ghost use Rattle.std.specs.Prelude.{◌≡◌, ◌<◌, ◌≤◌, ◌^◌, ℕ, IfSome, IsTrue, List, length};
ghost use Rattle.std.specs.List.{AllByRecursion};
ghost use Rattle.std.specs.Io.KnownBytes.{Appends};
ghost use Rattle.formed_binding.specs.Placed.{StandApart};
ghost use Rattle.paged_catalog.specs.Meaning.{catalog_of};
ghost use Rattle.paged_catalog.specs.Stands.{Stands, AreHere, Leaves};
ghost use Rattle.script_says.specs.Ends.{HasWriteCause};
ghost use Rattle.script_says.specs.LastLine.{EndsInLine};
ghost use Rattle.script_says.specs.Runs.{IsWritten, Run};
ghost use Rattle.statement_run.specs.Running.{run_closing, run_statement};
ghost use Rattle.script_run.specs.Causes.{HasRunCause};
ghost use Rattle.script_run.specs.Ran.{Ran};

use ooc_io::{Files, Sink};
use page_body::Pages;
use paged_catalog::Catalog;
use run_settings::Status;
use script_says::{end, write_all};
use sql_parse::tree::Statement;
use statement_run::run_statement;
use std::alloc::Global;

/// Runs the statements of a script one after another over the tables that are there; each block is written as soon as it is
/// there. The first refusal ends the run, and its line is written last. The tables stay those of the statements that ran.
pub fn run_statements<F: Files, P: Pages, K: Sink>(
    alloc: Global,
    files: &mut F,
    pages: &mut P,
    script: &[u8],
    statements: &[Statement],
    catalog: &mut Catalog<P::Page>,
    out: &mut K,
) -> Status
    requires short { length script.now ≤ 1048576 }
    requires few { length statements.now < 2 ^ 31 }
    requires apart { AllByRecursion StandApart statements.now }
    requires stands { Stands P.terms catalog.old }
    requires here { AreHere (P.view pages.old) catalog.old }
    requires idle { (P.view pages.old).held ≡ 0 }
    // What is written is what the statements say, one after another, over files that tell and a pool that tells.
    ensures says { IsTrue P.terms.told → IfSome (F.holds files.old) (λ held. (more : List ℕ)
        × Appends (K.written out.old) (K.written out.new) more
        × IsWritten (Run (run_statement held (P.view pages.old).page_bytes script.now) run_closing 1 (catalog_of P.terms catalog.old) statements.now) more result) }
    // A run that is done wrote what its statements print, and left the tables of the last.
    ensures ran { IsTrue P.terms.told → result ≡ Status.Done → IfSome (F.holds files.old) (λ held. (blocks : List ℕ)
        × Appends (K.written out.old) (K.written out.new) blocks
        × Ran (run_statement held (P.view pages.old).page_bytes script.now) 1 (catalog_of P.terms catalog.old) statements.now blocks (catalog_of P.terms catalog.new)) }
    ensures leaves { Leaves P.terms (P.view pages.old) (P.view pages.new) catalog.old catalog.new }
    ensures cause { HasRunCause P.terms.told (F.faults files.old) (F.faults files.new) (P.view pages.old).faults (P.view pages.new).faults result }
    ensures written { HasWriteCause (K.faults out.old) (K.faults out.new) result }
    ensures last { EndsInLine run_closing (K.written out.old) (K.written out.new) result }
    ensures holds { F.holds files.new ≡ F.holds files.old }
    ensures later { F.faults files.old ≤ F.faults files.new }
{
    let mut number = 1;
    for statement in statements {
        match run_statement(alloc, files, pages, script, number, statement, catalog) {
            Ok(block) => match write_all(out, block.as_slice()) {
                Ok(()) => {}
                Err(_) => return Status::WriteFault,
            },
            Err(status) => return end(alloc, out, status),
        }
        number += 1;
    }
    Status::Done
}
