//! The statements of a script over a pool that has no tables yet.
ghost use Rattle.std.specs.Prelude.{◌≡◌, ◌+◌, ◌-◌, ◌<◌, ◌≤◌, ◌^◌, ℕ, IfSome, IsTrue, List, length};
ghost use Rattle.std.specs.List.{AllByRecursion};
ghost use Rattle.std.specs.Io.KnownBytes.{Appends};
ghost use Rattle.formed_binding.specs.Placed.{StandApart};
ghost use Rattle.row_sets.specs.Changes.{Changes};
ghost use Rattle.row_sets.specs.Holds.{nothing};
ghost use Rattle.script_says.specs.Catalog.{Catalog, no_tables};
ghost use Rattle.script_says.specs.Ends.{HasWriteCause};
ghost use Rattle.script_says.specs.LastLine.{EndsInLine};
ghost use Rattle.script_says.specs.Runs.{IsWritten, Run};
ghost use Rattle.statement_run.specs.Running.{run_closing, run_statement};
ghost use Rattle.catalog_bound.specs.Bound.{catalog_need};
ghost use Rattle.script_run.specs.Causes.{HasRunCause};
ghost use Rattle.script_run.specs.Ran.{Ran};

use crate::statements::run_statements;
use catalog_bound::catalog_was_written;
use ooc_io::{Files, Sink};
use page_body::Pages;
use paged_catalog::{new_catalog, retire_catalog};
use run_settings::Status;
use sql_parse::tree::Statement;
use std::alloc::Global;

/// Runs the statements of a script over a pool, beginning with no tables. All pages of its tables are given back at the end.
pub fn run_over<F: Files, P: Pages, K: Sink>(
    alloc: Global,
    files: &mut F,
    pages: &mut P,
    script: &[u8],
    statements: &[Statement],
    out: &mut K,
) -> Status
    requires short { length script.now ≤ 1048576 }
    requires few { length statements.now < 2 ^ 31 }
    requires apart { AllByRecursion StandApart statements.now }
    requires idle { (P.view pages.old).held ≡ 0 }
    ensures says { IsTrue P.terms.told → IfSome (F.holds files.old) (λ held. (more : List ℕ)
        × Appends (K.written out.old) (K.written out.new) more
        × IsWritten (Run (run_statement held (P.view pages.old).page_bytes script.now) run_closing 1 no_tables statements.now) more result) }
    // Where the pool spills, a run that is done wrote the pages that its last tables need, but for as many as the frames hold.
    ensures bound { IsTrue P.terms.told → IsTrue P.terms.spills → result ≡ Status.Done → (P.view pages.new).wrote < 2 ^ 64 - 1
        → IfSome (F.holds files.old) (λ held. (last : Catalog) × (blocks : List ℕ)
        × Appends (K.written out.old) (K.written out.new) blocks
        × Ran (run_statement held (P.view pages.old).page_bytes script.now) 1 no_tables statements.now blocks last
        × (catalog_need (P.view pages.old).page_bytes last ≤ (P.view pages.old).grant + (P.view pages.new).wrote)) }
    // The pool is as it was, but for its counts.
    ensures changes { Changes P.terms nothing nothing (P.view pages.old) (P.view pages.new) }
    ensures cause { HasRunCause P.terms.told (F.faults files.old) (F.faults files.new) (P.view pages.old).faults (P.view pages.new).faults result }
    ensures written { HasWriteCause (K.faults out.old) (K.faults out.new) result }
    ensures last { EndsInLine run_closing (K.written out.old) (K.written out.new) result }
    ensures holds { F.holds files.new ≡ F.holds files.old }
    ensures later { F.faults files.old ≤ F.faults files.new }
{
    let mut catalog = new_catalog(alloc, pages);
    let status = run_statements(alloc, files, pages, script, statements, &mut catalog, out);
    catalog_was_written(pages, &catalog);
    retire_catalog(pages, catalog);
    status
}
