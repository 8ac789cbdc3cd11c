//! One statement of a script.
ghost use Rattle.std.specs.Prelude.{◌≡◌, ◌≤◌, IfErr, IfOk, IfSome, IsTrue, length};
ghost use Rattle.formed_binding.specs.Placed.{StandApart};
ghost use Rattle.paged_catalog.specs.Meaning.{catalog_of};
ghost use Rattle.paged_catalog.specs.Stands.{Stands, AreHere, Leaves};
ghost use Rattle.script_opening.specs.Reading.{result_items};
ghost use Rattle.script_says.specs.Ends.{IsStep};
ghost use Rattle.script_says.specs.LastLine.{IsBlock};
ghost use Rattle.statement_run.specs.Running as spec;
ghost use Rattle.statement_run.specs.Causes.{HasStatementCause};

use crate::acting::act;
use formed_binding::bound_statements_are_well_formed;
use numbered_binding::bound_statements_are_numbered;
use ooc_io::Files;
use page_body::Pages;
use paged_catalog::{Catalog, columns};
use row_image::text_limit;
use run_settings::{Place, Refusal, Status};
use sql_bind::bind;
use sql_parse::tree::Statement;
use sql_scope::BindFault;
use std::alloc::Global;

/// Runs the statement of a number: binds it over the tables that are there, and lets it act on them. CREATE, DROP and COPY
/// print nothing, EXPLAIN prints a plan, and SELECT a header, its rows and an empty line. After a refusal the tables are as
/// before.
pub fn run_statement<F: Files, P: Pages>(
    alloc: Global,
    files: &mut F,
    pages: &mut P,
    script: &[u8],
    number: u32,
    statement: &Statement,
    catalog: &mut Catalog<P::Page>,
) -> Result<Vec<u8>, Status>
    requires short { length script.now ≤ 1048576 }
    requires apart { StandApart statement.now }
    requires stands { Stands P.terms catalog.old }
    requires here { AreHere (P.view pages.old) catalog.old }
    requires idle { (P.view pages.old).held ≡ 0 }
    // What the statement means, over files that tell and a pool that tells.
    ensures step { IsTrue P.terms.told → IfSome (F.holds files.old) (λ held. IsStep (spec.run_statement held (P.view pages.old).page_bytes script.now number (catalog_of P.terms catalog.old) statement.now) (catalog_of P.terms catalog.new) (result_items result)) }
    ensures block { IfOk result (λ text. IsBlock text.items) }
    ensures same { IfErr result (λ _. catalog_of P.terms catalog.new ≡ catalog_of P.terms catalog.old) }
    ensures leaves { Leaves P.terms (P.view pages.old) (P.view pages.new) catalog.old catalog.new }
    ensures cause { IfErr result (HasStatementCause P.terms.told (F.faults files.old) (F.faults files.new) (P.view pages.old).faults (P.view pages.new).faults) }
    ensures holds { F.holds files.new ≡ F.holds files.old }
    ensures later { F.faults files.old ≤ F.faults files.new }
{
    let limit = text_limit(pages.page_bytes() as usize) as usize;
    let tables = columns(pages, catalog);
    match bind(alloc, script, statement, tables, limit) {
        Ok(bound) => {
            bound_statements_are_numbered();
            bound_statements_are_well_formed();
            act(alloc, files, pages, number, catalog, bound)
        }
        Err(BindFault::Refused { place, kind }) => Err(Status::Refused(Refusal {
            statement: number,
            place: Place::Byte(place as u64),
            kind,
        })),
        Err(BindFault::OutOfMemory) => Err(Status::OutOfMemory),
    }
}
