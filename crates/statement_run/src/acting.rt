//! A bound statement, which acts on the tables.
ghost use Rattle.std.specs.Prelude.{◌≡◌, ◌≤◌, IfErr, IfOk, IfSome, IsTrue};
ghost use Rattle.numbered_binding.specs.Numbered.{IsNumberedStatement};
ghost use Rattle.paged_catalog.specs.Meaning.{catalog_of};
ghost use Rattle.paged_catalog.specs.Stands.{Stands, AreHere, Leaves};
ghost use Rattle.row_image.specs.Rules.{text_limit};
ghost use Rattle.script_opening.specs.Reading.{result_items};
ghost use Rattle.script_says.specs.Catalog.{schemas_of};
ghost use Rattle.script_says.specs.Ends.{IsStep};
ghost use Rattle.script_says.specs.LastLine.{IsBlock};
ghost use Rattle.sql_scope.specs.Scopes.{columns_of};
ghost use Rattle.statement_run.specs.Causes.{HasStatementCause};
ghost use Rattle.statement_run.specs.Running.{running};
ghost use Rattle.well_formed.specs.Statements.{IsWellFormed};

use crate::copying::{copy, options_of};
use crate::creating::{create, drop_named};
use crate::explaining::plan_block;
use crate::selecting::show;
use bound_tree::Bound;
use ooc_io::Files;
use page_body::Pages;
use paged_catalog::Catalog;
use run_settings::Status;
use std::alloc::Global;

/// What a bound statement does, and the block that it prints.
pub(crate) fn act<F: Files, P: Pages>(
    alloc: Global,
    files: &mut F,
    pages: &mut P,
    number: u32,
    catalog: &mut Catalog<P::Page>,
    bound: Bound,
) -> Result<Vec<u8>, Status>
    requires stands { Stands P.terms catalog.old }
    requires here { AreHere (P.view pages.old) catalog.old }
    requires idle { (P.view pages.old).held ≡ 0 }
    requires formed { IsWellFormed (text_limit (P.view pages.old).page_bytes) (columns_of (schemas_of (catalog_of P.terms catalog.old))) bound }
    requires numbered { IsNumberedStatement bound }
    ensures step { IsTrue P.terms.told → IfSome (F.holds files.old) (λ held. IsStep (running held (text_limit (P.view pages.old).page_bytes) number (catalog_of P.terms catalog.old) bound) (catalog_of P.terms catalog.new) (result_items result)) }
    ensures block { IfOk result (λ text. IsBlock text.items) }
    ensures same { IfErr result (λ _. catalog_of P.terms catalog.new ≡ catalog_of P.terms catalog.old) }
    ensures leaves { Leaves P.terms (P.view pages.old) (P.view pages.new) catalog.old catalog.new }
    ensures cause { IfErr result (HasStatementCause P.terms.told (F.faults files.old) (F.faults files.new) (P.view pages.old).faults (P.view pages.new).faults) }
    ensures holds { F.holds files.new ≡ F.holds files.old }
    ensures later { F.faults files.old ≤ F.faults files.new }
{
    match bound {
        Bound::CreateTable { name, columns } => create(alloc, pages, catalog, name, columns),
        Bound::DropTable { name } => Ok(drop_named(alloc, pages, catalog, &name)),
        Bound::Copy {
            name,
            file,
            header,
            delimiter,
            null,
        } => {
            let options = options_of(header, delimiter, null);
            copy(alloc, files, pages, number, catalog, &name, &file, &options)
        }
        Bound::Explain(select) => match plan_block(alloc, pages, catalog, &select) {
            Ok(text) => Ok(text),
            Err(_) => Err(Status::OutOfMemory),
        },
        Bound::Select(select) => show(alloc, pages, number, catalog, &select),
    }
}
