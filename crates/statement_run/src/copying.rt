//! COPY.
ghost use Rattle.std.specs.Prelude.{◌≡◌, ◌≤◌, IfErr, IfOk, IfSome, IsSome};
ghost use Rattle.std.specs.FinMap.{get};
ghost use Rattle.csv_records.specs.Table.{IsDelimiter};
ghost use Rattle.csv_tables.specs.Loading.{named_rows};
ghost use Rattle.paged_catalog.specs.Meaning.{catalog_of};
ghost use Rattle.paged_catalog.specs.Stands.{Stands, AreHere, Leaves};
ghost use Rattle.row_image.specs.Rules.{text_limit};
ghost use Rattle.script_opening.specs.Reading.{result_items};
ghost use Rattle.script_says.specs.Catalog.{table_at};
ghost use Rattle.script_says.specs.Ends.{IsStep};
ghost use Rattle.script_says.specs.LastLine.{IsBlock};
ghost use Rattle.statement_run.specs.Causes.{HasStatementCause};
ghost use Rattle.statement_run.specs.Faults as spec;
ghost use Rattle.statement_run.specs.Running.{columns_in, copying};

use csv_load::CsvOptions;
use csv_tables::LoadFault;
use ooc_io::Files;
use ooc_types::Text;
use page_body::{Pages, PoolFault};
use paged_catalog::{Catalog, load_table};
use run_settings::{Place, Refusal, Status};
use std::alloc::Global;
use std::str;

/// The status of a pool that has no frame, or whose page can't be reached.
pub(crate) fn pool_status(fault: PoolFault) -> Status
    ensures { result ≡ spec.pool_status fault }
{
    match fault {
        PoolFault::Spill => Status::SpillFault,
        PoolFault::Damaged(damage) => Status::SpillDamaged(damage),
        PoolFault::OutOfMemory => Status::OutOfMemory,
    }
}

// The status of a file that isn't loaded.
fn load_status(number: u32, fault: LoadFault) -> Status
    ensures { result ≡ spec.load_status number fault }
{
    match fault {
        LoadFault::Refused(why) => Status::Refused(Refusal {
            statement: number,
            place: Place::Record {
                number: why.number,
                column: why.column,
            },
            kind: why.kind,
        }),
        LoadFault::Read => Status::ReadFault,
        LoadFault::Pool(fault) => pool_status(fault),
        LoadFault::OutOfMemory => Status::OutOfMemory,
    }
}

/// How the file of a COPY is read.
pub(crate) fn options_of(header: bool, delimiter: u8, null: Text) -> CsvOptions
    ensures { result ≡ record { header = header; delimiter = delimiter; null = null } }
{
    CsvOptions {
        header,
        delimiter,
        null,
    }
}

// Loads the file of a name behind the rows of a table.
fn load<F: Files, P: Pages>(
    alloc: Global,
    files: &mut F,
    pages: &mut P,
    number: u32,
    catalog: &mut Catalog<P::Page>,
    name: &[u8],
    file: &str,
    options: &CsvOptions,
) -> Result<Vec<u8>, Status>
    requires stands { Stands P.terms catalog.old }
    requires here { AreHere (P.view pages.old) catalog.old }
    requires idle { (P.view pages.old).held ≡ 0 }
    requires there { IsSome (table_at (catalog_of P.terms catalog.old) name.now) }
    requires delimiter { IsDelimiter options.now.delimiter }
    ensures step { IfSome (F.holds files.old) (λ held. IsStep (copying number (catalog_of P.terms catalog.old) name.now (named_rows (columns_in (table_at (catalog_of P.terms catalog.old) name.now)) options.now (text_limit (P.view pages.old).page_bytes) (get held file.now))) (catalog_of P.terms catalog.new) (result_items result)) }
    ensures block { IfOk result (λ text. IsBlock text.items) }
    ensures same { IfErr result (λ _. catalog_of P.terms catalog.new ≡ catalog_of P.terms catalog.old) }
    ensures leaves { Leaves P.terms (P.view pages.old) (P.view pages.new) catalog.old catalog.new }
    ensures cause { IfErr result (HasStatementCause P.terms.told (F.faults files.old) (F.faults files.new) (P.view pages.old).faults (P.view pages.new).faults) }
    ensures holds { F.holds files.new ≡ F.holds files.old }
    ensures later { F.faults files.old ≤ F.faults files.new }
{
    match load_table(alloc, files, pages, catalog, name, file, options) {
        Ok(()) => Ok(Vec::new(alloc)),
        Err(fault) => Err(load_status(number, fault)),
    }
}

/// Loads a file behind the rows of a table.
pub(crate) fn copy<F: Files, P: Pages>(
    alloc: Global,
    files: &mut F,
    pages: &mut P,
    number: u32,
    catalog: &mut Catalog<P::Page>,
    name: &Text,
    file: &Text,
    options: &CsvOptions,
) -> Result<Vec<u8>, Status>
    requires stands { Stands P.terms catalog.old }
    requires here { AreHere (P.view pages.old) catalog.old }
    requires idle { (P.view pages.old).held ≡ 0 }
    requires there { IsSome (table_at (catalog_of P.terms catalog.old) name.now) }
    requires delimiter { IsDelimiter options.now.delimiter }
    ensures step { IfSome (F.holds files.old) (λ held. IsStep (copying number (catalog_of P.terms catalog.old) name.now (named_rows (columns_in (table_at (catalog_of P.terms catalog.old) name.now)) options.now (text_limit (P.view pages.old).page_bytes) (get held file.now))) (catalog_of P.terms catalog.new) (result_items result)) }
    ensures block { IfOk result (λ text. IsBlock text.items) }
    ensures same { IfErr result (λ _. catalog_of P.terms catalog.new ≡ catalog_of P.terms catalog.old) }
    ensures leaves { Leaves P.terms (P.view pages.old) (P.view pages.new) catalog.old catalog.new }
    ensures cause { IfErr result (HasStatementCause P.terms.told (F.faults files.old) (F.faults files.new) (P.view pages.old).faults (P.view pages.new).faults) }
    ensures holds { F.holds files.new ≡ F.holds files.old }
    ensures later { F.faults files.old ≤ F.faults files.new }
{
    match str::from_utf8(file.as_bytes()) {
        Ok(file) => load(
            alloc,
            files,
            pages,
            number,
            catalog,
            name.as_bytes(),
            file,
            options,
        ),
        // A script is UTF-8, and so is each of its texts, so this never comes. No clause says so of a script that is taken
        // alone.
        Err(_) => Err(Status::OutOfMemory),
    }
}
