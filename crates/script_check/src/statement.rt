//! One statement of a script, checked.
ghost use Rattle.std.specs.Prelude.{◌≡◌, ◌≤◌, IfErr, IfOk, length};
ghost use Rattle.bind_rules.specs.Bound.{bound_of};
ghost use Rattle.plan_text.specs.Explained.{plan_text};
ghost use Rattle.plan_tree.specs.Planned.{plan_of_select};
ghost use Rattle.sql_plan.specs.Numbered.{AreNumbered};
ghost use Rattle.script_opening.specs.Reading.{result_items, IsOfTexts};
ghost use Rattle.script_says.specs.Checking.{check_statement, checked};
ghost use Rattle.script_says.specs.Ends.{IsStep};
ghost use Rattle.script_says.specs.LastLine.{IsBlock};
ghost use Rattle.numbered_binding.specs.Numbered.{IsNumberedStatement};
ghost use Rattle.script_check.specs.Tables.{catalog_in, Acts};

use crate::tables::drop_table;
use bound_tree::{Bound, BoundSelect};
use numbered_binding::bound_statements_are_numbered;
use ooc_types::OutOfMemory;
use plan_text::explain;
use run_settings::{Place, Refusal, Status};
use sql_bind::bind;
use sql_parse::tree::Statement;
use sql_plan::plan;
use sql_scope::{BindFault, TableColumns};
use std::alloc::Global;

// What EXPLAIN prints of a SELECT over tables of no rows.
fn plan_block(alloc: Global, select: &BoundSelect) -> Result<Vec<u8>, OutOfMemory>
    requires { AreNumbered select.now }
    ensures { IfOk result (λ text. text.items ≡ plan_text (plan_of_select (λ name. 0) select.now)) }
{
    let plan = plan(alloc, select, &[])?;
    let mut text = Vec::new(alloc);
    explain(alloc, &plan, &mut text)?;
    Ok(text)
}

// What a bound statement does, and the block that it prints.
fn act(alloc: Global, bound: Bound, tables: &mut Vec<TableColumns>) -> Result<Vec<u8>, OutOfMemory>
    requires { IsNumberedStatement bound }
    ensures step { Acts (checked (catalog_in tables.old.items) bound) (catalog_in tables.new.items) (result_items result) }
    ensures block { IfOk result (λ text. IsBlock text.items) }
{
    match bound {
        Bound::CreateTable { name, columns } => {
            tables.push(TableColumns { name, columns })?;
            Ok(Vec::new(alloc))
        }
        Bound::DropTable { name } => {
            drop_table(tables, &name);
            Ok(Vec::new(alloc))
        }
        Bound::Copy { .. } => Ok(Vec::new(alloc)),
        Bound::Explain(select) => plan_block(alloc, &select),
        Bound::Select(select) => plan_block(alloc, &select),
    }
}

/// Checks the statement of a number: binds it over the tables that the statements before it left, and lets it act on them. Its
/// block is a plan, or empty.
pub(crate) fn check_statement(
    alloc: Global,
    script: &[u8],
    number: u32,
    statement: &Statement,
    limit: usize,
    tables: &mut Vec<TableColumns>,
) -> Result<Vec<u8>, Status>
    requires { length script.now ≤ 1048576 }
    ensures step { IsStep (check_statement script.now limit number (catalog_in tables.old.items) statement.now) (catalog_in tables.new.items) (result_items result) }
    ensures block { IfOk result (λ text. IsBlock text.items) }
    ensures kinds { IfErr result IsOfTexts }
{
    match bind(alloc, script, statement, tables.as_slice(), limit) {
        Ok(bound) => {
            bound_statements_are_numbered();
            Ok(act(alloc, bound, tables)?)
        }
        Err(BindFault::Refused { place, kind }) => Err(Status::Refused(Refusal {
            statement: number,
            place: Place::Byte(place as u64),
            kind,
        })),
        Err(BindFault::OutOfMemory) => Err(Status::OutOfMemory),
    }
}
