//! Statements.
ghost use Rattle.std.specs.Prelude.{◌≡◌, ◌≤◌, length};
ghost use Rattle.sql_scope.specs.Answer.{Gives, GoesOn};
ghost use Rattle.bind_rules.specs.Bound as rules;

use crate::walk::bind_select;
use bound_tree::{Bound, BoundSelect};
use sql_clauses::{copy_table, create_table, drop_table};
use sql_grammar::tree::Statement;
use sql_scope::{BindFault, Scope, TableColumns};
use sqlite_items::Boxed;
use std::alloc::Global;

fn explained(select: Result<Boxed<BoundSelect>, BindFault>) -> Result<Bound, BindFault>
    ensures { GoesOn rules.explained select result }
{
    Ok(Bound::Explain(select?.into_inner()))
}

fn selected_rows(select: Result<Boxed<BoundSelect>, BindFault>) -> Result<Bound, BindFault>
    ensures { GoesOn rules.selected_rows select result }
{
    Ok(Bound::Select(select?.into_inner()))
}

fn bind_over(alloc: Global, scope: &Scope<'_>, statement: &Statement) -> Result<Bound, BindFault>
    ensures { Gives (rules.bound_over scope.now statement.now) result }
{
    match statement {
        Statement::CreateTable { name, columns } => {
            create_table(alloc, scope, *name, columns.as_slice())
        }
        Statement::DropTable { name } => drop_table(alloc, scope, *name),
        Statement::Copy {
            name,
            file,
            options,
        } => copy_table(alloc, scope, *name, *file, options.as_slice()),
        Statement::Explain(select) => explained(bind_select(alloc, scope, select.get())),
        Statement::Select(select) => selected_rows(bind_select(alloc, scope, select.get())),
    }
}

/// Binds a statement of this script, whose texts have at most `limit` bytes each, over these tables, whose names are in
/// small letters. `Refused` is the first refusal; its place is a number of bytes from the script's start.
pub fn bind(
    alloc: Global,
    script: &[u8],
    statement: &Statement,
    tables: &[TableColumns],
    limit: usize,
) -> Result<Bound, BindFault>
    requires { length script.now ≤ 1048576 }
    ensures { Gives (rules.bound_of statement.now script.now tables.now limit) result }
{
    let scope = Scope::new(script, tables, limit);
    bind_over(alloc, &scope, statement)
}
