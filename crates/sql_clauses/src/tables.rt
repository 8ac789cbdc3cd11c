//! CREATE TABLE and DROP TABLE, and the tables that a statement names.
ghost use Rattle.std.specs.Prelude.{◌≡◌, IfOk, Ok, []};
ghost use Rattle.sql_scope.specs.Answer.{Gives, GoesOn, each};
ghost use Rattle.sql_clauses.specs.Tables as rules;

use crate::names::{small_name, written_name};
use crate::types::declared_type;
use bound_tree::Bound;
use ooc_types::{Column, OutOfMemory, RefusalKind, Schema, SqlType, Text};
use sql_grammar::tree;
use sql_grammar::tree::Span;
use sql_scope::{BindFault, Scope, columns_of, small_letters};
use std::alloc::Global;

/// How many columns a table may have, and the sources of one FROM together.
pub(crate) const MOST_COLUMNS: usize = 64;

fn is_table(scope: &Scope<'_>, name: &[u8]) -> bool
    ensures { result ≡ rules.is_table scope.now name.now }
{
    columns_of(scope.tables(), name).is_some()
}

fn known_name(scope: &Scope<'_>, place: usize, name: Text) -> Result<Text, BindFault>
    ensures { Gives (rules.known_name scope.now place name) result }
{
    if !is_table(scope, name.as_bytes()) {
        return Err(BindFault::Refused {
            place,
            kind: RefusalKind::NoTable,
        });
    }
    Ok(name)
}

/// A table that is there, by its name in small letters.
pub(crate) fn known_table(alloc: Global, scope: &Scope<'_>, name: Span) -> Result<Text, BindFault>
    ensures { Gives (rules.known_table scope.now name) result }
{
    let text = small_name(alloc, scope, name)?;
    known_name(scope, name.start, text)
}

fn new_name(scope: &Scope<'_>, place: usize, name: Text) -> Result<Text, BindFault>
    ensures { Gives (rules.new_name scope.now place name) result }
{
    if is_table(scope, name.as_bytes()) {
        return Err(BindFault::Refused {
            place,
            kind: RefusalKind::TableExists,
        });
    }
    Ok(name)
}

fn new_table(alloc: Global, scope: &Scope<'_>, name: Span) -> Result<Text, BindFault>
    ensures { Gives (rules.new_table scope.now name) result }
{
    let text = small_name(alloc, scope, name)?;
    new_name(scope, name.start, text)
}

pub(crate) fn is_called(alloc: Global, column: &Column, name: &[u8]) -> Result<bool, OutOfMemory>
    ensures { IfOk result (λ called. called ≡ rules.is_called name.now column.now) }
{
    let small = small_letters(alloc, column.name.as_bytes())?;
    Ok(small.as_slice() == name)
}

fn has_column(alloc: Global, name: &[u8], columns: &[Column]) -> Result<bool, OutOfMemory>
    ensures { IfOk result (λ has. has ≡ rules.has_column name.now columns.now) }
{
    for column in columns {
        if is_called(alloc, column, name)? {
            return Ok(true);
        }
    }
    Ok(false)
}

fn a_column(
    alloc: Global,
    scope: &Scope<'_>,
    written: tree::Column,
    kind: SqlType,
) -> Result<Column, OutOfMemory>
    ensures { IfOk result (λ column. column ≡ rules.a_column scope.now written kind) }
{
    Ok(Column {
        name: written_name(alloc, scope, written.name)?,
        kind,
        nullable: !written.not_null,
    })
}

fn with_column(
    alloc: Global,
    place: usize,
    name: &[u8],
    column: Column,
    columns: Schema,
) -> Result<Schema, BindFault>
    ensures { Gives (rules.with_column place name.now column columns) result }
{
    if has_column(alloc, name, columns.as_slice())? {
        return Err(BindFault::Refused {
            place,
            kind: RefusalKind::DuplicateName,
        });
    }
    let mut columns = columns;
    columns.push(column)?;
    Ok(columns)
}

fn named_column(
    alloc: Global,
    scope: &Scope<'_>,
    written: tree::Column,
    columns: Schema,
    kind: SqlType,
) -> Result<Schema, BindFault>
    ensures { Gives (rules.named_column scope.now written columns kind) result }
{
    let name = small_name(alloc, scope, written.name)?;
    let column = a_column(alloc, scope, written, kind)?;
    with_column(alloc, written.name.start, name.as_bytes(), column, columns)
}

fn column_behind(
    alloc: Global,
    scope: &Scope<'_>,
    written: tree::Column,
    columns: Result<Schema, BindFault>,
) -> Result<Schema, BindFault>
    ensures { GoesOn (rules.column_behind scope.now written) columns result }
{
    let columns = columns?;
    let kind = declared_type(alloc, scope, written.kind)?;
    named_column(alloc, scope, written, columns, kind)
}

fn all_columns(
    alloc: Global,
    scope: &Scope<'_>,
    written: &[tree::Column],
) -> Result<Schema, BindFault>
    ensures { Gives (each (rules.column_behind scope.now) (Ok []) written.now) result }
{
    let mut columns = Ok(Schema::new_schema(alloc));
    for column in written {
        columns = column_behind(alloc, scope, *column, columns);
    }
    columns
}

fn table_of(place: usize, name: Text, columns: Schema) -> Result<Bound, BindFault>
    ensures { Gives (rules.table_of place name columns) result }
{
    if columns.as_slice().len() > MOST_COLUMNS {
        return Err(BindFault::Refused {
            place,
            kind: RefusalKind::TooManyColumns,
        });
    }
    Ok(Bound::CreateTable { name, columns })
}

/// CREATE TABLE.
pub fn create_table(
    alloc: Global,
    scope: &Scope<'_>,
    name: Span,
    columns: &[tree::Column],
) -> Result<Bound, BindFault>
    ensures { Gives (rules.create_table scope.now name columns.now) result }
{
    let table = new_table(alloc, scope, name)?;
    let columns = all_columns(alloc, scope, columns)?;
    table_of(name.start, table, columns)
}

/// DROP TABLE.
pub fn drop_table(alloc: Global, scope: &Scope<'_>, name: Span) -> Result<Bound, BindFault>
    ensures { Gives (rules.drop_table scope.now name) result }
{
    let name = known_table(alloc, scope, name)?;
    Ok(Bound::DropTable { name })
}
