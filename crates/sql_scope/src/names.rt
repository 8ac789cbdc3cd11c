//! How names find columns.
ghost use Rattle.std.specs.Prelude.{◌≡◌, ◌≤◌, Some, None, length};
ghost use Rattle.sql_scope.specs.Answer.{Gives};
ghost use Rattle.sql_scope.specs.Scopes as scopes;

use crate::fault::BindFault;
use crate::scope::{Scope, ScopeColumn};
use crate::texts::folded_at;
use ooc_types::{RefusalKind, SqlType};
use sql_expr::Expr;
use sql_grammar::tree::{ColumnName, Span};
use std::alloc::Global;

/// What stands in a scope under a name.
#[derive(Clone, Copy)]
pub(crate) enum Found {
    Nothing,
    One { place: u32, kind: SqlType },
    Several,
}

fn counted(holds: bool, seen: Found, place: u32, kind: SqlType) -> Found
    ensures { result ≡ scopes.counted holds seen place kind }
{
    if !holds {
        return seen;
    }
    match seen {
        Found::Nothing => Found::One { place, kind },
        Found::One { .. } | Found::Several => Found::Several,
    }
}

fn is_named(column: &ScopeColumn, name: &[u8]) -> bool
    ensures { result ≡ scopes.is_named name.now column.now }
{
    column.name.as_bytes() == name
}

fn is_of(column: &ScopeColumn, source: &[u8]) -> bool
    ensures { result ≡ scopes.is_of source.now column.now }
{
    column.source.as_bytes() == source
}

fn is_in(column: &ScopeColumn, source: &[u8], name: &[u8]) -> bool
    ensures { result ≡ scopes.is_in source.now name.now column.now }
{
    is_of(column, source) && is_named(column, name)
}

fn find_named(columns: &[ScopeColumn], name: &[u8]) -> Found
    requires { length columns.now ≤ 64 }
    ensures { result ≡ scopes.found (scopes.spots (scopes.is_named name.now) 0 columns.now) }
{
    let mut seen = Found::Nothing;
    for place in 0..columns.len() {
        let column = &columns[place];
        let holds = is_named(column, name);
        seen = counted(holds, seen, place as u32, column.kind);
    }
    seen
}

fn find_source(columns: &[ScopeColumn], source: &[u8]) -> Found
    requires { length columns.now ≤ 64 }
    ensures { result ≡ scopes.found (scopes.spots (scopes.is_of source.now) 0 columns.now) }
{
    let mut seen = Found::Nothing;
    for place in 0..columns.len() {
        let column = &columns[place];
        let holds = is_of(column, source);
        seen = counted(holds, seen, place as u32, column.kind);
    }
    seen
}

fn find_in(columns: &[ScopeColumn], source: &[u8], name: &[u8]) -> Found
    requires { length columns.now ≤ 64 }
    ensures { result ≡ scopes.found (scopes.spots (scopes.is_in source.now name.now) 0 columns.now) }
{
    let mut seen = Found::Nothing;
    for place in 0..columns.len() {
        let column = &columns[place];
        let holds = is_in(column, source, name);
        seen = counted(holds, seen, place as u32, column.kind);
    }
    seen
}

fn only(place: usize, found: Found) -> Result<Expr, BindFault>
    ensures { Gives (scopes.only place found) result }
{
    match found {
        Found::Nothing => Err(BindFault::Refused {
            place,
            kind: RefusalKind::NoColumn,
        }),
        Found::One { place, kind } => Ok(Expr::Column { place, kind }),
        Found::Several => Err(BindFault::Refused {
            place,
            kind: RefusalKind::Ambiguous,
        }),
    }
}

fn in_source(place: usize, source: Found, named: Found) -> Result<Expr, BindFault>
    ensures { Gives (scopes.in_source place source named) result }
{
    match source {
        Found::Nothing => Err(BindFault::Refused {
            place,
            kind: RefusalKind::NoTable,
        }),
        Found::One { .. } | Found::Several => only(place, named),
    }
}

fn qualified(alloc: Global, scope: &Scope<'_>, source: Span, name: Span) -> Result<Expr, BindFault>
    ensures { Gives (scopes.named_column scope.now (Some source) name) result }
{
    let wanted = folded_at(alloc, scope.script(), source)?;
    let text = folded_at(alloc, scope.script(), name)?;
    let found = find_source(scope.columns(), wanted.as_slice());
    let named = find_in(scope.columns(), wanted.as_slice(), text.as_slice());
    in_source(source.start, found, named)
}

fn unqualified(alloc: Global, scope: &Scope<'_>, name: Span) -> Result<Expr, BindFault>
    ensures { Gives (scopes.named_column scope.now None name) result }
{
    let text = folded_at(alloc, scope.script(), name)?;
    only(name.start, find_named(scope.columns(), text.as_slice()))
}

/// The column that a name means.
pub(crate) fn column_tree(
    alloc: Global,
    scope: &Scope<'_>,
    written: ColumnName,
) -> Result<Expr, BindFault>
    ensures { Gives (scopes.named_column scope.now written.source written.name) result }
{
    match written.source {
        Some(source) => qualified(alloc, scope, source, written.name),
        None => unqualified(alloc, scope, written.name),
    }
}
