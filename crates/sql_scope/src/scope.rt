//! What an expression is bound over.
ghost use Rattle.std.specs.Prelude.{◌≡◌, ◌≤◌, length, [], false};
ghost use Rattle.std.specs.Option.{option_copied};
ghost use Rattle.sql_scope.specs.Scopes as scopes;

use ooc_types::{Column, Schema, SqlType, Text};
use sql_expr::Expr;
use std::marker::Model;

/// A table: its name in small letters, and its columns.
#[derive(Drop)]
pub struct TableColumns {
    pub name: Text,
    pub columns: Schema,
}

/// A column that an expression sees: its source's name and its own, both in small letters, its own as it was
/// declared, and its type.
#[derive(Drop)]
pub struct ScopeColumn {
    pub source: Text,
    pub name: Text,
    pub declared: Text,
    pub kind: SqlType,
}

/// The script, the tables, the columns of the sources that an expression sees, the keys of GROUP BY, how many bytes a
/// text may have, and whether an aggregate may stand here.
#[derive(Drop)]
pub struct Scope<'a> {
    script: &'a [u8],
    tables: &'a [TableColumns],
    columns: &'a [ScopeColumn],
    keys: &'a [Expr],
    limit: usize,
    aggregates: bool,
}

impl<'a> Model for Scope<'a> {
    ghost use Rattle.std.specs.Prelude.{◌≤◌, length};
    ghost use Rattle.sql_expr.specs.contracts.tree.Expr as expr;
    ghost use Rattle.std.specs.Coded.{codes};
    ghost use Rattle.sql_scope.specs.Scopes.{View};

    ghost Value = { View };

    ghost coded = { Prim.hlevel (codes, expr.the_row.coded) };

    ghost view = { λ s. record { script = s.script.now; tables = s.tables.now; columns = s.columns.now; keys = s.keys.now; limit = s.limit; aggregates = s.aggregates } };

    ghost invariant = { λ s. (length s.columns.now ≤ 64) × (length s.script.now ≤ 1048576) };
}

impl<'a> Scope<'a> {
    /// No columns, keys and aggregates.
    pub fn new(script: &'a [u8], tables: &'a [TableColumns], limit: usize) -> Scope<'a>
        requires { length script.now ≤ 1048576 }
        ensures { result ≡ record { script = script.now; tables = tables.now; columns = []; keys = []; limit = limit; aggregates = false } }
    {
        Scope {
            script,
            tables,
            columns: &[],
            keys: &[],
            limit,
            aggregates: false,
        }
    }

    /// The same without aggregates.
    pub fn without_aggregates(&self) -> Scope<'a>
        ensures { result ≡ scopes.without_aggregates self.now }
    {
        Scope {
            script: self.script,
            tables: self.tables,
            columns: self.columns,
            keys: self.keys,
            limit: self.limit,
            aggregates: false,
        }
    }

    pub fn same(&self) -> Scope<'a>
        ensures { result ≡ self.now }
    {
        Scope {
            script: self.script,
            tables: self.tables,
            columns: self.columns,
            keys: self.keys,
            limit: self.limit,
            aggregates: self.aggregates,
        }
    }

    /// Over these columns, where no aggregate may stand.
    pub fn over_columns<'b>(&'b self, columns: &'b [ScopeColumn]) -> Scope<'b>
        requires { length columns.now ≤ 64 }
        ensures { result ≡ scopes.over_columns self.now columns.now }
    {
        Scope {
            script: self.script,
            tables: self.tables,
            columns,
            keys: &[],
            limit: self.limit,
            aggregates: false,
        }
    }

    /// The first columns alone.
    pub fn front(&self, count: usize) -> Scope<'a>
        ensures { result ≡ scopes.front self.now count }
    {
        let count = count.min(self.columns.len());
        Scope {
            script: self.script,
            tables: self.tables,
            columns: &self.columns[..count],
            keys: self.keys,
            limit: self.limit,
            aggregates: self.aggregates,
        }
    }

    /// With keys and aggregates.
    pub fn over_keys<'b>(&'b self, keys: &'b [Expr]) -> Scope<'b>
        ensures { result ≡ scopes.over_keys self.now keys.now }
    {
        Scope {
            script: self.script,
            tables: self.tables,
            columns: self.columns,
            keys,
            limit: self.limit,
            aggregates: true,
        }
    }

    pub fn aggregates(&self) -> bool
        ensures { result ≡ self.now.aggregates }
    {
        self.aggregates
    }

    pub fn script(&self) -> &'a [u8]
        ensures script { result.now ≡ self.now.script }
        ensures most { length result.now ≤ 1048576 }
    {
        self.script
    }

    pub fn tables(&self) -> &'a [TableColumns]
        ensures { result.now ≡ self.now.tables }
    {
        self.tables
    }

    pub fn columns(&self) -> &'a [ScopeColumn]
        ensures columns { result.now ≡ self.now.columns }
        ensures most { length result.now ≤ 64 }
    {
        self.columns
    }

    pub fn keys(&self) -> &'a [Expr]
        ensures { result.now ≡ self.now.keys }
    {
        self.keys
    }

    pub fn limit(&self) -> usize
        ensures { result ≡ self.now.limit }
    {
        self.limit
    }
}

/// The columns of the first table of that name.
pub fn columns_of<'a>(tables: &'a [TableColumns], name: &[u8]) -> Option<&'a [Column]>
    ensures { option_copied result ≡ scopes.columns_of tables.now name.now }
{
    for table in tables {
        if table.name.as_bytes() == name {
            return Some(table.columns.as_slice());
        }
    }
    None
}
