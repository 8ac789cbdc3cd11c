//! A bound SELECT, from its sources to its order.

use crate::kinds::{AggregateKind, JoinKind, SetKind};
use ooc_types::{Schema, SqlType, Text};
use sql_expr::{Expr, Exprs};
use sqlite_items::{Boxed, Items};

/// An aggregate over the columns of all sources. `count(*)` alone has no argument; `result` is the type that it gives.
#[derive(Drop)]
pub struct Aggregate {
    pub kind: AggregateKind,
    pub of: Option<Boxed<Expr>>,
    pub result: SqlType,
}

/// GROUP BY, HAVING or an aggregate. The row of a group has the keys as written, and then each different aggregate.
#[derive(Drop)]
pub struct Grouping {
    /// Over the columns of all sources.
    pub keys: Exprs,
    pub aggregates: Items<Aggregate>,
    /// The conjuncts of HAVING, over the row of a group; None where there is no HAVING.
    pub having: Option<Exprs>,
}

/// A column of the output, from 0, and its direction.
#[derive(Clone, Copy)]
pub struct SortKey {
    pub place: usize,
    pub descending: bool,
}

/// ORDER BY, LIMIT and OFFSET, of which at least one stands there.
#[derive(Drop)]
pub struct Cut {
    /// As written.
    pub keys: Items<SortKey>,
    pub limit: Option<u128>,
    /// `OFFSET 0` isn't the same as none: EXPLAIN tells them apart.
    pub offset: Option<u128>,
}

/// A SELECT: its rows, the names and types of its output, and its order.
#[cycle(bound)]
#[derive(Drop)]
pub struct BoundSelect {
    pub rows: Boxed<BoundRows>,
    pub columns: Schema,
    pub cut: Option<Cut>,
}

/// The rows of a core, or of two operands of a set operation; `kinds` are the types of the result's columns.
#[cycle(bound)]
#[derive(Drop)]
pub enum BoundRows {
    Core(BoundCore),
    Set {
        kind: SetKind,
        all: bool,
        left: Boxed<BoundRows>,
        right: Boxed<BoundRows>,
        kinds: Items<SqlType>,
    },
}

/// A SELECT without set operations and order.
#[cycle(bound)]
#[derive(Drop)]
pub struct BoundCore {
    /// In written order; at least one.
    pub sources: Items<BoundSource>,
    /// The conjuncts of WHERE in written order, over the columns of all sources.
    pub conjuncts: Items<Conjunct>,
    pub grouping: Option<Grouping>,
    /// `*` is written out. Over the row of a group where there is a grouping, else over the columns of all sources.
    pub items: Exprs,
    pub distinct: bool,
}

/// A source of FROM.
#[cycle(bound)]
#[derive(Drop)]
pub struct BoundSource {
    /// The name that the statement gives it, in the letters written there.
    pub name: Text,
    pub rows: SourceRows,
    /// The types of its columns.
    pub kinds: Items<SqlType>,
    pub join: JoinKind,
    /// The conjuncts of its ON, over the columns of the sources up to it.
    pub on: Exprs,
}

/// Where the rows of a source come from.
#[cycle(bound)]
#[derive(Drop)]
pub enum SourceRows {
    /// The table of that name, in small letters.
    Table(Text),
    Query(Boxed<BoundSelect>),
}

/// A conjunct of WHERE.
#[cycle(bound)]
#[derive(Drop)]
pub enum Conjunct {
    Condition(Expr),
    /// IN with a subquery of one column.
    Member {
        of: Expr,
        query: Boxed<BoundSelect>,
        negated: bool,
    },
}
