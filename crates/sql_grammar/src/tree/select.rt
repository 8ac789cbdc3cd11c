//! Selects.

use crate::tree::expr::{ColumnName, Expr, Span};
use sqlite_items::{Boxed, Items};

/// A select: its rows, and how they are ordered and cut. `place` is that of its first SELECT.
/// No keys means that ORDER BY isn't there.
#[cycle(tree)]
#[derive(Drop)]
pub struct Select {
    pub place: usize,
    pub rows: Boxed<Rows>,
    pub order: Items<Key>,
    pub limit: Option<Span>,
    pub offset: Option<Span>,
}

/// The rows of one core, or of several that set operations put together.
#[cycle(tree)]
#[derive(Drop)]
pub enum Rows {
    /// `place` is that of SELECT. The sources are `first` and those joined to it.
    /// No keys of `group` means that GROUP BY isn't there.
    Core {
        place: usize,
        distinct: bool,
        items: Items<Item>,
        first: Source,
        joins: Items<Join>,
        filter: Option<Condition>,
        group: Items<Boxed<Expr>>,
        having: Option<Condition>,
    },
    /// `first` and the operands after it, at least one: those of INTERSECT, or those of UNION and EXCEPT.
    Sets {
        first: Boxed<Rows>,
        others: Items<SetOperand>,
    },
}

/// An operand after UNION, EXCEPT or INTERSECT. `place` is that of its first SELECT.
#[cycle(tree)]
#[derive(Drop)]
pub struct SetOperand {
    pub kind: SetKind,
    pub all: bool,
    pub place: usize,
    pub right: Boxed<Rows>,
}

/// The word of a set operation.
#[derive(Clone, Copy)]
pub enum SetKind {
    Union,
    Except,
    Intersect,
}

/// What a core shows.
#[cycle(tree)]
#[derive(Drop)]
pub enum Item {
    /// All columns of all sources; the place is that of `*`.
    Star(usize),
    /// All columns of the source of that name.
    SourceStar(Span),
    Value {
        value: Boxed<Expr>,
        alias: Option<Span>,
    },
}

/// A condition; `place` is that of its first token.
#[cycle(tree)]
#[derive(Drop)]
pub struct Condition {
    pub place: usize,
    pub test: Boxed<Expr>,
}

/// A source of rows.
#[cycle(tree)]
#[derive(Drop)]
pub enum Source {
    Table {
        name: Span,
        alias: Option<Span>,
    },
    /// `place` is that of its parenthesis.
    Query {
        place: usize,
        query: Boxed<Select>,
        alias: Span,
    },
}

/// A source that is joined to those before it.
#[cycle(tree)]
#[derive(Drop)]
pub enum Join {
    Cross(Source),
    /// `outer` is whether it is LEFT.
    On {
        outer: bool,
        source: Source,
        on: Condition,
    },
}

/// A key of ORDER BY.
#[derive(Clone, Copy)]
pub struct Key {
    pub column: KeyColumn,
    pub descending: bool,
}

/// What a key of ORDER BY names.
#[derive(Clone, Copy)]
pub enum KeyColumn {
    /// The number of an item, from 1.
    Position(Span),
    Name(ColumnName),
}
