//! Statements and scripts.

use crate::tree::expr::Span;
use crate::tree::select::Select;
use sqlite_items::{Boxed, Items};

/// A script: its statements in order, without the empty ones.
#[derive(Drop)]
pub struct Script {
    pub statements: Items<Statement>,
}

/// A statement.
#[derive(Drop)]
pub enum Statement {
    CreateTable {
        name: Span,
        columns: Items<Column>,
    },
    DropTable {
        name: Span,
    },
    Copy {
        name: Span,
        file: Span,
        options: Items<CopyOption>,
    },
    Explain(Boxed<Select>),
    Select(Boxed<Select>),
}

/// A column of a new table.
#[derive(Clone, Copy)]
pub struct Column {
    pub name: Span,
    pub kind: TypeName,
    pub not_null: bool,
}

/// The name of a type, and what stands in parentheses after it.
#[derive(Clone, Copy)]
pub struct TypeName {
    pub name: Span,
    pub sizes: Option<Sizes>,
}

/// One or two integers after a type's name.
#[derive(Clone, Copy)]
pub struct Sizes {
    pub first: Span,
    pub second: Option<Span>,
}

/// An option of COPY; `place` is that of its word.
#[derive(Clone, Copy)]
pub enum CopyOption {
    Header { place: usize, value: bool },
    Delimiter { place: usize, text: Span },
    Null { place: usize, text: Span },
}
