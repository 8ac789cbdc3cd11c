//! The stages of a plan.

use bound_tree::{Cut, Grouping, SetKind};
use ooc_types::{Schema, Text};
use sql_expr::{Expr, Exprs};
use sqlite_items::{Boxed, Items};

/// A column of the rows so far and a column of the new source, each by its place there: a pair of rows is joined where
/// both are equal.
#[derive(Clone, Copy, Debug, PartialEq, Eq)]
pub struct KeyColumns {
    pub left: u32,
    pub right: u32,
}

/// A SELECT: the stages that give its rows, the names and types of its output, and its order.
#[cycle(plan)]
#[derive(Drop)]
pub struct PlanSelect {
    pub rows: Boxed<PlanRows>,
    pub columns: Schema,
    pub cut: Option<Cut>,
}

/// The rows of a core, or of two operands of a set operation.
#[cycle(plan)]
#[derive(Drop)]
pub enum PlanRows {
    Core(PlanCore),
    Set {
        kind: SetKind,
        all: bool,
        left: Boxed<PlanRows>,
        right: Boxed<PlanRows>,
    },
}

/// A SELECT without set operations and order.
#[cycle(plan)]
#[derive(Drop)]
pub struct PlanCore {
    /// In the order in which they are joined.
    pub sources: Items<PlanSource>,
    /// The conjuncts that are left in WHERE, over the columns of all sources in the plan's order: the plain ones act
    /// first.
    pub plain: Exprs,
    pub others: Items<PlanConjunct>,
    pub grouping: Option<Grouping>,
    pub items: Exprs,
    pub distinct: bool,
}

/// The scan of a source, or its join with the rows so far.
#[cycle(plan)]
#[derive(Drop)]
pub struct PlanSource {
    /// The name that the statement gives it, in the letters written there.
    pub name: Text,
    pub rows: PlanInput,
    /// How many columns it has.
    pub width: u32,
    /// LEFT JOIN: a row so far that meets none is kept, with NULLs.
    pub pads: bool,
    /// Over the columns of the source.
    pub filters: Exprs,
    pub keys: Items<KeyColumns>,
    /// Over the columns so far and then those of the source.
    pub rest: Exprs,
}

/// Where the rows of a source come from.
#[cycle(plan)]
#[derive(Drop)]
pub enum PlanInput {
    /// The table of that name, in small letters.
    Table(Text),
    Query(Boxed<PlanSelect>),
}

/// A conjunct that is left in WHERE and isn't plain.
#[cycle(plan)]
#[derive(Drop)]
pub enum PlanConjunct {
    Condition(Expr),
    /// IN with a subquery of one column.
    Member {
        of: Expr,
        query: Boxed<PlanSelect>,
        negated: bool,
    },
}
