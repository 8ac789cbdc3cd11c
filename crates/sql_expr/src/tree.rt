//! The tree of an expression whose columns and types are known.

use ooc_types::{SqlType, Text, Value};
use sqlite_items::{Boxed, Items};

/// The operands of AND or OR, or the constants of IN.
pub type Exprs = Items<Expr>;

/// What acts on a chain's first operand, from left to right.
pub type Links = Items<Link>;

/// An operation of a chain.
#[derive(Clone, Copy, Debug, PartialEq, Eq)]
pub enum ChainSign {
    Plus,
    Minus,
    Times,
    Quotient,
    Remainder,
}

/// A comparison.
#[derive(Clone, Copy, Debug, PartialEq, Eq)]
pub enum CompareSign {
    Equal,
    Unequal,
    Less,
    AtMost,
    Greater,
    AtLeast,
}

/// An expression over the columns of a row. The operands of one AND, OR, sum or product stand in one node, and
/// parentheses have no node of their own.
#[cycle(expr)]
#[derive(Drop)]
pub enum Expr {
    /// A literal. Its number isn't negative; a minus is a node of its own.
    Constant {
        value: Value,
        kind: SqlType,
    },
    /// The value at this place of the row, from 0.
    Column {
        place: u32,
        kind: SqlType,
    },
    Not {
        of: Boxed<Expr>,
    },
    Minus {
        of: Boxed<Expr>,
        kind: SqlType,
    },
    /// AND
    Every {
        list: Exprs,
    },
    /// OR
    Either {
        list: Exprs,
    },
    Chain {
        first: Boxed<Expr>,
        links: Links,
    },
    Compare {
        sign: CompareSign,
        left: Boxed<Expr>,
        right: Boxed<Expr>,
    },
    IsNull {
        of: Boxed<Expr>,
        negated: bool,
    },
    Like {
        of: Boxed<Expr>,
        pattern: Text,
        negated: bool,
    },
    /// IN
    OneOf {
        of: Boxed<Expr>,
        list: Exprs,
        negated: bool,
    },
    Between {
        of: Boxed<Expr>,
        low: Boxed<Expr>,
        high: Boxed<Expr>,
        negated: bool,
    },
}

/// A sign of a chain, the operand behind it, and the chain's type up to there.
#[cycle(expr)]
#[derive(Drop)]
pub struct Link {
    pub sign: ChainSign,
    pub right: Expr,
    pub kind: SqlType,
}
