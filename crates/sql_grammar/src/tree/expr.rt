//! Expressions.

use crate::tree::select::Select;
use sqlite_items::{Boxed, Items};

/// A part of the script, in bytes from 0; `end` is the place behind it.
#[derive(Clone, Copy)]
pub struct Span {
    pub start: usize,
    pub end: usize,
}

/// A literal, where it stands. A text is written with its quotes; a date's place is that of the text behind DATE.
#[derive(Clone, Copy)]
pub enum Literal {
    Integer(Span),
    Decimal(Span),
    Text(Span),
    True(Span),
    False(Span),
    Date(Span),
}

/// A literal, and the place of the minus before it, if there is one.
#[derive(Clone, Copy)]
pub struct Constant {
    pub minus: Option<usize>,
    pub literal: Literal,
}

/// The name of a column, with its source's name if it has one.
#[derive(Clone, Copy)]
pub struct ColumnName {
    pub source: Option<Span>,
    pub name: Span,
}

/// The sign of a link of a sum or of a term.
#[derive(Clone, Copy)]
pub enum ChainSign {
    Plus,
    Minus,
    Times,
    Quotient,
    Remainder,
}

/// The sign of a comparison.
#[derive(Clone, Copy)]
pub enum CompareSign {
    Equal,
    Unequal,
    Less,
    AtMost,
    Greater,
    AtLeast,
}

/// An expression. The operands of one chain of OR, of AND, of sums or of terms stand in one node; parentheses have none.
#[cycle(tree)]
#[derive(Drop)]
pub enum Expr {
    Literal(Literal),
    Column(ColumnName),
    Call {
        name: Span,
        argument: Argument,
    },
    Minus {
        place: usize,
        operand: Boxed<Expr>,
    },
    Not {
        place: usize,
        operand: Boxed<Expr>,
    },
    /// `first` and the sums' or terms' links after it, at least one.
    Chain {
        first: Boxed<Expr>,
        links: Items<Link>,
    },
    /// `first AND others`, at least one.
    Every {
        first: Boxed<Expr>,
        others: Items<Operand>,
    },
    /// `first OR others`, at least one.
    Either {
        first: Boxed<Expr>,
        others: Items<Operand>,
    },
    /// `place` is the sign's.
    Compare {
        place: usize,
        sign: CompareSign,
        left: Boxed<Expr>,
        right: Boxed<Expr>,
    },
    IsNull {
        place: usize,
        negated: bool,
        operand: Boxed<Expr>,
    },
    /// `place` is that of LIKE.
    Like {
        place: usize,
        negated: bool,
        operand: Boxed<Expr>,
        pattern: Span,
    },
    /// `place` is that of IN.
    OneOf {
        place: usize,
        negated: bool,
        operand: Boxed<Expr>,
        list: Items<Constant>,
    },
    /// IN with a subquery; `place` is that of IN.
    Member {
        place: usize,
        negated: bool,
        operand: Boxed<Expr>,
        query: Boxed<Select>,
    },
    /// `place` is that of BETWEEN.
    Between {
        place: usize,
        negated: bool,
        operand: Boxed<Expr>,
        low: Boxed<Expr>,
        high: Boxed<Expr>,
    },
}

/// What stands between a function's parentheses.
#[cycle(tree)]
#[derive(Drop)]
pub enum Argument {
    Star,
    Value(Boxed<Expr>),
    /// An expression behind DISTINCT.
    Distinct(Boxed<Expr>),
}

/// A sign and the operand after it; `place` is the sign's.
#[cycle(tree)]
#[derive(Drop)]
pub struct Link {
    pub place: usize,
    pub sign: ChainSign,
    pub right: Boxed<Expr>,
}

/// An operand after AND or OR; `place` is the word's.
#[cycle(tree)]
#[derive(Drop)]
pub struct Operand {
    pub place: usize,
    pub right: Boxed<Expr>,
}
