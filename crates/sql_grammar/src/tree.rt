//! The tree of a script: statements, selects and expressions, with the places of what a later refusal may name.
//! A place is a number of bytes from the script's start.

mod expr;
mod select;
mod statement;

pub use expr::{
    Argument, ChainSign, ColumnName, CompareSign, Constant, Expr, Link, Literal, Operand, Span,
};
pub use select::{
    Condition, Item, Join, Key, KeyColumn, Rows, Select, SetKind, SetOperand, Source,
};
pub use statement::{Column, CopyOption, Script, Sizes, Statement, TypeName};
