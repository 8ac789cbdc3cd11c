//! What a plan is made from.

use crate::stages::PlanInput;
use ooc_types::Text;
use sql_expr::Exprs;

/// A source of FROM whose rows are planned, and how it is joined.
#[derive(Drop)]
pub struct SourcePlan {
    pub name: Text,
    pub input: PlanInput,
    /// How many columns it has.
    pub width: u32,
    pub pads: bool,
    /// The conjuncts of its ON, over the columns of the sources up to it in written order.
    pub on: Exprs,
}

/// A table of a free FROM: its place there, from 0, where its columns begin in written order, how many it has, and how
/// many rows.
#[derive(Clone, Copy, Debug, PartialEq, Eq)]
pub struct Entry {
    pub place: usize,
    pub start: u32,
    pub width: u32,
    pub rows: u64,
}

/// Two columns that an equality compares, by their places in written order.
#[derive(Clone, Copy, Debug, PartialEq, Eq)]
pub struct Linked {
    pub left: u32,
    pub right: u32,
}
