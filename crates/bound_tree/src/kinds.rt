//! The kinds of aggregates, joins and set operations.

/// What an aggregate computes of the values that it takes.
#[derive(Clone, Copy, Debug, PartialEq, Eq)]
pub enum AggregateKind {
    /// `count(*)`
    CountRows,
    Count,
    /// `count(DISTINCT x)`, which stands beside no other aggregate
    CountDistinct,
    Sum,
    Min,
    Max,
}

/// How a source is joined to those before it, or that it comes first.
#[derive(Clone, Copy, Debug, PartialEq, Eq)]
pub enum JoinKind {
    First,
    Inner,
    Left,
    Cross,
}

/// What stands between two operands.
#[derive(Clone, Copy, Debug, PartialEq, Eq)]
pub enum SetKind {
    Union,
    Except,
    Intersect,
}
