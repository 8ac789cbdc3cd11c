//! The words of a sketch. They put a SELECT together as a stack does: operands stand before their operation, the parts
//! of a source before it, and a subquery before the SELECT in which it stands, the last subquery first.
use bound_tree::{AggregateKind, JoinKind, SetKind};
use ooc_types::SqlType;
use sql_expr::CompareSign;

/// A constant.
#[derive(Clone, Copy)]
pub(crate) enum Constant {
    One,
    Letter,
    Day,
    Truth,
}

/// What acts on the expressions before it.
#[derive(Clone, Copy)]
pub(crate) enum Operation {
    Compare(CompareSign),
    Sum,
    Minus,
    Not,
    And,
    Or,
    IsNull,
    Like,
    Between,
    OneOf,
}

/// What becomes of the expression before it.
#[derive(Clone, Copy)]
pub(crate) enum Part {
    /// A conjunct of the ON of the next source.
    On,
    /// A conjunct of WHERE.
    Where,
    /// A conjunct IN, or NOT IN, with the last subquery.
    In { negated: bool },
    Key,
    Aggregate(AggregateKind),
    /// A conjunct of HAVING.
    Having,
    Item,
}

/// A word of a sketch.
#[derive(Clone, Copy)]
pub(crate) enum Word {
    /// A column of the row so far, by its place.
    Column(u32, SqlType),
    Constant(Constant),
    Operation(Operation),
    Part(Part),
    /// How the next source is joined, if it isn't the first and isn't an inner join.
    Join(JoinKind),
    /// The table of that name, with so many columns.
    Table(usize),
    /// The last subquery as a source of one column, `s` where it has no other name.
    Query,
    /// `count(*)`
    CountRows,
    Distinct,
    /// The end of a core.
    Select,
    Set(SetKind, bool),
    SortKey,
    Limit(u64),
    Offset(u64),
    /// The end of a whole SELECT.
    End,
}

static WORDS: [(&str, Word); 69] = [
    ("#0", Word::Column(0, SqlType::Integer)),
    ("#1", Word::Column(1, SqlType::Integer)),
    ("#2", Word::Column(2, SqlType::Integer)),
    ("#3", Word::Column(3, SqlType::Integer)),
    ("#5", Word::Column(5, SqlType::Integer)),
    ("#6", Word::Column(6, SqlType::Integer)),
    ("#7", Word::Column(7, SqlType::Integer)),
    ("#8", Word::Column(8, SqlType::Integer)),
    ("#9", Word::Column(9, SqlType::Integer)),
    ("bool2", Word::Column(2, SqlType::Boolean)),
    ("text3", Word::Column(3, SqlType::Varchar)),
    ("date4", Word::Column(4, SqlType::Date)),
    ("1", Word::Constant(Constant::One)),
    ("'x'", Word::Constant(Constant::Letter)),
    ("day", Word::Constant(Constant::Day)),
    ("true", Word::Constant(Constant::Truth)),
    ("=", Word::Operation(Operation::Compare(CompareSign::Equal))),
    (
        "<>",
        Word::Operation(Operation::Compare(CompareSign::Unequal)),
    ),
    ("<", Word::Operation(Operation::Compare(CompareSign::Less))),
    (
        "<=",
        Word::Operation(Operation::Compare(CompareSign::AtMost)),
    ),
    (
        ">",
        Word::Operation(Operation::Compare(CompareSign::Greater)),
    ),
    (
        ">=",
        Word::Operation(Operation::Compare(CompareSign::AtLeast)),
    ),
    ("+", Word::Operation(Operation::Sum)),
    ("minus", Word::Operation(Operation::Minus)),
    ("not", Word::Operation(Operation::Not)),
    ("and", Word::Operation(Operation::And)),
    ("or", Word::Operation(Operation::Or)),
    ("null", Word::Operation(Operation::IsNull)),
    ("like", Word::Operation(Operation::Like)),
    ("between", Word::Operation(Operation::Between)),
    ("one-of", Word::Operation(Operation::OneOf)),
    ("on", Word::Part(Part::On)),
    ("where", Word::Part(Part::Where)),
    ("in", Word::Part(Part::In { negated: false })),
    ("not-in", Word::Part(Part::In { negated: true })),
    ("key", Word::Part(Part::Key)),
    ("count", Word::Part(Part::Aggregate(AggregateKind::Count))),
    (
        "count-distinct",
        Word::Part(Part::Aggregate(AggregateKind::CountDistinct)),
    ),
    ("sum", Word::Part(Part::Aggregate(AggregateKind::Sum))),
    ("min", Word::Part(Part::Aggregate(AggregateKind::Min))),
    ("max", Word::Part(Part::Aggregate(AggregateKind::Max))),
    ("having", Word::Part(Part::Having)),
    ("item", Word::Part(Part::Item)),
    ("left", Word::Join(JoinKind::Left)),
    ("cross", Word::Join(JoinKind::Cross)),
    ("a", Word::Table(1)),
    ("b", Word::Table(1)),
    ("c", Word::Table(1)),
    ("d", Word::Table(1)),
    ("p", Word::Table(2)),
    ("q", Word::Table(2)),
    ("t", Word::Table(5)),
    ("u", Word::Table(1)),
    ("query", Word::Query),
    ("count-rows", Word::CountRows),
    ("distinct", Word::Distinct),
    ("select", Word::Select),
    ("union", Word::Set(SetKind::Union, false)),
    ("union-all", Word::Set(SetKind::Union, true)),
    ("intersect", Word::Set(SetKind::Intersect, false)),
    ("intersect-all", Word::Set(SetKind::Intersect, true)),
    ("except", Word::Set(SetKind::Except, false)),
    ("except-all", Word::Set(SetKind::Except, true)),
    ("sort", Word::SortKey),
    ("end", Word::End),
    ("limit-0", Word::Limit(0)),
    ("limit-10", Word::Limit(10)),
    ("offset-0", Word::Offset(0)),
    ("offset-3", Word::Offset(3)),
];

/// The word of that text.
pub(crate) fn word_of(text: &str) -> Option<Word> {
    for (name, word) in &WORDS {
        if *name == text {
            return Some(*word);
        }
    }
    None
}
