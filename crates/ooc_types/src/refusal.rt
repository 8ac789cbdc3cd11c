//! Why a script, a statement or a record is refused.

/// The kind of a refusal. The line that tells it stands in docs/FORMATS.md.
#[derive(Clone, Copy, Debug, PartialEq, Eq)]
pub enum RefusalKind {
    // Of a script.
    BadToken,
    Syntax,
    TooDeep,
    ScriptTooLong,
    // Of a script and of a CSV file.
    NoFile,
    // Of a statement, before it runs.
    NoTable,
    TableExists,
    NoColumn,
    Ambiguous,
    DuplicateName,
    NoType,
    NoFunction,
    TypeMismatch,
    AggregateHere,
    NotGrouped,
    SumTooWide,
    DecimalTooWide,
    TooManyColumns,
    TooManyTables,
    BadOption,
    BadPosition,
    ColumnCount,
    InHere,
    DistinctMix,
    BadDate,
    NotInSession,
    // Of a statement and of a CSV record.
    TextTooLong,
    // Of a CSV record.
    FileTooLong,
    RecordTooLong,
    OpenQuote,
    FieldCount,
    NullRefused,
    BadUtf8,
    BadValue,
    // Of a statement that runs.
    Overflow,
    CountOverflow,
    ResultTooLarge,
    // Of what the program doesn't know yet.
    NotBuilt,
}
