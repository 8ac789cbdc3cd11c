//! The four states of a record.

/// The state in which the bytes of a record so far leave it.
#[derive(Clone, Copy, Debug, PartialEq, Eq)]
pub enum Mark {
    FieldStart,
    Plain,
    Quoted,
    QuoteSeen,
}
