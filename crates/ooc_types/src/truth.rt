//! The truths of SQL's three-valued logic.

/// A truth of three-valued logic. The truth of NULL is `Unknown`.
#[derive(Clone, Copy, Debug, PartialEq, Eq)]
pub enum Truth {
    Yes,
    No,
    Unknown,
}
