//! Where a reader of rows is in its file.

/// Where a reader of rows is in its file.
#[derive(Clone, Copy, Debug, PartialEq, Eq)]
pub enum Stage {
    /// The header comes next.
    Header,
    /// Records of data come next, or the end.
    Rows,
    /// The end was told.
    End,
    /// A fault was told.
    Failed,
}
