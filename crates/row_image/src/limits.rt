//! The numbers of the page formats, which code and clauses cite.

/// The shortest page.
pub const LEAST_PAGE: usize = 4096;

/// The longest page.
pub const MOST_PAGE: usize = 262144;

/// How many bytes a row page's head takes, behind which its rows begin.
pub const ROW_HEAD: usize = 128;

/// How many bytes a heap page's head takes, behind which its texts begin.
pub const HEAP_HEAD: usize = 64;

/// How many columns a row has at most.
pub const MOST_COLUMNS: usize = 65;

/// How many of a row's columns are of texts at most, where each text may be as long as the limit.
pub const MOST_TEXTS: usize = 64;

/// The heap number of a part that has no heap page.
pub const NO_HEAP: u32 = 4294967295;

/// The bytes of the longest text that lies in its cell.
pub const MOST_SHORT: usize = 12;
