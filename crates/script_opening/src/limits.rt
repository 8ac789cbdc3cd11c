//! Limits of scripts.

/// The bytes of the longest script.
pub const MOST_SCRIPT: usize = 1_048_576;
