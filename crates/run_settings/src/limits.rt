//! The numbers of a command line: what stands where an option isn't given, and what is taken.

/// The threads where none are asked for.
pub const DEFAULT_THREADS: u64 = 4;

/// The bytes of all frames where none are asked for.
pub const DEFAULT_LIMIT: u64 = 268_435_456;

/// The bytes of a page where none are asked for.
pub const DEFAULT_PAGE: u64 = 262_144;

pub const MOST_THREADS: u64 = 64;

/// The frames that a worker needs.
pub const LEAST_FRAMES: u64 = 24;

pub const MOST_FRAMES: u64 = 16_777_216;

/// The digits of the longest number.
pub const MOST_DIGITS: usize = 20;
