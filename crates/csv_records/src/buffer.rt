//! The buffer in which a file's bytes lie while they are cut.
ghost use Rattle.std.specs.Prelude.{◌≡◌, ◌≤◌, vec_len};

/// Bytes of a file. Those before `at` are in records, those from there to `filled` aren't yet.
#[derive(Drop)]
pub struct Buffer {
    pub buffer: Vec<u8>,
    pub at: usize,
    pub filled: usize,
    /// Whether a byte order mark was looked for.
    pub begun: bool,
    /// How many more bytes may be taken of the file.
    pub allowed: u64,
    ghost range: { (at ≤ filled) × (filled ≤ vec_len buffer) × (3 ≤ vec_len buffer) },
}
