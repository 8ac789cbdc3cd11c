//! Files that give their bytes in pieces.
ghost use Rattle.std.specs.Prelude.{Some};
ghost use Rattle.ooc_io.specs.MemForms.{held_in};

use ooc_io::{Files, FilesFailed, MemFiles, OpenFault};
use ooc_types::OutOfMemory;
use std::alloc::Global;

/// Files in memory of which a read gives at most so many bytes, and one at least.
#[derive(Drop)]
pub struct PieceFiles {
    pub files: MemFiles,
    pub most: usize,
}

impl Files for PieceFiles {
    ghost holds = { λ f. Some (held_in f.files) };

    ghost is_open = { λ f. f.files.opened };

    ghost left = { λ f. Some f.files.left };

    ghost faults = { λ f. f.files.faults };

    fn open(&mut self, name: &str) -> Result<(), OpenFault> {
        self.files.open(name)
    }

    fn read(&mut self, piece: &mut [u8]) -> Result<usize, FilesFailed> {
        let count = piece.len().min(self.most.max(1));
        self.files.read(&mut piece[..count])
    }
}

/// A file in memory. `failing` has the numbers, from 1, of the calls that are to fail.
pub fn one_file(
    alloc: Global,
    name: &str,
    bytes: &[u8],
    failing: &[u64],
) -> Result<MemFiles, OutOfMemory> {
    let mut named = Vec::new(alloc);
    named.push((
        String::from_str(alloc, name)?,
        Vec::from_slice(alloc, bytes)?,
    ))?;
    Ok(MemFiles::new_files(named, Vec::from_slice(alloc, failing)?))
}
