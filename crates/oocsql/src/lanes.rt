//! The lanes of a run, over files of the current folder.
ghost use Rattle.std.specs.Prelude.{◌≡◌, IfOk, vec_len};

use ooc_io::OutOfMemory;
use spill_file::{FileLane, FileStore, ImageStore, MOST_LANES};
use std::alloc::Global;

/// All lanes of a run. The file of a lane is made when its first page is written.
pub fn file_lanes<R: std::rt::Files>(
    rt: &R,
    alloc: Global,
) -> Result<Vec<FileLane<FileStore<'_, R>>>, OutOfMemory>
where
    R::File: std::os::unix::fs::FileExt,
    ensures { IfOk result (λ lanes. vec_len lanes ≡ 64) }
{
    let mut lanes = Vec::with_capacity(alloc, MOST_LANES as usize)?;
    for number in 0..MOST_LANES {
        lanes.push(FileLane::new_lane(alloc, FileStore::new_store(rt, number)))?;
    }
    Ok(lanes)
}

/// Removes the files that the lanes made.
pub fn remove_files<S: ImageStore>(lanes: &[FileLane<S>]) {
    for lane in lanes {
        lane.remove_file();
    }
}
