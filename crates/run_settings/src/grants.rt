//! How many frames each worker gets.
ghost use Rattle.std.specs.Prelude.{◌≡◌, ◌≤◌, ◌<◌, ◌*◌, ◌^◌, IfOk};
ghost use Rattle.run_settings.specs.Limits.{least_frames};
ghost use Rattle.run_settings.specs.Settings.{grants_of};

use mem_division::divide;
use std::alloc::{AllocError, Global};
use std::marker::Model;

/// A worker wants at least so many frames.
const LEAST: u32 = 24;

/// The frames of each worker, which contracts see as their list.
#[derive(Debug, Drop)]
pub struct Grants {
    list: Vec<u32>,
}

impl Model for Grants {
    ghost use Rattle.std.specs.Prelude.{List, ℕ};

    ghost Value = { List ℕ };

    ghost view = { λ g. g.list.items };
}

impl Grants {
    pub fn as_slice(&self) -> &[u32]
        ensures { result.now ≡ self.now }
    {
        self.list.as_slice()
    }
}

/// All frames, divided among the workers, each of which wants at least 24.
pub fn divide_frames(alloc: Global, workers: usize, frames: u32) -> Result<Grants, AllocError>
    requires least { least_frames ≤ frames }
    requires enough { least_frames * workers ≤ frames }
    ensures { IfOk result (λ grants. grants ≡ grants_of workers frames) }
{
    let wants = vec![in alloc; (LEAST, frames); workers]?;
    let mut list = vec![in alloc; 0; workers]?;
    divide(frames, wants.as_slice(), list.as_mut_slice());
    Ok(Grants { list })
}
