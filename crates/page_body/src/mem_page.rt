//! Pages and pins of a pool in memory.
ghost use Rattle.std.specs.Prelude.{◌≡◌};

use crate::open::OpenPage;
use evict_ring::Frame;
use std::snapshot::Snapshot;

/// A sealed page of a `MemPages`. Only contracts read the seal, which is the open page that was sealed.
#[derive(Drop)]
pub struct MemPage {
    pub at: u32,
    pub seal: Snapshot<OpenPage>,
}

/// A pin of a `MemPages`. Only contracts read the page and the frame.
#[derive(Drop)]
pub struct MemPin {
    pub at: u32,
    pub page: Snapshot<MemPage>,
    pub frame: Snapshot<Frame>,
    ghost there: { page.value.at ≡ at },
}
