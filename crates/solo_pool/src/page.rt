//! Pages and pins of a pool for one thread.

use evict_ring::Frame;
use page_body::OpenPage;
use std::snapshot::Snapshot;

/// A sealed page of a `Solo`: the place of its entry. Only contracts read the seal, which is the open page that was sealed.
#[derive(Drop)]
pub struct SoloPage {
    pub at: usize,
    pub seal: Snapshot<OpenPage>,
}

/// A pin of a `Solo`. Only contracts read the page and the frame.
#[derive(Drop)]
pub struct SoloPin {
    pub at: usize,
    pub page: Snapshot<SoloPage>,
    pub frame: Snapshot<Frame>,
}
