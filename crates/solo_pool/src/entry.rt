//! What a pool keeps of its frames and of its sealed pages.

use evict_ring::Frame;
use page_body::{OpenPage, PageBody};
use row_image::ImageKind;
use std::snapshot::Snapshot;

/// Where a frame is: with the pool, in an open page, or in the body of the page of a number.
#[derive(Drop)]
pub enum Place {
    Spare(Frame),
    Open,
    Owned(usize),
}

/// A sealed page: its kind and its body. Only contracts read the seal, which is the open page that was sealed.
#[derive(Drop)]
pub struct Entry {
    pub kind: ImageKind,
    pub body: PageBody,
    pub seal: Snapshot<OpenPage>,
}
