//! What the core keeps.

use crate::image::Image;
use crate::readers::Readers;
use evict_ring::Turn;
use page_body::PageBody;
use row_image::ImageKind;

/// A frame's turn, at home or out with an actor.
#[derive(Drop)]
pub struct CoreTurn {
    pub out: Option<u32>,
    pub turn: Turn<u64>,
}

/// A page: its kind, its image as it was sealed, its body, the heap page of each part, who reads it, and at most one writer.
#[derive(Drop)]
pub struct CorePage {
    pub kind: ImageKind,
    pub sealed: Image,
    pub body: PageBody,
    pub heaps: [Option<u64>; 4],
    pub readers: Readers,
    pub writer: Option<u32>,
}

/// An actor has looked at a row page.
#[derive(Clone, Copy, Debug, PartialEq, Eq)]
pub struct Mark {
    pub actor: u32,
    pub page: u64,
}

/// The parts of the core's state.
#[derive(Drop)]
pub struct Parts {
    pub page: u32,
    pub actors: u32,
    pub hand: u64,
    pub turns: Vec<CoreTurn>,
    pub pages: Vec<CorePage>,
    pub marks: Vec<Mark>,
}
